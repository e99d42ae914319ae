ghost use Rattle.std.specs.Prelude.{◌≡◌, ◌+◌, ◌<◌, ◌≤◌, ◌^◌, IfOk, length, replicate, set, slice_index};
ghost use Rattle.std.specs.List.{All};
ghost use Rattle.rx_fields.specs.declared.limits.TheConstants.{MOST_CENTS};
ghost use Rattle.rx_ledger.specs.Ledger.{IsLedger};
ghost use Rattle.rx_ledger.specs.Sums.{paid_by_patient};
ghost use Rattle.rx_fields.specs.Order.{key_cmp};
ghost use Rattle.rx_sorted.specs.Ascending.{IsAscending};
ghost use Rattle.rx_books_store.specs.Parts.{AreAdded, MayBeAdded};
ghost use Rattle.rx_books_store.specs.Store.{AreFigures, IsSlot, slot_key, standing, standing_rows};

use crate::amounts::{add_all, add_at};
use crate::opening::Opening;
use crate::opening_sums::opening_sums;
use crate::slot::KeySlot;
use crate::standing::Standing;
use rx_fields::{Memory, Period};
use rx_ledger::{Counted, counted_in};
use rx_sorted::Ascending;
use std::alloc::Global;

/// A figure for each member, and two for each family, in cents.
#[derive(Drop)]
pub(crate) struct Figures {
    pub(crate) deductibles: Vec<u128>,
    pub(crate) out_of_pockets: Vec<u128>,
    pub(crate) family_deductibles: Vec<u128>,
}

impl Figures {
    /// Nothing is counted yet.
    pub(crate) fn zero(alloc: Global, members: usize, families: usize) -> Result<Figures, Memory>
        ensures members { IfOk result (λ f. f.deductibles.items ≡ replicate members 0) }
        ensures pockets { IfOk result (λ f. f.out_of_pockets.items ≡ replicate families 0) }
        ensures families { IfOk result (λ f. f.family_deductibles.items ≡ replicate families 0) }
    {
        let deductibles = vec![in alloc; 0u128; members]?;
        let out_of_pockets = vec![in alloc; 0u128; families]?;
        let family_deductibles = vec![in alloc; 0u128; families]?;
        Ok(Figures {
            deductibles,
            out_of_pockets,
            family_deductibles,
        })
    }

    /// Counts a row of the member and the family at these places.
    pub(crate) fn count(&mut self, member: usize, family: usize, counted: Counted)
        requires member { member < length self.old.deductibles.items }
        requires pocket { family < length self.old.out_of_pockets.items }
        requires family { family < length self.old.family_deductibles.items }
        requires member_room { slice_index self.old.deductibles.items member + counted.deductible < 2 ^ 128 }
        requires pocket_room { slice_index self.old.out_of_pockets.items family + counted.out_of_pocket < 2 ^ 128 }
        requires family_room { slice_index self.old.family_deductibles.items family + counted.deductible < 2 ^ 128 }
        ensures members { self.new.deductibles.items ≡ set self.old.deductibles.items member
            (slice_index self.old.deductibles.items member + counted.deductible) }
        ensures pockets { self.new.out_of_pockets.items ≡ set self.old.out_of_pockets.items family
            (slice_index self.old.out_of_pockets.items family + counted.out_of_pocket) }
        ensures families { self.new.family_deductibles.items ≡ set self.old.family_deductibles.items family
            (slice_index self.old.family_deductibles.items family + counted.deductible) }
    {
        add_at(&mut self.deductibles, member, counted.deductible);
        add_at(&mut self.out_of_pockets, family, counted.out_of_pocket);
        add_at(&mut self.family_deductibles, family, counted.deductible);
    }

    /// Adds the figures of other rows.
    pub(crate) fn add(&mut self, more: &Figures)
        requires members { MayBeAdded self.old.deductibles.items more.now.deductibles.items }
        requires pockets { MayBeAdded self.old.out_of_pockets.items more.now.out_of_pockets.items }
        requires families { MayBeAdded self.old.family_deductibles.items more.now.family_deductibles.items }
        ensures members { AreAdded self.old.deductibles.items more.now.deductibles.items self.new.deductibles.items }
        ensures pockets { AreAdded self.old.out_of_pockets.items more.now.out_of_pockets.items self.new.out_of_pockets.items }
        ensures families { AreAdded self.old.family_deductibles.items more.now.family_deductibles.items
            self.new.family_deductibles.items }
    {
        add_all(&mut self.deductibles, &more.deductibles);
        add_all(&mut self.out_of_pockets, &more.out_of_pockets);
        add_all(&mut self.family_deductibles, &more.family_deductibles);
    }
}

/// The figures of all members and families, added up over the rows that stand.
pub(crate) fn summed(
    alloc: Global,
    period: Period,
    opening: &Opening,
    slots: &Ascending<KeySlot>,
) -> Result<Figures, Memory>
    requires in_order { IsLedger (standing opening.now slots.now) }
    requires own { All (IsSlot opening.now.members) slots.now }
    requires few { length opening.now.rows + length slots.now < 2 ^ 64 }
    ensures figures { IfOk result (λ f. AreFigures period (standing opening.now slots.now) f.deductibles.items f.out_of_pockets.items
        f.family_deductibles.items) }
    ensures small { IfOk result (λ f. All (λ r. paid_by_patient r ≤ MOST_CENTS) (standing_rows opening.now.rows slots.now)) }
    ensures opened { IsLedger opening.now }
    ensures rise { IsAscending key_cmp slot_key slots.now }
{
    let members = opening.members().as_slice();
    let slots = slots.as_slice();
    if slots.is_empty() {
        return opening_sums(alloc, period, opening);
    }
    let mut figures = Figures::zero(alloc, members.len(), opening.families().len())?;
    let mut standing = Standing::of(opening, slots);
    'rows: while let Some((row, member)) = standing.next_row() {
        let counted = counted_in(period, row);
        figures.count(member, opening.home(member), counted);
    }
    Ok(figures)
}
