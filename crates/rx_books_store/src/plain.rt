ghost use Rattle.std.specs.Prelude.{◌≡◌, ◌+◌, ◌<◌, ◌^◌, ◌↔◌, [], IfOk, IsTrue, length};
ghost use Rattle.std.specs.List.{All, list_all};
ghost use Rattle.std.specs.Option.{option_copied};
ghost use Rattle.rx_fields.specs.Order.{id_cmp};
ghost use Rattle.rx_sorted.specs.Ascending.{IsAscending};
ghost use Rattle.rx_ledger.specs.Ledger.{IsLedger, row_under};
ghost use Rattle.rx_books_text.specs.Printed.{total_family};
ghost use Rattle.rx_books_store.specs.BooksText.{families_of};
ghost use Rattle.rx_books_store.specs.Figures.{has_total};
ghost use Rattle.rx_books_store.specs.Store.{IsSlot, IsStore, slot_keys, standing};

use crate::figures::has_total;
use crate::hints::Places;
use crate::holders::{holders_of, one_run};
use crate::open_books::OpenBooks;
use crate::opening::{FamilyName, Opening};
use crate::opening_sums::opening_sums_in_parts;
use crate::slot::KeySlot;
use crate::standing::Standing;
use crate::sums::{Figures, summed};
use rx_books_text::TotalLine;
use rx_fields::{Key, Memory, Period};
use rx_ledger::{Ledger, Member, Row};
use rx_sorted::Ascending;
use std::alloc::Global;
use std::thread::Threads;

impl OpenBooks {
    /// The books of a ledger, each total summed once over the rows of the period.
    pub(crate) fn from_ledger(
        alloc: Global,
        ledger: &Ledger,
        period: Period,
    ) -> Result<OpenBooks, Memory>
        ensures { IfOk result (λ b. b.books ≡ record { period = period; ledger = ledger.now }) }
    {
        let (members, rows) = ledger.copy(alloc)?.into_lists();
        let rows = one_run(alloc, rows)?;
        let places = Places::of(alloc, members.as_slice()).ok_or(Memory)?;
        let holders = holders_of(alloc, &places, &members, &rows).ok_or(Memory)?;
        let opening = Opening::of(alloc, members, rows, holders, places)?;
        OpenBooks::added_up(alloc, period, opening, Ascending::new(alloc))
    }

    /// The books of what stands, their figures added up.
    pub(crate) fn added_up(
        alloc: Global,
        period: Period,
        opening: Opening,
        changed: Ascending<KeySlot>,
    ) -> Result<OpenBooks, Memory>
        requires in_order { IsLedger (standing opening changed) }
        requires own { All (IsSlot opening.members) changed }
        requires few { length opening.rows + length changed < 2 ^ 64 }
        ensures books { IfOk result (λ b. b.books ≡ record { period = period; ledger = standing opening changed }) }
        ensures slots { IfOk result (λ b. b.slots ≡ slot_keys changed) }
    {
        let figures = summed(alloc, period, &opening, &changed)?;
        Ok(OpenBooks::with_figures(period, opening, changed, figures))
    }

    /// The books of the opening lists, with no slot, the rows of each run added up by a thread of its own.
    pub(crate) fn added_up_in_parts<R: Threads + Sync>(
        rt: &R,
        alloc: Global,
        period: Period,
        opening: Opening,
    ) -> Result<OpenBooks, Memory>
        ensures books { IfOk result (λ b. b.books ≡ record { period = period; ledger = opening }) }
        ensures slots { IfOk result (λ b. b.slots ≡ []) }
    {
        let figures = opening_sums_in_parts(rt, alloc, period, &opening)?;
        Ok(OpenBooks::with_figures(period, opening, Ascending::new(alloc), figures))
    }

    // The books of what stands, with these figures.
    fn with_figures(
        period: Period,
        opening: Opening,
        changed: Ascending<KeySlot>,
        figures: Figures,
    ) -> OpenBooks
        requires figures { IsStore period opening changed figures.deductibles.items figures.out_of_pockets.items
            figures.family_deductibles.items }
        ensures { result ≡ record { books = record { period = period; ledger = standing opening changed }; slots = slot_keys changed } }
    {
        let Figures {
            deductibles,
            out_of_pockets,
            family_deductibles,
        } = figures;
        OpenBooks {
            period,
            opening,
            changed,
            deductibles,
            out_of_pockets,
            family_deductibles,
        }
    }

    /// The same books, with the totals of this period.
    pub(crate) fn copy(&self, alloc: Global, period: Period) -> Result<OpenBooks, Memory>
        ensures { IfOk result (λ b. b.books ≡ record { period = period; ledger = self.now.books.ledger }) }
    {
        let opening = self.opening.share()?;
        let changed = self.changed.to_copy(alloc)?;
        if period == self.period {
            let deductibles = Vec::from_slice(alloc, &self.deductibles)?;
            let out_of_pockets = Vec::from_slice(alloc, &self.out_of_pockets)?;
            let family_deductibles = Vec::from_slice(alloc, &self.family_deductibles)?;
            return Ok(OpenBooks {
                period: self.period,
                opening,
                changed,
                deductibles,
                out_of_pockets,
                family_deductibles,
            });
        }
        OpenBooks::added_up(alloc, period, opening, changed)
    }

    /// These books, with the totals of this period.
    pub(crate) fn with_period(mut self, alloc: Global, period: Period) -> Result<OpenBooks, Memory>
        ensures { IfOk result (λ b. b.books ≡ record { period = period; ledger = self.books.ledger }) }
    {
        if period == self.period {
            return Ok(self);
        }
        let Figures {
            deductibles,
            out_of_pockets,
            family_deductibles,
        } = summed(alloc, period, &self.opening, &self.changed)?;
        self.period = period;
        self.deductibles = deductibles;
        self.out_of_pockets = out_of_pockets;
        self.family_deductibles = family_deductibles;
        Ok(self)
    }

    /// The same claims, of these members; each claim's is one of them, and no slot is open.
    pub(crate) fn with_members(
        &self,
        alloc: Global,
        members: Ascending<Member>,
    ) -> Result<OpenBooks, Memory>
        requires { self.now.slots ≡ [] }
        ensures { IfOk result (λ b. b.books ≡ record {
          period = self.now.books.period;
          ledger = record { members = members; rows = self.now.books.ledger.rows };
        }) }
    {
        let opening = self.opening.with_members(alloc, members)?;
        OpenBooks::added_up(alloc, self.period, opening, Ascending::new(alloc))
    }

    /// Whether no fill key has a slot.
    pub(crate) fn has_no_slot(&self) -> bool
        ensures { IsTrue result → self.now.slots ≡ [] }
    {
        self.changed.as_slice().is_empty()
    }

    /// How many claims stand.
    pub fn claims(&self) -> usize
        ensures value { result ≡ length self.now.books.ledger.rows }
        ensures within { IsLedger self.now.books.ledger }
    {
        if self.has_no_slot() {
            return self.opening.rows().len();
        }
        let mut count = 0;
        let mut standing = self.standing();
        'claims: while let Some(_) = standing.next_row() {
            count += 1;
        }
        count
    }

    /// The row under a fill key.
    pub fn row(&self, key: &Key) -> Option<&Row>
        ensures { option_copied result ≡ row_under self.now.books.ledger key.now }
    {
        match self.changed.get(key) {
            Some(slot) => match &slot.held {
                Some(row) => Some(row),
                None => None,
            },
            None => self.opening.rows().get(key),
        }
    }

    /// The plain ledger: all members and rows.
    pub(crate) fn ledger(&self, alloc: Global) -> Result<Ledger, Memory>
        ensures { IfOk result (λ ledger. ledger ≡ self.now.books.ledger) }
    {
        let members = self.opening.members().to_copy(alloc)?;
        let rows = self.rows(alloc)?;
        Ok(Ledger::from_lists(members, rows))
    }

    /// The rows that stand.
    pub(crate) fn rows(&self, alloc: Global) -> Result<Ascending<Row>, Memory>
        ensures value { IfOk result (λ rows. rows ≡ self.now.books.ledger.rows) }
        ensures within { IsLedger self.now.books.ledger }
    {
        let mut rows = Vec::new(alloc);
        let mut standing = Standing::of(&self.opening, self.changed.as_slice());
        'rows: while let Some((row, _)) = standing.next_row() {
            rows.push(*row)?;
        }
        match Ascending::from_vec(rows) {
            Ok(rows) => Ok(rows),
            Err(_) => unreachable!(),
        }
    }

    /// Whether these are the same books.
    pub(crate) fn is_same(&self, other: &OpenBooks) -> bool
        ensures { IsTrue result ↔ (self.now.books ≡ other.now.books) }
    {
        self.period == other.period
            && self.opening.members() == other.opening.members()
            && self.has_rows_of(other)
    }

    // Whether the same rows stand.
    fn has_rows_of(&self, other: &OpenBooks) -> bool
        ensures { IsTrue result ↔ (self.now.books.ledger.rows ≡ other.now.books.ledger.rows) }
    {
        let (mut ours, mut theirs) = (self.standing(), other.standing());
        'rows: while let Some((row, _)) = ours.next_row() {
            match theirs.next_row() {
                Some((other, _)) => {
                    if row != other {
                        return false;
                    }
                }
                None => return false,
            }
        }
        theirs.next_row().is_none()
    }

    /// Whether each family has its total line among these, which ascend.
    pub(crate) fn all_have_totals(&self, totals: &[TotalLine]) -> bool
        requires { IsAscending id_cmp total_family totals.now }
        ensures { result ≡ list_all (has_total totals.now) (families_of self.now.books.ledger.members) }
    {
        have_totals(self.opening.families(), totals)
    }
}

// Whether each of these families has its total line.
fn have_totals(families: &[FamilyName], totals: &[TotalLine]) -> bool
    requires { IsAscending id_cmp total_family totals.now }
    ensures { result ≡ list_all (λ n. has_total totals.now n.family) families.now }
{
    families.iter().all(|name| has_total(totals, &name.family))
}
