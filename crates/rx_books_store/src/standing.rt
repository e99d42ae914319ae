ghost use Rattle.std.specs.Prelude.{◌≡◌, ◌<◌, ◌≤◌, ◌^◌, ◌∷◌, [], IfNone, IfSome, drop, is_some, length, nat_lt, slice_index_or};
ghost use Rattle.std.specs.List.{All};
ghost use Rattle.rx_fields.specs.Order.{key_cmp};
ghost use Rattle.rx_sorted.specs.Ascending.{IsAscending, IsAt};
ghost use Rattle.rx_ledger.specs.Members.{member_cmp, member_key};
ghost use Rattle.rx_ledger.specs.Rows.{member_of_row};
ghost use Rattle.rx_books_store.specs.Standing.{ArePassed, is_slot_next, past_key};
ghost use Rattle.rx_books_store.specs.Store.{IsSlot, slot_key, standing};

use crate::opening::Opening;
use crate::slot::KeySlot;
use rx_fields::Key;
use rx_ledger::Row;
use rx_sorted::Runs;
use std::marker::Model;

/// A pass over the rows that stand, in order. Contracts see the members, and the rows that are still to come.
#[derive(Drop)]
pub struct Standing<'a> {
    opening: &'a Opening,
    slots: &'a [KeySlot],
    // How many opening rows and slots were passed.
    row: usize,
    slot: usize,
}

impl<'a> Model for Standing<'a> {
    ghost use Rattle.rx_ledger.specs.Ledger.{Ledger};

    ghost Value = { Ledger };

    ghost use Rattle.rx_books_store.specs.Standing.{IsPass, still_to_come};

    ghost view = { λ s. record { members = s.opening.now.members; rows = still_to_come s.opening.now s.slots.now s.row s.slot } };

    ghost invariant = { λ s. IsPass s.opening.now s.slots.now s.row };
}

impl<'a> Standing<'a> {
    /// The pass over the rows that stand, before the first.
    pub(crate) fn of(opening: &'a Opening, slots: &'a [KeySlot]) -> Standing<'a>
        requires rise { IsAscending key_cmp slot_key slots.now }
        requires own { All (IsSlot opening.now.members) slots.now }
        ensures { result ≡ standing opening.now slots.now }
    {
        Standing {
            opening,
            slots,
            row: 0,
            slot: 0,
        }
    }

    /// Passes rows of members without a mark, by the members' places: those of the opening lists up to the next row of a
    /// member who has one. What slots hold isn't passed.
    pub fn pass_unmarked(&mut self, marks: &[bool])
        ensures { ArePassed marks.now self.old self.new }
    {
        self.row = self.opening.next_marked(self.row, marks);
    }

    /// The next row, with the place of its member; None where no row is left.
    pub fn next_row(&mut self) -> Option<(&'a Row, usize)>
        ensures none { IfNone result (self.old.rows ≡ []) }
        ensures row { IfSome result (λ r. self.old.rows ≡ r.0.now ∷ self.new.rows) }
        ensures holder { IfSome result (λ r. IsAt member_cmp member_key self.old.members (member_of_row r.0.now) r.1) }
        ensures members { self.new.members ≡ self.old.members }
    {
        let (rows, slots) = (self.opening.rows(), self.slots);
        'slots: while is_slot_next(rows, slots, self.row, self.slot) {
            let slot = &slots[self.slot];
            self.row = past_key(rows, self.row, &slot.key);
            self.slot += 1;
            match &slot.held {
                Some(row) => return Some((row, slot.holder as usize)),
                None => {}
            }
        }
        if self.row == rows.len() {
            return None;
        }
        let at = self.row;
        self.row += 1;
        Some((rows.at(at), self.opening.holder(at)))
    }
}

// Whether the slot comes before the row, or under the row's key.
fn is_slot_next(rows: &Runs<Row>, slots: &[KeySlot], row: usize, slot: usize) -> bool
    ensures { result ≡ is_slot_next (drop row rows.now) (drop slot slots.now) }
{
    let Some(slot) = slots.get(slot) else {
        return false;
    };
    match row_at(rows, row) {
        Some(row) => row.key >= slot.key,
        None => true,
    }
}

// The place after the row, where it has the key.
fn past_key(rows: &Runs<Row>, row: usize, key: &Key) -> usize
    requires { row ≤ length rows.now }
    ensures rest { drop result rows.now ≡ past_key key.now (drop row rows.now) }
    ensures within { result ≤ length rows.now }
{
    match row_at(rows, row) {
        Some(first) => {
            if first.key.cmp(key).is_eq() {
                row + 1
            } else {
                row
            }
        }
        None => row,
    }
}

// The row at a place.
fn row_at(rows: &Runs<Row>, place: usize) -> Option<&Row>
    ensures some { is_some result ≡ nat_lt place (length rows.now) }
    ensures row { IfSome result (λ row. row.now ≡ slice_index_or rows.now place row.now) }
    ensures few { length rows.now < 2 ^ 63 }
{
    if place < rows.len() {
        Some(rows.at(place))
    } else {
        None
    }
}
