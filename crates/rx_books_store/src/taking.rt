ghost use Rattle.std.specs.Prelude.{◌≡◌, IfOk, Some, false, slice_get};
ghost use Rattle.std.specs.List.{All, AllZip, Contains};
ghost use Rattle.rx_ledger.specs.Ledger.{is_taken, row_under};
ghost use Rattle.rx_books_store.specs.OpenBooks.{HasTaken, IsSlotOf, open_over, open_without};
ghost use Rattle.rx_books_store.specs.Store.{IsSlot};

use crate::open_books::OpenBooks;
use crate::search::guess_slot;
use crate::slot::{KeySlot, slot_at};
use crate::slots::fresh_slot;
use rx_fields::{Key, Memory};
use rx_sorted::place_near;
use std::alloc::Global;

// How many slots are looked at ahead.
const AHEAD: usize = 16;

impl OpenBooks {
    /// For each of these fill keys that has a slot, the slot's place. Keys that ascend are found in one pass.
    pub fn slots_of(&self, alloc: Global, keys: &[Key]) -> Result<Vec<usize>, Memory>
        ensures { IfOk result (λ slots. AllZip (IsSlotOf self.now) keys.now slots.items) }
    {
        let mut slots = Vec::with_capacity(alloc, keys.len())?;
        let mut near = 0;
        for key in keys {
            near = self.slot_guess(near, key);
            slots.push(self.slot_or(near, key))?;
        }
        Ok(slots)
    }

    // The place of a fill key's slot; the place where it is looked for first, if there is none.
    fn slot_or(&self, near: usize, key: &Key) -> usize
        ensures { IsSlotOf self.now key.now result }
    {
        match self.slot_near(near, key) {
            Some(slot) => slot,
            None => near,
        }
    }

    /// Takes over what stands under these fill keys in other books of the same members: the row there, or none. Each key
    /// has a slot here, which is looked for first at the place that `near` has for it; there it is looked for first at the
    /// key's own place among the keys. It takes no memory.
    pub fn take_over(&mut self, from: &OpenBooks, keys: &[Key], near: &[usize])
        requires members { from.now.books.ledger.members ≡ self.old.books.ledger.members }
        requires slots { All (Contains self.old.slots) keys.now }
        ensures { HasTaken self.old from.now.books.ledger keys.now self.new }
    {
        let mut looked = 0;
        for (at, key) in keys.iter().enumerate() {
            looked = self.looked_after(from, looked, at);
            let ours = near.get(at).copied().unwrap_or(at);
            self.take_slot(ours, from.slot_under(at, key));
        }
    }

    // About where the slot of a fill key is, looked for from a place on. It promises nothing.
    fn slot_guess(&self, from: usize, key: &Key) -> usize {
        guess_slot(self.changed.as_slice(), from, key)
    }

    // Up to which slot of other books the totals of the rows' members were looked at, where a slot is the next: some are looked
    // at from there on where none was yet. It promises nothing.
    fn looked_after(&self, from: &OpenBooks, looked: usize, next: usize) -> usize {
        if next < looked {
            return looked;
        }
        let mut at = next;
        for _ in 0..AHEAD {
            let Some(slot) = from.changed.as_slice().get(at) else {
                return at.saturating_add(1);
            };
            at = at.saturating_add(1);
            if slot.held.is_some() && !self.are_sums_seen(slot.holder as usize) {
                return at;
            }
        }
        at
    }

    // What stands under a fill key: its slot, which is looked for at `near`, or the one that would be opened for it.
    fn slot_under(&self, near: usize, key: &Key) -> KeySlot
        ensures key { result.key ≡ key.now }
        ensures own { IsSlot self.now.books.ledger.members result }
        ensures there { row_under self.now.books.ledger key.now ≡ result.held }
    {
        match place_near(self.changed.as_slice(), near, key) {
            Ok(slot) => slot_at(&self.changed, slot),
            Err(_) => fresh_slot(&self.opening, 0, key),
        }
    }

    // Writes what a slot of other books holds into the slot of its fill key, which is looked for at `near`.
    fn take_slot(&mut self, near: usize, theirs: KeySlot)
        requires own { IsSlot self.old.books.ledger.members theirs }
        requires slot { Contains self.old.slots theirs.key }
        ensures { self.new ≡ open_over self.old theirs }
    {
        match place_near(self.changed.as_slice(), near, &theirs.key) {
            Ok(slot) => self.write_slot(slot, theirs),
            Err(_) => unreachable!(),
        }
    }

    // Writes what a slot of other books holds into this slot, unless it holds the same.
    fn write_slot(&mut self, slot: usize, theirs: KeySlot)
        requires own { IsSlot self.old.books.ledger.members theirs }
        requires slot { slice_get self.old.slots slot ≡ Some theirs.key }
        ensures { self.new ≡ open_over self.old theirs }
    {
        if slot_at(&self.changed, slot).held != theirs.held {
            self.clear_slot(slot, &theirs.key);
            self.fill_slot(slot, theirs);
        }
    }

    /// Takes out the row under a slot's fill key, if there is one. It takes no memory.
    pub fn clear_slot(&mut self, slot: usize, key: &Key)
        requires { slice_get self.old.slots slot ≡ Some key.now }
        ensures { self.new ≡ open_without self.old key.now }
    {
        if self.row_at(slot).is_some() {
            self.remove(slot);
        }
    }

    // Adds the row that a slot of other books holds, if there is one, under its fill key, which is free.
    fn fill_slot(&mut self, slot: usize, theirs: KeySlot)
        requires own { IsSlot self.old.books.ledger.members theirs }
        requires slot { slice_get self.old.slots slot ≡ Some theirs.key }
        requires free { is_taken self.old.books.ledger theirs.key ≡ false }
        ensures { self.new ≡ open_over self.old theirs }
    {
        let held = theirs.held;
        if let Some(row) = held {
            let member = theirs.holder as usize;
            self.add(slot, self.home_of(member), member, row);
        }
    }
}
