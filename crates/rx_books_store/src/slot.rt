ghost use Rattle.std.specs.Prelude.{◌≡◌, ◌<◌, IsTrue, Some, length, slice_get};
ghost use Rattle.std.specs.Option.{option_copied, option_map};
ghost use Rattle.rx_fields.specs.Order.{key_cmp};
ghost use Rattle.rx_sorted.specs.Ascending.{IsAt};
ghost use Rattle.rx_books_store.specs.Store.{held, slot_key};

use rx_fields::Key;
use rx_ledger::Row;
use rx_sorted::{Ascending, Keyed};

/// What stands now under a fill key that has a slot: a row, with the place of its member, or none.
#[derive(Clone, Copy)]
pub(crate) struct KeySlot {
    pub(crate) key: Key,
    pub(crate) held: Option<Row>,
    pub(crate) holder: u32,
}

impl Keyed for KeySlot {
    type Key = Key;

    ghost key_of = { λ slot. slot.key };

    fn key(&self) -> Key {
        self.key
    }
}

/// The slot at a place.
pub(crate) fn slot_at(slots: &Ascending<KeySlot>, place: usize) -> KeySlot
    requires { place < length slots.now }
    ensures { slice_get slots.now place ≡ Some result }
{
    slots.as_slice()[place]
}

/// What the slot at a place holds.
pub(crate) fn held_at(slots: &Ascending<KeySlot>, place: usize) -> Option<&Row>
    requires { place < length slots.now }
    ensures { option_map held (slice_get slots.now place) ≡ Some (option_copied result) }
{
    slots.as_slice()[place].held.as_ref()
}

/// Whether the slot of the fill key is at the place.
pub(crate) fn is_slot_at(slots: &[KeySlot], place: usize, key: &Key) -> bool
    ensures { IsTrue result → IsAt key_cmp slot_key slots.now key.now place }
{
    match slots.get(place) {
        Some(slot) => slot.key.cmp(key).is_eq(),
        None => false,
    }
}
