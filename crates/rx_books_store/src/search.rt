ghost use Rattle.std.specs.Prelude.{◌≡◌, ◌<◌, ◌≤◌, ◌^◌, ℕ, IfErr, IfOk, IsTrue, length, slice_index_or};
ghost use Rattle.std.specs.declared.cmp.Ordering.TheVariants.{Greater, Less};
ghost use Rattle.rx_fields.specs.Order.{key_cmp};
ghost use Rattle.rx_sorted.specs.Ascending.{IsAscending, IsAt, IsGap};
ghost use Rattle.rx_ledger.specs.declared.row.Row.{Row};
ghost use Rattle.rx_ledger.specs.Rows.{row_key};

use crate::slot::KeySlot;
use rx_fields::Key;
use rx_ledger::Row;
use rx_sorted::Runs;

/// About where the row with the key is, or where it would go: it is looked for from a place on, in steps that double, as
/// if all rows before had lesser keys. `len` is how many rows there are. It promises nothing: what is near is compared.
pub(crate) fn guess_from(rows: &Runs<Row>, len: usize, from: usize, key: &Key) -> usize {
    guess(len, from, |place| is_before(rows, place, key))
}

/// The same of the slot that has the key.
pub(crate) fn guess_slot(slots: &[KeySlot], from: usize, key: &Key) -> usize {
    guess(slots.len(), from, |place| is_slot_before(slots, place, key))
}

// About where the first of this many items is that doesn't come before a key, looked for from a place on.
fn guess<F: Fn(usize) -> bool>(len: usize, from: usize, is_before: F) -> usize
    requires { F.IsAlwaysCallable is_before }
{
    let mut low = from;
    let mut step = 1;
    'steps: while low.saturating_add(step - 1) < len && is_before(low.saturating_add(step - 1)) {
        low += step;
        step = step.saturating_mul(2);
    }
    let mut high = low.saturating_add(step - 1).min(len);
    'halves: while low < high {
        let middle = low + (high - low) / 2;
        if is_before(middle) {
            low = middle + 1;
        } else {
            high = middle;
        }
    }
    low
}

/// Where the row with the key is, or where it would go: at this place, or else it is searched for.
pub(crate) fn place_near(rows: &Runs<Row>, near: usize, key: &Key) -> Result<usize, usize>
    requires { IsAscending key_cmp row_key rows.now }
    ensures found { IfOk result (IsAt key_cmp row_key rows.now key.now) }
    ensures absent { IfErr result (IsGap key_cmp row_key rows.now key.now) }
{
    if is_at(rows, near, key) {
        return Ok(near);
    }
    if are_below(rows, near, key) && are_above(rows, near, key) {
        return Err(near);
    }
    rows.place(key)
}

// Whether there is a row at the place, with a lesser key.
fn is_before(rows: &Runs<Row>, place: usize, key: &Key) -> bool
    ensures within { IsTrue result → place < length rows.now }
    ensures less { IsTrue result → (d : Row) → key_cmp (row_key (slice_index_or rows.now place d)) key.now ≡ Less }
    ensures few { length rows.now < 2 ^ 63 }
{
    if place >= rows.len() {
        return false;
    }
    rows.at(place).key.cmp(key).is_lt()
}

// Whether there is a slot at the place, with a lesser key.
fn is_slot_before(slots: &[KeySlot], place: usize, key: &Key) -> bool {
    match slots.get(place) {
        Some(slot) => slot.key.cmp(key).is_lt(),
        None => false,
    }
}

// Whether the row at the place has the key.
fn is_at(rows: &Runs<Row>, place: usize, key: &Key) -> bool
    ensures { IsTrue result → IsAt key_cmp row_key rows.now key.now place }
{
    place < rows.len() && rows.at(place).key.cmp(key).is_eq()
}

// Whether there are this many rows, all with lesser keys: the last of them decides.
fn are_below(rows: &Runs<Row>, end: usize, key: &Key) -> bool
    requires { IsAscending key_cmp row_key rows.now }
    ensures within { IsTrue result → end ≤ length rows.now }
    ensures below { IsTrue result → (i : ℕ) → (d : Row) → i < end
        → key_cmp (row_key (slice_index_or rows.now i d)) key.now ≡ Less }
{
    if end == 0 {
        return true;
    }
    is_before(rows, end - 1, key)
}

// Whether all rows from a place on have greater keys: the first of them decides.
fn are_above(rows: &Runs<Row>, from: usize, key: &Key) -> bool
    requires { IsAscending key_cmp row_key rows.now }
    ensures { IsTrue result → (i : ℕ) → (d : Row) → from ≤ i → i < length rows.now
        → key_cmp (row_key (slice_index_or rows.now i d)) key.now ≡ Greater }
{
    if from >= rows.len() {
        return true;
    }
    rows.at(from).key.cmp(key).is_gt()
}
