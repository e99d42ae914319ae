ghost use Rattle.std.specs.Prelude.{◌≡◌, ◌+◌, ◌<◌, ◌≤◌, ◌^◌, ◌∷◌, [], IfNone, IfOk, IfSome, drop, length};
ghost use Rattle.std.specs.List.{All};
ghost use Rattle.rx_fields.specs.Order.{key_cmp};
ghost use Rattle.rx_sorted.specs.Ascending.{IsAscending, put_all};
ghost use Rattle.rx_ledger.specs.Ledger.{row_under};
ghost use Rattle.rx_books_store.specs.Store.{IsSlot, slot_key, slot_keys};

use crate::opening::Opening;
use crate::search::{guess_from, place_near};
use crate::slot::KeySlot;
use rx_fields::{Key, Memory};
use rx_sorted::Ascending;
use std::alloc::Global;
use std::cmp::Ordering;

/// A slot for each of these fill keys, with the row of the opening lists that stands under it, or none. Each is looked for
/// from the one before on, so that keys that ascend are found in one pass.
pub(crate) fn fresh_slots(
    alloc: Global,
    opening: &Opening,
    keys: &[Key],
) -> Result<Vec<KeySlot>, Memory>
    ensures keys { IfOk result (λ slots. slot_keys slots.items ≡ keys.now) }
    ensures own { IfOk result (λ slots. All (IsSlot opening.now.members) slots.items) }
    ensures there { IfOk result (λ slots. All (λ s. row_under opening.now s.key ≡ s.held) slots.items) }
    ensures few { IfOk result (λ _. length opening.now.rows < 2 ^ 63) }
{
    let mut slots = Vec::with_capacity(alloc, keys.len())?;
    let rows = opening.rows();
    let len = rows.len();
    let mut near = 0;
    for key in keys {
        near = guess_from(rows, len, near, key);
        let KeySlot { key, held, holder } = fresh_slot(opening, near, key);
        slots.push(KeySlot { key, held, holder })?;
    }
    Ok(slots)
}

/// The slot of a fill key, with the row of the opening lists, which is near a place or else searched for.
pub(crate) fn fresh_slot(opening: &Opening, near: usize, key: &Key) -> KeySlot
    ensures key { result.key ≡ key.now }
    ensures own { IsSlot opening.now.members result }
    ensures there { row_under opening.now key.now ≡ result.held }
{
    match place_near(opening.rows(), near, key) {
        Ok(at) => KeySlot {
            key: *key,
            held: Some(*opening.rows().at(at)),
            holder: opening.kept_place(opening.holder(at)),
        },
        Err(_) => KeySlot {
            key: *key,
            held: None,
            holder: 0,
        },
    }
}

/// The slots of two lists, in order; where both have a fill key, the one of `over`.
pub(crate) fn merged(
    alloc: Global,
    under: Vec<KeySlot>,
    over: &[KeySlot],
) -> Result<Ascending<KeySlot>, Memory>
    requires under { IsAscending key_cmp slot_key under.items }
    requires over { IsAscending key_cmp slot_key over.now }
    ensures slots { IfOk result (λ slots. slots ≡ put_all key_cmp slot_key under.items over.now) }
    ensures few { IfOk result (λ slots. length slots < 2 ^ 63) }
{
    if over.is_empty() {
        return match Ascending::from_vec(under) {
            Ok(slots) => Ok(slots),
            Err(_) => unreachable!(),
        };
    }
    merged_lists(alloc, &under, over)
}

// The same, where both lists have slots.
fn merged_lists(
    alloc: Global,
    under: &[KeySlot],
    over: &[KeySlot],
) -> Result<Ascending<KeySlot>, Memory>
    requires under { IsAscending key_cmp slot_key under.now }
    requires over { IsAscending key_cmp slot_key over.now }
    ensures slots { IfOk result (λ slots. slots ≡ put_all key_cmp slot_key under.now over.now) }
    ensures few { IfOk result (λ slots. length slots < 2 ^ 63) }
{
    let mut slots = Vec::with_capacity(alloc, under.len().saturating_add(over.len()))?;
    let (mut low, mut high) = (0, 0);
    'slots: while let Some(next) = next_slot(under, over, low, high) {
        slots.push(next.slot)?;
        low = next.low;
        high = next.high;
    }
    match Ascending::from_vec(slots) {
        Ok(slots) => Ok(slots),
        Err(_) => unreachable!(),
    }
}

// The next slot of two lists, and how many of each are passed with it.
#[derive(Clone, Copy)]
struct Next {
    slot: KeySlot,
    low: usize,
    high: usize,
}

// The next slot after this many of each list.
fn next_slot(under: &[KeySlot], over: &[KeySlot], low: usize, high: usize) -> Option<Next>
    requires under { IsAscending key_cmp slot_key under.now }
    requires over { IsAscending key_cmp slot_key over.now }
    requires low { low ≤ length under.now }
    requires high { high ≤ length over.now }
    ensures none { IfNone result (put_all key_cmp slot_key (drop low under.now) (drop high over.now) ≡ []) }
    ensures next { IfSome result (λ n. put_all key_cmp slot_key (drop low under.now) (drop high over.now)
        ≡ n.slot ∷ put_all key_cmp slot_key (drop n.low under.now) (drop n.high over.now)) }
    ensures low { IfSome result (λ n. n.low ≤ length under.now) }
    ensures high { IfSome result (λ n. n.high ≤ length over.now) }
    ensures more { IfSome result (λ n. low + high < n.low + n.high) }
{
    match (under.get(low), over.get(high)) {
        (None, None) => None,
        (Some(slot), None) => Some(Next {
            slot: *slot,
            low: low + 1,
            high,
        }),
        (None, Some(slot)) => Some(Next {
            slot: *slot,
            low,
            high: high + 1,
        }),
        (Some(first), Some(second)) => match first.key.cmp(&second.key) {
            Ordering::Less => Some(Next {
                slot: *first,
                low: low + 1,
                high,
            }),
            Ordering::Equal => Some(Next {
                slot: *second,
                low: low + 1,
                high: high + 1,
            }),
            Ordering::Greater => Some(Next {
                slot: *second,
                low,
                high: high + 1,
            }),
        },
    }
}
