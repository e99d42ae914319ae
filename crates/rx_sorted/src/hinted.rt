ghost use Rattle.std.specs.Prelude.{◌≡◌, IfErr, IfOk};
ghost use Rattle.std.specs.Option.{option_copied};
ghost use Rattle.rx_sorted.specs.Ascending.{IsAscending, IsAt, IsGap, contains_key, item_at};

use crate::list::Ascending;
use crate::near::is_at;
use crate::slices::{Keyed, place_of};
use std::alloc::{AllocError, Global};
use std::marker::Model;

// How many places an item is looked for at, before the list is searched.
const TRIES: u64 = 8;

// A hint at no item.
const EMPTY: u64 = u64::MAX;

// The bits of the lower half of a number.
const LOWER: u64 = 0xffff_ffff;

// What a hash begins with, and 2^64 divided by the golden ratio, which spreads its bits.
const BASIS: u64 = 0xcbf2_9ce4_8422_2325;

const GOLDEN: u64 = 0x9e37_79b9_7f4a_7c15;

/// An item with a hash of its key.
pub trait Hashed: Keyed {
    /// A hash of the key, the same for equal keys. Nothing rests on it but speed.
    fn hash_of(key: &Self::Key) -> u64;
}

/// A list in the ascending order of its items' keys, at most one item of a key, whose items are found by a hash of their
/// keys. Contracts see the list: of the hints nothing is promised, for the item found is compared, and one that isn't
/// found is searched for.
#[derive(Drop)]
pub struct Hinted<T: Hashed> {
    pub(crate) items: Vec<T>,
    // Where items probably are, by the upper halves of the hashes of their keys: each place below the lower half, so that
    // hardly any item is looked at but the one that is looked for.
    hints: Vec<u64>,
}

impl<T: Hashed> Model for Hinted<T> {
    ghost use Rattle.std.specs.Prelude.{List};
    ghost use Rattle.rx_sorted.specs.Ascending.{IsAscending};

    ghost Value = { List T };

    ghost view = { λ h. h.items.items };

    ghost invariant = { λ h. IsAscending T.Key.cmp T.key_of h.items.items };
}

impl<T: Hashed> Hinted<T> {
    /// The same list, with hints. On a refusal the list is dropped.
    pub fn of(alloc: Global, items: Ascending<T>) -> Result<Hinted<T>, AllocError>
    where
        T: Drop,
        ensures { IfOk result (λ list. list ≡ items) }
    {
        let hints = hints_of(alloc, items.as_slice())?;
        let items = items.into_vec();
        Ok(Hinted { items, hints })
    }

    /// All items, in order.
    pub fn as_slice(&self) -> &[T]
        ensures value { result.now ≡ self.now }
        ensures ascending { IsAscending T.Key.cmp T.key_of self.now }
    {
        self.items.as_slice()
    }

    /// Where the item with the key is, or where it would go.
    pub fn place(&self, key: &T::Key) -> Result<usize, usize>
        ensures found { IfOk result (IsAt T.Key.cmp T.key_of self.now key.now) }
        ensures absent { IfErr result (IsGap T.Key.cmp T.key_of self.now key.now) }
    {
        let hash = T::hash_of(key);
        for step in 0..TRIES {
            let at = nth_try(self.hints.len(), hash, step);
            let hint = self.hints.get(at).copied().unwrap_or(EMPTY);
            let place = (hint & LOWER) as usize;
            if hint >> 32 == hash & LOWER && is_at(&self.items, place, key) {
                return Ok(place);
            }
        }
        place_of(&self.items, key)
    }

    /// Where the item with the key is, or where it would go. It is looked for at the place `near` first.
    pub(crate) fn place_from(&self, near: usize, key: &T::Key) -> Result<usize, usize>
        ensures found { IfOk result (IsAt T.Key.cmp T.key_of self.now key.now) }
        ensures absent { IfErr result (IsGap T.Key.cmp T.key_of self.now key.now) }
    {
        if is_at(&self.items, near, key) {
            return Ok(near);
        }
        self.place(key)
    }

    /// The item that has the key.
    pub fn get(&self, key: &T::Key) -> Option<&T>
        ensures { option_copied result ≡ item_at T.Key.cmp T.key_of self.now key.now }
    {
        match self.place(key) {
            Ok(at) => Some(&self.as_slice()[at]),
            Err(_) => None,
        }
    }

    /// Whether an item has the key.
    pub fn contains_key(&self, key: &T::Key) -> bool
        ensures { result ≡ contains_key T.Key.cmp T.key_of self.now key.now }
    {
        self.place(key).is_ok()
    }
}

// Where these items are, by the hashes of their keys; two places for each.
fn hints_of<T: Hashed>(alloc: Global, items: &[T]) -> Result<Vec<u64>, AllocError> {
    let mut hints = vec![in alloc; EMPTY; items.len().saturating_mul(2)]?;
    for (place, item) in items.iter().enumerate() {
        put_hint(&mut hints, T::hash_of(&item.key()), place as u64);
    }
    Ok(hints)
}

// Writes the place where it is looked for first, of those that are free; it isn't written where none is.
fn put_hint(hints: &mut Vec<u64>, hash: u64, place: u64) {
    for step in 0..TRIES {
        let at = nth_try(hints.len(), hash, step);
        if let Some(free) = hints.get_mut(at)
            && *free == EMPTY
        {
            *free = (hash << 32) | (place & LOWER);
            return;
        }
    }
}

// Where the place under a hash is looked for, in a table of this length: one after another from where its upper half
// stands among all halves.
fn nth_try(len: usize, hash: u64, step: u64) -> usize {
    let first = (hash >> 32).wrapping_mul(len as u64) >> 32;
    let at = first.wrapping_add(step) as usize;
    if at < len { at } else { at.wrapping_sub(len) }
}

/// A hash of a text, for `Hashed`: eight bytes at once.
pub fn hash_of_text(text: &[u8]) -> u64 {
    let mut hash = BASIS;
    let mut rest = text;
    'words: while let Some((word, others)) = rest.split_first_chunk::<8>() {
        hash = mixed(hash, u64::from_le_bytes(*word));
        rest = others;
    }
    let mut last: u64 = 0;
    for byte in rest {
        last = last.wrapping_mul(256).wrapping_add(u64::from(*byte));
    }
    mixed(hash, last)
}

/// The hash with one more number mixed in.
pub fn mixed(hash: u64, number: u64) -> u64 {
    let spread = (hash ^ number).wrapping_mul(GOLDEN);
    spread ^ (spread >> 32)
}
