ghost use Rattle.std.specs.Prelude.{◌≡◌, ◌<◌, ◌^◌, IfSome, IsTrue, is_some, length};
ghost use Rattle.rx_sorted.specs.Ascending.{IsAt, contains_key};
ghost use Rattle.rx_ledger.specs.Members.{member_cmp, member_key};

use rx_ledger::{Member, MemberKey, Row};
use rx_sorted::Ascending;
use std::alloc::Global;

// How many places a member is looked for at, before the members are searched.
const TRIES: u64 = 8;

/// How many rows' members are looked up ahead.
pub(crate) const AHEAD: usize = 32;

// A place at which no member is.
const EMPTY: u32 = u32::MAX;

// A word by which each bit of another moves many of a product's: 2^64 over the golden ratio, made odd.
const GOLDEN: u64 = 0x9e37_79b9_7f4a_7c15;

/// Where members probably are, by a hash of their keys. It promises nothing: the member found is compared, and one that
/// isn't found is searched for.
#[derive(Drop)]
pub(crate) struct Places {
    // As many as a power of two, twice the members at least.
    places: Vec<u32>,
}

impl Places {
    /// The places of these members. None where there are 2^32 of them, or where memory runs out.
    pub(crate) fn of(alloc: Global, members: &[Member]) -> Option<Places>
        ensures { IfSome result (λ places. length members.now < 2 ^ 32) }
    {
        if members.len() >= 1 << 32 {
            return None;
        }
        let len = members.len().saturating_mul(2).checked_next_power_of_two()?;
        let mut places = vec![in alloc; EMPTY; len].ok()?;
        for (place, member) in members.iter().enumerate() {
            let place = u32::try_from(place).ok()?;
            put_place(&mut places, hash_of(&member.key), place);
        }
        Some(Places { places })
    }

    /// The place of a listed member.
    pub(crate) fn place_of(&self, members: &Ascending<Member>, key: &MemberKey) -> Option<usize>
        ensures found { IfSome result (IsAt member_cmp member_key members.now key.now) }
        ensures listed { is_some result ≡ contains_key member_cmp member_key members.now key.now }
    {
        match self.place_hashed(members.as_slice(), key) {
            Some(place) => Some(place),
            None => match members.place(key) {
                Ok(place) => Some(place),
                Err(_) => None,
            },
        }
    }

    /// The same, as it is kept for a row.
    pub(crate) fn kept_place_of(&self, members: &Ascending<Member>, key: &MemberKey) -> Option<u32>
        ensures { IfSome result (IsAt member_cmp member_key members.now key.now) }
    {
        let place = self.place_of(members, key)?;
        u32::try_from(place).ok()
    }

    /// The same, where a place is looked at before the others.
    pub(crate) fn place_near(
        &self,
        members: &Ascending<Member>,
        near: u32,
        key: &MemberKey,
    ) -> Option<u32>
        ensures { IfSome result (IsAt member_cmp member_key members.now key.now) }
    {
        if is_at(members.as_slice(), near as usize, key) {
            return Some(near);
        }
        self.kept_place_of(members, key)
    }

    /// Where the members of the first of these rows probably are. No guess hangs on another, nor on what is found at another's
    /// place, so the processor waits for many of them at once.
    pub(crate) fn guesses(&self, members: &[Member], rows: &[Row]) -> [u32; AHEAD] {
        let mut guesses = [EMPTY; AHEAD];
        for (guess, row) in guesses.iter_mut().zip(rows) {
            let at = nth_try(self.places.len(), hash_of(&row.member()), 0);
            *guess = self.places.get(at).copied().unwrap_or(EMPTY);
        }
        for (guess, row) in guesses.iter_mut().zip(rows) {
            if !may_be_at(members, *guess as usize, row) {
                *guess = EMPTY;
            }
        }
        guesses
    }

    /// Looks where a member is first looked for, by which the processor has it near; true only where there are members.
    pub(crate) fn is_seen(&self, members: &[Member], key: &MemberKey) -> bool
        ensures { IsTrue result → 0 < length members.now }
    {
        let at = nth_try(self.places.len(), hash_of(key), 0);
        let place = self.places.get(at).copied().unwrap_or(EMPTY);
        let Some(member) = members.get(place as usize) else {
            return false;
        };
        !member.key.family.bytes().is_empty()
    }

    // The place of a member, where it is at one of those that its hash gives.
    fn place_hashed(&self, members: &[Member], key: &MemberKey) -> Option<usize>
        ensures { IfSome result (IsAt member_cmp member_key members.now key.now) }
    {
        let hash = hash_of(key);
        for step in 0..TRIES {
            let at = nth_try(self.places.len(), hash, step);
            let place = self.places.get(at).copied().unwrap_or(EMPTY) as usize;
            if is_at(members, place, key) {
                return Some(place);
            }
        }
        None
    }
}

// Writes the place where it is looked for first, of those that are free; it isn't written where none is.
fn put_place(places: &mut Vec<u32>, hash: u64, place: u32) {
    for step in 0..TRIES {
        let at = nth_try(places.len(), hash, step);
        if let Some(free) = places.get_mut(at)
            && *free == EMPTY
        {
            *free = place;
            return;
        }
    }
}

// Where the place under a hash is looked for, in a table of this length, which is a power of two.
fn nth_try(len: usize, hash: u64, step: u64) -> usize {
    let mask = (len as u64).wrapping_sub(1);
    (hash.wrapping_add(step) & mask) as usize
}

// A hash of the key's bytes.
fn hash_of(key: &MemberKey) -> u64 {
    let hash = hashed(0, key.family.bytes());
    hashed(hash, key.person.bytes())
}

// The hash with these bytes too, eight at once.
fn hashed(hash: u64, bytes: &[u8]) -> u64 {
    let mut hash = hash;
    let mut rest = bytes;
    'words: while let Some((word, others)) = rest.split_first_chunk::<8>() {
        hash = mixed(hash ^ u64::from_be_bytes(*word));
        rest = others;
    }
    let mut last = 0u64;
    for byte in rest {
        last = last.wrapping_mul(256) | u64::from(*byte);
    }
    mixed(hash ^ last)
}

// A word each bit of which hangs on many of this one's.
fn mixed(word: u64) -> u64 {
    let product = word.wrapping_add(1).wrapping_mul(GOLDEN);
    product ^ (product >> 32)
}

// Whether the member at the place may be the row's: a look that brings the member into the cache.
fn may_be_at(members: &[Member], place: usize, row: &Row) -> bool {
    match members.get(place) {
        Some(member) => member.key.family.bytes().len() == row.family.bytes().len(),
        None => false,
    }
}

// Whether the member at the place has the key.
fn is_at(members: &[Member], place: usize, key: &MemberKey) -> bool
    ensures { IsTrue result → IsAt member_cmp member_key members.now key.now place }
{
    match members.get(place) {
        Some(member) => member.key.cmp(key).is_eq(),
        None => false,
    }
}
