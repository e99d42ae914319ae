ghost use Rattle.std.specs.Prelude.{◌≡◌, ◌<◌, ◌^◌, ◌==◌, Some, true, map, IfErr, IfOk, is_ok, length, slice_get};
ghost use Rattle.std.specs.Bool.{then_some};
ghost use Rattle.std.specs.Cmp.Lexicographic.{pointwise};
ghost use Rattle.std.specs.List.{list_all};
ghost use Rattle.std.specs.Option.{option_copied};
ghost use Rattle.std.specs.Vec.{vec_items};
ghost use Rattle.rx_sorted.specs.Ascending.{IsAscending, IsAt, IsGap, item_at};
ghost use Rattle.rx_sorted.specs.Runs.{are_runs, has_items, items_of, may_follow};

use crate::slices::{Keyed, is_ascending, is_past, place_of};
use std::alloc::{AllocError, Global};
use std::marker::Model;

/// A list of items in the ascending order of their keys, at most one item of a key, that is kept as some runs, one
/// after the other. It never changes.
#[derive(Drop)]
pub struct Runs<T: Keyed> {
    runs: Vec<Vec<T>>,
    len: usize,
}

impl<T: Keyed> Model for Runs<T> {
    ghost use Rattle.std.specs.Prelude.{List};
    ghost use Rattle.rx_sorted.specs.Runs.{AreRuns, items_of};

    ghost Value = { List T };

    ghost view = { λ r. items_of r.runs.items };

    ghost invariant = { λ r. AreRuns T.Key.cmp T.key_of r.runs.items r.len };
}

impl<T: Keyed> Runs<T> {
    /// The list of the runs' items. Where a run is empty, or the items aren't in order, within a run or from one run to
    /// the next, or there are 2^63 or more of them, the runs come back. It takes no memory.
    pub fn from_runs(runs: Vec<Vec<T>>) -> Result<Self, Vec<Vec<T>>>
        ensures ok { is_ok result ≡ are_runs T.Key.cmp T.key_of runs.items }
        ensures value { IfOk result (λ list. list ≡ items_of runs.items) }
        ensures err { IfErr result (λ back. back.items ≡ runs.items) }
    {
        match count_of(&runs) {
            Some(len) => Ok(Runs { runs, len }),
            None => Err(runs),
        }
    }

    /// An equal list, of items that can be copied.
    pub fn to_copy(&self, alloc: Global) -> Result<Self, AllocError>
    where
        T: Copy,
        ensures { IfOk result (λ copy. copy ≡ self.now) }
    {
        let runs = copies_of(&self.runs, alloc)?;
        Ok(Runs {
            runs,
            len: self.len,
        })
    }

    /// The runs, in order: none is empty.
    pub fn runs(&self) -> &[Vec<T>]
        ensures value { items_of result.now ≡ self.now }
        ensures none_empty { list_all has_items result.now ≡ true }
        ensures ascending { IsAscending T.Key.cmp T.key_of self.now }
        ensures small { length self.now < 2 ^ 63 }
    {
        self.runs.as_slice()
    }

    /// How many items there are.
    pub fn len(&self) -> usize
        ensures value { result ≡ length self.now }
        ensures small { result < 2 ^ 63 }
    {
        self.len
    }

    /// Whether there are no items.
    pub fn is_empty(&self) -> bool
        ensures { result ≡ (length self.now == 0) }
    {
        self.len == 0
    }

    /// The item at a place, counted from 0 over all runs.
    pub fn at(&self, place: usize) -> &T
        requires { place < length self.now }
        ensures { slice_get self.now place ≡ Some result.now }
    {
        item_of(&self.runs, place)
    }

    /// Where the item with the key is, or where it would go: a place in the whole list.
    pub fn place(&self, key: &T::Key) -> Result<usize, usize>
        ensures found { IfOk result (IsAt T.Key.cmp T.key_of self.now key.now) }
        ensures absent { IfErr result (IsGap T.Key.cmp T.key_of self.now key.now) }
    {
        search(&self.runs, key)
    }

    /// The item that has the key.
    pub fn get(&self, key: &T::Key) -> Option<&T>
        ensures { option_copied result ≡ item_at T.Key.cmp T.key_of self.now key.now }
    {
        match search(&self.runs, key) {
            Ok(place) => Some(item_of(&self.runs, place)),
            Err(_) => None,
        }
    }
}

// How many items the runs have: None where a run is empty, or they aren't in order, or are too many to count.
fn count_of<T: Keyed>(runs: &[Vec<T>]) -> Option<usize>
    ensures { result ≡ then_some (are_runs T.Key.cmp T.key_of runs.now) (length (items_of runs.now)) }
{
    let mut count = 0;
    let mut before: &[T] = Default::default();
    for run in runs {
        if !follows(before, run) {
            return None;
        }
        if run.len() >= MOST - count {
            return None;
        }
        count += run.len();
        before = run;
    }
    Some(count)
}

// One more than the items that a list may have.
const MOST: usize = 1 << 63;

// Whether a run has items, in order, the first past each item of the run before it.
fn follows<T: Keyed>(before: &[T], run: &[T]) -> bool
    requires { IsAscending T.Key.cmp T.key_of before.now }
    ensures { result ≡ may_follow T.Key.cmp T.key_of before.now run.now }
{
    match run.first() {
        Some(first) => is_past(before, &first.key()) && is_ascending(run),
        None => false,
    }
}

// The item at a place of the whole list.
fn item_of<T>(runs: &[Vec<T>], place: usize) -> &T
    requires { place < length (items_of runs.now) }
    ensures { slice_get (items_of runs.now) place ≡ Some result.now }
{
    let mut rest = place;
    for run in runs {
        if rest < run.len() {
            return &run[rest];
        }
        rest -= run.len();
    }
    unreachable!()
}

// Where the item with the key is, or where it would go: the first run that isn't before the key is searched.
fn search<T: Keyed>(runs: &[Vec<T>], key: &T::Key) -> Result<usize, usize>
    requires ascending { IsAscending T.Key.cmp T.key_of (items_of runs.now) }
    requires small { length (items_of runs.now) < 2 ^ 63 }
    ensures found { IfOk result (IsAt T.Key.cmp T.key_of (items_of runs.now) key.now) }
    ensures absent { IfErr result (IsGap T.Key.cmp T.key_of (items_of runs.now) key.now) }
{
    let mut start = 0;
    for run in runs {
        if !is_past(run, key) {
            return match place_of(run, key) {
                Ok(at) => Ok(start + at),
                Err(at) => Err(start + at),
            };
        }
        start += run.len();
    }
    Err(start)
}

// A copy of each run.
fn copies_of<T: Copy>(runs: &[Vec<T>], alloc: Global) -> Result<Vec<Vec<T>>, AllocError>
    ensures { IfOk result (λ copies. map vec_items copies.items ≡ map vec_items runs.now) }
{
    let mut copies = Vec::with_capacity(alloc, runs.len())?;
    for run in runs {
        copies.push(Vec::from_slice(alloc, run)?)?;
    }
    Ok(copies)
}

// Whether two lists of `len` items have the same ones, however they are cut into runs.
fn same_items<T: PartialEq>(runs: &[Vec<T>], others: &[Vec<T>], len: usize) -> bool
    requires ours { len ≡ length (items_of runs.now) }
    requires theirs { len ≡ length (items_of others.now) }
    ensures { result ≡ pointwise T.eq (items_of runs.now) (items_of others.now) }
{
    for place in 0..len {
        if item_of(runs, place) != item_of(others, place) {
            return false;
        }
    }
    true
}

impl<T: Keyed + PartialEq> PartialEq for Runs<T> {
    ghost use Rattle.std.specs.Cmp.Lexicographic.{lists_per, pointwise};

    ghost eq = { λ a b. pointwise T.eq a b };

    ghost laws = { lists_per T.laws };

    fn eq(&self, other: &Runs<T>) -> bool {
        if self.len != other.len {
            return false;
        }
        same_items(&self.runs, &other.runs, self.len)
    }
}

impl<T: Keyed + Eq> Eq for Runs<T> {
    ghost use Rattle.std.specs.Cmp.Lexicographic.{lists_equiv};

    ghost laws = { lists_equiv T.Eq.laws };
}
