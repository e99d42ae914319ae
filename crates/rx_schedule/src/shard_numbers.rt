ghost use Rattle.std.specs.Prelude.{◌≡◌, ◌<◌, ◌≤◌, ◌==◌, ◌++◌, ◌∷◌, [], ℕ, IfOk, OnOk, if◌then◌else◌};
ghost use Rattle.std.specs.Prelude.{length, map, replicate};
ghost use Rattle.rx_schedule.specs.Shards.{is_of, list_at, places_of};
ghost use Rattle.rx_schedule.specs.Waves.{number_in};

use rx_fields::Memory;
use std::alloc::Global;

/// The shards of a batch: records of two shards share no book, and may go at once (docs/RULES.md, "Shards").
#[derive(Drop)]
pub struct Shards {
    /// The shard of each record, in file order, from 0.
    pub numbers: Vec<usize>,
    /// How many shards there are; 0 without records.
    pub count: usize,
    /// How many transactions the records of the largest shard have.
    pub largest: u64,
    /// How many all records have.
    pub transactions: u64,
}

impl Shards {
    /// The shard of the record at a place, from 1.
    pub fn of(&self, place: usize) -> usize
        requires { 1 ≤ place }
        ensures { result ≡ number_in self.now.numbers.items place }
    {
        self.numbers.get(place - 1).copied().unwrap_or(0)
    }

    /// For each shard the places of its records, from 1, ascending.
    pub fn places(&self, alloc: Global) -> Result<Vec<Vec<usize>>, Memory>
        ensures one_each { IfOk result (λ lists. length lists.items ≡ self.now.count) }
        ensures places { IfOk result (λ lists. (k : ℕ) → k < self.now.count
            → list_at (map (λ list. list.items) lists.items) k
            ≡ places_of (is_of (number_in self.now.numbers.items) k) (length self.now.numbers.items)) }
    {
        let mut lists = empty_lists(alloc, self.count, self.numbers.len())?;
        put_places(&mut lists, &self.numbers)?;
        Ok(lists)
    }
}

// This many lists, each with room for an even share of the places.
fn empty_lists(alloc: Global, count: usize, places: usize) -> Result<Vec<Vec<usize>>, Memory>
    ensures { IfOk result (λ lists. map (λ list. list.items) lists.items ≡ replicate count []) }
{
    let share = places.checked_div(count).unwrap_or(0);
    let mut lists = Vec::with_capacity(alloc, count)?;
    'lists: for _ in 0..count {
        lists.push(Vec::with_capacity(alloc, share)?)?;
    }
    Ok(lists)
}

// Puts the place of each number, from 1, after those in the number's list.
fn put_places(lists: &mut [Vec<usize>], numbers: &[usize]) -> Result<(), Memory>
    ensures { OnOk result ((k : ℕ) → k < length lists.old → list_at (map (λ list. list.items) lists.new) k
        ≡ list_at (map (λ list. list.items) lists.old) k
        ++ places_of (is_of (number_in numbers.now) k) (length numbers.now)) }
{
    'numbers: for (at, number) in numbers.iter().enumerate() {
        put_place(lists, *number, at + 1)?;
    }
    Ok(())
}

// Puts a place after those in the list of its number, if there is one.
fn put_place(lists: &mut [Vec<usize>], number: usize, place: usize) -> Result<(), Memory>
    ensures { OnOk result ((k : ℕ) → k < length lists.old → list_at (map (λ list. list.items) lists.new) k
        ≡ list_at (map (λ list. list.items) lists.old) k ++ (if number == k then place ∷ [] else [])) }
{
    if number < lists.len() {
        lists[number].push(place)?;
    }
    Ok(())
}
