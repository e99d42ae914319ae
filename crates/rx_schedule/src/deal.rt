ghost use Rattle.std.specs.Prelude.{◌<◌, IfSome};

use crate::mentions::{Mention, Mentions};
use rx_fields::Memory;
use std::alloc::Global;

/// Numbers for records, from 0 and below `most`: records that mention one book have one number, and the transactions are
/// spread as evenly as these sets of records let them. It promises nothing: the numbers are compared.
pub(crate) fn dealt(alloc: Global, mentions: &Mentions, most: usize) -> Result<Vec<usize>, Memory> {
    let count = mentions.weights.len();
    let firsts = firsts_of(alloc, &mentions.list, count)?;
    let mut weights = vec![in alloc; 0u32; count]?;
    for (first, own) in firsts.iter().zip(&mentions.weights) {
        if let Some(weight) = weights.get_mut(*first as usize) {
            *weight = weight.saturating_add(*own);
        }
    }
    let mut numbers = vec![in alloc; 0usize; count]?;
    deal(alloc, &weights, most, &mut numbers)?;
    for (at, first) in firsts.iter().enumerate() {
        let number = numbers.get(*first as usize).copied().unwrap_or(0);
        if let Some(own) = numbers.get_mut(at) {
            *own = number;
        }
    }
    Ok(numbers)
}

/// How many transactions the records of each of `count` shards have; `weights` has those of each record.
pub(crate) fn loads_of(
    alloc: Global,
    numbers: &[usize],
    count: usize,
    weights: &[u32],
) -> Result<Vec<u64>, Memory> {
    let mut loads = vec![in alloc; 0u64; count]?;
    for (number, weight) in numbers.iter().zip(weights) {
        if let Some(load) = loads.get_mut(*number) {
            *load = load.saturating_add(u64::from(*weight));
        }
    }
    Ok(loads)
}

// Writes the shard of each set at its first record: the heaviest set first, each to the lightest shard.
fn deal(alloc: Global, weights: &[u32], most: usize, numbers: &mut [usize]) -> Result<(), Memory> {
    let mut loads = Loads::of(alloc, most.min(weights.len()))?;
    for set in &heaviest_first(alloc, weights)? {
        let shard = loads.put(u64::from(u32::MAX).saturating_sub(*set >> 32));
        if let Some(number) = numbers.get_mut((*set & u64::from(u32::MAX)) as usize) {
            *number = shard;
        }
    }
    Ok(())
}

// The sets that have transactions, the heaviest first, each as one word, since words are sorted faster than pairs: its upper
// half is 2^32 - 1 less the transactions, its lower half is the set's first record.
fn heaviest_first(alloc: Global, weights: &[u32]) -> Result<Vec<u64>, Memory> {
    let mut sets = Vec::with_capacity(alloc, weights.len())?;
    for (first, weight) in weights.iter().enumerate() {
        if *weight > 0 {
            sets.push((u64::from(u32::MAX - *weight) << 32) | first as u64)?;
        }
    }
    sets.sort_unstable();
    Ok(sets)
}

// How many transactions each shard has.
#[derive(Drop)]
struct Loads {
    loads: Vec<u64>,
    // The fewest that a shard has, and a shard before which all have more.
    least: u64,
    next: usize,
}

impl Loads {
    // This many shards without transactions.
    fn of(alloc: Global, shards: usize) -> Result<Loads, Memory> {
        let loads = vec![in alloc; 0u64; shards]?;
        Ok(Loads {
            loads,
            least: 0,
            next: 0,
        })
    }

    // Puts this many transactions to the lightest shard, and says which it is.
    fn put(&mut self, transactions: u64) -> usize {
        let shard = self.lightest();
        if let Some(load) = self.loads.get_mut(shard) {
            *load = load.saturating_add(transactions);
        }
        self.next = shard.saturating_add(1);
        shard
    }

    // The first of the shards with the fewest transactions.
    fn lightest(&mut self) -> usize {
        if let Some(shard) = self.least_from(self.next) {
            return shard;
        }
        self.least = self.loads.iter().copied().min().unwrap_or(0);
        self.least_from(0).unwrap_or(0)
    }

    // The first shard from this one on that has no more than the fewest.
    fn least_from(&self, from: usize) -> Option<usize> {
        for at in from..self.loads.len() {
            if self.loads[at] <= self.least {
                return Some(at);
            }
        }
        None
    }
}

// The first record of each record's set, where those of this many records that mention one book are together. The
// mentions are in the order of their names.
fn firsts_of(alloc: Global, mentions: &[Mention], count: usize) -> Result<Vec<u32>, Memory> {
    let mut sets = Sets::singles(alloc, count)?;
    for at in 1..mentions.len() {
        if mentions[at - 1].name == mentions[at].name {
            sets.unite(mentions[at - 1].at, mentions[at].at);
        }
    }
    let mut firsts = sets.earlier;
    // An earlier record knows the first of its set by then.
    for at in 0..firsts.len() {
        let earlier = firsts[at] as usize;
        firsts[at] = firsts.get(earlier).copied().unwrap_or(0);
    }
    Ok(firsts)
}

// Sets of records. Each record but the first of its set knows an earlier one of the set.
#[derive(Drop)]
struct Sets {
    earlier: Vec<u32>,
}

impl Sets {
    // A set for each of this many records.
    fn singles(alloc: Global, count: usize) -> Result<Sets, Memory> {
        let mut earlier = Vec::with_capacity(alloc, count)?;
        for at in 0..count {
            earlier.push(u32::try_from(at).unwrap_or(u32::MAX))?;
        }
        Ok(Sets { earlier })
    }

    // Makes one set of the sets of two records.
    fn unite(&mut self, one: u32, other: u32) {
        let one = self.first(one);
        let other = self.first(other);
        if let Some(earlier) = self.earlier.get_mut(one.max(other) as usize) {
            *earlier = one.min(other);
        }
    }

    // The first record of a record's set. On the way each record comes to know the one before the one that it knew.
    fn first(&mut self, from: u32) -> u32 {
        let mut at = from;
        'back: while let Some(earlier) = self.before(at) {
            if let Some(first) = self.before(earlier)
                && let Some(known) = self.earlier.get_mut(at as usize)
            {
                *known = first;
            }
            at = earlier;
        }
        at
    }

    // The earlier record of its set that a record knows.
    fn before(&self, at: u32) -> Option<u32>
        ensures { IfSome result (λ earlier. earlier < at) }
    {
        match self.earlier.get(at as usize) {
            Some(earlier) if *earlier < at => Some(*earlier),
            _ => None,
        }
    }
}
