ghost use Rattle.std.specs.Prelude.{◌≡◌, ◌<◌, ◌≤◌, IfOk, IsTrue, length, replicate};
ghost use Rattle.std.specs.List.{All};
ghost use Rattle.rx_schedule.specs.Footprints.{footprint_at};
ghost use Rattle.rx_schedule.specs.Mentions.{AreTied};
ghost use Rattle.rx_schedule.specs.Shards.{IsGrouping};
ghost use Rattle.rx_schedule.specs.Waves.{number_in};

use crate::deal::{dealt, loads_of};
use crate::mentions::{Mention, mentions_of, weight_of};
use crate::shard_numbers::Shards;
use crate::ties::are_tied;
use rx_books_store::Books;
use rx_d0_values::Transmission;
use rx_fields::Memory;
use std::alloc::Global;

/// Shards of a batch, `most` of them or fewer. Records are in one shard where a chain of records that share a book ties
/// them; a fill key ties all its billers and reversals, whichever comes first, and a reversal the family of the opening row.
/// The heaviest of these sets, by transactions, goes first, each to the shard that is the lightest by then.
pub fn shards(
    alloc: Global,
    books: &Books,
    transmissions: &[Transmission],
    most: usize,
) -> Result<Shards, Memory>
    requires { 1 ≤ most }
    ensures together { let L = books.now.ledger in
        IfOk result (λ found. IsGrouping (footprint_at L transmissions.now) (length transmissions.now)
        (number_in found.numbers.items)) }
    ensures one_each { IfOk result (λ found. length found.numbers.items ≡ length transmissions.now) }
    ensures within { IfOk result (λ found. All (λ number. number < found.count) found.numbers.items) }
    ensures few { IfOk result (λ found. found.count ≤ most) }
{
    if transmissions.len() >= 1 << 32 {
        return in_one(alloc, transmissions);
    }
    let mentions = mentions_of(alloc, books, transmissions)?;
    let dealt = dealt(alloc, &mentions, most)?;
    let numbers = compared(alloc, &mentions.list, dealt, transmissions.len(), most)?;
    let count = count_of(&numbers, most);
    let loads = loads_of(alloc, &numbers, count, &mentions.weights)?;
    Ok(Shards {
        numbers,
        count,
        largest: loads.iter().copied().max().unwrap_or(0),
        transactions: sum_of(&loads),
    })
}

// One shard of all records, where they are too many to be counted in 32 bits.
fn in_one(alloc: Global, transmissions: &[Transmission]) -> Result<Shards, Memory>
    ensures numbers { IfOk result (λ found. found.numbers.items ≡ replicate (length transmissions.now) 0) }
    ensures count { IfOk result (λ found. found.count ≡ 1) }
{
    let numbers = vec![in alloc; 0; transmissions.len()]?;
    let mut transactions = 0u64;
    for transmission in transmissions {
        transactions = transactions.saturating_add(u64::from(weight_of(transmission)));
    }
    Ok(Shards {
        numbers,
        count: 1,
        largest: transactions,
        transactions,
    })
}

fn sum_of(loads: &[u64]) -> u64 {
    let mut sum = 0u64;
    for load in loads {
        sum = sum.saturating_add(*load);
    }
    sum
}

// The numbers, if there is one for each of `count` records, below `most`, and mentions of one name are of records with
// one number; else 0 for each record.
fn compared(
    alloc: Global,
    mentions: &[Mention],
    numbers: Vec<usize>,
    count: usize,
    most: usize,
) -> Result<Vec<usize>, Memory>
    requires { 1 ≤ most }
    ensures tied { IfOk result (λ kept. AreTied kept.items mentions.now) }
    ensures one_each { IfOk result (λ kept. length kept.items ≡ count) }
    ensures within { IfOk result (λ kept. All (λ number. number < most) kept.items) }
{
    if numbers.len() == count && are_below(&numbers, most) && are_tied(mentions, &numbers) {
        return Ok(numbers);
    }
    Ok(vec![in alloc; 0; count]?)
}

// Whether all numbers are below a limit.
fn are_below(numbers: &[usize], limit: usize) -> bool
    ensures { IsTrue result → All (λ number. number < limit) numbers.now }
{
    numbers.iter().all(|number| *number < limit)
}

// One more than the highest of the numbers, which are below `most`; 0 if there are none.
fn count_of(numbers: &[usize], most: usize) -> usize
    requires { All (λ number. number < most) numbers.now }
    ensures within { All (λ number. number < result) numbers.now }
    ensures few { result ≤ most }
{
    let mut count = 0;
    'numbers: for number in numbers {
        if *number >= count {
            count = *number + 1;
        }
    }
    count
}
