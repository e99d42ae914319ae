ghost use Rattle.std.specs.Prelude.{◌≡◌, ◌<◌, ◌∷◌, ℕ, List, IfOk, length, map, set, slice_index_or, []};
ghost use Rattle.std.specs.List.{range_with_len};
ghost use Rattle.rx_d0_values.specs.declared.reply.Reply.{Reply as ReplyValue};
ghost use Rattle.rx_ledger.specs.Fold.{fold_ledger};
ghost use Rattle.rx_wave.specs.Jobs.{AreReplies, HaveRun, IsFinished, IsOpened, IsOpenedAt};

use crate::job::Job;
use crate::names::named_keys;
use crate::shard::Ended;
use rayon::prelude::*;
use rx_books_store::{Books, OpenBooks};
use rx_d0_values::{Reply, Transmission};
use rx_fields::{Memory, Period};
use rx_schedule::Shards;
use rx_serial::Finished;
use std::alloc::Global;
use std::marker::Model;
use std::thread::Threads;
use std::vec;

/// These books with the totals of a period, and a slot for each fill key that the records name.
pub(crate) fn opened(
    alloc: Global,
    period: Period,
    books: &Books,
    transmissions: &[Transmission],
) -> Result<OpenBooks, Memory>
    ensures { IfOk result (IsOpenedAt period books.now.ledger transmissions.now) }
{
    let keys = named_keys(alloc, transmissions)?;
    let books = books.copy(alloc, period)?;
    books.open(alloc, &keys)
}

/// What the shards of a batch leave together: the books after all records, and the replies in file order.
pub(crate) fn joined<R: Threads + Sync>(
    rt: &R,
    alloc: Global,
    job: &Job<'_>,
    opened: OpenBooks,
    shards: &Shards,
    ended: Vec<Ended>,
) -> Result<Finished, Memory>
    requires opened { IsOpened job.now opened }
    requires run { HaveRun job.now shards.now.numbers.items ended.items }
    ensures { IfOk result (IsFinished job.now) }
{
    let books = books_after(rt, alloc, job, opened, &ended)?;
    let replies = joined_replies(alloc, &shards.numbers, ended)?;
    Ok(Finished { books, replies })
}

// The books after all records.
fn books_after<R: Threads + Sync>(
    rt: &R,
    alloc: Global,
    job: &Job<'_>,
    opened: OpenBooks,
    ended: &[Ended],
) -> Result<Books, Memory>
    requires opened { IsOpened job.now opened }
    requires run { (numbers : List ℕ) × HaveRun job.now numbers ended.now }
    ensures { IfOk result (λ books. books ≡ record {
      period = job.now.sheet.now.figures.period;
      ledger = fold_ledger job.now.lot job.now.sheet.now 1 job.now.transmissions.now job.now.books.now.ledger;
    }) }
{
    let near = slots_of_each(rt, alloc, &opened, ended)?;
    Ok(joined_books(job, opened, ended, &near))
}

// For each shard the places of its fill keys' slots in the opened books, looked for by a thread of its own.
fn slots_of_each<R: Threads + Sync>(
    rt: &R,
    alloc: Global,
    opened: &OpenBooks,
    ended: &[Ended],
) -> Result<Vec<Vec<usize>>, Memory> {
    ended
        .par_iter()
        .with_min_len(1)
        .map(move |end: &Ended| -> Result<Vec<usize>, Memory> { opened.slots_of(alloc, &end.keys) })
        .collect::<Result<Vec<Vec<usize>>, Memory>>(rt, alloc)?
}

// The opened books, with what each shard leaves under the fill keys that it names. Their slots are looked for first at the
// places in `near`.
fn joined_books(job: &Job<'_>, opened: OpenBooks, ended: &[Ended], near: &[Vec<usize>]) -> Books
    requires opened { IsOpened job.now opened }
    requires run { (numbers : List ℕ) × HaveRun job.now numbers ended.now }
    ensures { result ≡ record {
      period = job.now.sheet.now.figures.period;
      ledger = fold_ledger job.now.lot job.now.sheet.now 1 job.now.transmissions.now job.now.books.now.ledger;
    } }
{
    let mut books = opened;
    for (shard, end) in ended.iter().enumerate() {
        books.take_over(&end.books, &end.keys, near_of(near, shard));
    }
    let books = books.close();
    prove!(books.period() == job.sheet.period());
    books
}

// The places for a shard; none if it has none.
fn near_of(near: &[Vec<usize>], shard: usize) -> &[usize] {
    match near.get(shard) {
        Some(places) => places.as_slice(),
        None => &[],
    }
}

// The replies of the shards, in file order, by the shard of each record.
fn joined_replies(alloc: Global, numbers: &[usize], ended: Vec<Ended>) -> Result<Vec<Reply>, Memory>
    requires { (reply : ℕ → ReplyValue) × AreReplies reply numbers.now (map (λ end. end.replies.items) ended.items) }
    ensures { (reply : ℕ → ReplyValue) → AreReplies reply numbers.now (map (λ end. end.replies.items) ended.items)
        → IfOk result (λ replies. replies.items ≡ map reply (range_with_len 1 (length numbers.now))) }
{
    let mut coming = all_coming(alloc, ended)?;
    in_file_order(alloc, numbers, &mut coming)
}

/// The replies of several lists in file order, by the list of each record, counted from 0.
pub fn replies_in_order(
    alloc: Global,
    numbers: &[usize],
    lists: Vec<Vec<Reply>>,
) -> Result<Vec<Reply>, Memory>
    requires { (reply : ℕ → ReplyValue) × AreReplies reply numbers.now (map (λ list. list.items) lists.items) }
    ensures { (reply : ℕ → ReplyValue) → AreReplies reply numbers.now (map (λ list. list.items) lists.items)
        → IfOk result (λ replies. replies.items ≡ map reply (range_with_len 1 (length numbers.now))) }
{
    let mut coming = lists_coming(alloc, lists)?;
    in_file_order(alloc, numbers, &mut coming)
}

// The replies of each list.
fn lists_coming(alloc: Global, lists: Vec<Vec<Reply>>) -> Result<Vec<Coming>, Memory>
    ensures { IfOk result (λ coming. coming.items ≡ map (λ list. list.items) lists.items) }
{
    let mut coming = Vec::with_capacity(alloc, lists.len())?;
    for list in lists {
        coming.push(Coming {
            replies: list.into_iter(),
        })?;
    }
    Ok(coming)
}

// The same of the replies that are to come.
fn in_file_order(
    alloc: Global,
    numbers: &[usize],
    coming: &mut [Coming],
) -> Result<Vec<Reply>, Memory>
    requires { (reply : ℕ → ReplyValue) × AreReplies reply numbers.now coming.old }
    ensures { (reply : ℕ → ReplyValue) → AreReplies reply numbers.now coming.old
        → IfOk result (λ replies. replies.items ≡ map reply (range_with_len 1 (length numbers.now))) }
{
    let mut replies = Vec::with_capacity(alloc, numbers.len())?;
    for number in numbers {
        replies.push(next_reply(coming, *number))?;
    }
    Ok(replies)
}

// The replies of a shard that are still to come.
#[derive(Drop)]
struct Coming {
    replies: vec::IntoIter<Reply>,
}

impl Model for Coming {
    ghost use Rattle.std.specs.Prelude.{◌≡◌, List, length};
    ghost use Rattle.std.specs.Vec.Iter.{into_iter_items, into_iter_len};
    ghost use Rattle.rx_d0_values.specs.declared.reply.Reply.{Reply as ReplyValue};

    ghost Value = { List ReplyValue };

    ghost view = { λ coming. into_iter_items coming.replies };

    ghost invariant = { λ coming. into_iter_len coming.replies ≡ length (into_iter_items coming.replies) };
}

impl Coming {
    // The next one.
    fn next(&mut self) -> Reply
        requires { 0 < length self.old }
        ensures { self.old ≡ result ∷ self.new }
    {
        match self.replies.next() {
            Some(reply) => reply,
            None => unreachable!(),
        }
    }
}

// The replies of each shard.
fn all_coming(alloc: Global, ended: Vec<Ended>) -> Result<Vec<Coming>, Memory>
    ensures { IfOk result (λ coming. coming.items ≡ map (λ end. end.replies.items) ended.items) }
{
    let mut coming = Vec::with_capacity(alloc, ended.len())?;
    for end in ended {
        let Ended { replies, .. } = end;
        coming.push(Coming {
            replies: replies.into_iter(),
        })?;
    }
    Ok(coming)
}

// The next reply of a shard.
fn next_reply(coming: &mut [Coming], shard: usize) -> Reply
    requires within { shard < length coming.old }
    requires more { 0 < length (slice_index_or coming.old shard []) }
    ensures next { slice_index_or coming.old shard [] ≡ result ∷ slice_index_or coming.new shard [] }
    ensures others { coming.new ≡ set coming.old shard (slice_index_or coming.new shard []) }
{
    coming[shard].next()
}
