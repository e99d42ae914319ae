ghost use Rattle.std.specs.Prelude.{◌≡◌, ◌+◌, ◌-◌, ◌<◌, ◌≤◌, ◌++◌, [], IfOk, IsTrue, OnOk, drop, length, take};
ghost use Rattle.std.specs.List.{All, AllZip, flat_map};
ghost use Rattle.rx_fields.specs.Order.{key_cmp};
ghost use Rattle.rx_sorted.specs.Ascending.{IsAscending};
ghost use Rattle.rx_sorted.specs.Near.{AreBefore};
ghost use Rattle.rx_ledger.specs.Rows.{row_key};
ghost use Rattle.rx_books_store.specs.BooksText.{claims_text};
ghost use Rattle.rx_books_store.specs.Kept.{IsKept, kept_text};
ghost use Rattle.rx_books_store.specs.Patching.{AreInTurn, FillsStretch, IsCut, IsRun, IsSpan, end_of, held_rows, rest_text};
ghost use Rattle.rx_books_store.specs.Store.{IsSlot, slot_key, standing_rows};

use crate::kept::Kept;
use crate::opening::Opening;
use crate::search::{guess_from, place_near};
use crate::slot::KeySlot;
use crate::writer::CLAIM;
use rayon::prelude::*;
use rx_books_text::put_claim;
use rx_fields::{Key, Memory};
use rx_io::Patched;
use rx_ledger::Row;
use rx_sorted::Runs;
use std::alloc::Global;
use std::marker::Model;
use std::thread::Threads;

/// The lines of the rows that stand, after what is above them and before what is below. Those of rows that stand as they
/// were read are lent from the text that is kept.
pub(crate) fn lent_between(
    alloc: Global,
    kept: &Kept,
    opening: &Opening,
    slots: &[KeySlot],
    above: Vec<u8>,
    below: &[u8],
) -> Result<Patched, Memory>
    requires kept { IsKept kept.now opening.now.rows }
    requires rise { IsAscending key_cmp slot_key slots.now }
    requires own { All (IsSlot opening.now.members) slots.now }
    ensures { IfOk result (λ text. text.text ≡ above.items ++ (claims_text (standing_rows opening.now.rows slots.now) ++ below.now)) }
{
    let mut text = kept.patch(alloc, above)?;
    put_standing(alloc, &mut text, kept, opening, slots)?;
    text.put(below)?;
    Ok(text)
}

// Puts the lines of the rows that stand: those of rows that stand as they were read are lent from the text that is kept,
// runs of them at once.
fn put_standing(
    alloc: Global,
    text: &mut Patched,
    kept: &Kept,
    opening: &Opening,
    slots: &[KeySlot],
) -> Result<(), Memory>
    requires kept { IsKept kept.now opening.now.rows }
    requires lender { text.old.lender ≡ kept_text kept.now }
    requires rise { IsAscending key_cmp slot_key slots.now }
    requires own { All (IsSlot opening.now.members) slots.now }
    ensures { OnOk result (text.new.text ≡ text.old.text ++ claims_text (standing_rows opening.now.rows slots.now)) }
{
    let to = end_of(opening.rows(), slots);
    let from = Cut { row: 0, slot: 0 };
    let span = Span { from, to };
    put_span(alloc, text, kept, opening, slots, span)
}

/// The same lines in this many texts, each made by a thread of its own.
pub(crate) fn standing_in_parts<R: Threads + Sync>(
    rt: &R,
    alloc: Global,
    parts: usize,
    kept: &Kept,
    opening: &Opening,
    slots: &[KeySlot],
) -> Result<Vec<Patched>, Memory>
    requires some { 0 < parts }
    requires kept { IsKept kept.now opening.now.rows }
    requires rise { IsAscending key_cmp slot_key slots.now }
    requires own { All (IsSlot opening.now.members) slots.now }
    ensures { IfOk result (λ texts. flat_map (λ t. t.text) texts.items ≡ claims_text (standing_rows opening.now.rows slots.now)) }
{
    let stretches = stretches_of(alloc, kept, opening, slots, slots.len() / parts + 1)?;
    texts_of(rt, alloc, &stretches)
}

// A place between the rows and the slots: this many of each are before it.
#[derive(Clone, Copy)]
struct Cut {
    row: usize,
    slot: usize,
}

// The rows and slots from one cut to another.
#[derive(Clone, Copy)]
struct Span {
    from: Cut,
    to: Cut,
}

// The cut after all rows and slots.
fn end_of(rows: &Runs<Row>, slots: &[KeySlot]) -> Cut
    ensures { result ≡ end_of rows.now slots.now }
{
    Cut {
        row: rows.len(),
        slot: slots.len(),
    }
}

// The cut before a slot.
fn cut_before(rows: &Runs<Row>, slots: &[KeySlot], slot: usize) -> Cut
    requires within { slot < length slots.now }
    requires up { IsAscending key_cmp row_key rows.now }
    requires rise { IsAscending key_cmp slot_key slots.now }
    ensures cut { IsCut rows.now slots.now result }
    ensures slot { result.slot ≡ slot }
{
    let key = &slots[slot].key;
    match rows.place(key) {
        Ok(row) => Cut { row, slot },
        Err(row) => Cut { row, slot },
    }
}

// The rows that stand in a span, and the text that is kept. Contracts see that text, the lines of all rows that stand from the
// span's beginning on, and those of the rows after it.
#[derive(Drop)]
struct Stretch<'a> {
    kept: &'a Kept,
    opening: &'a Opening,
    slots: &'a [KeySlot],
    span: Span,
}

impl<'a> Model for Stretch<'a> {
    ghost use Rattle.rx_books_store.specs.Patching.{IsStretch, StretchTexts, rest_text};

    ghost Value = { StretchTexts };

    ghost view = { λ s. record {
      whole = rest_text s.opening.now.rows s.slots.now s.span.from;
      after = rest_text s.opening.now.rows s.slots.now s.span.to;
    } };

    ghost invariant = { λ s. IsStretch s.kept.now s.opening.now s.slots.now s.span };
}

impl<'a> Stretch<'a> {
    // The lines of its rows.
    fn text(&self, alloc: Global) -> Result<Patched, Memory>
        ensures { IfOk result (FillsStretch self.now) }
    {
        let count = self.span.to.slot - self.span.from.slot;
        let own = Vec::with_capacity(alloc, count.saturating_mul(CLAIM))?;
        let mut text = self.kept.patch(alloc, own)?;
        put_span(
            alloc,
            &mut text,
            self.kept,
            self.opening,
            self.slots,
            self.span,
        )?;
        Ok(text)
    }
}

// All rows that stand, in stretches of this many slots but for the last.
fn stretches_of<'a>(
    alloc: Global,
    kept: &'a Kept,
    opening: &'a Opening,
    slots: &'a [KeySlot],
    size: usize,
) -> Result<Vec<Stretch<'a>>, Memory>
    requires some { 0 < size }
    requires kept { IsKept kept.now opening.now.rows }
    requires rise { IsAscending key_cmp slot_key slots.now }
    requires own { All (IsSlot opening.now.members) slots.now }
    ensures { IfOk result (λ stretches. AreInTurn (claims_text (standing_rows opening.now.rows slots.now)) stretches.items []) }
{
    let rows = opening.rows();
    let mut stretches = Vec::new(alloc);
    let mut from = Cut { row: 0, slot: 0 };
    'cuts: while size < slots.len() - from.slot {
        let to = cut_before(rows, slots, from.slot + size);
        stretches.push(Stretch {
            kept,
            opening,
            slots,
            span: Span { from, to },
        })?;
        from = to;
    }
    let to = end_of(rows, slots);
    stretches.push(Stretch {
        kept,
        opening,
        slots,
        span: Span { from, to },
    })?;
    Ok(stretches)
}

// The text of each stretch, by as many threads as there are processors.
fn texts_of<R: Threads + Sync>(
    rt: &R,
    alloc: Global,
    stretches: &[Stretch],
) -> Result<Vec<Patched>, Memory>
    ensures { IfOk result (λ texts. AllZip FillsStretch stretches.now texts.items) }
{
    stretches
        .par_iter()
        .with_min_len(1)
        .map(
            move |stretch: &Stretch| -> Result<Patched, Memory>
                ensures { IfOk result (FillsStretch stretch.now) }
            { stretch.text(alloc) },
        )
        .collect::<Result<Vec<Patched>, Memory>>(rt, alloc)?
}

// Puts the lines of the rows that stand in a span.
fn put_span(
    alloc: Global,
    text: &mut Patched,
    kept: &Kept,
    opening: &Opening,
    slots: &[KeySlot],
    span: Span,
) -> Result<(), Memory>
    requires kept { IsKept kept.now opening.now.rows }
    requires lender { text.old.lender ≡ kept_text kept.now }
    requires rise { IsAscending key_cmp slot_key slots.now }
    requires own { All (IsSlot opening.now.members) slots.now }
    requires span { IsSpan opening.now.rows slots.now span }
    ensures { OnOk result (text.new.text ++ rest_text opening.now.rows slots.now span.to
        ≡ text.old.text ++ rest_text opening.now.rows slots.now span.from) }
{
    let rows = opening.rows();
    let mut line = Vec::new(alloc);
    // The lines of the rows from the first on, up to the row, are to be lent. They begin at the place.
    let begin = kept.end_of(kept.above(), 0, span.from.row);
    let (mut first, mut row, mut place) = (span.from.row, span.from.row, begin);
    for at in span.from.slot..span.to.slot {
        let slot = &slots[at];
        let run = run_before(rows, row, &slot.key);
        row = run.next;
        if is_as_read(rows, run, &slot.held) {
            continue;
        }
        let end = kept.end_of(place, first, run.last);
        text.lend(place, end)?;
        put_held(text, &mut line, &slot.held)?;
        place = kept.end_of(end, run.last, run.next);
        first = run.next;
    }
    let end = kept.end_of(place, first, span.to.row);
    text.lend(place, end)
}

// Rows with lesser keys: the place after the last of them, and the one after the row that has the key.
#[derive(Clone, Copy)]
struct Run {
    last: usize,
    next: usize,
}

// The rows with lesser keys, from a row on.
fn run_before(rows: &Runs<Row>, row: usize, key: &Key) -> Run
    requires rise { IsAscending key_cmp row_key rows.now }
    requires before { AreBefore key_cmp row_key rows.now key.now row }
    ensures { IsRun rows.now row key.now result.last result.next }
{
    match place_near(rows, guess_from(rows, rows.len(), row, key), key) {
        Ok(at) => Run {
            last: at,
            next: at + 1,
        },
        Err(at) => Run { last: at, next: at },
    }
}

// Whether a slot holds the row that was read under its key, between two places, or none where none was.
fn is_as_read(rows: &Runs<Row>, run: Run, held: &Option<Row>) -> bool
    requires some { run.last ≤ run.next }
    requires one { run.next ≤ run.last + 1 }
    requires within { run.next ≤ length rows.now }
    ensures { IsTrue result → held_rows held.now ≡ take (run.next - run.last) (drop run.last rows.now) }
{
    match held {
        Some(row) => run.last < run.next && rows.at(run.last) == row,
        None => run.next == run.last,
    }
}

// Puts the line of the row that a slot holds.
fn put_held(text: &mut Patched, line: &mut Vec<u8>, held: &Option<Row>) -> Result<(), Memory>
    ensures { OnOk result (text.new ≡ record text.old { text = text.old.text ++ claims_text (held_rows held.now) }) }
{
    if let Some(row) = held {
        line.clear();
        put_claim(line, row)?;
        text.put(line)?;
    }
    Ok(())
}
