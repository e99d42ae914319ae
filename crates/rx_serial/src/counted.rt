ghost use Rattle.std.specs.Prelude.{◌≡◌, ◌+◌, ◌<◌, ◌≤◌, length, IfNone, IfOk, IfSome, IsTrue, false, true};
ghost use Rattle.std.specs.List.{All};
ghost use Rattle.rx_serial.specs.declared.fill.FillKey.{FillKey};
ghost use Rattle.rx_serial.specs.Fills.{AreCounted, concerns, count_among, count_at, fill_at, fills_in, has_member_mark};
ghost use Rattle.rx_serial.specs.Fills.{is_counted, one_of};
ghost use Rattle.rx_ledger.specs.Ledger.{IsLedger};
ghost use Rattle.rx_ledger.specs.Members.{member_cmp, member_key};
ghost use Rattle.rx_ledger.specs.Rows.{member_of_row};
ghost use Rattle.rx_sorted.specs.Ascending.{IsAscending, IsAt};

use crate::billed::longest_of;
use crate::fill::{Entry, Fill, FillKey, FirstDay, fill_at, tally_near};
use crate::marks::{Marks, marks_of};
use crate::refill::{Refill, are_left};
use rx_books_store::{OpenBooks, Standing};
use rx_fields::{Days, Memory};
use rx_ledger::Row;
use rx_sorted::Ascending;
use std::alloc::Global;

/// The counts of fills; and for each transaction of the records, where the entry of its own fill is among them, if it has
/// one. What is looked up there is compared.
#[derive(Drop)]
pub(crate) struct Counts {
    pub(crate) fills: Ascending<Fill>,
    pub(crate) places: Vec<usize>,
}

/// The counts; the marks and the first day by which they were made; and the longest days supply of all that is counted.
#[derive(Drop)]
pub(crate) struct Tally {
    pub(crate) marks: Marks,
    pub(crate) first_day: FirstDay,
    pub(crate) fills: Ascending<Fill>,
    pub(crate) places: Vec<usize>,
    pub(crate) longest: Days,
}

/// The counts for this many transactions, with marks for the members and courses of these entries.
pub(crate) fn tally_of(
    alloc: Global,
    books: &OpenBooks,
    own: Vec<Entry>,
    transactions: usize,
) -> Result<Tally, Memory>
    requires { All (λ e. e.fill.count ≡ 0) own.items }
    ensures counted { let L = books.now.books.ledger in
        IfOk result (λ t. AreCounted (is_counted t.marks t.first_day) L.members L.rows t.fills) }
    ensures longest { IfOk result (λ t. All (λ f. f.key.when.days ≤ t.longest) t.fills) }
    ensures within { IfOk result (λ _. IsLedger books.now.books.ledger) }
{
    let marks = marks_of(alloc, books.members().len(), &own)?;
    let first_day = first_day_of(&own);
    let Counts { fills, places } = counted(alloc, books, &marks, first_day, own, transactions)?;
    let longest = longest_of(fills.as_slice());
    Ok(Tally {
        marks,
        first_day,
        fills,
        places,
        longest,
    })
}

// The counts for this many transactions, of the fills of courses that have a mark, as far as days of them are left on
// the first day. There is an entry for each of the records' own fills, so that counting these asks for no memory later
// on.
fn counted(
    alloc: Global,
    books: &OpenBooks,
    marks: &Marks,
    first_day: FirstDay,
    own: Vec<Entry>,
    transactions: usize,
) -> Result<Counts, Memory>
    requires { All (λ e. e.fill.count ≡ 0) own.items }
    ensures counted { let L = books.now.books.ledger in
        IfOk result (λ counted. AreCounted (is_counted marks.now first_day) L.members L.rows counted.fills) }
    ensures within { IfOk result (λ _. IsLedger books.now.books.ledger) }
{
    let mut found = found(books, marks, first_day, own)?;
    found.sort_unstable_by_key(|entry| packed(&entry.fill.key));
    all_tallied(alloc, &found, transactions)
}

// The fill in one number, by which fills are in the order of their keys: the member's place, 37 bits for the product, 32 for
// the day and 10 for its days supply. Nothing is promised of it: entries in another order are counted the same, slower.
fn packed(key: &FillKey) -> u128 {
    let course = ((key.course.holder as u128) << 37) | u128::from(key.course.product.number());
    let day = (i64::from(key.when.number) + (1 << 31)) as u128;
    (course << 42) | (day << 10) | u128::from(key.when.days.get())
}

// The first day of these entries' fills; the last day of all if there is none.
fn first_day_of(entries: &[Entry]) -> FirstDay {
    let mut number = i32::MAX;
    for entry in entries {
        number = number.min(entry.fill.key.when.number);
    }
    FirstDay { number }
}

/// Whether all fills that concern a refill are counted.
pub(crate) fn are_counted_for(marks: &Marks, first_day: FirstDay, refill: &Refill) -> bool
    requires { refill.now.percent ≤ 100 }
    ensures { IsTrue result → (k : FillKey) → concerns refill.now k ≡ true → is_counted marks.now first_day k ≡ true }
{
    if refill.number < first_day.number {
        return false;
    }
    marks.has(&refill.course)
}

// Whether the fill is counted: one of a course that has a mark, of which days are left on the first day.
fn is_counted(marks: &Marks, first_day: FirstDay, key: &FillKey) -> bool
    ensures { result ≡ is_counted marks.now first_day key.now }
{
    are_left(first_day.number, key.when.number, key.when.days, 100) && marks.has(&key.course)
}

// The fill of a row, by the place of its member, where it is counted.
fn counted_fill(marks: &Marks, first_day: FirstDay, holder: usize, row: &Row) -> Option<FillKey>
    ensures some { IfSome result (λ key. key ≡ fill_at holder row.now) }
    ensures none { IfNone result (is_counted marks.now first_day (fill_at holder row.now) ≡ false) }
{
    if !marks.has_member(holder) {
        return None;
    }
    let key = fill_at(holder, row);
    if is_counted(marks, first_day, &key) {
        Some(key)
    } else {
        None
    }
}

// The next row that stands, with the place of its member. Rows of members who have no mark, as most are, are passed at once.
fn next_of_marked<'a>(standing: &mut Standing<'a>, marks: &Marks) -> Option<(&'a Row, usize)>
    requires { IsAscending member_cmp member_key standing.old.members }
    ensures none { IfNone result ((k : FillKey) → has_member_mark marks.now.members.items k.course.holder ≡ true
        → fills_in standing.old.members standing.old.rows k ≡ 0) }
    ensures row { IfSome result (λ r. (k : FillKey) → has_member_mark marks.now.members.items k.course.holder ≡ true
        → fills_in standing.old.members standing.old.rows k
        ≡ one_of standing.old.members k r.0.now + fills_in standing.old.members standing.new.rows k) }
    ensures holder { IfSome result (λ r. IsAt member_cmp member_key standing.old.members (member_of_row r.0.now) r.1) }
    ensures members { standing.new.members ≡ standing.old.members }
    ensures fewer { IfSome result (λ r. length standing.new.rows < length standing.old.rows) }
{
    standing.pass_unmarked(&marks.members);
    standing.next_row()
}

// These entries, and one for each standing claim whose fill is counted.
fn found(
    books: &OpenBooks,
    marks: &Marks,
    first_day: FirstDay,
    own: Vec<Entry>,
) -> Result<Vec<Entry>, Memory>
    requires { All (λ e. e.fill.count ≡ 0) own.items }
    ensures counts { let L = books.now.books.ledger in
        IfOk result (λ found. (k : FillKey) → is_counted marks.now first_day k ≡ true
        → count_among found.items k ≡ fills_in L.members L.rows k) }
    ensures within { IfOk result (λ _. IsLedger books.now.books.ledger) }
{
    let mut found = own;
    let mut standing = books.standing();
    while let Some((row, holder)) = next_of_marked(&mut standing, marks) {
        if let Some(key) = counted_fill(marks, first_day, holder, row) {
            found.push(Entry {
                fill: Fill { key, count: 1 },
                transaction: usize::MAX,
            })?;
        }
    }
    Ok(found)
}

// The counts of all these entries, and where each transaction's is.
fn all_tallied(alloc: Global, found: &[Entry], transactions: usize) -> Result<Counts, Memory>
    ensures { IfOk result (λ counted. (k : FillKey) → count_at counted.fills k ≡ count_among found.now k) }
{
    let mut fills = Ascending::new(alloc);
    let mut places = vec![in alloc; 0usize; transactions]?;
    for entry in found {
        let last = fills.len().saturating_sub(1);
        tally_near(&mut fills, &[last], entry.fill)?;
        if let Some(place) = places.get_mut(entry.transaction) {
            *place = fills.len().saturating_sub(1);
        }
    }
    Ok(Counts { fills, places })
}
