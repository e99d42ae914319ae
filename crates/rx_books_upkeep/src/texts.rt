//! Books kept up from text to text.
ghost use Rattle.std.specs.Prelude.{◌≡◌, ◌≤◌, IfOk, MatchOption, Ok, unwrap_or};
ghost use Rattle.std.specs.Arc.{arc_value};
ghost use Rattle.rx_fields.specs.Calendar.{Civil, IsCivil};
ghost use Rattle.rx_io.specs.Pieces.{text_of};
ghost use Rattle.rx_books_store.specs.Figures.{books_of};
ghost use Rattle.rx_books_store.specs.LedgerBooks.{LedgerBooks};
ghost use Rattle.rx_books_upkeep.specs.Ageing.{IsFirstSafe, IsSafe, dropped};
ghost use Rattle.rx_books_upkeep.specs.LoadedText.{HasLineEach, ReadsLines};
ghost use Rattle.rx_books_upkeep.specs.TextFault.{GivesAs};
ghost use Rattle.rx_books_upkeep.specs.Texts.{aged_made, changes_made, changes_put, listed, members_founded, members_made, members_put, no_books};
ghost use Rattle.rx_books_upkeep.specs.Texts.{opened, seen_aged, seen_members, within_period};

use crate::aged_text::aged_text;
use crate::change::{Loaded, MemberChange};
use crate::loaded_text::loaded_text;
use crate::table::read_members;
use crate::text_fault::UpkeepFault;
use rx_books_store::Books;
use rx_books_text::BooksFault;
use rx_fields::{Day, Period};
use rx_io::Pieces;
use rx_ledger::{Ledger, Member};
use rx_sorted::Ascending;
use std::alloc::Global;
use std::sync::Arc;
use std::thread::{self, Threads};

/// What became of books into which a members table was loaded.
#[derive(Drop)]
pub struct MembersText {
    /// The text of the end books.
    pub books: Pieces,
    /// How many members of the table came in, changed and stayed.
    pub counts: Loaded,
    /// What each member of the table came to, in the order of family and person.
    pub changes: Vec<MemberChange>,
}

/// What became of books of which old claims left.
#[derive(Drop)]
pub struct AgedText {
    /// The text of the end books.
    pub books: Pieces,
    /// The lines of the claims that left, as in a books file.
    pub dropped: Pieces,
    /// How many claims left.
    pub left: usize,
    /// The first day from which on no batch shows that they left; None where the calendar ends before.
    pub first_safe: Option<Day>,
}

/// The text of the books with the members of a table (docs/RULES.md, "Loading members"). The books are read in this many
/// parts, each by a thread of its own. The lines of the claims are lent from their text, if it is one of version 3.
///
/// # Errors
///
/// `Books`, then `Table`, then `TooMuch`; `Memory` in the place of any.
pub fn members_text<R: Threads + Sync>(
    rt: &R,
    alloc: Global,
    parts: usize,
    books: &Arc<Vec<u8>, Global>,
    table: &[u8],
) -> Result<MembersText, UpkeepFault>
    ensures text { GivesAs seen_members result (members_made (arc_value books.now).items table.now) }
    ensures changes { IfOk result (λ done. changes_made (arc_value books.now).items table.now ≡ Ok done.changes.items) }
{
    let (books, table) = read_both(rt, alloc, parts, books, table);
    let books = books?;
    let table = table?;
    let done = loaded_text(rt, alloc, &books, &table);
    free(rt, books);
    done
}

/// The text of the first books of a plan, with the members of a table (docs/RULES.md, "Loading members").
///
/// # Errors
///
/// `Table`, then `TooMuch`; `Memory` in the place of either.
pub fn founded_text<R: Threads + Sync>(
    rt: &R,
    alloc: Global,
    period: Period,
    table: &[u8],
) -> Result<MembersText, UpkeepFault>
    ensures text { GivesAs seen_members result (members_founded period table.now) }
    ensures changes { IfOk result (λ done. changes_put table.now (no_books period) ≡ Ok done.changes.items) }
{
    let none = Books::from_ledger(alloc, &Ledger::new(alloc), period)?;
    let done = with_table(rt, alloc, &none, table);
    drop(none);
    done
}

// The text of these books with the members of a table.
fn with_table<R: Threads + Sync>(
    rt: &R,
    alloc: Global,
    books: &Books,
    table: &[u8],
) -> Result<MembersText, UpkeepFault>
    requires { HasLineEach books.now.ledger.rows }
    ensures text { GivesAs seen_members result (members_put table.now books.now) }
    ensures changes { IfOk result (λ done. changes_put table.now books.now ≡ Ok done.changes.items) }
{
    let table = listed(alloc, table)?;
    loaded_text(rt, alloc, books, &table)
}

/// The text of the books without the claims before a day, and the lines of these; with the totals of this period, or of
/// the books' own. The first safe day is that of plans whose refill percentage is at most this one (docs/RULES.md, "Ageing").
/// The books are read in this many parts, each by a thread of its own.
///
/// # Errors
///
/// `Books`, then `AfterPeriod`; `Memory` in the place of either.
pub fn age_text<R: Threads + Sync>(
    rt: &R,
    alloc: Global,
    parts: usize,
    books: &Arc<Vec<u8>, Global>,
    before: Day,
    period: Option<Period>,
    refill_percent: u64,
) -> Result<AgedText, UpkeepFault>
    requires { refill_percent ≤ 100 }
    ensures text { GivesAs seen_aged result (aged_made (arc_value books.now).items before period) }
    ensures first_safe { IfOk result (λ done. (b : LedgerBooks) → books_of (arc_value books.now).items ≡ Ok b
        → MatchOption done.first_safe ((day : Civil) → IsCivil day → ¬ IsSafe refill_percent (dropped before b.ledger.rows) day)
        (IsFirstSafe refill_percent (dropped before b.ledger.rows))) }
{
    let opened = opened(rt, alloc, parts, books)?;
    let done = age(rt, alloc, &opened, before, period, refill_percent);
    free(rt, opened);
    done
}

// The same of these books.
fn age<R: Threads + Sync>(
    rt: &R,
    alloc: Global,
    books: &Books,
    before: Day,
    period: Option<Period>,
    refill_percent: u64,
) -> Result<AgedText, UpkeepFault>
    requires { refill_percent ≤ 100 }
    ensures text { GivesAs seen_aged result (within_period before (unwrap_or period books.now.period) books.now) }
    ensures first_safe { IfOk result (λ done.
        MatchOption done.first_safe ((day : Civil) → IsCivil day → ¬ IsSafe refill_percent (dropped before books.now.ledger.rows) day)
        (IsFirstSafe refill_percent (dropped before books.now.ledger.rows))) }
{
    let period = period.unwrap_or(books.period());
    if before > period.first() {
        return Err(UpkeepFault::AfterPeriod);
    }
    let lent = books.lend(alloc)?;
    let own = lent.books();
    Ok(aged_text(rt, alloc, books, own, before, period, refill_percent)?)
}

// Frees the books, by a thread of its own where one can be started: nobody waits for it.
fn free<R: Threads>(rt: &R, books: Books) {
    let _ = thread::spawn(rt, move || drop(books));
}

// The books and the members of these texts, each read on a thread of its own.
fn read_both<R: Threads + Sync>(
    rt: &R,
    alloc: Global,
    parts: usize,
    books: &Arc<Vec<u8>, Global>,
    table: &[u8],
) -> (
    Result<Books, UpkeepFault>,
    Result<Ascending<Member>, UpkeepFault>,
)
    ensures books { GivesAs (λ b. b) result.0 (opened (arc_value books.now).items) }
    ensures lines { ReadsLines result.0 }
    ensures table { GivesAs (λ ms. ms) result.1 (listed table.now) }
{
    thread::join(
        rt,
        || -> Result<Books, UpkeepFault>
            ensures books { GivesAs (λ b. b) result (opened (arc_value books.entry.now).items) }
            ensures lines { ReadsLines result }
        { opened(rt, alloc, parts, books) },
        || -> Result<Ascending<Member>, UpkeepFault>
            ensures { GivesAs (λ ms. ms) result (listed table.entry.now) }
        { listed(alloc, table) },
    )
}

// The books of a text.
fn opened<R: Threads + Sync>(
    rt: &R,
    alloc: Global,
    parts: usize,
    text: &Arc<Vec<u8>, Global>,
) -> Result<Books, UpkeepFault>
    ensures books { GivesAs (λ b. b) result (opened (arc_value text.now).items) }
    ensures lines { ReadsLines result }
{
    match Books::read_shared(rt, alloc, parts, text) {
        Ok(books) => Ok(books),
        Err(BooksFault::Memory) => Err(UpkeepFault::Memory),
        Err(fault) => Err(UpkeepFault::Books(fault)),
    }
}

// The members of a table.
fn listed(alloc: Global, text: &[u8]) -> Result<Ascending<Member>, UpkeepFault>
    ensures { GivesAs (λ ms. ms) result (listed text.now) }
{
    Ok(read_members(alloc, text)?)
}
