ghost use Rattle.std.specs.Prelude.{◌≡◌, true, IfOk};
ghost use Rattle.std.specs.Option.{option_copied};
ghost use Rattle.rx_check.specs.Warned.{AreWarningsBeside, AreWarningsOf, IsOtherPeriod, adjudicated_in, has_many_lines};
ghost use Rattle.rx_check.specs.Warned.{lines_in, may_pass_in, none_under_in, warns_of_nothing};

use crate::findings::Files;
use crate::ignored::ignored_keys;
use crate::warned::{adjudicated, feeds, has_none_under, may_pass, period_apart};
use rx_batch::Batch;
use rx_books_store::Books;
use rx_fields::{Memory, Period};
use rx_ledger::Sheet;
use std::alloc::Global;

/// What a run takes and an operator would hardly mean.
#[derive(Drop)]
pub struct Warnings {
    /// The keys of the sheet that are ignored, each with the known one that it is most like.
    pub ignored: Vec<String>,
    /// The books' period, where the sheet's is another.
    pub period: Option<Period>,
    /// Whether the batch has records, and none under the sheet's BIN and processor control number.
    pub none_under: bool,
    /// How many standing claims have a number of the batch's lot.
    pub adjudicated: usize,
    /// How many lines the books have.
    pub lines: usize,
    /// Whether the end books could have more than 1,000,000 lines.
    pub may_pass: bool,
}

// From this many lines on books are near their limit.
const MANY_LINES: usize = 900_000;

impl Warnings {
    /// Whether there is none.
    pub fn is_empty(&self) -> bool
        ensures { result ≡ warns_of_nothing self.now }
    {
        self.ignored.is_empty()
            && self.period.is_none()
            && !self.none_under
            && self.adjudicated == 0
            && !self.has_many_lines()
            && !self.may_pass
    }

    /// Whether the books have more than 900,000 lines.
    pub fn has_many_lines(&self) -> bool
        ensures { result ≡ has_many_lines self.now.lines }
    {
        self.lines > MANY_LINES
    }

    /// The warnings of what is taken of these inputs.
    pub(crate) fn of(
        alloc: Global,
        files: &Files<'_>,
        sheet: &Option<Sheet>,
        books: &Option<Books>,
        batch: &Option<Batch>,
    ) -> Result<Warnings, Memory>
        ensures { IfOk result (AreWarningsOf files.now sheet.now books.now batch.now) }
    {
        match sheet {
            Some(sheet) => Warnings::beside(alloc, files, sheet, books, batch),
            None => Ok(Warnings::none(alloc)),
        }
    }

    // Without a warning.
    fn none(alloc: Global) -> Warnings
        ensures nothing { warns_of_nothing result ≡ true }
        ensures lines { result.lines ≡ 0 }
    {
        Warnings {
            ignored: Vec::new(alloc),
            period: None,
            none_under: false,
            adjudicated: 0,
            lines: 0,
            may_pass: false,
        }
    }

    // The warnings given a plan.
    fn beside(
        alloc: Global,
        files: &Files<'_>,
        sheet: &Sheet,
        books: &Option<Books>,
        batch: &Option<Batch>,
    ) -> Result<Warnings, Memory>
        ensures { IfOk result (AreWarningsBeside files.now sheet.now books.now batch.now) }
    {
        let ignored = ignored_keys(alloc, files.sheet)?;
        let adjudicated = adjudicated_in(alloc, books, batch)?;
        let lines = lines_in(files.books, books);
        Ok(Warnings {
            ignored,
            period: other_period(sheet, books),
            none_under: none_under_in(sheet, batch),
            adjudicated,
            lines,
            may_pass: may_pass_in(lines, books, batch),
        })
    }
}

// The period of books that are of another one than the sheet.
fn other_period(sheet: &Sheet, books: &Option<Books>) -> Option<Period>
    ensures { IsOtherPeriod sheet.now books.now result }
{
    let Some(books) = books else {
        return None;
    };
    if period_apart(sheet.period(), books.period()) {
        Some(books.period())
    } else {
        None
    }
}

// How many lines books have that are taken.
fn lines_in(text: Option<&[u8]>, books: &Option<Books>) -> usize
    ensures { result ≡ lines_in (option_copied text.entry) books.now }
{
    match (text, books) {
        (Some(text), Some(_)) => feeds(text),
        _ => 0,
    }
}

// Whether a batch that is taken is of another plan.
fn none_under_in(sheet: &Sheet, batch: &Option<Batch>) -> bool
    ensures { result ≡ none_under_in sheet.now batch.now }
{
    match batch {
        Some(batch) => has_none_under(sheet.door(), batch.details.as_slice()),
        None => false,
    }
}

// How many standing claims have a number of the batch.
fn adjudicated_in(
    alloc: Global,
    books: &Option<Books>,
    batch: &Option<Batch>,
) -> Result<usize, Memory>
    ensures { IfOk result (λ count. count ≡ adjudicated_in books.now batch.now) }
{
    let (Some(books), Some(batch)) = (books, batch) else {
        return Ok(0);
    };
    let ledger = books.ledger(alloc)?;
    Ok(adjudicated(batch.head.lot(), ledger.rows()))
}

// Whether the end books could have too many lines.
fn may_pass_in(lines: usize, books: &Option<Books>, batch: &Option<Batch>) -> bool
    ensures { result ≡ may_pass_in lines books.now batch.now }
{
    match (books, batch) {
        (Some(_), Some(batch)) => may_pass(lines, batch.details.as_slice()),
        _ => false,
    }
}
