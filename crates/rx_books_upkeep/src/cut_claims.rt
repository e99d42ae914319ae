//! Claims that are cut into those that leave and those that stay: parts of them, each by a thread of its own.
ghost use Rattle.std.specs.Prelude.{◌≡◌, ◌≤◌, ◌++◌, ◌∷◌, ℕ, List, [], IfOk, OnOk, IsTrue, MatchOption};
ghost use Rattle.std.specs.List.{AllZip, flat_map};
ghost use Rattle.rx_fields.specs.Calendar.{Civil, IsCivil};
ghost use Rattle.rx_ledger.specs.declared.row.Row.{Row};
ghost use Rattle.rx_books_store.specs.BooksText.{claims_text};
ghost use Rattle.rx_books_upkeep.specs.Ageing.{dropped};
ghost use Rattle.rx_books_upkeep.specs.AgedText.{AreCut, IsCut};

use crate::ageing::is_before;
use crate::safe_day::{first_day, later_of, over_from};
use rayon::prelude::*;
use rx_books_store::{OpenBooks, ReadClaims};
use rx_books_text::put_claim;
use rx_fields::{Day, Memory};
use rx_ledger::Row;
use std::alloc::Global;
use std::thread::Threads;

/// The lines of claims that stay, and of those that leave.
#[derive(Drop)]
pub(crate) struct CutClaims {
    staying: Vec<u8>,
    leaving: Vec<u8>,
    // How many leave.
    left: usize,
    // The first day from which on these are over; None where the calendar ends before.
    first_safe: Option<Day>,
}

/// The same of all claims, the lines in parts.
#[derive(Drop)]
pub(crate) struct Cuts {
    pub(crate) staying: Vec<Vec<u8>>,
    pub(crate) leaving: Vec<Vec<u8>>,
    pub(crate) left: usize,
    pub(crate) first_safe: Option<Day>,
}

/// The claims, cut into those that leave before a day and those that stay; None where all stay.
pub(crate) fn cut_claims<R: Threads + Sync>(
    rt: &R,
    alloc: Global,
    books: &OpenBooks,
    day: Day,
    percent: u64,
) -> Result<Option<Cuts>, Memory>
    requires { percent ≤ 100 }
    ensures { IfOk result (λ found.
        MatchOption found (dropped day books.now.books.ledger.rows ≡ []) (AreCut percent day books.now.books.ledger.rows)) }
{
    if all_stay(books, day) {
        return Ok(None);
    }
    match books.read_claims(alloc)? {
        Some(claims) => {
            let found = cut_each(rt, alloc, &claims, day, percent)?;
            Ok(Some(gathered(alloc, found)?))
        }
        None => Ok(Some(cut_in_one(alloc, books, day, percent)?)),
    }
}

// Whether no claim is dated before a day.
fn all_stay(books: &OpenBooks, day: Day) -> bool
    ensures { IsTrue result → dropped day books.now.books.ledger.rows ≡ [] }
{
    let mut standing = books.standing();
    'rows: while let Some((row, _)) = standing.next_row() {
        if is_before(day, row) {
            return false;
        }
    }
    true
}

// Each part of the claims cut, by as many threads as there are processors.
fn cut_each<R: Threads + Sync>(
    rt: &R,
    alloc: Global,
    parts: &[ReadClaims],
    day: Day,
    percent: u64,
) -> Result<Vec<CutClaims>, Memory>
    requires { percent ≤ 100 }
    ensures { IfOk result (λ cuts. AllZip (IsCut percent day) parts.now cuts.items) }
{
    parts
        .par_iter()
        .with_min_len(1)
        .map(
            move |part: &ReadClaims| -> Result<CutClaims, Memory>
                requires { percent ≤ 100 }
                ensures { IfOk result (IsCut percent day part.now) }
            { cut_part(alloc, part, day, percent) },
        )
        .collect::<Result<Vec<CutClaims>, Memory>>(rt, alloc)?
}

// The claims of a part, cut: their lines are copied.
fn cut_part(alloc: Global, part: &ReadClaims, day: Day, percent: u64) -> Result<CutClaims, Memory>
    requires { percent ≤ 100 }
    ensures { IfOk result (IsCut percent day part.now) }
{
    let mut claims = part.again();
    let mut cut = CutClaims::none(alloc, claims.lines().len())?;
    'claims: while let Some((row, line)) = claims.next_claim() {
        cut.take(day, percent, row, line)?;
    }
    Ok(cut)
}

// What was found in each part, one after another.
fn gathered(alloc: Global, found: Vec<CutClaims>) -> Result<Cuts, Memory>
    ensures { (percent : ℕ) (day : Civil) (parts : List (List Row)) → AllZip (IsCut percent day) parts found.items
        → IfOk result (AreCut percent day (flat_map (λ part. part) parts)) }
{
    let mut cuts = Cuts::none(alloc);
    for cut in found {
        cuts.take(cut)?;
    }
    Ok(cuts)
}

// The claims of books that keep no text, cut in one part.
fn cut_in_one(alloc: Global, books: &OpenBooks, day: Day, percent: u64) -> Result<Cuts, Memory>
    requires { percent ≤ 100 }
    ensures { IfOk result (AreCut percent day books.now.books.ledger.rows) }
{
    let cut = cut_standing(alloc, books, day, percent)?;
    let mut cuts = Cuts::none(alloc);
    cuts.take(cut)?;
    Ok(cuts)
}

// The same: their lines are written.
fn cut_standing(
    alloc: Global,
    books: &OpenBooks,
    day: Day,
    percent: u64,
) -> Result<CutClaims, Memory>
    requires { percent ≤ 100 }
    ensures { IfOk result (IsCut percent day books.now.books.ledger.rows) }
{
    let mut cut = CutClaims::none(alloc, 0)?;
    let mut line = Vec::new(alloc);
    let mut standing = books.standing();
    'rows: while let Some((row, _)) = standing.next_row() {
        line.clear();
        put_claim(&mut line, row)?;
        cut.take(day, percent, row, &line)?;
    }
    Ok(cut)
}

impl CutClaims {
    // No claim, with room for lines of this many bytes.
    fn none(alloc: Global, room: usize) -> Result<CutClaims, Memory>
        ensures { (percent : ℕ) (day : Civil) → IfOk result (IsCut percent day []) }
    {
        Ok(CutClaims {
            staying: Vec::with_capacity(alloc, room)?,
            leaving: Vec::with_capacity(alloc, room)?,
            left: 0,
            first_safe: Some(first_day()),
        })
    }

    // Takes one claim more, with its line.
    fn take(&mut self, day: Day, percent: u64, row: &Row, line: &[u8]) -> Result<(), Memory>
        requires percent { percent ≤ 100 }
        requires line { line.now ≡ claims_text (row.now ∷ []) }
        ensures { (rows : List Row) → IsCut percent day rows self.old → OnOk result (IsCut percent day (rows ++ row.now ∷ []) self.new) }
    {
        if !is_before(day, row) {
            self.staying.extend_from_slice(line)?;
            return Ok(());
        }
        self.leaving.extend_from_slice(line)?;
        self.left = self.left.checked_add(1).ok_or(Memory)?;
        self.first_safe = later_of(self.first_safe, over_from(row, percent));
        Ok(())
    }
}

impl Cuts {
    // No claim.
    fn none(alloc: Global) -> Cuts
        ensures { (percent : ℕ) (day : Civil) → AreCut percent day [] result }
    {
        Cuts {
            staying: Vec::new(alloc),
            leaving: Vec::new(alloc),
            left: 0,
            first_safe: Some(first_day()),
        }
    }

    // Takes the claims of one part more.
    fn take(&mut self, cut: CutClaims) -> Result<(), Memory>
        ensures { (percent : ℕ) (day : Civil) (rows more : List Row) → AreCut percent day rows self.old → IsCut percent day more cut
            → OnOk result (AreCut percent day (rows ++ more) self.new) }
    {
        let CutClaims {
            staying,
            leaving,
            left,
            first_safe,
        } = cut;
        self.staying.push(staying)?;
        self.leaving.push(leaving)?;
        self.left = self.left.checked_add(left).ok_or(Memory)?;
        self.first_safe = later_of(self.first_safe, first_safe);
        Ok(())
    }
}
