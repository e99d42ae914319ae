//! The text of books of which old claims leave, between the figures of the period; and the lines of those that leave.
ghost use Rattle.std.specs.Prelude.{◌≡◌, ◌≤◌, ◌++◌, IfOk, MatchOption, [], false, length};
ghost use Rattle.std.specs.Ordering.{is_gt};
ghost use Rattle.std.specs.List.{flat_map};
ghost use Rattle.std.specs.Vec.{vec_items};
ghost use Rattle.rx_fields.specs.Calendar.{Civil, IsCivil, day_cmp};
ghost use Rattle.rx_io.specs.Pieces.{text_of};
ghost use Rattle.rx_books_text.specs.declared.version.Version.TheVariants as versions;
ghost use Rattle.rx_books_store.specs.BooksText.{above_text, below_text, books_text, claims_text};
ghost use Rattle.rx_books_upkeep.specs.AgedText.{AreCut};
ghost use Rattle.rx_books_upkeep.specs.Ageing.{IsFirstSafe, IsSafe, aged, dropped};

use crate::cut_claims::{Cuts, cut_claims};
use crate::figured::above_and_below;
use crate::safe_day::first_day;
use crate::texts::AgedText;
use rx_books_store::{Books, OpenBooks};
use rx_fields::{Day, Memory, Period};
use rx_io::Pieces;
use std::alloc::Global;
use std::thread::{self, Threads};

/// The text of the books without the claims before a day, with the totals of this period, none of which counts one; and the
/// lines of these claims. The same books are open too.
pub(crate) fn aged_text<R: Threads + Sync>(
    rt: &R,
    alloc: Global,
    books: &Books,
    own: &OpenBooks,
    before: Day,
    period: Period,
    refill_percent: u64,
) -> Result<AgedText, Memory>
    requires same { own.now.books ≡ books.now }
    requires percent { refill_percent ≤ 100 }
    requires early { is_gt (day_cmp before period.first) ≡ false }
    ensures books { IfOk result (λ done. text_of done.books ≡ books_text versions.Three period (aged before books.now.ledger)) }
    ensures dropped { IfOk result (λ done. text_of done.dropped ≡ claims_text (dropped before books.now.ledger.rows)) }
    ensures left { IfOk result (λ done. done.left ≡ length (dropped before books.now.ledger.rows)) }
    ensures first_safe { IfOk result (λ done.
        MatchOption done.first_safe ((day : Civil) → IsCivil day → ¬ IsSafe refill_percent (dropped before books.now.ledger.rows) day)
        (IsFirstSafe refill_percent (dropped before books.now.ledger.rows))) }
{
    let (cuts, sides) = cuts_and_sides(rt, alloc, own, before, refill_percent, books, period);
    let (above, below) = sides?;
    match cuts? {
        Some(cuts) => text_of_cuts(alloc, cuts, above, below),
        None => Ok(AgedText {
            books: own.claims_between(alloc, above, &below)?,
            dropped: Pieces::Texts(Vec::new(alloc)),
            left: 0,
            first_safe: Some(first_day()),
        }),
    }
}

// The claims, cut, and what stands above and below them, side by side.
fn cuts_and_sides<R: Threads + Sync>(
    rt: &R,
    alloc: Global,
    own: &OpenBooks,
    day: Day,
    percent: u64,
    books: &Books,
    period: Period,
) -> (
    Result<Option<Cuts>, Memory>,
    Result<(Vec<u8>, Vec<u8>), Memory>,
)
    requires { percent ≤ 100 }
    ensures cuts { IfOk result.0 (λ found.
        MatchOption found (dropped day own.now.books.ledger.rows ≡ []) (AreCut percent day own.now.books.ledger.rows)) }
    ensures above { IfOk result.1 (λ sides. sides.0.items ≡ above_text period books.now.ledger) }
    ensures below { IfOk result.1 (λ sides. sides.1.items ≡ below_text period books.now.ledger) }
{
    thread::join(
        rt,
        || -> Result<Option<Cuts>, Memory>
            requires { percent ≤ 100 }
            ensures { IfOk result (λ found.
                MatchOption found (dropped day own.entry.now.books.ledger.rows ≡ [])
                (AreCut percent day own.entry.now.books.ledger.rows)) }
        { cut_claims(rt, alloc, own, day, percent) },
        || -> Result<(Vec<u8>, Vec<u8>), Memory>
            ensures above { IfOk result (λ sides. sides.0.items ≡ above_text period books.entry.now.ledger) }
            ensures below { IfOk result (λ sides. sides.1.items ≡ below_text period books.entry.now.ledger) }
        { sides_of(rt, alloc, books, period) },
    )
}

// What stands above and below the claims, with the totals of this period.
fn sides_of<R: Threads + Sync>(
    rt: &R,
    alloc: Global,
    books: &Books,
    period: Period,
) -> Result<(Vec<u8>, Vec<u8>), Memory>
    ensures above { IfOk result (λ sides. sides.0.items ≡ above_text period books.now.ledger) }
    ensures below { IfOk result (λ sides. sides.1.items ≡ below_text period books.now.ledger) }
{
    let copy = books.copy_in_parts(rt, alloc, period)?;
    sides_of_copy(rt, alloc, &copy)
}

fn sides_of_copy<R: Threads + Sync>(
    rt: &R,
    alloc: Global,
    books: &Books,
) -> Result<(Vec<u8>, Vec<u8>), Memory>
    ensures above { IfOk result (λ sides. sides.0.items ≡ above_text books.now.period books.now.ledger) }
    ensures below { IfOk result (λ sides. sides.1.items ≡ below_text books.now.period books.now.ledger) }
{
    let lent = books.lend(alloc)?;
    let books = lent.books();
    above_and_below(rt, alloc, books, books.members())
}

// The text of the claims that stay between what stands above and below them, and the lines of those that leave.
fn text_of_cuts(
    alloc: Global,
    cuts: Cuts,
    above: Vec<u8>,
    below: Vec<u8>,
) -> Result<AgedText, Memory>
    ensures books { IfOk result (λ done. text_of done.books ≡ above.items ++ (flat_map vec_items cuts.staying.items ++ below.items)) }
    ensures dropped { IfOk result (λ done. text_of done.dropped ≡ flat_map vec_items cuts.leaving.items) }
    ensures left { IfOk result (λ done. done.left ≡ cuts.left) }
    ensures first_safe { IfOk result (λ done. done.first_safe ≡ cuts.first_safe) }
{
    let Cuts {
        staying,
        leaving,
        left,
        first_safe,
    } = cuts;
    let mut texts = staying;
    texts.insert(0, above)?;
    texts.push(below)?;
    Ok(AgedText {
        books: Pieces::Texts(texts),
        dropped: Pieces::Texts(leaving),
        left,
        first_safe,
    })
}
