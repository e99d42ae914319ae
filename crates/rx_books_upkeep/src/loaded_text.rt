//! The text of books with the members of a table: the lines of the claims between the figures of all members.
ghost use Rattle.std.specs.Prelude.{◌≡◌, ◌+◌, IfOk, nat_lt};
ghost use Rattle.rx_fields.specs.declared.limits.TheConstants.{MOST_LINES};
ghost use Rattle.rx_io.specs.Pieces.{text_of};
ghost use Rattle.rx_ledger.specs.Ledger.{IsLedger};
ghost use Rattle.rx_books_text.specs.Printed.{line_feeds};
ghost use Rattle.rx_books_upkeep.specs.ChangeKinds.{counts_in};
ghost use Rattle.rx_books_store.specs.BooksText.{above_text, below_text};
ghost use Rattle.rx_books_upkeep.specs.Loading.{changes_of, loaded};
ghost use Rattle.rx_books_upkeep.specs.LoadedText.{AreLoaded, HasLineEach};
ghost use Rattle.rx_books_upkeep.specs.TextFault.{GivesAs};
ghost use Rattle.rx_books_upkeep.specs.Texts.{readable, seen_members, with_members};

use crate::change::{Loaded, MemberChange, changes_of, counted};
use crate::figured::above_and_below;
use crate::merging::merged_list;
use crate::table::line_feeds;
use crate::text_fault::UpkeepFault;
use crate::texts::MembersText;
use rx_books_store::{Books, OpenBooks};
use rx_fields::{MOST_LINES, Memory};
use rx_io::Pieces;
use rx_ledger::Member;
use rx_sorted::Ascending;
use std::alloc::Global;
use std::thread::{self, Threads};

/// What stands above and below the claims of books with the members of a table, and what each of these comes to.
#[derive(Drop)]
pub(crate) struct LoadedSides {
    pub(crate) above: Vec<u8>,
    pub(crate) below: Vec<u8>,
    pub(crate) changes: Vec<MemberChange>,
    pub(crate) counts: Loaded,
}

/// The text of the books with the members of a table, if it can be read again. Each claim of the books has one line.
pub(crate) fn loaded_text<R: Threads + Sync>(
    rt: &R,
    alloc: Global,
    books: &Books,
    table: &Ascending<Member>,
) -> Result<MembersText, UpkeepFault>
    requires { HasLineEach books.now.ledger.rows }
    ensures text { GivesAs seen_members result (readable (with_members books.now table.now)) }
    ensures changes { IfOk result (λ done. changes_of books.now.ledger table.now ≡ done.changes.items) }
{
    let lent = books.lend(alloc)?;
    let books = lent.books();
    let claims = books.claims();
    let sides = sides_of(rt, alloc, books, table)?;
    if is_long(&sides.above, claims, &sides.below) {
        return Err(UpkeepFault::TooMuch);
    }
    let end_books = books.claims_between(alloc, sides.above, &sides.below)?;
    Ok(MembersText {
        books: end_books,
        counts: sides.counts,
        changes: sides.changes,
    })
}

// What stands above and below the claims with these members too, and what these come to, side by side.
fn sides_of<R: Threads + Sync>(
    rt: &R,
    alloc: Global,
    books: &OpenBooks,
    table: &Ascending<Member>,
) -> Result<LoadedSides, Memory>
    requires { IsLedger books.now.books.ledger }
    ensures { IfOk result (AreLoaded books.now.books table.now) }
{
    let (changes, sides) = thread::join(
        rt,
        || -> Result<(Vec<MemberChange>, Loaded), Memory>
            ensures changes { IfOk result (λ made. made.0.items ≡ changes_of books.entry.now.books.ledger table.entry.now) }
            ensures counts { IfOk result (λ made. made.1 ≡ counts_in made.0.items) }
        { counted_changes(alloc, books, table) },
        || -> Result<(Vec<u8>, Vec<u8>), Memory>
            requires { IsLedger books.now.books.ledger }
            ensures above { IfOk result (λ sides. sides.0.items
                ≡ above_text books.entry.now.books.period (loaded books.entry.now.books.ledger table.entry.now)) }
            ensures below { IfOk result (λ sides. sides.1.items
                ≡ below_text books.entry.now.books.period (loaded books.entry.now.books.ledger table.entry.now)) }
        { figures_of(rt, alloc, books, table) },
    );
    let (changes, counts) = changes?;
    let (above, below) = sides?;
    Ok(LoadedSides {
        above,
        below,
        changes,
        counts,
    })
}

// What the members of the table come to, and how many there are of each kind.
fn counted_changes(
    alloc: Global,
    books: &OpenBooks,
    table: &Ascending<Member>,
) -> Result<(Vec<MemberChange>, Loaded), Memory>
    ensures changes { IfOk result (λ made. made.0.items ≡ changes_of books.now.books.ledger table.now) }
    ensures counts { IfOk result (λ made. made.1 ≡ counts_in made.0.items) }
{
    let changes = changes_of(alloc, books.members(), table.as_slice())?;
    let counts = counted(&changes);
    Ok((changes, counts))
}

// What stands above and below the claims with these members too.
fn figures_of<R: Threads + Sync>(
    rt: &R,
    alloc: Global,
    books: &OpenBooks,
    table: &Ascending<Member>,
) -> Result<(Vec<u8>, Vec<u8>), Memory>
    requires { IsLedger books.now.books.ledger }
    ensures above { IfOk result (λ sides. sides.0.items ≡ above_text books.now.books.period (loaded books.now.books.ledger table.now)) }
    ensures below { IfOk result (λ sides. sides.1.items ≡ below_text books.now.books.period (loaded books.now.books.ledger table.now)) }
{
    let members = merged_list(alloc, books.members(), table.as_slice())?;
    above_and_below(rt, alloc, books, &members)
}

// Whether books have more lines than are read again: of what stands above and below the claims, and of the claims.
fn is_long(above: &[u8], claims: usize, below: &[u8]) -> bool
    ensures { result ≡ nat_lt MOST_LINES (line_feeds above.now + line_feeds below.now + claims) }
{
    let others = line_feeds(above).saturating_add(line_feeds(below));
    others.saturating_add(claims) > MOST_LINES
}
