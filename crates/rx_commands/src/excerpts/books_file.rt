//! The books of some families.
ghost use Rattle.std.specs.Prelude.{◌≡◌, ◌↔◌, filter, IfErr, IfOk, IsTrue};
ghost use Rattle.rx_fields.specs.Order.{key_cmp};
ghost use Rattle.rx_sorted.specs.Ascending.{IsAscending};
ghost use Rattle.rx_ledger.specs.Ledger.{IsLedger};
ghost use Rattle.rx_ledger.specs.Members.{member_cmp, member_key};
ghost use Rattle.rx_ledger.specs.Rows.{row_key};
ghost use Rattle.rx_books_store.specs.BooksFile.{IsBooksText};
ghost use Rattle.rx_books_store.specs.BooksText.{books_text};
ghost use Rattle.rx_books_text.specs.declared.version.Version.TheVariants.{Three};
ghost use Rattle.rx_commands.specs.ExcerptParts.{is_one_of, ledger_of};
ghost use Rattle.rx_commands.specs.Excerpts.{IsNotWritten};

use crate::excerpts::fault::ExcerptFault;
use crate::excerpts::named::is_one_of;
use rx_books_store::Books;
use rx_books_text::BooksFault;
use rx_fields::{Id, Memory, Period};
use rx_ledger::{Ledger, Member, Row};
use rx_sorted::Ascending;
use std::alloc::Global;

/// The members and the claims of these families.
pub(crate) fn ledger_of(alloc: Global, families: &[Id], ledger: &Ledger) -> Result<Ledger, Memory>
    ensures value { IfOk result (λ kept. kept ≡ ledger_of families.now ledger.now) }
    ensures within { IfOk result (λ _. IsLedger ledger.now) }
{
    let members = members_of(alloc, families, ledger.members())?;
    let rows = rows_of(alloc, families, ledger.rows())?;
    Ok(Ledger::from_lists(members, rows))
}

fn members_of(
    alloc: Global,
    families: &[Id],
    members: &[Member],
) -> Result<Ascending<Member>, Memory>
    requires { IsAscending member_cmp member_key members.now }
    ensures { IfOk result (λ list. list ≡ filter (λ m. is_one_of families.now m.key.family) members.now) }
{
    let kept = kept_members(alloc, families, members)?;
    match Ascending::from_vec(kept) {
        Ok(kept) => Ok(kept),
        Err(_) => unreachable!(),
    }
}

fn kept_members(alloc: Global, families: &[Id], members: &[Member]) -> Result<Vec<Member>, Memory>
    ensures { IfOk result (λ list. list.items ≡ filter (λ m. is_one_of families.now m.key.family) members.now) }
{
    let kept = members
        .iter()
        .filter(|member| is_one_of(families, &member.key.family));
    Ok(kept.copied().collect(alloc)?)
}

fn rows_of(alloc: Global, families: &[Id], rows: &[Row]) -> Result<Ascending<Row>, Memory>
    requires { IsAscending key_cmp row_key rows.now }
    ensures { IfOk result (λ list. list ≡ filter (λ r. is_one_of families.now r.family) rows.now) }
{
    let kept = kept_rows(alloc, families, rows)?;
    match Ascending::from_vec(kept) {
        Ok(kept) => Ok(kept),
        Err(_) => unreachable!(),
    }
}

fn kept_rows(alloc: Global, families: &[Id], rows: &[Row]) -> Result<Vec<Row>, Memory>
    ensures { IfOk result (λ list. list.items ≡ filter (λ r. is_one_of families.now r.family) rows.now) }
{
    let kept = rows.iter().filter(|row| is_one_of(families, &row.family));
    Ok(kept.copied().collect(alloc)?)
}

/// The text of books of this ledger, which is read as they are. Refused where it has too many lines to be read.
pub(crate) fn books_text(
    alloc: Global,
    ledger: &Ledger,
    period: Period,
) -> Result<Vec<u8>, ExcerptFault>
    ensures text { IfOk result (λ text. IsBooksText text.items period ledger.now) }
    ensures refused { IfErr result (IsNotWritten period ledger.now) }
{
    let books = Books::from_ledger(alloc, ledger, period)?;
    let text = written(alloc, &books);
    drop(books);
    text
}

// The text of books, which is read as they are.
fn written(alloc: Global, books: &Books) -> Result<Vec<u8>, ExcerptFault>
    ensures text { IfOk result (λ text. IsBooksText text.items books.now.period books.now.ledger) }
    ensures refused { IfErr result (IsNotWritten books.now.period books.now.ledger) }
{
    let text = books.write(alloc)?;
    let is_text = reads_as(alloc, &text, books)?;
    if is_text {
        Ok(text)
    } else {
        Err(ExcerptFault::TooLong)
    }
}

// Whether a text is that of books.
fn reads_as(alloc: Global, text: &[u8], books: &Books) -> Result<bool, Memory>
    ensures { IfOk result (λ is. IsTrue is ↔ IsBooksText text.now books.now.period books.now.ledger) }
{
    match Books::read(alloc, text) {
        Ok(read) => {
            let is_same = read == *books;
            drop(read);
            Ok(is_same)
        }
        Err(BooksFault::Memory) => Err(Memory),
        Err(_) => Ok(false),
    }
}
