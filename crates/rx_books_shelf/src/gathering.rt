ghost use Rattle.std.specs.Prelude.{◌≡◌, ◌≤◌, [], IfOk, OnOk, map, true};
ghost use Rattle.std.specs.List.{All};
ghost use Rattle.rx_fields.specs.declared.limits.TheConstants.{MOST_CENTS};
ghost use Rattle.rx_fields.specs.Order.{id_cmp, key_cmp};
ghost use Rattle.rx_sorted.specs.Ascending.{IsAscending, is_past, itself};
ghost use Rattle.rx_ledger.specs.Ledger.{IsLedger, is_listed, members_of};
ghost use Rattle.rx_ledger.specs.Members.{member_cmp, member_key};
ghost use Rattle.rx_ledger.specs.Rows.{member_of_row, row_key};
ghost use Rattle.rx_ledger.specs.Sums.{paid_by_patient};
ghost use Rattle.rx_books_family.specs.FamilyBook.{empty_book, family_of, own_ledger};
ghost use Rattle.rx_books_shelf.specs.Gathered.{with_members, with_own_member, with_own_row, with_rows};
ghost use Rattle.rx_books_shelf.specs.Opened.{opened_book};

use crate::rooms::{home_at, homes_of, rooms_of};
use crate::unsummed::{Room, Unsummed};
use rx_books_store::OpenBooks;
use rx_fields::{Id, Memory, Period};
use rx_ledger::{Member, Row};
use rx_sorted::place_near;
use std::alloc::Global;

/// The books of these families, gathered in one pass over the rows that stand; their totals are still to come.
pub(crate) fn gathered(
    alloc: Global,
    open: &OpenBooks,
    families: &[Id],
) -> Result<Vec<Unsummed>, Memory>
    requires { IsAscending id_cmp itself families.now }
    ensures value { IfOk result (λ books. books.items ≡ map (opened_book open.now.books) families.now) }
    ensures within { IfOk result (λ _. IsLedger open.now.books.ledger) }
{
    let homes = homes_of(alloc, open.members(), families)?;
    let rooms = rooms_of(alloc, open, families, &homes)?;
    let mut books = empty_books(alloc, families, open.period(), &rooms)?;
    put_members(&mut books, open, &homes)?;
    put_rows(&mut books, open, &homes)?;
    Ok(books)
}

// The books of these families, without members and rows, and with room for this many of each.
fn empty_books(
    alloc: Global,
    families: &[Id],
    period: Period,
    rooms: &[Room],
) -> Result<Vec<Unsummed>, Memory>
    ensures { IfOk result (λ books. books.items ≡ map (empty_book period) families.now) }
{
    let mut books = Vec::with_capacity(alloc, families.len())?;
    put_books(alloc, &mut books, families, period, rooms)?;
    Ok(books)
}

// Puts the books of these families, of which none is there yet.
fn put_books(
    alloc: Global,
    books: &mut Vec<Unsummed>,
    families: &[Id],
    period: Period,
    rooms: &[Room],
) -> Result<(), Memory>
    requires { books.old.items ≡ [] }
    ensures { OnOk result (books.new.items ≡ map (empty_book period) families.now) }
{
    for family in families {
        let room = rooms.get(books.len()).copied().unwrap_or(Room::NONE);
        let book = Unsummed::new(alloc, *family, period, room)?;
        books.push(book)?;
    }
    Ok(())
}

// Puts each member into the book of its family, if it is there. The homes say where to look for it.
fn put_members(books: &mut Vec<Unsummed>, open: &OpenBooks, homes: &[u32]) -> Result<(), Memory>
    requires rise { IsAscending id_cmp family_of books.old.items }
    requires none { All (λ b. b.members ≡ []) books.old.items }
    ensures { OnOk result (books.new.items ≡ map (with_members open.now.books.ledger) books.old.items) }
{
    let members = open.members();
    for (place, member) in members.iter().enumerate() {
        put_member(books, home_at(homes, place), *member)?;
    }
    Ok(())
}

// Puts each row that stands into the book of its family, if it is there. The homes say where to look for it.
fn put_rows(books: &mut Vec<Unsummed>, open: &OpenBooks, homes: &[u32]) -> Result<(), Memory>
    requires rise { IsAscending id_cmp family_of books.old.items }
    requires members { All (λ b. b.members ≡ members_of open.now.books.ledger b.family) books.old.items }
    requires none { All (λ b. b.rows ≡ []) books.old.items }
    ensures { OnOk result (books.new.items ≡ map (with_rows open.now.books.ledger) books.old.items) }
{
    let mut standing = open.standing();
    'rows: while let Some((row, member)) = standing.next_row() {
        put_row(books, home_at(homes, member), *row)?;
    }
    Ok(())
}

// Puts a member after the others of its family's book, if the book is there: it is looked for at `home`.
fn put_member(books: &mut Vec<Unsummed>, home: usize, member: Member) -> Result<(), Memory>
    requires rise { IsAscending id_cmp family_of books.old.items }
    requires past { All (λ b. is_past member_cmp member_key b.members member.key ≡ true) books.old.items }
    ensures { OnOk result (books.new.items ≡ map (with_own_member member) books.old.items) }
{
    match place_near(books, home, &member.key.family) {
        Ok(at) => {
            let book = &mut books[at];
            book.add_member(member)
        }
        Err(_) => Ok(()),
    }
}

// Puts a row after the others of its family's book, if the book is there: it is looked for at `home`.
fn put_row(books: &mut Vec<Unsummed>, home: usize, row: Row) -> Result<(), Memory>
    requires rise { IsAscending id_cmp family_of books.old.items }
    requires past { All (λ b. is_past key_cmp row_key b.rows row.key ≡ true) books.old.items }
    requires listed { All (λ b. b.family ≡ row.family → is_listed (own_ledger b) (member_of_row row) ≡ true) books.old.items }
    requires small { paid_by_patient row ≤ MOST_CENTS }
    ensures { OnOk result (books.new.items ≡ map (with_own_row row) books.old.items) }
{
    match place_near(books, home, &row.family) {
        Ok(at) => {
            let book = &mut books[at];
            book.add(row)
        }
        Err(_) => Ok(()),
    }
}
