ghost use Rattle.std.specs.Prelude.{◌≡◌, IfOk, map};
ghost use Rattle.std.specs.List.{All};
ghost use Rattle.rx_fields.specs.Order.{id_cmp, key_cmp};
ghost use Rattle.rx_sorted.specs.Ascending.{IsAscending, itself};
ghost use Rattle.rx_ledger.specs.Ledger.{row_under};
ghost use Rattle.rx_books_family.specs.FamilyBook.{IsOwn, family_of};
ghost use Rattle.rx_books_shelf.specs.Opened.{filled_place, full_key_place, opened_book};

use crate::summing::{first_place, summed};
use crate::unsummed::Unsummed;
use rx_books_family::{FamilyPlace, KeyPlace};
use rx_books_store::OpenBooks;
use rx_fields::{Key, Memory};
use rx_ledger::Row;
use rx_sorted::Ascending;
use std::alloc::Global;

/// The places of these keys, each with the row that stands under its key, or none.
pub(crate) fn key_places(
    alloc: Global,
    open: &OpenBooks,
    keys: &[Key],
) -> Result<Ascending<KeyPlace>, Memory>
    requires { IsAscending key_cmp itself keys.now }
    ensures { IfOk result (λ places. places ≡ map (full_key_place open.now.books) keys.now) }
{
    let mut places = Vec::with_capacity(alloc, keys.len())?;
    let mut near = 0;
    for key in keys {
        let row = row_near(open, &mut near, key);
        places.push(KeyPlace {
            key: *key,
            held: Some(row),
        })?;
    }
    match Ascending::from_vec(places) {
        Ok(places) => Ok(places),
        Err(_) => unreachable!(),
    }
}

// The row that stands under a key, whose slot is looked for at `near`, and the next one's from then on after it.
fn row_near(open: &OpenBooks, near: &mut usize, key: &Key) -> Option<Row>
    ensures { result ≡ row_under open.now.books.ledger key.now }
{
    match open.slot_near(*near, key) {
        Some(slot) => {
            *near = slot.saturating_add(1);
            open.row_at(slot).copied()
        }
        None => open.row(key).copied(),
    }
}

/// The places of these books, each with its totals as the books have them stored.
pub(crate) fn family_places(
    alloc: Global,
    open: &OpenBooks,
    books: Vec<Unsummed>,
) -> Result<Ascending<FamilyPlace>, Memory>
    requires rise { IsAscending id_cmp family_of books.items }
    requires own { All (λ b. b ≡ opened_book open.now.books b.family) books.items }
    ensures value { IfOk result (λ places. places ≡ map filled_place books.items) }
    ensures own { IfOk result (λ _. All IsOwn books.items) }
{
    let mut books = books;
    let mut places = Vec::with_capacity(alloc, books.len())?;
    let mut near = open.members().len();
    'books: while let Some(book) = books.pop() {
        let own = book.members();
        near = first_place(open, own, near.saturating_sub(own.len()));
        places.push(FamilyPlace {
            family: book.family(),
            held: Some(summed(alloc, open, book, near)?),
        })?;
    }
    places.reverse();
    match Ascending::from_vec(places) {
        Ok(places) => Ok(places),
        Err(_) => unreachable!(),
    }
}
