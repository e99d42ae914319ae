ghost use Rattle.std.specs.Prelude.{◌≡◌, IfOk, map};
ghost use Rattle.std.specs.List.{All, Contains};
ghost use Rattle.rx_books_family.specs.FamilyBook.{AreTotals};
ghost use Rattle.rx_books_shelf.specs.Gathered.{own_deductible};
ghost use Rattle.rx_books_shelf.specs.Opened.{opened_book};

use crate::unsummed::Unsummed;
use rx_books_family::{Family, FamilyTotals};
use rx_books_store::OpenBooks;
use rx_fields::Memory;
use rx_ledger::Member;
use rx_sorted::place_near;
use std::alloc::Global;

/// The book of a family, with its totals as the books have them stored. Its members are looked for from `near` on.
pub(crate) fn summed(
    alloc: Global,
    books: &OpenBooks,
    book: Unsummed,
    near: usize,
) -> Result<Family, Memory>
    requires { book ≡ opened_book books.now.books book.family }
    ensures { IfOk result (λ family. family ≡ book) }
{
    let totals = totals_of(alloc, books, &book, near)?;
    Ok(book.with_totals(totals))
}

/// The place of the first of these members, which is looked for at `near`.
pub(crate) fn first_place(books: &OpenBooks, own: &[Member], near: usize) -> usize {
    match own.first() {
        Some(member) => match place_near(books.members(), near, &member.key) {
            Ok(at) => at,
            Err(at) => at,
        },
        None => near,
    }
}

// The totals of the book.
fn totals_of(
    alloc: Global,
    books: &OpenBooks,
    book: &Unsummed,
    near: usize,
) -> Result<FamilyTotals, Memory>
    requires { book.now ≡ opened_book books.now.books book.now.family }
    ensures { IfOk result (λ t. AreTotals book.now t.deductibles.items t.out_of_pocket t.deductible) }
{
    let deductibles = deductibles_of(alloc, books, book.members(), near)?;
    match books.family_of(&book.family()) {
        Some(at) => Ok(FamilyTotals {
            deductibles,
            out_of_pocket: books.out_of_pocket_at(at),
            deductible: books.family_deductible_at(at),
        }),
        None => Ok(FamilyTotals {
            deductibles,
            out_of_pocket: 0,
            deductible: 0,
        }),
    }
}

// The deductibles of these, who are among the members.
fn deductibles_of(
    alloc: Global,
    books: &OpenBooks,
    members: &[Member],
    near: usize,
) -> Result<Vec<u128>, Memory>
    requires { All (Contains books.now.books.ledger.members) members.now }
    ensures { IfOk result (λ deductibles. deductibles.items ≡ map (own_deductible books.now.books) members.now) }
{
    let mut deductibles = Vec::with_capacity(alloc, members.len())?;
    for member in members {
        let place = near.saturating_add(deductibles.len());
        deductibles.push(deductible_near(books, place, member))?;
    }
    Ok(deductibles)
}

// The deductible of one of the members, who is looked for at `near`.
fn deductible_near(books: &OpenBooks, near: usize, member: &Member) -> u128
    requires { Contains books.now.books.ledger.members member.now }
    ensures { result ≡ own_deductible books.now.books member.now }
{
    match place_near(books.members(), near, &member.key) {
        Ok(at) => books.deductible_at(at),
        Err(_) => unreachable!(),
    }
}
