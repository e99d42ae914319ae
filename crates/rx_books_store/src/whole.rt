ghost use Rattle.std.specs.Prelude.{◌≡◌, IfOk};
ghost use Rattle.std.specs.Option.{option_copied};
ghost use Rattle.rx_ledger.specs.Ledger.{IsLedger, row_under};
ghost use Rattle.rx_books_family.specs.Amended.{IsAmended, is_among};
ghost use Rattle.rx_books_store.specs.LedgerBooks.{deductible_of_family, deductible_of_member, out_of_pocket_of_family};
ghost use Rattle.rx_books_store.specs.WholeBooks.{amended_books, beside, deductible_held, family_deductible_held};
ghost use Rattle.rx_books_store.specs.WholeBooks.{has_row, out_of_pocket_held};

use crate::amended_lists::{amended_members, amended_rows};
use crate::open_books::OpenBooks;
use rx_books_family::{FamilyPlace, KeyPlace, is_among};
use rx_fields::{Id, Key, Memory, Period, Person};
use rx_ledger::{Ledger, Member, Row};
use rx_sorted::item_of;
use std::alloc::Global;
use std::marker::Model;

/// Books as a whole: those that were opened, with places that stand instead of what these hold under their fill keys and
/// of their families. Contracts see the books that all make together.
#[derive(Drop)]
pub(crate) struct Whole<'a> {
    pub(crate) books: &'a OpenBooks,
    pub(crate) keys: &'a [KeyPlace],
    pub(crate) families: &'a [FamilyPlace],
}

impl<'a> Model for Whole<'a> {
    ghost use Rattle.rx_books_store.specs.LedgerBooks.{LedgerBooks};

    ghost Value = { LedgerBooks };

    ghost use Rattle.rx_books_family.specs.Amended.{IsAmended};
    ghost use Rattle.rx_books_store.specs.WholeBooks.{amended_books, beside};

    ghost view = { λ w. amended_books w.books.now.books w.keys.now w.families.now };

    ghost invariant = { λ w. IsAmended (beside w.books.now.books w.keys.now w.families.now) };
}

impl<'a> Whole<'a> {
    /// The books with these places.
    pub(crate) fn of(
        books: &'a OpenBooks,
        keys: &'a [KeyPlace],
        families: &'a [FamilyPlace],
    ) -> Whole<'a>
        requires { IsAmended (beside books.now.books keys.now families.now) }
        ensures { result ≡ amended_books books.now.books keys.now families.now }
    {
        Whole {
            books,
            keys,
            families,
        }
    }

    /// The books without any places.
    pub(crate) fn alone(books: &'a OpenBooks) -> Whole<'a>
        requires { IsLedger books.now.books.ledger }
        ensures { result ≡ books.now.books }
    {
        Whole::of(books, &[], &[])
    }

    /// The period that the totals are of.
    pub(crate) fn period(&self) -> Period
        ensures value { result ≡ self.now.period }
        ensures within { IsLedger self.now.ledger }
    {
        self.books.period()
    }

    /// The row under a fill key.
    pub(crate) fn row(&self, key: &Key) -> Option<&'a Row>
        ensures { option_copied result ≡ row_under self.now.ledger key.now }
    {
        match item_of(self.keys, key) {
            Some(place) => place.row(),
            None => self.books.row(key),
        }
    }

    /// The deductible of a person so far, in cents; None where that is no listed member.
    pub(crate) fn deductible(&self, family: &Id, person: &Person) -> Option<u128>
        ensures { result ≡ deductible_of_member self.now family.now person.now }
    {
        match item_of(self.families, family) {
            Some(place) => deductible_held(place, person),
            None => self.books.deductible(family, person),
        }
    }

    /// The out of pocket of a family so far, in cents; None where it has no member.
    pub(crate) fn out_of_pocket(&self, family: &Id) -> Option<u128>
        ensures { result ≡ out_of_pocket_of_family self.now family.now }
    {
        match item_of(self.families, family) {
            Some(place) => out_of_pocket_held(place),
            None => self.books.out_of_pocket(family),
        }
    }

    /// The deductible of a family so far, in cents; None where it has no member.
    pub(crate) fn family_deductible(&self, family: &Id) -> Option<u128>
        ensures { result ≡ deductible_of_family self.now family.now }
    {
        match item_of(self.families, family) {
            Some(place) => family_deductible_held(place),
            None => self.books.family_deductible(family),
        }
    }

    /// Whether the member is listed, with this coverage.
    pub(crate) fn has_member(&self, member: &Member) -> bool
        ensures { result ≡ is_among self.now.ledger.members member.now }
    {
        match item_of(self.families, &member.key.family) {
            Some(place) => is_among(place.members(), member),
            None => is_among(self.books.members(), member),
        }
    }

    /// Whether the row stands.
    pub(crate) fn has_row(&self, row: &Row) -> bool
        ensures { result ≡ has_row self.now.ledger row.now }
    {
        self.row(&row.key).copied() == Some(*row)
    }

    /// The plain ledger: all members and rows.
    pub(crate) fn ledger(&self, alloc: Global) -> Result<Ledger, Memory>
        ensures { IfOk result (λ ledger. ledger ≡ self.now.ledger) }
    {
        let members = amended_members(alloc, self.books.members(), self.families)?;
        let rows = amended_rows(self.books.rows(alloc)?, self.keys)?;
        Ok(Ledger::from_lists(members, rows))
    }

    /// Books without places, of the same members and rows, with the totals of this period.
    pub(crate) fn made_plain(&self, alloc: Global, period: Period) -> Result<OpenBooks, Memory>
        ensures { IfOk result (λ made. made.books ≡ record { period = period; ledger = self.now.ledger }) }
    {
        let ledger = self.ledger(alloc)?;
        OpenBooks::from_ledger(alloc, &ledger, period)
    }
}

// The deductible of a person, as the place of the family has it.
fn deductible_held(place: &FamilyPlace, person: &Person) -> Option<u128>
    ensures { result ≡ deductible_held person.now place.now }
{
    match &place.held {
        Some(book) => book.deductible(person),
        None => None,
    }
}

// The out of pocket of the place's family.
fn out_of_pocket_held(place: &FamilyPlace) -> Option<u128>
    ensures { result ≡ out_of_pocket_held place.now }
{
    match &place.held {
        Some(book) if !book.members().is_empty() => Some(book.out_of_pocket()),
        _ => None,
    }
}

// The deductible of the place's family.
fn family_deductible_held(place: &FamilyPlace) -> Option<u128>
    ensures { result ≡ family_deductible_held place.now }
{
    match &place.held {
        Some(book) if !book.members().is_empty() => Some(book.family_deductible()),
        _ => None,
    }
}
