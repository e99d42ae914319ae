ghost use Rattle.std.specs.Prelude.{◌≡◌, ◌↔◌, IsTrue};

use rx_books_store::Books;
use rx_d0_values::Transmission;
use rx_ledger::{Figures, Listed, Terms};

/// Whether two lists of drugs are one.
pub(crate) fn same_drugs(a: &[Listed], b: &[Listed]) -> bool
    ensures { IsTrue result ↔ (a.now ≡ b.now) }
{
    if a.len() != b.len() {
        return false;
    }
    for (at, listed) in a.iter().enumerate() {
        if *listed != b[at] {
            return false;
        }
    }
    true
}

/// Whether two lists of records are one.
pub(crate) fn same_records(a: &[Transmission], b: &[Transmission]) -> bool
    ensures { IsTrue result ↔ (a.now ≡ b.now) }
{
    if a.len() != b.len() {
        return false;
    }
    for (at, transmission) in a.iter().enumerate() {
        if !same_record(transmission, &b[at]) {
            return false;
        }
    }
    true
}

/// Whether two records are one.
pub(crate) fn same_record(a: &Transmission, b: &Transmission) -> bool
    ensures { IsTrue result ↔ (a.now ≡ b.now) }
{
    *a == *b
}

/// Whether the terms of two records are one.
pub(crate) fn same_terms(a: &Terms, b: &Terms) -> bool
    ensures { IsTrue result ↔ (a.now ≡ b.now) }
{
    *a == *b
}

/// Whether two books are one.
pub(crate) fn same_books(a: &Books, b: &Books) -> bool
    ensures { IsTrue result ↔ (a.now ≡ b.now) }
{
    *a == *b
}

/// Whether the figures of two sheets are one.
pub(crate) fn same_figures(a: &Figures, b: &Figures) -> bool
    ensures { IsTrue result ↔ (a.now ≡ b.now) }
{
    *a == *b
}
