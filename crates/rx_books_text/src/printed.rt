ghost use Rattle.std.specs.Prelude.{◌≡◌};
ghost use Rattle.rx_books_text.specs.Printed.{total_family};

use crate::head::Head;
use crate::line::TotalLine;
use rx_fields::Id;
use rx_ledger::Ledger;
use rx_sorted::{Ascending, Keyed};
use std::alloc::Global;
use std::marker::Model;

impl Keyed for TotalLine {
    type Key = Id;

    ghost key_of = { λ line. line.family };

    fn key(&self) -> Id {
        self.family
    }
}

/// A books file as it is printed: its figures are those of its lines, whatever the sums over the claims are.
#[derive(Drop)]
pub struct Printed {
    pub(crate) head: Head,
    pub(crate) ledger: Ledger,
    pub(crate) deductibles: Vec<u128>,
    pub(crate) totals: Ascending<TotalLine>,
}

impl Model for Printed {
    ghost use Rattle.rx_books_text.specs.Printed.{PrintedParts};

    ghost Value = { PrintedParts };

    ghost view = { λ p. record { head = p.head; ledger = p.ledger; deductibles = p.deductibles.items; totals = p.totals } };
}

ghost use Rattle.std.specs.Prelude.{length};
ghost use Rattle.rx_sorted.specs.Ascending.{IsAscending};
ghost use Rattle.rx_fields.specs.Order.{id_cmp};
ghost use Rattle.rx_ledger.specs.Ledger.{IsLedger};
ghost use Rattle.rx_books_text.specs.TextFault.{no_lines};

impl Printed {
    /// The version and the period.
    pub fn head(&self) -> Head
        ensures { result ≡ self.now.head }
    {
        self.head
    }

    /// The members and the claims.
    pub fn ledger(&self) -> &Ledger
        ensures { result.now ≡ self.now.ledger }
    {
        &self.ledger
    }

    /// The deductible that each member line prints, in the members' order, in cents.
    pub fn deductibles(&self) -> &[u128]
        ensures { result.now ≡ self.now.deductibles }
    {
        self.deductibles.as_slice()
    }

    /// The total lines, ascending by family.
    pub fn totals(&self) -> &[TotalLine]
        ensures value { result.now ≡ self.now.totals }
        ensures ascending { IsAscending id_cmp total_family self.now.totals }
    {
        self.totals.as_slice()
    }

    // The head only.
    pub(crate) fn new(alloc: Global, head: Head) -> Printed
        ensures { result ≡ no_lines head }
    {
        Printed {
            head,
            ledger: Ledger::new(alloc),
            deductibles: Vec::new(alloc),
            totals: Ascending::new(alloc),
        }
    }
}
