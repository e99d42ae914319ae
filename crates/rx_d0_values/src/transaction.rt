ghost use Rattle.std.specs.Prelude.{◌≡◌};
ghost use Rattle.rx_d0_values.specs.Keys.{reference_of};

use crate::bill::Bill;
use crate::codes::Codes;
use rx_fields::{Memory, Product, Reference};
use std::alloc::Global;
use std::marker::Model;
use std::slice;

/// A reversal (B2): it takes back the claim that stands under its fill key.
#[derive(Clone, Copy, PartialEq, Eq)]
pub struct Reversal {
    /// The prescription reference number (402-D2).
    pub reference: Reference,
    /// The product (407-D7).
    pub product: Product,
}

/// A transaction that could not be read.
#[derive(Clone, Copy, PartialEq, Eq)]
pub struct Faulty {
    /// Why.
    pub codes: Codes,
    /// The prescription reference number, where it was read.
    pub reference: Option<Reference>,
}

/// One transaction of a transmission.
#[derive(Clone, Copy, PartialEq, Eq)]
pub enum Transaction {
    /// A well-formed billing.
    Bill(Bill),
    /// A well-formed reversal.
    Reverse(Reversal),
    /// A billing or a reversal with reject codes.
    Faulty(Faulty),
}

impl Transaction {
    /// The prescription reference number (402-D2); None where it could not be read.
    pub fn reference(&self) -> Option<Reference>
        ensures { result ≡ reference_of self.now }
    {
        match self {
            Transaction::Bill(bill) => Some(bill.parts().reference),
            Transaction::Reverse(reversal) => Some(reversal.reference),
            Transaction::Faulty(faulty) => faulty.reference,
        }
    }
}

/// The transactions of a transmission: 1 to 4, never a billing with a reversal.
#[derive(Drop)]
pub struct Transactions {
    kept: Kept,
}

// Where they stand. Most transmissions have one, and that takes no allocation.
#[derive(Drop)]
enum Kept {
    One(Transaction),
    Several(Vec<Transaction>),
}

impl Model for Transactions {
    ghost use Rattle.std.specs.Prelude.{List};
    ghost use Rattle.rx_d0_values.specs.declared.transaction.Transaction.{Transaction};
    ghost use Rattle.rx_d0_values.specs.Kept.{items_of};
    ghost use Rattle.rx_d0_values.specs.Listed.{AreTransactions};

    ghost Value = { List Transaction };

    ghost view = { λ a. items_of a.kept };

    ghost invariant = { λ a. AreTransactions (items_of a.kept) };
}

ghost use Rattle.std.specs.Prelude.{◌↔◌, IfOk, IfErr, IsOk, IsTrue, ◌∷◌, [], length, true};
ghost use Rattle.std.specs.List.{list_any};
ghost use Rattle.rx_d0_values.specs.Listed.{is_bill, is_reversal, are_transactions};

impl Transactions {
    /// These transactions; they come back where they are no list of 1 to 4, or a billing stands with a reversal.
    pub fn new(items: Vec<Transaction>) -> Result<Transactions, Vec<Transaction>>
        ensures ok { IfOk result (λ list. list ≡ items.items) }
        ensures err { IfErr result (λ back. back ≡ items) }
        ensures accepts { IsOk result ↔ (are_transactions items.items ≡ true) }
    {
        if items.is_empty() || items.len() > 4 || (has_bill(&items) && has_reversal(&items)) {
            return Err(items);
        }
        let kept = match items.as_slice() {
            [one] => Kept::One(*one),
            _ => Kept::Several(items),
        };
        Ok(Transactions { kept })
    }

    /// The one transaction. It takes no allocation.
    pub fn one(transaction: Transaction) -> Transactions
        ensures { result ≡ transaction ∷ [] }
    {
        Transactions {
            kept: Kept::One(transaction),
        }
    }

    /// The transactions, in their order.
    pub fn as_slice(&self) -> &[Transaction]
        ensures value { result.now ≡ self.now }
        ensures within { are_transactions self.now ≡ true }
    {
        match &self.kept {
            Kept::One(one) => slice::from_ref(one),
            Kept::Several(items) => items.as_slice(),
        }
    }

    /// An equal list; that of one takes no allocation.
    pub fn copy(&self, alloc: Global) -> Result<Transactions, Memory>
        ensures { IfOk result (λ list. list ≡ self.now) }
    {
        let kept = match &self.kept {
            Kept::One(one) => Kept::One(*one),
            Kept::Several(items) => Kept::Several(Vec::from_slice(alloc, items.as_slice())?),
        };
        Ok(Transactions { kept })
    }
}

fn has_bill(items: &[Transaction]) -> bool
    ensures { result ≡ list_any is_bill items.now }
{
    items
        .iter()
        .any(|item| matches!(item, Transaction::Bill(_)))
}

fn has_reversal(items: &[Transaction]) -> bool
    ensures { result ≡ list_any is_reversal items.now }
{
    items
        .iter()
        .any(|item| matches!(item, Transaction::Reverse(_)))
}

ghost use Rattle.rx_d0_values.specs.contracts.transaction.Transactions.{the_row};
ghost use Rattle.rx_d0_values.specs.Same.{same, same_laws, same_equivalence};

impl PartialEq for Transactions {
    ghost eq = { same the_row.coded };

    ghost laws = { same_laws the_row.coded };

    #[tactic(auto, using(crate::proofs::Decided::transactions_decides))]
    fn eq(&self, other: &Transactions) -> bool
        ensures { IsTrue result ↔ (self.now ≡ other.now) }
    {
        self.as_slice() == other.as_slice()
    }
}

impl Eq for Transactions {
    ghost laws = { same_equivalence the_row.coded };
}
