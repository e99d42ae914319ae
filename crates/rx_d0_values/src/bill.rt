ghost use Rattle.std.specs.Prelude.{◌≡◌};

use rx_fields::{Cents, Days, Id, Person, Product, Quantity, Reference};
use std::marker::Model;

/// What a billing says.
#[derive(Clone, Copy, PartialEq, Eq)]
pub struct BillParts {
    /// The prescription reference number (402-D2).
    pub reference: Reference,
    /// The cardholder id (302-C2).
    pub family: Id,
    /// The person code (303-C3); `01` where the request has none.
    pub person: Person,
    /// The product (407-D7).
    pub product: Product,
    /// The quantity dispensed (442-E7), in thousandths.
    pub quantity: Quantity,
    /// The days supply (405-D5).
    pub days: Days,
    /// The ingredient cost submitted (409-D9).
    pub ingredient_cost: Cents,
    /// The dispensing fee submitted (412-DC).
    pub dispensing_fee: Option<Cents>,
    /// The usual and customary charge (426-DQ).
    pub usual_charge: Option<Cents>,
    /// The gross amount due (430-DU).
    pub gross_amount: Option<Cents>,
}

/// A billing (B1) that states a charge: the usual and customary charge, the gross amount due, or both.
#[derive(Clone, Copy, PartialEq, Eq)]
pub struct Bill {
    parts: BillParts,
}

impl Model for Bill {
    ghost use Rattle.rx_d0_values.specs.declared.bill.BillParts.{BillParts};
    ghost use Rattle.rx_d0_values.specs.Billed.{IsCharged};

    ghost Value = { BillParts };

    ghost view = { λ b. b.parts };

    ghost invariant = { λ b. IsCharged b.parts };

    ghost inverse = { λ parts. record { parts = parts } };
}

ghost use Rattle.rx_d0_values.specs.Billed.{bill_of, cap};

impl Bill {
    /// The billing of these parts; None where neither charge is there.
    pub fn new(parts: BillParts) -> Option<Bill>
        ensures { result ≡ bill_of parts }
    {
        if parts.usual_charge.is_none() && parts.gross_amount.is_none() {
            return None;
        }
        Some(Bill { parts })
    }

    /// What it says.
    pub fn parts(&self) -> &BillParts
        ensures { result.now ≡ self.now }
    {
        &self.parts
    }

    /// The most that is paid for it: the usual and customary charge, or the gross amount due where that is absent.
    pub fn cap(&self) -> Cents
        ensures { result ≡ cap self.now }
    {
        match (self.parts.usual_charge, self.parts.gross_amount) {
            (Some(usual), _) => usual,
            (None, Some(gross)) => gross,
            (None, None) => unreachable!(),
        }
    }
}
