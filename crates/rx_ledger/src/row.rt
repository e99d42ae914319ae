ghost use Rattle.std.specs.Prelude.{◌≡◌};
ghost use Rattle.rx_ledger.specs.Rows.{row_of};

use crate::member::MemberKey;
use rx_d0_values::{Amounts, Pricing};
use rx_fields::{Authorization, Days, Id, Key, Person, Product, Quantity};
use rx_sorted::Keyed;
use std::mem::size_of;

/// A standing claim (docs/RULES.md, "Words"). Its fields stand in an order that leaves few gaps: a ledger has many.
#[derive(Clone, Copy, PartialEq, Eq)]
pub struct Row {
    /// The fill key.
    pub key: Key,
    /// The cardholder id.
    pub family: Id,
    /// The person code.
    pub person: Person,
    /// The days supply.
    pub days: Days,
    /// The amounts paid.
    pub pricing: Pricing,
    /// The product.
    pub product: Product,
    /// The quantity dispensed, in thousandths.
    pub quantity: Quantity,
    /// The authorization number.
    pub number: Authorization,
}

const _: () = prove!(size_of::<Row>() <= 104);

impl Row {
    /// The standing claim; None where its amounts pass the limits of a claim.
    pub fn new(
        key: Key,
        family: Id,
        person: Person,
        product: Product,
        quantity: Quantity,
        days: Days,
        amounts: Amounts,
        number: Authorization,
    ) -> Option<Row>
        ensures { result ≡ row_of key family person product quantity days amounts number }
    {
        let pricing = Pricing::new(amounts)?;
        Some(Row {
            key,
            family,
            person,
            product,
            quantity,
            days,
            pricing,
            number,
        })
    }

    /// The member whose claim it is.
    pub fn member(&self) -> MemberKey
        ensures { result ≡ record { family = self.now.family; person = self.now.person } }
    {
        MemberKey {
            family: self.family,
            person: self.person,
        }
    }
}

impl Keyed for Row {
    type Key = Key;

    ghost key_of = { λ row. row.key };

    fn key(&self) -> Key {
        self.key
    }
}
