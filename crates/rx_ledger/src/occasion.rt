ghost use Rattle.std.specs.Prelude.{◌≡◌, ◌≤◌, []};
ghost use Rattle.rx_fields.specs.declared.limits.TheConstants.{MOST_DETAILS};
ghost use Rattle.rx_ledger.specs.Answers.{key_of, paid_row};
ghost use Rattle.rx_ledger.specs.Claims.{asked_on, occasion_of};

use crate::figures::Figures;
use crate::row::Row;
use rx_d0_values::{Bill, Heard, Paid};
use rx_fields::{Authorization, Day, Key, Lot, NUMBERS_OF_A_BATCH, Provider, Reference};

/// What a transaction is asked under.
#[derive(Clone, Copy, PartialEq, Eq)]
pub struct Occasion {
    /// The lot of the batch.
    pub lot: Lot,
    /// The plan's figures.
    pub figures: Figures,
    /// The pharmacy.
    pub provider: Provider,
    /// The date of service.
    pub date: Day,
    /// The transaction's own authorization number.
    pub number: Authorization,
}

impl Occasion {
    /// The occasion of the nth transaction, from 1, of the record at a place of the lot, from 1. Its authorization
    /// number has seven digits of the batch number, seven of the place and one of n (docs/RULES.md, "Words").
    pub fn new(lot: Lot, figures: &Figures, place: u64, heard: &Heard, nth: u64) -> Occasion
        requires place { place ≤ MOST_DETAILS }
        requires nth { nth ≤ 4 }
        ensures { result ≡ occasion_of lot figures.now place heard.now nth }
    {
        let number = u64::from(lot.number()) * NUMBERS_OF_A_BATCH + place * 10 + nth;
        Occasion {
            lot,
            figures: *figures,
            provider: heard.provider,
            date: heard.date,
            number: Authorization::new(number).unwrap(),
        }
    }

    /// The fill key of a prescription reference number.
    pub fn key(&self, reference: Reference) -> Key
        ensures { result ≡ key_of (asked_on self.now []) reference }
    {
        Key {
            provider: self.provider,
            reference,
            date: self.date,
        }
    }

    /// The row of a billing that is paid.
    pub fn row(&self, bill: &Bill, paid: &Paid) -> Row
        ensures { result ≡ paid_row (asked_on self.now []) bill.now paid.now.number paid.now.pricing }
    {
        let parts = bill.parts();
        Row {
            key: self.key(parts.reference),
            family: parts.family,
            person: parts.person,
            product: parts.product,
            quantity: parts.quantity,
            days: parts.days,
            pricing: paid.pricing,
            number: paid.number,
        }
    }
}
