ghost use Rattle.std.specs.Prelude.{◌≡◌, ◌≤◌};
ghost use Rattle.rx_fields.specs.declared.limits.TheConstants.{MOST_DETAILS};
ghost use Rattle.rx_ledger.specs.Claims.{occasion_of};

use crate::at::At;
use rx_d0_values::{Heard, Transaction};
use rx_fields::Lot;
use rx_ledger::{Occasion, Sheet, Terms};

/// A transaction of a batch, with what it is adjudicated under.
#[derive(Drop)]
pub struct Subject<'a> {
    /// The batch's lot.
    pub lot: Lot,
    /// The plan.
    pub sheet: &'a Sheet,
    /// The terms of its record: as much of the plan as decides it.
    pub terms: &'a Terms,
    /// Where the transaction stands.
    pub at: At,
    /// Its record.
    pub heard: &'a Heard,
    /// The transaction.
    pub transaction: &'a Transaction,
}

impl<'a> Subject<'a> {
    /// The occasion on which it is adjudicated.
    pub(crate) fn occasion(&self) -> Occasion
        requires place { self.now.at.place ≤ MOST_DETAILS }
        requires nth { self.now.at.nth ≤ 4 }
        ensures { result ≡ occasion_of self.now.lot self.now.sheet.now.figures self.now.at.place self.now.heard.now
            self.now.at.nth }
    {
        Occasion::new(
            self.lot,
            self.sheet.figures(),
            self.at.place,
            self.heard,
            self.at.nth,
        )
    }
}
