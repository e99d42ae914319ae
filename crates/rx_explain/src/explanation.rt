ghost use Rattle.std.specs.Prelude.{◌≡◌, IfOk};
ghost use Rattle.std.specs.Option.{option_map};
ghost use Rattle.rx_fields.specs.Numbered.{LotParts};
ghost use Rattle.rx_ledger.specs.Ledger.{Ledger as LedgerLists};
ghost use Rattle.rx_ledger.specs.Plan.{Plan};
ghost use Rattle.rx_explain.specs.Explained.{AreFacts, IsOnLedger};
ghost use Rattle.rx_explain.specs.Spots.{Spot as SpotParts};
ghost use Rattle.rx_explain.specs.Traces.{traced};

use crate::at::At;
use crate::events::Events;
use crate::facts::Facts;
use crate::traced::{Traced, trace, trace_each};
use crate::workings::Workings;
use rx_d0_values::{Answer, Transaction};
use rx_fields::{Authorization, Day, Memory, Provider};
use rx_ledger::{Decision, Row};
use std::alloc::Global;

/// Why a transaction was answered as it was.
#[derive(Drop)]
pub struct Explanation {
    /// Where it stands.
    pub at: At,
    /// The pharmacy.
    pub provider: Provider,
    /// The date of service.
    pub date: Day,
    /// The transaction's own authorization number.
    pub number: Authorization,
    /// What it asks.
    pub transaction: Transaction,
    /// The decision on it.
    pub decision: Decision,
    /// The answer.
    pub answer: Answer,
    /// The standing claim that decided, where one did.
    pub standing: Option<Traced>,
    /// Of a claim that is too soon: the first date, from its own on, on which none of the member's fills of the product that
    /// stand before it is still too soon; None where the calendar has no such date.
    pub open_from: Option<Day>,
    /// Of a claim that is paid: the steps to the amounts.
    pub workings: Option<Workings>,
    /// Of a claim that is paid: the family's claims that count in the benefit period, ascending by fill key.
    pub counted: Vec<Traced>,
}

impl Facts {
    /// The explanation: the same, each claim with its source and its end among what the batch changed.
    pub fn traced(&self, alloc: Global, events: &Events) -> Result<Explanation, Memory>
        ensures { (lot : LotParts) → (plan : Plan) → (L : LedgerLists) → (s : SpotParts)
            → AreFacts lot plan L self.now.at s self.now
            → IfOk result (IsOnLedger lot plan L events.now self.now.at s) }
    {
        Ok(Explanation {
            at: self.at,
            provider: self.provider,
            date: self.date,
            number: self.number,
            transaction: self.transaction,
            decision: self.decision,
            answer: self.answer,
            standing: trace_any(events, self.at, &self.standing),
            open_from: self.open_from,
            workings: self.workings,
            counted: trace_each(alloc, events, self.at, &self.counted)?,
        })
    }
}

// The row that decided, with its source and its end.
fn trace_any(events: &Events, at: At, row: &Option<Row>) -> Option<Traced>
    ensures { result ≡ option_map (traced events.now at) row.now }
{
    match row {
        Some(row) => Some(trace(events, at, *row)),
        None => None,
    }
}
