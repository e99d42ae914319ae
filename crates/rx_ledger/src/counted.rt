ghost use Rattle.std.specs.Prelude.{◌≡◌, ◌≤◌};
ghost use Rattle.rx_fields.specs.declared.limits.TheConstants.{MOST_CENTS};
ghost use Rattle.rx_ledger.specs.Sums.{counted, deductible_paid, paid_by_patient};

use crate::row::Row;
use rx_fields::Period;

/// What a row counts in a period, in cents: nothing where it isn't dated within it.
#[derive(Clone, Copy, PartialEq, Eq)]
pub struct Counted {
    /// Toward the deductibles.
    pub deductible: u128,
    /// Toward the family's out of pocket.
    pub out_of_pocket: u128,
}

/// What a row counts in a period.
pub fn counted_in(period: Period, row: &Row) -> Counted
    ensures deductible { result.deductible ≡ counted period deductible_paid row.now }
    ensures out_of_pocket { result.out_of_pocket ≡ counted period paid_by_patient row.now }
    ensures small { paid_by_patient row.now ≤ MOST_CENTS }
{
    let patient_pay = row.pricing.patient_pay();
    if period.contains(row.key.date) {
        Counted {
            deductible: u128::from(row.pricing.amounts().deductible),
            out_of_pocket: u128::from(patient_pay),
        }
    } else {
        Counted {
            deductible: 0,
            out_of_pocket: 0,
        }
    }
}
