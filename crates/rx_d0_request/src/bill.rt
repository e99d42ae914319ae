ghost use Rattle.std.specs.Prelude.{◌≡◌};
ghost use Rattle.rx_d0_request.specs.Bills.{billing, reversal, transaction};
ghost use Rattle.rx_d0_request.specs.Known.{group_of};
ghost use Rattle.rx_d0_request.specs.Views.{insurance_texts, claim_texts, group_texts};

use crate::codes::first_five;
use crate::known::{Claim, Group, Insurance, group_read};
use crate::reading::{BillReading, FillReading};
use rx_d0_values::{Codes, Faulty, Transaction};
use rx_fields::Code;

fn billing(common: &Insurance, group: &Group) -> Transaction
    ensures { result ≡ billing (insurance_texts common.now) (group_texts group.now) }
{
    let reading = BillReading::new(common, group);
    match reading.bill() {
        Some(bill) => Transaction::Bill(bill),
        None => Transaction::Faulty(Faulty {
            codes: first_five(&reading.conditions()),
            reference: reading.fill.reference,
        }),
    }
}

#[tactic(auto, unfolding(crate::specs::Bills::reversal, crate::specs::Bills::reversal_parts))]
fn reversal(claim: &Claim) -> Transaction
    ensures { result ≡ reversal (claim_texts claim.now) }
{
    let reading = FillReading::new(claim);
    match reading.reversal() {
        Some(reversal) => Transaction::Reverse(reversal),
        None => Transaction::Faulty(Faulty {
            codes: first_five(&reading.conditions()),
            reference: reading.reference,
        }),
    }
}

/// The transaction of a group.
pub(crate) fn transaction(is_billing: bool, common: &Insurance, group: &[u8]) -> Transaction
    ensures { result ≡ transaction is_billing (insurance_texts common.now) (group_of group.now) }
{
    let Some(group) = group_read(group) else {
        return Transaction::Faulty(Faulty {
            codes: Codes::one(Code::Syntax),
            reference: None,
        });
    };
    if is_billing {
        billing(common, &group)
    } else {
        reversal(&group.claim)
    }
}
