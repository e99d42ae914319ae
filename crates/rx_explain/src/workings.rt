ghost use Rattle.std.specs.Prelude.{◌≡◌, ◌≤◌, true};
ghost use Rattle.std.specs.Option.{option_map};
ghost use Rattle.rx_ledger.specs.Plan.{is_drug};
ghost use Rattle.rx_fields.specs.declared.limits.TheConstants.{MOST_CENTS};
ghost use Rattle.rx_ledger.specs.Share.{left};
ghost use Rattle.rx_explain.specs.Workings.{IsListed, share_of, workings_for, workings_of};

use rx_d0_values::{Bill, Transaction};
use rx_ledger::{
    Allowance, Decision, Figures, Payment, Share, Sheet, Used, cost_of, left, under_deductible,
};

/// The steps from a billing to its amounts, in cents (docs/RULES.md, "Rules of adjudication").
#[derive(Clone, Copy)]
pub struct Workings {
    /// What the claim is paid by.
    pub payment: Payment,
    /// The quantity at the plan's price, rounded down.
    pub cost: u64,
    /// The lower of that and the ingredient cost submitted.
    pub ingredient_cost: u64,
    /// The lower of the fee submitted and the plan's fee.
    pub dispensing_fee: u64,
    /// The charge that cost and fee together may not exceed.
    pub cap: u64,
    /// What is left of the member's deductible.
    pub deductible_left: u64,
    /// What is left of the family's deductible, where the plan has one.
    pub family_deductible_left: Option<u64>,
    /// What is left of the family's maximum.
    pub room: u64,
    /// What falls under the deductible, before the family's maximum cuts it.
    pub under: u64,
    /// The copay or the coinsurance of the rest, before the family's maximum cuts it.
    pub share: u64,
}

/// The steps to the amounts of a billing that is paid, by a drug that the plan lists; None of another transaction.
pub(crate) fn workings_for(
    sheet: &Sheet,
    transaction: &Transaction,
    decision: &Decision,
) -> Option<Workings>
    requires { IsListed sheet.now transaction.now decision.now }
    ensures { result ≡ workings_for sheet.now.figures transaction.now decision.now }
{
    match (transaction, decision) {
        (Transaction::Bill(bill), Decision::Payable(payment)) => {
            let drug = sheet.drug(bill.parts().product)?;
            let payment = Payment { drug, ..*payment };
            Some(workings_of(sheet.figures(), bill, payment))
        }
        _ => None,
    }
}

// The steps to the amounts of a billing that is paid so.
fn workings_of(figures: &Figures, bill: &Bill, payment: Payment) -> Workings
    requires { is_drug payment.drug ≡ true }
    ensures { result ≡ workings_of figures.now bill.now payment }
{
    let Payment { drug, used, .. } = payment;
    let parts = bill.parts();
    let cost = cost_of(parts.quantity, drug.price);
    let submitted_fee = parts.dispensing_fee.map_or(0, |fee| fee.get());
    let allowed = Allowance::new(drug.price, figures.fee, bill).total();
    let under = under_deductible(figures, used, allowed);
    Workings {
        payment,
        cost,
        ingredient_cost: parts.ingredient_cost.get().min(cost),
        dispensing_fee: submitted_fee.min(figures.fee),
        cap: bill.cap().get(),
        deductible_left: left(figures.member_deductible, used.deductible),
        family_deductible_left: family_deductible_left(figures, used),
        room: left(figures.family_maximum, used.out_of_pocket),
        under,
        share: share_of(drug.share, allowed - under),
    }
}

fn family_deductible_left(figures: &Figures, used: Used) -> Option<u64>
    ensures { result ≡ option_map (λ figure. left figure used.family_deductible) figures.now.family_deductible }
{
    match figures.family_deductible {
        Some(figure) => Some(left(figure, used.family_deductible)),
        None => None,
    }
}

fn share_of(share: Share, rest: u64) -> u64
    requires { rest ≤ MOST_CENTS }
    ensures { result ≡ share_of share rest }
{
    match share {
        Share::Copay(cents) => rest.min(cents),
        Share::Percent(percent) => rest * u64::from(percent) / 100,
    }
}
