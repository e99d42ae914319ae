ghost use Rattle.std.specs.Prelude.{◌≡◌, ◌≤◌, true};
ghost use Rattle.rx_fields.specs.declared.limits.TheConstants.{MOST_CENTS};
ghost use Rattle.rx_ledger.specs.Plan.{is_share};
ghost use Rattle.rx_ledger.specs.Share.{coinsurance_of, copay_of, left, shared, under_deductible};

use crate::drug::Share;
use crate::figures::Figures;
use crate::price::Allowance;
use rx_d0_values::{Amounts, Pricing};

/// What is used of a plan's figures in the benefit period, in cents.
#[derive(Clone, Copy, PartialEq, Eq)]
pub struct Used {
    /// The deductible of the member.
    pub deductible: u128,
    /// The out of pocket of the family.
    pub out_of_pocket: u128,
    /// The deductible of the family.
    pub family_deductible: u128,
}

/// How a claim with this allowance is paid: what the member pays of it by deductible and by copay or coinsurance,
/// given what was used before (docs/RULES.md, "Rules of adjudication").
pub fn shared(figures: &Figures, share: Share, used: Used, allowance: Allowance) -> Pricing
    requires { is_share share ≡ true }
    ensures { result ≡ shared figures.now share used allowance }
{
    let allowed = allowance.total();
    let under = under_deductible(figures, used, allowed);
    let rest = allowed - under;
    let room = left(figures.family_maximum, used.out_of_pocket);
    let deductible = under.min(room);
    let amounts = Amounts {
        ingredient_cost: allowance.ingredient_cost(),
        dispensing_fee: allowance.dispensing_fee(),
        deductible,
        copay: copay_of(share, rest, room - deductible),
        coinsurance: coinsurance_of(share, rest, room - deductible),
    };
    Pricing::new(amounts).unwrap()
}

/// A figure of the plan less what is used of it, in cents, and 0 where that is negative.
pub fn left(figure: u64, used: u128) -> u64
    ensures { result ≡ left figure used }
{
    u128::from(figure).saturating_sub(used) as u64
}

/// What of an allowed amount falls under the deductible, in cents, before the family's maximum cuts it.
pub fn under_deductible(figures: &Figures, used: Used, allowed: u64) -> u64
    ensures value { result ≡ under_deductible figures.now used allowed }
    ensures within { result ≤ allowed }
{
    let of_member = allowed.min(left(figures.member_deductible, used.deductible));
    match figures.family_deductible {
        Some(figure) => of_member.min(left(figure, used.family_deductible)),
        None => of_member,
    }
}

fn copay_of(share: Share, rest: u64, room: u64) -> u64
    ensures value { result ≡ copay_of share rest room }
{
    match share {
        Share::Copay(cents) => rest.min(cents).min(room),
        Share::Percent(_) => 0,
    }
}

fn coinsurance_of(share: Share, rest: u64, room: u64) -> u64
    requires { rest ≤ MOST_CENTS }
    ensures value { result ≡ coinsurance_of share rest room }
{
    match share {
        Share::Copay(_) => 0,
        Share::Percent(percent) => (rest * u64::from(percent) / 100).min(room),
    }
}
