ghost use Rattle.std.specs.Prelude.{◌≡◌};
ghost use Rattle.rx_fields.specs.declared.limits.TheConstants.{MOST_CENTS};

use crate::drug::MOST_PRICE;
use rx_d0_values::Bill;
use rx_fields::Quantity;
use std::marker::Model;

/// What is allowed for a fill before the patient's share: cost and fee together at most 99,999,999 cents
/// (docs/RULES.md, "Rules of adjudication").
#[derive(Clone, Copy, PartialEq, Eq)]
pub struct Allowance {
    ingredient_cost: u64,
    dispensing_fee: u64,
}

impl Model for Allowance {
    ghost use Rattle.std.specs.Prelude.{◌≤◌, ◌+◌};
    ghost use Rattle.rx_fields.specs.declared.limits.TheConstants.{MOST_CENTS};
    ghost use Rattle.rx_ledger.specs.Price.{Allowance as Allowed};

    ghost Value = { Allowed };

    ghost view = { λ a. record { ingredient_cost = a.ingredient_cost; dispensing_fee = a.dispensing_fee } };

    ghost invariant = { λ a. a.ingredient_cost + a.dispensing_fee ≤ MOST_CENTS };

    ghost inverse = { λ a. record { ingredient_cost = a.ingredient_cost; dispensing_fee = a.dispensing_fee } };
}

ghost use Rattle.std.specs.Prelude.{◌≤◌, ◌+◌, ◌*◌};
ghost use Rattle.rx_ledger.specs.Price.{allowance, capped, cost_of};

impl Allowance {
    /// What is allowed for a billing at a price, in hundredths of a cent per unit, where the plan pays a fee of at
    /// most `most_fee` cents (docs/RULES.md, "Rules of adjudication").
    pub fn new(price: u64, most_fee: u64, bill: &Bill) -> Allowance
        requires { price ≤ MOST_PRICE }
        ensures { result ≡ allowance price most_fee bill.now }
    {
        let parts = bill.parts();
        let submitted_fee = parts.dispensing_fee.map_or(0, |fee| fee.get());
        let ingredient_cost = parts
            .ingredient_cost
            .get()
            .min(cost_of(parts.quantity, price));
        let dispensing_fee = submitted_fee.min(most_fee);
        capped(bill.cap().get(), ingredient_cost, dispensing_fee)
    }

    /// The ingredient cost, in cents.
    pub fn ingredient_cost(&self) -> u64
        ensures { result ≡ self.now.ingredient_cost }
    {
        self.ingredient_cost
    }

    /// The dispensing fee, in cents.
    pub fn dispensing_fee(&self) -> u64
        ensures { result ≡ self.now.dispensing_fee }
    {
        self.dispensing_fee
    }

    /// Cost and fee together, in cents.
    pub fn total(&self) -> u64
        ensures value { result ≡ self.now.ingredient_cost + self.now.dispensing_fee }
        ensures within { result ≤ MOST_CENTS }
    {
        self.ingredient_cost + self.dispensing_fee
    }
}

/// The cost of a quantity, in thousandths, at a price, in hundredths of a cent per unit: in whole cents, rounded down.
pub fn cost_of(quantity: Quantity, price: u64) -> u64
    requires { price ≤ MOST_PRICE }
    ensures { result ≡ cost_of quantity price }
{
    quantity.get() * price / 100_000
}

// Cost and fee; where they exceed the cap, the fee first.
fn capped(cap: u64, ingredient_cost: u64, dispensing_fee: u64) -> Allowance
    requires cap { cap ≤ MOST_CENTS }
    requires fit { ingredient_cost + dispensing_fee ≤ 2 * MOST_CENTS }
    ensures { result ≡ capped cap (record { ingredient_cost = ingredient_cost; dispensing_fee = dispensing_fee }) }
{
    if ingredient_cost + dispensing_fee <= cap {
        return Allowance {
            ingredient_cost,
            dispensing_fee,
        };
    }
    let fee = dispensing_fee.min(cap);
    Allowance {
        ingredient_cost: cap - fee,
        dispensing_fee: fee,
    }
}
