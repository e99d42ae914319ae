ghost use Rattle.std.specs.Prelude.{◌≡◌};
ghost use Rattle.rx_fields.specs.declared.limits.TheConstants.{MOST_CENTS};

use rx_fields::MOST_CENTS;
use std::marker::Model;

/// The amounts of a paid claim, in cents.
#[derive(Clone, Copy, PartialEq, Eq)]
pub struct Amounts {
    /// The ingredient cost paid (506-F6).
    pub ingredient_cost: u64,
    /// The dispensing fee paid (507-F7).
    pub dispensing_fee: u64,
    /// The amount applied to the deductible (517-FH).
    pub deductible: u64,
    /// The copay (518-FI).
    pub copay: u64,
    /// The coinsurance (572-4U).
    pub coinsurance: u64,
}

/// How a claim is paid: cost and fee together at most 99,999,999 cents, of which the patient pays no more than all
/// (docs/FORMATS.md, "Books file"). Each amount is kept in four bytes.
#[derive(Clone, Copy, PartialEq, Eq)]
pub struct Pricing {
    ingredient_cost: u32,
    dispensing_fee: u32,
    deductible: u32,
    copay: u32,
    coinsurance: u32,
}

impl Model for Pricing {
    ghost use Rattle.rx_d0_values.specs.declared.pricing.Amounts.{Amounts};
    ghost use Rattle.rx_d0_values.specs.Priced.{IsPriced};

    ghost Value = { Amounts };

    ghost view = { λ p. record {
      ingredient_cost = p.ingredient_cost;
      dispensing_fee = p.dispensing_fee;
      deductible = p.deductible;
      copay = p.copay;
      coinsurance = p.coinsurance;
    } };

    ghost invariant = { λ p. IsPriced (record {
      ingredient_cost = p.ingredient_cost;
      dispensing_fee = p.dispensing_fee;
      deductible = p.deductible;
      copay = p.copay;
      coinsurance = p.coinsurance;
    }) };

    ghost inverse = { λ a. record {
      ingredient_cost = a.ingredient_cost;
      dispensing_fee = a.dispensing_fee;
      deductible = a.deductible;
      copay = a.copay;
      coinsurance = a.coinsurance;
    } };
}

ghost use Rattle.std.specs.Prelude.{◌+◌, ◌≤◌};
ghost use Rattle.rx_d0_values.specs.Priced.{IsPriced, pricing_of, allowed, patient_pay, total_paid};

impl Pricing {
    /// The pricing of these amounts; None where they pass the limits.
    pub fn new(amounts: Amounts) -> Option<Pricing>
        ensures { result ≡ pricing_of amounts }
    {
        let allowed = amounts.ingredient_cost.checked_add(amounts.dispensing_fee)?;
        let patient_pay = amounts
            .deductible
            .checked_add(amounts.copay)?
            .checked_add(amounts.coinsurance)?;
        if allowed > MOST_CENTS || patient_pay > allowed {
            return None;
        }
        Some(Pricing {
            ingredient_cost: amounts.ingredient_cost as u32,
            dispensing_fee: amounts.dispensing_fee as u32,
            deductible: amounts.deductible as u32,
            copay: amounts.copay as u32,
            coinsurance: amounts.coinsurance as u32,
        })
    }

    /// The amounts that it is made of.
    pub fn amounts(&self) -> Amounts
        ensures value { result ≡ self.now }
        ensures within { IsPriced self.now }
    {
        Amounts {
            ingredient_cost: u64::from(self.ingredient_cost),
            dispensing_fee: u64::from(self.dispensing_fee),
            deductible: u64::from(self.deductible),
            copay: u64::from(self.copay),
            coinsurance: u64::from(self.coinsurance),
        }
    }

    /// The patient pay amount (505-F5), in cents.
    pub fn patient_pay(&self) -> u64
        ensures value { result ≡ patient_pay self.now }
        ensures within { result ≤ MOST_CENTS }
    {
        u64::from(self.deductible) + u64::from(self.copay) + u64::from(self.coinsurance)
    }

    /// The total amount paid to the pharmacy (509-F9), in cents.
    pub fn total_paid(&self) -> u64
        ensures value { result ≡ total_paid self.now }
        ensures within { result ≤ MOST_CENTS }
    {
        u64::from(self.ingredient_cost) + u64::from(self.dispensing_fee) - self.patient_pay()
    }
}
