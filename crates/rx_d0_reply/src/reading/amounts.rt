//! Reading amounts.

ghost use Rattle.std.specs.Prelude.{◌≡◌, option_map};
ghost use Rattle.rx_d0_reply.specs.Reading.{paid_at, reversed_at, amount_at, coinsurance_at, price_at, share_at, pricing_at};

use super::fields::{after, signed_at};
use rx_d0_values::{Amounts, Pricing};
use rx_fields::Cents;

// The amounts of segment 23 up to F9, in cents.
#[derive(Clone, Copy)]
struct Price {
    patient_pay: u64,
    ingredient_cost: u64,
    dispensing_fee: u64,
    total_paid: u64,
}

// What the patient pays, in cents.
#[derive(Clone, Copy)]
struct Share {
    deductible: u64,
    copay: u64,
    coinsurance: u64,
}

// What is paid, and what follows.
#[tactic(auto, unfolding(crate::specs::Reading::paid_at))]
fn paid_at(bytes: &[u8]) -> Option<(Cents, &[u8])>
    ensures { option_map (λ x. (x.0, x.1.now)) result ≡ paid_at bytes.now }
{
    let (amount, rest) = signed_at(bytes)?;
    if amount < 0 {
        return None;
    }
    let cents = Cents::new(amount.unsigned_abs())?;
    Some((cents, rest))
}

// What was paid and is taken back, and what follows.
#[tactic(auto, unfolding(crate::specs::Reading::reversed_at))]
pub(super) fn reversed_at(bytes: &[u8]) -> Option<(Cents, &[u8])>
    ensures { option_map (λ x. (x.0, x.1.now)) result ≡ reversed_at bytes.now }
{
    let (amount, rest) = signed_at(bytes)?;
    if amount > 0 {
        return None;
    }
    let cents = Cents::new(amount.unsigned_abs())?;
    Some((cents, rest))
}

// An amount in the field of that label, and what follows.
#[tactic(auto, unfolding(crate::specs::Reading::amount_at))]
fn amount_at<'a>(label: &[u8], bytes: &'a [u8]) -> Option<(u64, &'a [u8])>
    ensures { option_map (λ x. (x.0, x.1.now)) result ≡ amount_at label.now bytes.now }
{
    let rest = after(label, bytes)?;
    let Some((cents, rest)) = paid_at(rest) else {
        return None;
    };
    Some((cents.get(), rest))
}

// The coinsurance, 0 where it has no field, and what follows.
#[tactic(auto, unfolding(crate::specs::Reading::coinsurance_at))]
fn coinsurance_at(bytes: &[u8]) -> Option<(u64, &[u8])>
    ensures { option_map (λ x. (x.0, x.1.now)) result ≡ coinsurance_at bytes.now }
{
    let Some(rest) = after(b"\x1C4U", bytes) else {
        return Some((0, bytes));
    };
    match paid_at(rest) {
        Some((cents, rest)) if cents.get() > 0 => Some((cents.get(), rest)),
        _ => None,
    }
}

#[tactic(auto, unfolding(crate::specs::Reading::price_at))]
fn price_at(bytes: &[u8]) -> Option<(Price, &[u8])>
    ensures { option_map (λ x. (x.0, x.1.now)) result ≡ price_at bytes.now }
{
    let (patient_pay, rest) = amount_at(b"\x1CF5", bytes)?;
    let (ingredient_cost, rest) = amount_at(b"\x1CF6", rest)?;
    let (dispensing_fee, rest) = amount_at(b"\x1CF7", rest)?;
    let (total_paid, rest) = amount_at(b"\x1CF9", rest)?;
    let price = Price {
        patient_pay,
        ingredient_cost,
        dispensing_fee,
        total_paid,
    };
    Some((price, rest))
}

#[tactic(auto, unfolding(crate::specs::Reading::share_at))]
fn share_at(bytes: &[u8]) -> Option<(Share, &[u8])>
    ensures { option_map (λ x. (x.0, x.1.now)) result ≡ share_at bytes.now }
{
    let (deductible, rest) = amount_at(b"\x1CFH", bytes)?;
    let (copay, rest) = amount_at(b"\x1CFI", rest)?;
    let (coinsurance, rest) = coinsurance_at(rest)?;
    let share = Share {
        deductible,
        copay,
        coinsurance,
    };
    Some((share, rest))
}

// The amounts of segment 23, where F5 and F9 are the sums of the others, and what follows.
#[tactic(auto, unfolding(crate::specs::Reading::pricing_at))]
pub(super) fn pricing_at(bytes: &[u8]) -> Option<(Pricing, &[u8])>
    ensures { option_map (λ x. (x.0, x.1.now)) result ≡ pricing_at bytes.now }
{
    let (price, rest) = price_at(bytes)?;
    let (share, rest) = share_at(rest)?;
    let pricing = Pricing::new(Amounts {
        ingredient_cost: price.ingredient_cost,
        dispensing_fee: price.dispensing_fee,
        deductible: share.deductible,
        copay: share.copay,
        coinsurance: share.coinsurance,
    })?;
    if price.patient_pay != pricing.patient_pay() || price.total_paid != pricing.total_paid() {
        return None;
    }
    Some((pricing, rest))
}
