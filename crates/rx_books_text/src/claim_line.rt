ghost use Rattle.std.specs.Prelude.{◌≡◌, option_map};
ghost use Rattle.rx_books_text.specs.LineReading.{amounts_at, claim_in, coinsurance_at, dispensed_at};
ghost use Rattle.rx_books_text.specs.LineReading.{dispensed_in, key_at, key_in, three_at, two_numbers_at};

use crate::cut::split;
use crate::field::{authorization_in, count_in, day_in, days_in, id_in, number_in};
use crate::member_line::member_key_at;
use crate::version::Version;
use rx_d0_values::Amounts;
use rx_fields::{Days, Key, Product, Quantity};
use rx_ledger::Row;

/// What a claim dispensed.
#[derive(Clone, Copy)]
pub struct Dispensed {
    pub product: Product,
    pub quantity: Quantity,
    pub days: Days,
}

/// The claim of these bytes after its kind.
#[tactic(auto, unfolding(crate::specs::LineReading::claim_in))]
pub(crate) fn claim_line(version: Version, bytes: &[u8]) -> Option<Row>
    ensures { result ≡ claim_in version bytes.now }
{
    let Some((key, rest)) = key_at(bytes) else {
        return None;
    };
    let Some((member, rest)) = member_key_at(rest) else {
        return None;
    };
    let Some((dispensed, rest)) = dispensed_at(rest) else {
        return None;
    };
    let (amounts, number) = amounts_at(version, rest)?;
    let number = authorization_in(number)?;
    Row::new(
        key,
        member.family,
        member.person,
        dispensed.product,
        dispensed.quantity,
        dispensed.days,
        amounts,
        number,
    )
}

// A fill key, and what follows.
#[tactic(auto, unfolding(crate::specs::LineReading::key_at))]
fn key_at(bytes: &[u8]) -> Option<(Key, &[u8])>
    ensures { option_map (λ x. (x.0, x.1.now)) result ≡ key_at bytes.now }
{
    let ((provider, reference, date), rest) = three_at(bytes)?;
    let key = key_in(provider, reference, date)?;
    Some((key, rest))
}

// Three fields, and what follows.
fn three_at(bytes: &[u8]) -> Option<((&[u8], &[u8], &[u8]), &[u8])>
    ensures { option_map (λ x. ((x.0.0.now, x.0.1.now, x.0.2.now), x.1.now)) result ≡ three_at bytes.now }
{
    let (first, rest) = split(bytes)?;
    let (second, rest) = split(rest)?;
    let (third, rest) = split(rest)?;
    Some(((first, second, third), rest))
}

// The fill key of three fields.
#[tactic(auto, unfolding(crate::specs::LineReading::key_in))]
fn key_in(provider: &[u8], reference: &[u8], date: &[u8]) -> Option<Key>
    ensures { result ≡ key_in provider.now reference.now date.now }
{
    let provider = id_in(provider)?;
    let reference = count_in(reference)?;
    let date = day_in(date)?;
    Some(Key {
        provider,
        reference,
        date,
    })
}

// What was dispensed, and what follows.
#[tactic(auto, unfolding(crate::specs::LineReading::dispensed_at))]
fn dispensed_at(bytes: &[u8]) -> Option<(Dispensed, &[u8])>
    ensures { option_map (λ x. (x.0, x.1.now)) result ≡ dispensed_at bytes.now }
{
    let ((product, quantity, days), rest) = three_at(bytes)?;
    let dispensed = dispensed_in(product, quantity, days)?;
    Some((dispensed, rest))
}

// What three fields say was dispensed.
#[tactic(auto, unfolding(crate::specs::LineReading::dispensed_in))]
fn dispensed_in(product: &[u8], quantity: &[u8], days: &[u8]) -> Option<Dispensed>
    ensures { result ≡ dispensed_in product.now quantity.now days.now }
{
    let product = Product::new(product)?;
    let quantity = count_in(quantity)?;
    let days = days_in(days)?;
    Some(Dispensed {
        product,
        quantity,
        days,
    })
}

// F6, F7, FH, FI and 4U, and what follows.
#[tactic(auto, unfolding(crate::specs::LineReading::amounts_at))]
fn amounts_at(version: Version, bytes: &[u8]) -> Option<(Amounts, &[u8])>
    ensures { option_map (λ x. (x.0, x.1.now)) result ≡ amounts_at version bytes.now }
{
    let ((ingredient_cost, dispensing_fee), rest) = two_numbers_at(bytes)?;
    let ((deductible, copay), rest) = two_numbers_at(rest)?;
    let (coinsurance, rest) = coinsurance_at(version, rest)?;
    let amounts = Amounts {
        ingredient_cost,
        dispensing_fee,
        deductible,
        copay,
        coinsurance,
    };
    Some((amounts, rest))
}

// Two numbers, and what follows.
#[tactic(auto, unfolding(crate::specs::LineReading::two_numbers_at))]
fn two_numbers_at(bytes: &[u8]) -> Option<((u64, u64), &[u8])>
    ensures { option_map (λ x. (x.0, x.1.now)) result ≡ two_numbers_at bytes.now }
{
    let (first, rest) = split(bytes)?;
    let (second, rest) = split(rest)?;
    let first = number_in(first)?;
    let second = number_in(second)?;
    Some(((first, second), rest))
}

// 4U, which is 0 where the version has no field for it, and what follows.
fn coinsurance_at(version: Version, bytes: &[u8]) -> Option<(u64, &[u8])>
    ensures { option_map (λ x. (x.0, x.1.now)) result ≡ coinsurance_at version bytes.now }
{
    if version == Version::One {
        return Some((0, bytes));
    }
    let (field, rest) = split(bytes)?;
    let coinsurance = number_in(field)?;
    Some((coinsurance, rest))
}
