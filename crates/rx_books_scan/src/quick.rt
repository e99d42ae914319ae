ghost use Rattle.std.specs.Prelude.{◌≡◌, ◌≤◌, ◌∷◌, ◌++◌, [], IfSome, decimal};
ghost use Rattle.rx_fields.specs.declared.limits.TheConstants.{MOST_AUTHORIZATION};
ghost use Rattle.rx_fields.specs.Calendar.{IsCivil, date_text};
ghost use Rattle.rx_fields.specs.Digits.{digits_text};
ghost use Rattle.rx_books_text.specs.declared.line.Line.TheVariants as lines;
ghost use Rattle.rx_books_text.specs.declared.version.Version.TheVariants as versions;
ghost use Rattle.rx_books_scan.specs.Fields.{IsDispensed, IsKey, IsMemberKey, followed};
ghost use Rattle.rx_books_scan.specs.Lists.{BeginWith};

use crate::field::{authorization_at, day_at, id_at, kind_at, number_at, product_at};
use rx_books_text::{MemberLine, TotalLine};
use rx_d0_values::Amounts;
use rx_fields::{
    Authorization, Day, Days, Id, Key, Period, Person, Product, Provider, Quantity, Reference,
};
use rx_ledger::{Member, MemberKey, Row};

// What a claim dispensed.
#[derive(Clone, Copy)]
struct Dispensed {
    product: Product,
    quantity: Quantity,
    days: Days,
}

// How a claim was paid, and under which number.
#[derive(Clone, Copy)]
struct Paid {
    amounts: Amounts,
    number: Authorization,
}

// The dates of a coverage.
#[derive(Clone, Copy)]
struct Dates {
    first: Day,
    last: Day,
}

/// The member line of version 3 that the bytes begin with, and what follows its line feed.
pub(crate) fn quick_member(bytes: &[u8]) -> Option<(MemberLine, &[u8])>
    ensures { IfSome result (λ x. BeginWith versions.Three bytes.now (lines.Member x.0 ∷ []) x.1.now) }
{
    let rest = kind_at(bytes, b'M')?;
    let Some((key, rest)) = member_key_at(rest) else {
        return None;
    };
    let Some((dates, rest)) = dates_at(rest) else {
        return None;
    };
    let (deductible, rest) = number_at(rest, b'\n')?;
    let coverage = Period::new(dates.first, dates.last)?;
    let line = MemberLine {
        member: Member { key, coverage },
        deductible: u128::from(deductible),
    };
    Some((line, rest))
}

/// The claim line of version 3 that the bytes begin with, and what follows its line feed.
pub(crate) fn quick_claim(bytes: &[u8]) -> Option<(Row, &[u8])>
    ensures { IfSome result (λ x. BeginWith versions.Three bytes.now (lines.Claim x.0 ∷ []) x.1.now) }
{
    let rest = kind_at(bytes, b'C')?;
    let Some((key, rest)) = key_at(rest) else {
        return None;
    };
    let Some((member, rest)) = member_key_at(rest) else {
        return None;
    };
    let Some((what, rest)) = dispensed_at(rest) else {
        return None;
    };
    let Some((paid, rest)) = paid_at(rest) else {
        return None;
    };
    let row = Row::new(
        key,
        member.family,
        member.person,
        what.product,
        what.quantity,
        what.days,
        paid.amounts,
        paid.number,
    )?;
    Some((row, rest))
}

/// The total line of version 3 that the bytes begin with, and what follows its line feed.
pub(crate) fn quick_total(bytes: &[u8]) -> Option<(TotalLine, &[u8])>
    ensures { IfSome result (λ x. BeginWith versions.Three bytes.now (lines.Total x.0 ∷ []) x.1.now) }
{
    let rest = kind_at(bytes, b'T')?;
    let (family, rest) = id_at(rest, 20)?;
    let (out_of_pocket, rest) = number_at(rest, b'|')?;
    let (deductible, rest) = number_at(rest, b'\n')?;
    let line = TotalLine {
        family: Id::of_text(family),
        out_of_pocket: u128::from(out_of_pocket),
        deductible: Some(u128::from(deductible)),
    };
    Some((line, rest))
}

// A fill key, and what follows.
fn key_at(bytes: &[u8]) -> Option<(Key, &[u8])>
    ensures key { IfSome result (λ x. IsKey x.0) }
    ensures whole { IfSome result (λ x. bytes.now
        ≡ followed (x.0.provider ∷ decimal x.0.reference ∷ date_text x.0.date ∷ []) x.1.now) }
{
    let (provider, rest) = id_at(bytes, 15)?;
    let (reference, rest) = number_at(rest, b'|')?;
    let Some((date, rest)) = day_at(rest) else {
        return None;
    };
    let reference = Reference::new(reference)?;
    let key = Key {
        provider: Provider::of_text(provider),
        reference,
        date,
    };
    Some((key, rest))
}

// A family and a person, and what follows.
fn member_key_at(bytes: &[u8]) -> Option<(MemberKey, &[u8])>
    ensures key { IfSome result (λ x. IsMemberKey x.0) }
    ensures whole { IfSome result (λ x. bytes.now ≡ followed (x.0.family ∷ x.0.person ∷ []) x.1.now) }
{
    let (family, rest) = id_at(bytes, 20)?;
    let (person, rest) = id_at(rest, 3)?;
    let key = MemberKey {
        family: Id::of_text(family),
        person: Person::of_text(person),
    };
    Some((key, rest))
}

// What was dispensed, and what follows.
fn dispensed_at(bytes: &[u8]) -> Option<(Dispensed, &[u8])>
    ensures dispensed { IfSome result (λ x. IsDispensed x.0.product x.0.quantity x.0.days) }
    ensures whole { IfSome result (λ x. bytes.now
        ≡ followed (digits_text 11 x.0.product ∷ decimal x.0.quantity ∷ decimal x.0.days ∷ []) x.1.now) }
{
    let Some((product, rest)) = product_at(bytes) else {
        return None;
    };
    let (quantity, rest) = number_at(rest, b'|')?;
    let (days, rest) = number_at(rest, b'|')?;
    let quantity = Quantity::new(quantity)?;
    let days = Days::new(days)?;
    let dispensed = Dispensed {
        product,
        quantity,
        days,
    };
    Some((dispensed, rest))
}

// The amounts and the authorization number, and what follows the line feed after them.
fn paid_at(bytes: &[u8]) -> Option<(Paid, &[u8])>
    ensures number { IfSome result (λ x. x.0.number ≤ MOST_AUTHORIZATION) }
    ensures whole { IfSome result (λ x. bytes.now
        ≡ followed (decimal x.0.amounts.ingredient_cost ∷ decimal x.0.amounts.dispensing_fee
        ∷ decimal x.0.amounts.deductible ∷ decimal x.0.amounts.copay ∷ decimal x.0.amounts.coinsurance ∷ [])
        (digits_text 15 x.0.number ++ 10 ∷ x.1.now)) }
{
    let Some((amounts, rest)) = amounts_at(bytes) else {
        return None;
    };
    let Some((number, rest)) = authorization_at(rest) else {
        return None;
    };
    Some((Paid { amounts, number }, rest))
}

// Two dates, and what follows.
fn dates_at(bytes: &[u8]) -> Option<(Dates, &[u8])>
    ensures first { IfSome result (λ x. IsCivil x.0.first) }
    ensures last { IfSome result (λ x. IsCivil x.0.last) }
    ensures whole { IfSome result (λ x. bytes.now
        ≡ followed (date_text x.0.first ∷ date_text x.0.last ∷ []) x.1.now) }
{
    let Some((first, rest)) = day_at(bytes) else {
        return None;
    };
    let Some((last, rest)) = day_at(rest) else {
        return None;
    };
    Some((Dates { first, last }, rest))
}

// F6, F7, FH, FI and 4U, and what follows.
fn amounts_at(bytes: &[u8]) -> Option<(Amounts, &[u8])>
    ensures { IfSome result (λ x. bytes.now
        ≡ followed (decimal x.0.ingredient_cost ∷ decimal x.0.dispensing_fee ∷ decimal x.0.deductible
        ∷ decimal x.0.copay ∷ decimal x.0.coinsurance ∷ []) x.1.now) }
{
    let (ingredient_cost, rest) = number_at(bytes, b'|')?;
    let (dispensing_fee, rest) = number_at(rest, b'|')?;
    let (deductible, rest) = number_at(rest, b'|')?;
    let (copay, rest) = number_at(rest, b'|')?;
    let (coinsurance, rest) = number_at(rest, b'|')?;
    let amounts = Amounts {
        ingredient_cost,
        dispensing_fee,
        deductible,
        copay,
        coinsurance,
    };
    Some((amounts, rest))
}
