ghost use Rattle.std.specs.Prelude.{◌≡◌, IfOk, Some, option_map, string_bytes};
ghost use Rattle.rx_diagnostics.specs.BooksFields.{cents_fault, date_fault, digits_fault, fault_in, field_fault, figure_fault};
ghost use Rattle.rx_diagnostics.specs.BooksFields.{first_fault, has_point, holds_of, id_fault, is_between, name_of, number_fault};

use crate::quoting::{field_of, quoted};
use rx_fields::{MOST_CENTS, MOST_QUANTITY, MOST_REFERENCE, date_read, number_read};
use rx_text::{all_digits, all_printable};
use std::alloc::{AllocError, Global};

/// What a field of a books line holds.
#[derive(Clone, Copy)]
pub(crate) enum Holds {
    /// An id of at most this many bytes.
    Id(usize),
    /// A date of eight digits.
    Date,
    /// A whole number from low to high, without leading zeros.
    Number(u64, u64),
    /// An amount in cents, without leading zeros.
    Cents,
    /// A figure of at most 20 digits, without leading zeros.
    Figure,
    /// This many digits.
    Digits(usize),
}

/// A field of a books line.
#[derive(Clone, Copy)]
pub(crate) enum Field {
    Family,
    Person,
    FirstDay,
    LastDay,
    Deductible,
    OutOfPocket,
    Provider,
    Reference,
    Date,
    Product,
    Quantity,
    Days,
    Cost,
    Fee,
    ClaimDeductible,
    Copay,
    Coinsurance,
    Number,
}

/// The fields of a member line, after its kind.
pub(crate) const MEMBER: [Field; 5] = [
    Field::Family,
    Field::Person,
    Field::FirstDay,
    Field::LastDay,
    Field::Deductible,
];

/// The fields of a claim line, after its kind.
pub(crate) const CLAIM: [Field; 14] = [
    Field::Provider,
    Field::Reference,
    Field::Date,
    Field::Family,
    Field::Person,
    Field::Product,
    Field::Quantity,
    Field::Days,
    Field::Cost,
    Field::Fee,
    Field::ClaimDeductible,
    Field::Copay,
    Field::Coinsurance,
    Field::Number,
];

/// Those of a claim line of version 1, which has none for 4U.
pub(crate) const FIRST_CLAIM: [Field; 13] = [
    Field::Provider,
    Field::Reference,
    Field::Date,
    Field::Family,
    Field::Person,
    Field::Product,
    Field::Quantity,
    Field::Days,
    Field::Cost,
    Field::Fee,
    Field::ClaimDeductible,
    Field::Copay,
    Field::Number,
];

/// The fields of a total line, after its kind.
pub(crate) const TOTAL: [Field; 3] = [Field::Family, Field::OutOfPocket, Field::Deductible];

/// Those of a total line of version 1 or 2, which has no deductible.
pub(crate) const SHORT_TOTAL: [Field; 2] = [Field::Family, Field::OutOfPocket];

impl Field {
    // What the field is called.
    fn name(self) -> &'static str
        ensures { result.now ≡ name_of self }
    {
        match self {
            Field::Family => "family",
            Field::Person => "person",
            Field::FirstDay => "first day",
            Field::LastDay => "last day",
            Field::Deductible => "deductible",
            Field::OutOfPocket => "out of pocket",
            Field::Provider => "provider",
            Field::Reference => "reference",
            Field::Date => "date",
            Field::Product => "product",
            Field::Quantity => "quantity",
            Field::Days => "days",
            Field::Cost => "ingredient cost (F6)",
            Field::Fee => "dispensing fee (F7)",
            Field::ClaimDeductible => "deductible (FH)",
            Field::Copay => "copay (FI)",
            Field::Coinsurance => "coinsurance (4U)",
            Field::Number => "authorization number",
        }
    }

    // What it holds.
    fn holds(self) -> Holds
        ensures { result ≡ holds_of self }
    {
        match self {
            Field::Family => Holds::Id(20),
            Field::Person => Holds::Id(3),
            Field::FirstDay | Field::LastDay | Field::Date => Holds::Date,
            Field::Deductible | Field::OutOfPocket => Holds::Figure,
            Field::Provider => Holds::Id(15),
            Field::Reference => Holds::Number(0, MOST_REFERENCE),
            Field::Product => Holds::Digits(11),
            Field::Quantity => Holds::Number(1, MOST_QUANTITY),
            Field::Days => Holds::Number(1, 999),
            Field::Cost | Field::Fee | Field::ClaimDeductible | Field::Copay | Field::Coinsurance =>
                Holds::Cents,
            Field::Number => Holds::Digits(15),
        }
    }
}

/// What is said of the first of a line's fields that is wrong; None where none is.
pub(crate) fn first_fault(
    alloc: Global,
    line: &[u8],
    fields: &[Field],
) -> Result<Option<String>, AllocError>
    ensures { IfOk result (λ said. option_map string_bytes said ≡ first_fault 2 fields.now line.now) }
{
    for (before, field) in fields.iter().enumerate() {
        let number = before + 2;
        match field_fault(alloc, number, *field, field_of(line, number))? {
            Some(said) => return Ok(Some(said)),
            None => {}
        }
    }
    Ok(None)
}

// What is said of a field by its number, its name and what it holds; None where nothing is wrong.
#[tactic(auto, using(std::proofs::Common::append_assoc), unfolding(crate::specs::BooksFields::field_fault))]
fn field_fault(
    alloc: Global,
    number: usize,
    field: Field,
    text: &[u8],
) -> Result<Option<String>, AllocError>
    ensures { IfOk result (λ said. option_map string_bytes said ≡ field_fault number field text.now) }
{
    let Some(fault) = fault_in(alloc, field.holds(), text)? else {
        return Ok(None);
    };
    let name = field.name();
    let text = quoted(alloc, text)?;
    Ok(Some(format!(in alloc; "field {number}, {name} {text}: {fault}")?))
}

/// What is wrong with a field, and what is expected; None where nothing is.
pub(crate) fn fault_in(
    alloc: Global,
    holds: Holds,
    field: &[u8],
) -> Result<Option<String>, AllocError>
    ensures { IfOk result (λ fault. option_map string_bytes fault ≡ fault_in holds field.now) }
{
    match holds {
        Holds::Id(most) => id_fault(alloc, most, field),
        Holds::Date => date_fault(alloc, field),
        Holds::Number(low, high) => number_fault(alloc, low, high, field),
        Holds::Cents => cents_fault(alloc, field),
        Holds::Figure => figure_fault(alloc, field),
        Holds::Digits(count) => digits_fault(alloc, count, field),
    }
}

#[tactic(auto, using(std::proofs::Common::append_assoc))]
fn id_fault(alloc: Global, most: usize, field: &[u8]) -> Result<Option<String>, AllocError>
    ensures { IfOk result (λ fault. option_map string_bytes fault ≡ id_fault most field.now) }
{
    if field.is_empty() {
        return some(alloc, "expected an id");
    }
    if field.len() > most {
        let length = field.len();
        return Ok(Some(format!(in alloc; "{length} bytes, expected at most {most}")?));
    }
    if field.ends_with(b" ") {
        return some(alloc, "trailing blank");
    }
    if !all_printable(field) {
        return some(alloc, "not printable ASCII");
    }
    Ok(None)
}

/// What is wrong with a date of eight digits; None where nothing is.
pub(crate) fn date_fault(alloc: Global, field: &[u8]) -> Result<Option<String>, AllocError>
    ensures { IfOk result (λ fault. option_map string_bytes fault ≡ date_fault field.now) }
{
    if field.len() != 8 || !all_digits(field) {
        return some(alloc, "expected 8 digits, e.g. 20260101");
    }
    if date_read(field).is_err() {
        return some(alloc, "no such date");
    }
    Ok(None)
}

fn number_fault(
    alloc: Global,
    low: u64,
    high: u64,
    field: &[u8],
) -> Result<Option<String>, AllocError>
    ensures { IfOk result (λ fault. option_map string_bytes fault ≡ number_fault low high field.now) }
{
    if field.is_empty() || !all_digits(field) {
        return some(alloc, "expected only digits");
    }
    if field.len() > 1 && field.starts_with(b"0") {
        return some(alloc, "expected no leading zeros");
    }
    if !is_between(low, high, field) {
        return Ok(Some(format!(in alloc; "expected a number from {low} to {high}")?));
    }
    Ok(None)
}

// An amount in dollars has a point.
fn cents_fault(alloc: Global, field: &[u8]) -> Result<Option<String>, AllocError>
    ensures { IfOk result (λ fault. option_map string_bytes fault ≡ cents_fault field.now) }
{
    if has_point(field) {
        return some(
            alloc,
            "expected cents, without a point, e.g. 15000 for 150.00",
        );
    }
    number_fault(alloc, 0, MOST_CENTS, field)
}

fn has_point(field: &[u8]) -> bool
    ensures { result ≡ has_point field.now }
{
    field.iter().any(|b| *b == b'.')
}

// Whether digits are a number from low to high.
fn is_between(low: u64, high: u64, field: &[u8]) -> bool
    ensures { result ≡ is_between low high field.now }
{
    match number_read(field, 19) {
        Ok(number) => low <= number && number <= high,
        Err(_) => false,
    }
}

fn figure_fault(alloc: Global, field: &[u8]) -> Result<Option<String>, AllocError>
    ensures { IfOk result (λ fault. option_map string_bytes fault ≡ figure_fault field.now) }
{
    if field.is_empty() || !all_digits(field) {
        return some(alloc, "expected whole cents, only digits");
    }
    if field.len() > 1 && field.starts_with(b"0") {
        return some(alloc, "expected no leading zeros");
    }
    if field.len() > 20 {
        return some(alloc, "expected at most 20 digits");
    }
    Ok(None)
}

fn digits_fault(alloc: Global, count: usize, field: &[u8]) -> Result<Option<String>, AllocError>
    ensures { IfOk result (λ fault. option_map string_bytes fault ≡ digits_fault count field.now) }
{
    if field.len() == count && all_digits(field) {
        return Ok(None);
    }
    Ok(Some(format!(in alloc; "expected {count} digits")?))
}

fn some(alloc: Global, text: &str) -> Result<Option<String>, AllocError>
    ensures { IfOk result (λ said. option_map string_bytes said ≡ Some text.now) }
{
    Ok(Some(String::from_str(alloc, text)?))
}
