ghost use Rattle.std.specs.Prelude.{◌≡◌, ◌++◌, IfOk, string_bytes};
ghost use Rattle.rx_sheet.specs.Names.{name_of};
ghost use Rattle.rx_diagnostics.specs.KnownKeys.{is_among, texts_of};
ghost use Rattle.rx_diagnostics.specs.SheetTexts.{cents_expected, missing_text, price_expected, expected_at, wrong_text};

use crate::quoting::said;
use rx_fields::MOST_CENTS;
use rx_ledger::{MOST_LIMIT, MOST_PRICE, SheetKey};
use std::alloc::{AllocError, Global};

/// How a key is written.
#[tactic(auto, unfolding(rx_sheet::specs::Names::name_of))]
pub(crate) fn name_of(key: SheetKey) -> &'static str
    ensures { result.now ≡ name_of key }
{
    match key {
        SheetKey::Bin => "bin",
        SheetKey::Pcn => "pcn",
        SheetKey::PeriodFirst => "period_first",
        SheetKey::PeriodLast => "period_last",
        SheetKey::MemberDeductible => "member_deductible",
        SheetKey::FamilyMaximum => "family_maximum",
        SheetKey::RefillPercent => "refill_percent",
        SheetKey::MaxDays => "max_days",
        SheetKey::Fee => "fee",
        SheetKey::Tiers => "tiers",
        SheetKey::Drugs => "drugs",
        SheetKey::Tier => "tier",
        SheetKey::Price => "price",
        SheetKey::FamilyDeductible => "family_deductible",
    }
}

/// The keys of a plan sheet (docs/FORMATS.md, "Plan sheet").
pub const SHEET_KEYS: [&str; 12] = [
    "bin",
    "pcn",
    "period_first",
    "period_last",
    "member_deductible",
    "family_maximum",
    "refill_percent",
    "max_days",
    "fee",
    "tiers",
    "drugs",
    "family_deductible",
];

/// Whether a name is one of these, as they are written.
pub fn is_among(name: &str, names: &[&'static str]) -> bool
    ensures { result ≡ is_among name.now (texts_of names.now) }
{
    names.iter().any(|known| *known == name)
}

/// What is expected under a key.
#[tactic(auto, using(std::proofs::Common::append_assoc), unfolding(crate::specs::SheetTexts::expected_at))]
pub(crate) fn expected_at(alloc: Global, key: SheetKey) -> Result<String, AllocError>
    ensures { IfOk result (λ expected. string_bytes expected ≡ expected_at key) }
{
    let expected = match key {
        SheetKey::Bin => "expected 6 digits in quotes, e.g. \"900001\"",
        SheetKey::Pcn => "expected 0 to 10 printable characters in quotes, e.g. \"RXDEMO\"",
        SheetKey::PeriodFirst => "expected 8 digits in quotes, e.g. \"20260101\"",
        SheetKey::PeriodLast => "expected 8 digits in quotes, e.g. \"20261231\"",
        SheetKey::MemberDeductible | SheetKey::FamilyDeductible => {
            return cents_expected(alloc, MOST_LIMIT, "10000");
        }
        SheetKey::FamilyMaximum => return cents_expected(alloc, MOST_LIMIT, "30000"),
        SheetKey::RefillPercent => "expected a whole number from 0 to 100, e.g. 75",
        SheetKey::MaxDays => "expected a whole number from 1 to 999, e.g. 90",
        SheetKey::Fee => return cents_expected(alloc, MOST_CENTS, "150"),
        SheetKey::Tiers => "expected a table, e.g. [tiers] with a line 1 = 1000",
        SheetKey::Drugs => "expected tables, e.g. [drugs.00001000101] with tier and price",
        SheetKey::Tier => "expected the name of one of the tiers in quotes",
        SheetKey::Price => return price_expected(alloc),
    };
    said(alloc, expected)
}

/// An amount up to a limit, as this one.
#[tactic(auto, using(std::proofs::Common::append_assoc))]
pub(crate) fn cents_expected(alloc: Global, most: u64, example: &str) -> Result<String, AllocError>
    ensures { IfOk result (λ expected. string_bytes expected ≡ cents_expected most example.now) }
{
    format!(in alloc; "expected whole cents from 0 to {most}, e.g. {example}")
}

// A price of a drug.
fn price_expected(alloc: Global) -> Result<String, AllocError>
    ensures { IfOk result (λ expected. string_bytes expected ≡ price_expected) }
{
    format!(in alloc;
        "expected hundredths of a cent per unit, a whole number from 0 to {MOST_PRICE}"
    )
}

/// What is said of a key that isn't there.
pub(crate) fn missing_key(alloc: Global, key: SheetKey) -> Result<String, AllocError>
    ensures { IfOk result (λ said. string_bytes said ≡ missing_text key) }
{
    let expected = expected_at(alloc, key)?;
    key_words(alloc, name_of(key), " is missing: ", expected.as_str())
}

/// What is said of a key whose value isn't known.
pub(crate) fn wrong_key(alloc: Global, key: SheetKey) -> Result<String, AllocError>
    ensures { IfOk result (λ said. string_bytes said ≡ wrong_text key) }
{
    let expected = expected_at(alloc, key)?;
    key_words(alloc, name_of(key), " is wrong: ", expected.as_str())
}

/// A key, what is wrong with it, and what is expected.
#[tactic(auto, using(std::proofs::Common::append_assoc))]
pub(crate) fn key_words(
    alloc: Global,
    name: &str,
    wrong: &str,
    expected: &str,
) -> Result<String, AllocError>
    ensures { IfOk result (λ said. string_bytes said ≡ name.now ++ (wrong.now ++ expected.now)) }
{
    format!(in alloc; "{name}{wrong}{expected}")
}
