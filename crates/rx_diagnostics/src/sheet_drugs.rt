ghost use Rattle.std.specs.Prelude.{◌≡◌, IfOk, is_some, option_copied, option_map, string_bytes};
ghost use Rattle.std.specs.Option.{option_and_then};
ghost use Rattle.toml.specs.View.{table_view, view};
ghost use Rattle.rx_sheet.specs.Drugs.{percent_in, share_in};
ghost use Rattle.rx_sheet.specs.Values.{number};
ghost use Rattle.rx_diagnostics.specs.KnownKeys.{texts_of};
ghost use Rattle.rx_diagnostics.specs.Likeness.{nearest};
ghost use Rattle.rx_diagnostics.specs.Quoting.{quoted_text};
ghost use Rattle.rx_diagnostics.specs.SheetDrugs.{TellsDrug, TellsEntry, TellsFirst, TellsFirstPrice, TellsFirstTier, TellsOfDrugs};
ghost use Rattle.rx_diagnostics.specs.SheetDrugs.{TellsPercent, TellsShare, TellsTable, TellsTier, TellsTierOf, drugs_key_text};
ghost use Rattle.rx_diagnostics.specs.SheetDrugs.{lacking_key_text, lacking_text, missing_of_drug_text, no_key_text};
ghost use Rattle.rx_diagnostics.specs.SheetDrugs.{no_percent_text, no_table_text, product_text, said_of, table_under};
ghost use Rattle.rx_diagnostics.specs.SheetDrugs.{first_unknown, like_text, others_text, tiers_text};
ghost use Rattle.rx_diagnostics.specs.SheetDrugs.{unknown_said, unknown_tier_text};
ghost use Rattle.rx_diagnostics.specs.FaultyParts.{expected_of, owner_of, part_of};
ghost use Rattle.rx_diagnostics.specs.SheetEntries.{entry_of, wrong_in};
ghost use Rattle.rx_diagnostics.specs.SheetValues.{TellsOf, first_wrong, is_product, is_tier, lacks, of_drug, unless};

use crate::likeness::nearest;
use crate::quoting::{quoted, said};
use crate::sheet_keys::{cents_expected, expected_at, key_words, name_of, wrong_key};
use crate::sheet_names::{names_in, names_words};
use crate::sheet_values::{found, is_number, shown_value, table_at};
use rx_fields::MOST_CENTS;
use rx_ledger::{MOST_PRICE, SheetKey};
use rx_text::all_digits;
use std::alloc::{AllocError, Global};
use toml::{Table, Value};

/// What is said of tiers and drugs: the first tier or drug at fault by name, and its value.
#[tactic(auto, unfolding(crate::specs::SheetDrugs::TellsOfDrugs))]
pub(crate) fn drug_words(alloc: Global, key: SheetKey, sheet: &Table) -> Result<String, AllocError>
    ensures { IfOk result (λ said. TellsOfDrugs key (table_view sheet.now) (string_bytes said)) }
{
    let tiers = table_under(sheet, SheetKey::Tiers);
    let drugs = table_under(sheet, SheetKey::Drugs);
    match key {
        SheetKey::Tiers => table_words(alloc, SheetKey::Tiers, Looked::Share, tiers),
        SheetKey::Drugs => table_words(alloc, SheetKey::Drugs, Looked::Drug, drugs),
        SheetKey::Tier => tier_words(alloc, tiers, drugs),
        _ => price_words(alloc, first_in(drugs, Looked::Price)),
    }
}

/// What is said of the first drug that hasn't this key.
#[tactic(auto, unfolding(crate::specs::SheetDrugs::no_key_text))]
pub(crate) fn no_drug_key(alloc: Global, key: SheetKey, sheet: &Table) -> Result<String, AllocError>
    ensures { IfOk result (λ said. string_bytes said ≡ no_key_text key (table_under SheetKey.Drugs (table_view sheet.now))) }
{
    let drugs = table_under(sheet, SheetKey::Drugs);
    lacking_words(alloc, key, first_in(drugs, Looked::Lacking(key)))
}

// ---- the first that is wrong

/// What is looked for among the entries of a table.
#[derive(Clone, Copy)]
pub(crate) enum Looked<'t> {
    /// A tier that says no share.
    Share,
    /// A drug that is no table, or whose name is no product.
    Drug,
    /// A drug's tier that is none of these.
    Tier(&'t Table),
    /// A drug's price that is no price.
    Price,
    /// A drug without this key.
    Lacking(SheetKey),
}

/// An entry of a table in which something is wrong.
#[derive(Clone, Copy)]
pub(crate) struct Entry<'t> {
    pub(crate) name: &'t str,
    /// What is wrong.
    pub(crate) value: &'t Value,
}

// The first entry of a table in which something is wrong.
fn first_wrong<'t>(table: &'t Table, looked: Looked<'_>) -> Option<Entry<'t>>
    ensures { option_map entry_of result ≡ first_wrong (wrong_in looked.entry) (table_view table.now) }
{
    for (name, value) in table.iter() {
        if let Some(value) = wrong_in(looked, name.as_str(), value) {
            return Some(Entry {
                name: name.as_str(),
                value,
            });
        }
    }
    None
}

/// The same, where there is a table.
pub(crate) fn first_in<'t>(table: Option<&'t Table>, looked: Looked<'_>) -> Option<Entry<'t>>
    ensures { option_map entry_of result
        ≡ option_and_then (first_wrong (wrong_in looked.entry)) (option_map (λ t. table_view t.now) table.entry) }
{
    match table {
        Some(table) => first_wrong(table, looked),
        None => None,
    }
}

// What is wrong in an entry, if something is.
fn wrong_in<'t>(looked: Looked<'_>, name: &str, value: &'t Value) -> Option<&'t Value>
    ensures { option_map (λ v. view v.now) result ≡ wrong_in looked.entry name.now (view value.entry.now) }
{
    match looked {
        Looked::Share => unless(is_share(value), value),
        Looked::Drug => unless(is_product(name) && value.as_table().is_some(), value),
        Looked::Tier(tiers) => wrong_tier(tiers, of_drug(value, SheetKey::Tier)),
        Looked::Price => wrong_price(of_drug(value, SheetKey::Price)),
        Looked::Lacking(key) => unless(!lacks(value, key), value),
    }
}

fn unless(is_fine: bool, value: &Value) -> Option<&Value>
    ensures { option_map (λ v. view v.now) result ≡ unless is_fine (view value.entry.now) }
{
    if is_fine { None } else { Some(value) }
}

// Whether a copay, or a table with a percentage.
fn is_share(tier: &Value) -> bool
    ensures { result ≡ is_some (share_in (view tier.now)) }
{
    match tier.as_table() {
        None => is_number(tier, MOST_CENTS),
        Some(table) => has_percent(table),
    }
}

fn has_percent(tier: &Table) -> bool
    ensures { result ≡ is_some (percent_in (table_view tier.now)) }
{
    match found(tier, "percent") {
        Some(percent) => is_number(percent, 100),
        None => false,
    }
}

fn is_product(name: &str) -> bool
    ensures { result ≡ is_product name.now }
{
    name.len() == 11 && all_digits(name.as_bytes())
}

// The value at a key of a drug, where it is a table.
fn of_drug<'t>(drug: &'t Value, key: SheetKey) -> Option<&'t Value>
    ensures { option_map (λ v. view v.now) result ≡ of_drug key (view drug.entry.now) }
{
    found(drug.as_table()?, name_of(key))
}

fn wrong_tier<'t>(tiers: &Table, tier: Option<&'t Value>) -> Option<&'t Value>
    ensures { option_map (λ v. view v.now) result ≡ option_and_then (λ t. unless (is_tier (table_view tiers.now) t) t)
        (option_map (λ v. view v.now) tier.entry) }
{
    match tier {
        Some(tier) => unless(is_tier(tiers, tier), tier),
        None => None,
    }
}

fn is_tier(tiers: &Table, tier: &Value) -> bool
    ensures { result ≡ is_tier (table_view tiers.now) (view tier.now) }
{
    match tier {
        Value::String(name) => found(tiers, name.as_str()).is_some(),
        _ => false,
    }
}

fn wrong_price(price: Option<&Value>) -> Option<&Value>
    ensures { option_map (λ v. view v.now) result ≡ option_and_then (λ p. unless (is_some (number 0 MOST_PRICE p)) p)
        (option_map (λ v. view v.now) price.entry) }
{
    match price {
        Some(price) => unless(is_number(price, MOST_PRICE), price),
        None => None,
    }
}

// Whether a drug is a table without the key.
fn lacks(drug: &Value, key: SheetKey) -> bool
    ensures { result ≡ lacks key (view drug.now) }
{
    drug.as_table().is_some() && of_drug(drug, key).is_none()
}

/// The table at a key of the sheet.
pub(crate) fn table_under(sheet: &Table, key: SheetKey) -> Option<&Table>
    ensures { option_map (λ t. table_view t.now) result ≡ table_under key (table_view sheet.entry.now) }
{
    table_at(sheet, name_of(key))
}

// ---- what is said of a value

/// What is wrong about a value of a tier or a drug.
#[derive(Clone, Copy)]
pub(crate) enum Faulty {
    /// A tier that is neither cents nor a table.
    Cents,
    /// A tier's percentage.
    Percent,
    /// A drug that is no table.
    Drug,
    /// A drug's tier that is no name.
    Tier,
    /// A drug's price.
    Price,
}

// A value under this name.
fn value_said(
    alloc: Global,
    faulty: Faulty,
    name: &str,
    value: &Value,
) -> Result<String, AllocError>
    ensures { IfOk result (λ said. TellsOf (view value.now) (said_of faulty name.now) (string_bytes said)) }
{
    let shown = shown_value(alloc, value)?;
    said_of(alloc, faulty, name, &shown)
}

#[tactic(auto, using(std::proofs::Common::append_assoc, crate::proofs::FaultyParts::said_parts))]
fn said_of(alloc: Global, faulty: Faulty, name: &str, shown: &str) -> Result<String, AllocError>
    ensures { IfOk result (λ said. string_bytes said ≡ said_of faulty name.now shown.now) }
{
    let owner = faulty.owner();
    let part = faulty.part();
    let expected = faulty.expected(alloc)?;
    format!(in alloc; "{owner} {name}{part} = {shown}: {expected}")
}

impl Faulty {
    // What has the value.
    fn owner(self) -> &'static str
        ensures { result.now ≡ owner_of self }
    {
        match self {
            Faulty::Cents | Faulty::Percent => "tier",
            Faulty::Drug | Faulty::Tier | Faulty::Price => "drug",
        }
    }

    // The key at which it stands there, if it does.
    fn part(self) -> &'static str
        ensures { result.now ≡ part_of self }
    {
        match self {
            Faulty::Cents | Faulty::Drug => "",
            Faulty::Percent => ": percent",
            Faulty::Tier => ": tier",
            Faulty::Price => ": price",
        }
    }

    // What is expected in its place.
    fn expected(self, alloc: Global) -> Result<String, AllocError>
        ensures { IfOk result (λ expected. string_bytes expected ≡ expected_of self) }
    {
        let expected = match self {
            Faulty::Cents => {
                return cents_expected(alloc, MOST_CENTS, "1000, or { percent = 20 }");
            }
            Faulty::Percent => "expected a whole number from 0 to 100, e.g. 20",
            Faulty::Drug => "expected a table with tier and price",
            Faulty::Tier => "expected the name of a tier in quotes, e.g. \"1\"",
            Faulty::Price => return expected_at(alloc, SheetKey::Price),
        };
        said(alloc, expected)
    }
}

// ---- tiers and drugs

// What is said of a table, or of a value that is none.
fn table_words(
    alloc: Global,
    key: SheetKey,
    looked: Looked<'_>,
    table: Option<&Table>,
) -> Result<String, AllocError>
    ensures { IfOk result (λ said. TellsTable key (wrong_in looked.entry)
        (option_map (λ t. table_view t.now) table.entry) (string_bytes said)) }
{
    match table {
        Some(table) => first_words(alloc, key, first_wrong(table, looked)),
        None => no_table(alloc, key),
    }
}

#[tactic(auto, using(std::proofs::Common::append_assoc))]
fn no_table(alloc: Global, key: SheetKey) -> Result<String, AllocError>
    ensures { IfOk result (λ said. string_bytes said ≡ no_table_text key) }
{
    let name = name_of(key);
    let expected = expected_at(alloc, key)?;
    format!(in alloc; "{name} isn't a table: {expected}")
}

// What is said of the first that is wrong.
fn first_words(alloc: Global, key: SheetKey, wrong: Option<Entry<'_>>) -> Result<String, AllocError>
    ensures { IfOk result (λ said. TellsFirst key (option_map entry_of wrong.entry) (string_bytes said)) }
{
    match wrong {
        Some(entry) => entry_words(alloc, key, entry.name, entry.value),
        None => wrong_key(alloc, key),
    }
}

fn entry_words(
    alloc: Global,
    key: SheetKey,
    name: &str,
    value: &Value,
) -> Result<String, AllocError>
    ensures { IfOk result (λ said. TellsEntry key name.now (view value.now) (string_bytes said)) }
{
    match key {
        SheetKey::Tiers => share_words(alloc, name, value),
        _ => drug_entry(alloc, name, value),
    }
}

// A table by its percentage, another value as it stands.
fn share_words(alloc: Global, name: &str, tier: &Value) -> Result<String, AllocError>
    ensures { IfOk result (λ said. TellsShare name.now (view tier.now) (string_bytes said)) }
{
    match tier.as_table() {
        Some(table) => percent_words(alloc, name, found(table, "percent")),
        None => cents_words(alloc, name, tier),
    }
}

fn cents_words(alloc: Global, name: &str, tier: &Value) -> Result<String, AllocError>
    ensures { IfOk result (λ said.
        TellsOf (view tier.now) (said_of Faulty.Cents (quoted_text name.now)) (string_bytes said)) }
{
    let name = quoted(alloc, name.as_bytes())?;
    value_said(alloc, Faulty::Cents, &name, tier)
}

fn percent_words(alloc: Global, name: &str, percent: Option<&Value>) -> Result<String, AllocError>
    ensures { IfOk result (λ said.
        TellsPercent name.now (option_map (λ v. view v.now) percent.entry) (string_bytes said)) }
{
    let Some(percent) = percent else {
        return no_percent(alloc, name);
    };
    let name = quoted(alloc, name.as_bytes())?;
    value_said(alloc, Faulty::Percent, &name, percent)
}

#[tactic(auto, using(std::proofs::Common::append_assoc), unfolding(crate::specs::SheetDrugs::no_percent_text))]
fn no_percent(alloc: Global, name: &str) -> Result<String, AllocError>
    ensures { IfOk result (λ said. string_bytes said ≡ no_percent_text name.now) }
{
    let name = quoted(alloc, name.as_bytes())?;
    format!(in alloc; "tier {name} is a table without percent: expected {{ percent = 20 }}")
}

fn drug_entry(alloc: Global, name: &str, drug: &Value) -> Result<String, AllocError>
    ensures { IfOk result (λ said. TellsDrug name.now (view drug.now) (string_bytes said)) }
{
    if is_product(name) {
        value_said(alloc, Faulty::Drug, name, drug)
    } else {
        no_product(alloc, name)
    }
}

#[tactic(auto, using(std::proofs::Common::append_assoc), unfolding(crate::specs::SheetDrugs::product_text))]
fn no_product(alloc: Global, name: &str) -> Result<String, AllocError>
    ensures { IfOk result (λ said. string_bytes said ≡ product_text name.now) }
{
    let name = quoted(alloc, name.as_bytes())?;
    format!(in alloc; "drug {name}: a product is 11 digits without dashes, as 00001000101")
}

// ---- a drug's tier and price

fn tier_words(
    alloc: Global,
    tiers: Option<&Table>,
    drugs: Option<&Table>,
) -> Result<String, AllocError>
    ensures { IfOk result (λ said. TellsTierOf (option_map (λ t. table_view t.now) tiers.entry)
        (option_map (λ t. table_view t.now) drugs.entry) (string_bytes said)) }
{
    let names = match tiers {
        Some(tiers) => names_in(alloc, tiers, &[])?,
        None => Vec::new(alloc),
    };
    first_tier(alloc, names.as_slice(), first_unknown(tiers, drugs))
}

/// The first drug whose tier is none of the tiers, where there are both.
pub(crate) fn first_unknown<'t>(
    tiers: Option<&Table>,
    drugs: Option<&'t Table>,
) -> Option<Entry<'t>>
    ensures { option_map entry_of result ≡ first_unknown (option_map (λ t. table_view t.now) tiers.entry)
        (option_map (λ t. table_view t.now) drugs.entry) }
{
    match tiers {
        Some(tiers) => first_in(drugs, Looked::Tier(tiers)),
        None => None,
    }
}

// What is said of the first drug whose tier is no tier.
fn first_tier(alloc: Global, names: &[&str], wrong: Option<Entry<'_>>) -> Result<String, AllocError>
    ensures { IfOk result (λ said.
        TellsFirstTier (texts_of names.now) (option_map entry_of wrong.entry) (string_bytes said)) }
{
    match wrong {
        Some(drug) => no_tier(alloc, names, drug.name, drug.value),
        None => wrong_of_drug(alloc, SheetKey::Tier),
    }
}

fn no_tier(alloc: Global, names: &[&str], drug: &str, tier: &Value) -> Result<String, AllocError>
    ensures { IfOk result (λ said. TellsTier (texts_of names.now) drug.now (view tier.now) (string_bytes said)) }
{
    match tier {
        Value::String(name) => unknown_tier(alloc, names, drug, name.as_str()),
        _ => value_said(alloc, Faulty::Tier, drug, tier),
    }
}

#[tactic(auto, using(std::proofs::Common::append_assoc), unfolding(crate::specs::SheetDrugs::unknown_tier_text))]
fn unknown_tier(alloc: Global, names: &[&str], drug: &str, tier: &str) -> Result<String, AllocError>
    ensures { IfOk result (λ said. string_bytes said ≡ unknown_tier_text (texts_of names.now) drug.now tier.now) }
{
    let others = others_words(alloc, names, tier)?;
    let shown = quoted(alloc, tier.as_bytes())?;
    unknown_said(alloc, drug, shown.as_str(), others.as_str())
}

#[tactic(auto, using(std::proofs::Common::append_assoc))]
fn unknown_said(alloc: Global, drug: &str, tier: &str, others: &str) -> Result<String, AllocError>
    ensures { IfOk result (λ said. string_bytes said ≡ unknown_said drug.now tier.now others.now) }
{
    format!(in alloc; "drug {drug}: tier = {tier}: no tier has this name{others}")
}

// Which tiers there are, and which of them may be meant.
#[tactic(auto, unfolding(crate::specs::SheetDrugs::others_text))]
fn others_words(alloc: Global, names: &[&str], tier: &str) -> Result<String, AllocError>
    ensures { IfOk result (λ said. string_bytes said ≡ others_text (texts_of names.now) tier.now) }
{
    let meant = meant_tier(alloc, tier, names)?;
    let mut said = tiers_words(alloc, names)?;
    said.push_str(meant.as_str())?;
    Ok(said)
}

// Which tiers there are.
#[tactic(auto, using(std::proofs::Common::append_assoc), unfolding(crate::specs::SheetDrugs::tiers_text))]
fn tiers_words(alloc: Global, names: &[&str]) -> Result<String, AllocError>
    ensures { IfOk result (λ said. string_bytes said ≡ tiers_text (texts_of names.now)) }
{
    if names.is_empty() {
        return said(alloc, "; there are no tiers");
    }
    let names = names_words(alloc, names)?;
    format!(in alloc; "; the tiers are{names}")
}

// The tier that may be meant by another name.
fn meant_tier(alloc: Global, tier: &str, names: &[&str]) -> Result<String, AllocError>
    ensures { IfOk result (λ said. string_bytes said ≡ like_text (nearest tier.now (texts_of names.now))) }
{
    like_words(alloc, nearest(tier.as_bytes(), names))
}

// The name that may be meant.
#[tactic(auto, using(std::proofs::Common::append_assoc), unfolding(crate::specs::SheetDrugs::like_text))]
fn like_words(alloc: Global, like: Option<&str>) -> Result<String, AllocError>
    ensures { IfOk result (λ said. string_bytes said ≡ like_text (option_copied like.entry)) }
{
    let Some(like) = like else {
        return Ok(String::new(alloc));
    };
    let like = quoted(alloc, like.as_bytes())?;
    format!(in alloc; ": is {like} meant?")
}

// What is said of the first drug whose price is no price.
fn price_words(alloc: Global, wrong: Option<Entry<'_>>) -> Result<String, AllocError>
    ensures { IfOk result (λ said. TellsFirstPrice (option_map entry_of wrong.entry) (string_bytes said)) }
{
    match wrong {
        Some(drug) => value_said(alloc, Faulty::Price, drug.name, drug.value),
        None => wrong_of_drug(alloc, SheetKey::Price),
    }
}

// What is said of a key that is wrong in no drug.
#[tactic(auto, using(std::proofs::Common::append_assoc))]
fn wrong_of_drug(alloc: Global, key: SheetKey) -> Result<String, AllocError>
    ensures { IfOk result (λ said. string_bytes said ≡ drugs_key_text key) }
{
    let name = name_of(key);
    let expected = expected_at(alloc, key)?;
    format!(in alloc; "{name} of a drug is wrong: {expected}")
}

// What is said of the first drug without a key.
fn lacking_words(
    alloc: Global,
    key: SheetKey,
    lacking: Option<Entry<'_>>,
) -> Result<String, AllocError>
    ensures { IfOk result (λ said. string_bytes said ≡ lacking_text key (option_map entry_of lacking.entry)) }
{
    match lacking {
        Some(drug) => lacking_key(alloc, key, drug.name),
        None => missing_of_drug(alloc, key),
    }
}

#[tactic(auto, using(std::proofs::Common::append_assoc))]
fn lacking_key(alloc: Global, key: SheetKey, drug: &str) -> Result<String, AllocError>
    ensures { IfOk result (λ said. string_bytes said ≡ lacking_key_text key drug.now) }
{
    let name = name_of(key);
    let expected = expected_at(alloc, key)?;
    format!(in alloc; "drug {drug}: {name} is missing: {expected}")
}

fn missing_of_drug(alloc: Global, key: SheetKey) -> Result<String, AllocError>
    ensures { IfOk result (λ said. string_bytes said ≡ missing_of_drug_text key) }
{
    let expected = expected_at(alloc, key)?;
    key_words(
        alloc,
        name_of(key),
        " of a drug is missing: ",
        expected.as_str(),
    )
}
