ghost use Rattle.std.specs.Prelude.{◌≡◌, ◌≤◌, IfOk, IfSome, true};
ghost use Rattle.std.specs.Option.{option_map};
ghost use Rattle.std.specs.Result.{result_map_both};
ghost use Rattle.toml.specs.Data.{as_table};
ghost use Rattle.toml.specs.View.{view, table_view};
ghost use Rattle.rx_ledger.specs.Plan.{is_drug, is_share};
ghost use Rattle.rx_sheet.specs.Drugs.{AreListed, percent_in, share_in, are_shares, tiers_in};
ghost use Rattle.rx_sheet.specs.Drugs.{ascending, share_of, drug_in, listed_in, drugs_of, drugs_in};
ghost use Rattle.rx_sheet.specs.Fault.{GivesAs};
ghost use Rattle.rx_sheet.specs.Values.{read_at};

use crate::fault::SheetFault;
use crate::values::{look_up, number, number_at, value_at};
use rx_fields::{MOST_CENTS, Product};
use rx_ledger::{Drug, Listed, MOST_PRICE, Share, SheetKey};
use std::alloc::Global;
use toml::{Table, Value};

/// Keys 10 to 13: the drugs with what the plan says of them, ascending by product.
#[tactic(auto, unfolding(crate::specs::Drugs::drugs_in))]
pub(crate) fn drugs(alloc: Global, sheet: &Table) -> Result<Vec<Listed>, SheetFault>
    ensures value { GivesAs (λ v. v.items) result (drugs_in (table_view sheet.now)) }
    ensures listed { IfOk result (λ v. AreListed v.items) }
{
    let tiers = tiers(sheet)?;
    let value = value_at(sheet, SheetKey::Drugs)?;
    let drugs = value.as_table().ok_or(SheetFault::Wrong(SheetKey::Drugs))?;
    drugs_of(alloc, tiers, drugs)
}

// The tiers, each of which says what a member pays.
fn tiers(sheet: &Table) -> Result<&Table, SheetFault>
    ensures { result_map_both (λ t. table_view t.now) (λ e. e) result ≡ read_at SheetKey.Tiers tiers_in (table_view sheet.now) }
{
    let value = value_at(sheet, SheetKey::Tiers)?;
    match value.as_table() {
        Some(tiers) if are_shares(tiers) => Ok(tiers),
        _ => Err(SheetFault::Wrong(SheetKey::Tiers)),
    }
}

fn are_shares(tiers: &Table) -> bool
    ensures { result ≡ are_shares (table_view tiers.now) }
{
    for (_name, tier) in tiers {
        if share_in(tier).is_none() {
            return false;
        }
    }
    true
}

// What a member pays in a tier: a copay in cents, or a table with a percentage.
#[tactic(auto, using(crate::proofs::Shares::share_in_table))]
fn share_in(tier: &Value) -> Option<Share>
    ensures value { result ≡ share_in (view tier.now) }
    ensures within { IfSome result (λ share. is_share share ≡ true) }
{
    match tier.as_table() {
        Some(tier) => Some(Share::Percent(percent_in(tier)?)),
        None => Some(Share::Copay(number(tier, 0, MOST_CENTS)?)),
    }
}

// The percentage of a tier.
fn percent_in(tier: &Table) -> Option<u8>
    ensures value { result ≡ percent_in (table_view tier.now) }
    ensures within { IfSome result (λ percent. percent ≤ 100) }
{
    let percent = number(look_up(tier, "percent")?, 0, 100)?;
    Some(percent as u8)
}

// Each of these drugs, ascending by key, as a table has its members.
fn drugs_of(alloc: Global, tiers: &Table, drugs: &Table) -> Result<Vec<Listed>, SheetFault>
    ensures value { GivesAs (λ v. v.items) result (drugs_of (table_view tiers.now) (ascending (table_view drugs.now))) }
    ensures listed { IfOk result (λ v. AreListed v.items) }
{
    let mut list = Vec::new(alloc);
    for (name, value) in drugs.iter() {
        let entry = listed(tiers, name.as_str(), value)?;
        list.push(entry)?;
    }
    Ok(list)
}

// A drug under its product.
#[tactic(auto, unfolding(crate::specs::Drugs::listed_in))]
fn listed(tiers: &Table, name: &str, value: &Value) -> Result<Listed, SheetFault>
    ensures value { result ≡ listed_in (table_view tiers.now) name.now (view value.now) }
    ensures within { IfOk result (λ listed. is_drug listed.drug ≡ true) }
{
    let product = Product::new(name.as_bytes()).ok_or(SheetFault::Wrong(SheetKey::Drugs))?;
    let drug = drug(tiers, value)?;
    Ok(Listed { product, drug })
}

// What the plan says of a drug: its tier, then its price.
#[tactic(auto, unfolding(crate::specs::Drugs::drug_in))]
fn drug(tiers: &Table, value: &Value) -> Result<Drug, SheetFault>
    ensures value { result ≡ drug_in (table_view tiers.now) (view value.now) }
    ensures within { IfOk result (λ drug. is_drug drug ≡ true) }
{
    let drug = value.as_table().ok_or(SheetFault::Wrong(SheetKey::Drugs))?;
    let tier = value_at(drug, SheetKey::Tier)?;
    let share = share_of(tiers, tier).ok_or(SheetFault::Wrong(SheetKey::Tier))?;
    let price = number_at(drug, SheetKey::Price, 0, MOST_PRICE)?;
    Ok(Drug { share, price })
}

// The share of the tier that a text names.
fn share_of(tiers: &Table, tier: &Value) -> Option<Share>
    ensures value { result ≡ share_of (table_view tiers.now) (view tier.now) }
    ensures within { IfSome result (λ share. is_share share ≡ true) }
{
    share_in(look_up(tiers, tier.as_str()?)?)
}
