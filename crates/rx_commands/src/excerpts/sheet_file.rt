//! A plan sheet of the drugs that a record bills.
ghost use Rattle.std.specs.Prelude.{◌≡◌, ◌↔◌, IfErr, IfOk, IsTrue, Ok, filter, true};
ghost use Rattle.std.specs.List.{list_any};
ghost use Rattle.rx_ledger.specs.Places.{transactions_of};
ghost use Rattle.rx_sheet.specs.SheetText.{sheet_of_text};
ghost use Rattle.rx_commands.specs.ExcerptParts.{bills, excerpt_plan, is_billed};
ghost use Rattle.rx_commands.specs.Excerpts.{IsNoSheet};

use crate::excerpts::fault::ExcerptFault;
use crate::tiers::Tiers;
use rx_d0_values::{Body, Transaction};
use rx_fields::{Memory, Product, date_write};
use rx_ledger::{Figures, Listed, Share, Sheet};
use rx_sheet::{SheetFault, read_sheet};
use std::alloc::Global;
use std::str;
use toml::ser::Error;
use toml::{Table, Value};

/// The text of a sheet with the figures of this one, and those of its drugs that the record bills, in tiers of their own
/// names. It is read again before it is given out.
pub(crate) fn sheet_text(
    alloc: Global,
    sheet: &Sheet,
    tiers: &Tiers,
    body: &Body,
) -> Result<Vec<u8>, ExcerptFault>
    ensures text { IfOk result (λ text. sheet_of_text text.items ≡ Ok (excerpt_plan body.now sheet.now)) }
    ensures refused { IfErr result IsNoSheet }
{
    let drugs = billed_drugs(alloc, sheet, body)?;
    let text = text_of(alloc, sheet.figures(), &drugs, tiers)?;
    let is_text = reads_as(alloc, &text, sheet.figures(), &drugs)?;
    if is_text {
        Ok(text)
    } else {
        Err(ExcerptFault::Unwritten)
    }
}

// The drugs of the sheet that the record bills.
fn billed_drugs(alloc: Global, sheet: &Sheet, body: &Body) -> Result<Vec<Listed>, Memory>
    ensures { IfOk result (λ drugs. drugs.items ≡ filter (λ l. is_billed body.now l.product) sheet.now.drugs) }
{
    let billed = sheet
        .drugs()
        .iter()
        .filter(|listed| is_billed(body, listed.product));
    Ok(billed.copied().collect(alloc)?)
}

fn is_billed(body: &Body, product: Product) -> bool
    ensures { result ≡ is_billed body.now product }
{
    match body {
        Body::Rejected(_) => false,
        Body::Heard(heard) => heard.list.as_slice().iter().any(|one| bills(one, product)),
    }
}

fn bills(transaction: &Transaction, product: Product) -> bool
    ensures { result ≡ bills product transaction.now }
{
    match transaction {
        Transaction::Bill(bill) => bill.parts().product == product,
        Transaction::Reverse(_) | Transaction::Faulty(_) => false,
    }
}

// Whether a text is the sheet of these figures and drugs.
fn reads_as(alloc: Global, text: &[u8], figures: &Figures, drugs: &[Listed]) -> Result<bool, Memory>
    ensures { IfOk result (λ is.
        is ≡ true → sheet_of_text text.now ≡ Ok (record { figures = figures.now; drugs = drugs.now })) }
{
    match read_sheet(alloc, text) {
        Ok(read) => Ok(is_of(&read, figures, drugs)),
        Err(SheetFault::Memory) => Err(Memory),
        Err(_) => Ok(false),
    }
}

// Whether a sheet is of these figures and drugs.
#[tactic(auto, using(crate::proofs::ExcerptPlans::plan_of))]
fn is_of(sheet: &Sheet, figures: &Figures, drugs: &[Listed]) -> bool
    ensures { result ≡ true → sheet.now ≡ record { figures = figures.now; drugs = drugs.now } }
{
    same_figures(sheet.figures(), figures) && same_drugs(sheet.drugs(), drugs)
}

fn same_figures(a: &Figures, b: &Figures) -> bool
    ensures { IsTrue result ↔ (a.now ≡ b.now) }
{
    *a == *b
}

fn same_drugs(a: &[Listed], b: &[Listed]) -> bool
    ensures { IsTrue result ↔ (a.now ≡ b.now) }
{
    *a == *b
}

// The text of the table that says these figures and drugs.
fn text_of(
    alloc: Global,
    figures: &Figures,
    drugs: &[Listed],
    tiers: &Tiers,
) -> Result<Vec<u8>, Memory> {
    let table = table_of(alloc, figures, drugs, tiers)?;
    let text = toml::table_to_string(alloc, &table);
    drop(table);
    match text {
        Ok(text) => Ok(text.into_bytes()),
        Err(Error::OutOfMemory) => Err(Memory),
        Err(Error::DateInvalid) => Ok(Vec::new(alloc)),
    }
}

fn table_of(
    alloc: Global,
    figures: &Figures,
    drugs: &[Listed],
    tiers: &Tiers,
) -> Result<Table, Memory> {
    let mut table = Table::new(alloc);
    put_door(alloc, &mut table, figures)?;
    put_figures(alloc, &mut table, figures)?;
    let shares = shares_of(alloc, drugs, tiers)?;
    put(alloc, &mut table, "tiers", Value::Table(shares))?;
    let entries = entries_of(alloc, drugs, tiers)?;
    put(alloc, &mut table, "drugs", Value::Table(entries))?;
    Ok(table)
}

// What a member pays in each tier that has one of these drugs.
fn shares_of(alloc: Global, drugs: &[Listed], tiers: &Tiers) -> Result<Table, Memory> {
    let mut shares = Table::new(alloc);
    for listed in drugs {
        let share = share_of(alloc, listed.drug.share)?;
        put(alloc, &mut shares, tier_of(listed, tiers), share)?;
    }
    Ok(shares)
}

// The entries of these drugs.
fn entries_of(alloc: Global, drugs: &[Listed], tiers: &Tiers) -> Result<Table, Memory> {
    let mut entries = Table::new(alloc);
    for listed in drugs {
        let entry = entry_of(alloc, tier_of(listed, tiers), listed.drug.price)?;
        let digits = listed.product.digits();
        put(alloc, &mut entries, ascii(&digits), entry)?;
    }
    Ok(entries)
}

// The name of a drug's tier.
fn tier_of<'a>(listed: &Listed, tiers: &'a Tiers) -> &'a str {
    tiers.name(listed.product).unwrap_or("")
}

fn put_door(alloc: Global, table: &mut Table, figures: &Figures) -> Result<(), Memory> {
    put_text(alloc, table, "bin", &figures.door.bin)?;
    put_text(alloc, table, "pcn", &figures.door.pcn)?;
    put_text(
        alloc,
        table,
        "period_first",
        &date_write(figures.period.first()),
    )?;
    put_text(
        alloc,
        table,
        "period_last",
        &date_write(figures.period.last()),
    )
}

fn put_figures(alloc: Global, table: &mut Table, figures: &Figures) -> Result<(), Memory> {
    put_number(alloc, table, "member_deductible", figures.member_deductible)?;
    put_number(alloc, table, "family_maximum", figures.family_maximum)?;
    put_number(alloc, table, "refill_percent", figures.refill_percent)?;
    put_number(alloc, table, "max_days", figures.max_days)?;
    put_number(alloc, table, "fee", figures.fee)?;
    match figures.family_deductible {
        Some(cents) => put_number(alloc, table, "family_deductible", cents),
        None => Ok(()),
    }
}

// What a member pays in a tier.
fn share_of(alloc: Global, share: Share) -> Result<Value, Memory> {
    match share {
        Share::Copay(cents) => Ok(number_of(cents)),
        Share::Percent(percent) => {
            let mut tier = Table::new(alloc);
            put_number(alloc, &mut tier, "percent", u64::from(percent))?;
            Ok(Value::Table(tier))
        }
    }
}

// The entry of a drug.
fn entry_of(alloc: Global, tier: &str, price: u64) -> Result<Value, Memory> {
    let mut entry = Table::new(alloc);
    put_text(alloc, &mut entry, "tier", tier.as_bytes())?;
    put_number(alloc, &mut entry, "price", price)?;
    Ok(Value::Table(entry))
}

fn put_text(alloc: Global, table: &mut Table, name: &str, text: &[u8]) -> Result<(), Memory> {
    let text = String::from_str(alloc, ascii(text))?;
    put(alloc, table, name, Value::String(text))
}

fn put_number(alloc: Global, table: &mut Table, name: &str, number: u64) -> Result<(), Memory> {
    put(alloc, table, name, number_of(number))
}

fn number_of(number: u64) -> Value {
    match i64::try_from(number) {
        Ok(number) => Value::Integer(number),
        Err(_) => Value::Integer(i64::MAX),
    }
}

fn put(alloc: Global, table: &mut Table, name: &str, value: Value) -> Result<(), Memory> {
    let name = String::from_str(alloc, name)?;
    match table.insert(name, value) {
        Ok(_) => Ok(()),
        Err(_) => Err(Memory),
    }
}

// Bytes that are text.
fn ascii(bytes: &[u8]) -> &str {
    str::from_utf8(bytes).unwrap_or("")
}
