ghost use Rattle.std.specs.Prelude.{◌≡◌, IfOk, option_map};
ghost use Rattle.toml.specs.View.{table_view};
ghost use Rattle.rx_diagnostics.specs.SheetEntries.{entry_of};
ghost use Rattle.rx_diagnostics.specs.SheetLines.{names_of, place_of_key};
ghost use Rattle.rx_diagnostics.specs.SheetPlaces.{entry_at, fault_at, lacking_at, missing_at, part_at, wrong_at};

use crate::place::Place;
use crate::sheet_drugs::{Entry, Looked, first_in, first_unknown, table_under};
use crate::sheet_keys::name_of;
use crate::sheet_lines::{At, line_of};
use rx_ledger::SheetKey;
use rx_sheet::SheetFault;
use std::alloc::{AllocError, Global};
use toml::Table;

/// The line of what a fault of this sheet is about, or the whole sheet where no line names it.
pub(crate) fn place_in(
    alloc: Global,
    text: &[u8],
    fault: SheetFault,
    sheet: &Table,
) -> Result<Place, AllocError>
    ensures { IfOk result (λ place. place ≡ place_of_key text.now (fault_at fault (table_view sheet.now))) }
{
    match line_of(alloc, text, fault_at(fault, sheet))? {
        Some(line) => Ok(Place::Line(line)),
        None => Ok(Place::Whole),
    }
}

// What a fault is about.
fn fault_at(fault: SheetFault, sheet: &Table) -> At<'_>
    ensures { names_of result ≡ fault_at fault (table_view sheet.now) }
{
    match fault {
        SheetFault::Missing(key) => missing_at(key, sheet),
        SheetFault::Wrong(key) => wrong_at(key, sheet),
        SheetFault::NotToml | SheetFault::Memory => At::Nowhere,
    }
}

// The value that is wrong.
fn wrong_at(key: SheetKey, sheet: &Table) -> At<'_>
    ensures { names_of result ≡ wrong_at key (table_view sheet.now) }
{
    let tiers = table_under(sheet, SheetKey::Tiers);
    let drugs = table_under(sheet, SheetKey::Drugs);
    match key {
        SheetKey::Tiers => part_at(SheetKey::Tiers, "percent", first_in(tiers, Looked::Share)),
        SheetKey::Drugs => entry_at(SheetKey::Drugs, first_in(drugs, Looked::Drug)),
        SheetKey::Tier => part_at(SheetKey::Drugs, "tier", first_unknown(tiers, drugs)),
        SheetKey::Price => part_at(SheetKey::Drugs, "price", first_in(drugs, Looked::Price)),
        _ => At::Key(name_of(key)),
    }
}

// The drug in which a key is missing.
fn missing_at(key: SheetKey, sheet: &Table) -> At<'_>
    ensures { names_of result ≡ missing_at key (table_view sheet.now) }
{
    match key {
        SheetKey::Tier => lacking_at(SheetKey::Tier, sheet),
        SheetKey::Price => lacking_at(SheetKey::Price, sheet),
        _ => At::Nowhere,
    }
}

// The first drug without this key.
fn lacking_at(key: SheetKey, sheet: &Table) -> At<'_>
    ensures { names_of result ≡ lacking_at key (table_view sheet.now) }
{
    let drugs = table_under(sheet, SheetKey::Drugs);
    entry_at(SheetKey::Drugs, first_in(drugs, Looked::Lacking(key)))
}

// An entry of a table, or the table.
fn entry_at(table: SheetKey, entry: Option<Entry<'_>>) -> At<'_>
    ensures { names_of result ≡ entry_at table (option_map entry_of entry.entry) }
{
    match entry {
        Some(entry) => At::Entry(name_of(table), entry.name),
        None => At::Key(name_of(table)),
    }
}

// A key of an entry, or the table.
fn part_at<'t>(table: SheetKey, key: &'static str, entry: Option<Entry<'t>>) -> At<'t>
    ensures { names_of result ≡ part_at table key.now (option_map entry_of entry.entry) }
{
    match entry {
        Some(entry) => At::Part(name_of(table), entry.name, key),
        None => At::Key(name_of(table)),
    }
}
