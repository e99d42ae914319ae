ghost use Rattle.std.specs.Prelude.{◌≡◌, ◌++◌, IfOk, OnOk, map, string_bytes};
ghost use Rattle.std.specs.Option.{option_copied, option_map};
ghost use Rattle.toml.specs.View.{table_view, view};
ghost use Rattle.rx_check.specs.Ignored.{each_of, hint, ignored_line, ignored_lines, line_with, lines_of};
ghost use Rattle.rx_check.specs.Ignored.{misplaced_line, misplaced_lines, name_lines, named_lines, part_lines, sheet_lines};
ghost use Rattle.rx_check.specs.Ignored.{table_at, table_lines, texts_of, tier_lines};

use rx_diagnostics::{SHEET_KEYS, is_among, nearest};
use rx_fields::Memory;
use std::alloc::{AllocError, Global};
use toml::{Table, Value};

const DRUG_KEYS: [&str; 2] = ["tier", "price"];

const TIER_KEYS: [&str; 1] = ["percent"];

/// A line for each key of this plan sheet that is ignored: of the sheet, of a drug, and of a tier that is a table; and for
/// each tier that has the name of a key of the sheet, which stands below the wrong table. A text that is no TOML has none.
///
/// # Errors
///
/// Only Memory.
pub fn ignored_keys(alloc: Global, text: &[u8]) -> Result<Vec<String>, Memory>
    ensures { IfOk result (λ lines. map string_bytes lines.items ≡ ignored_lines text.now) }
{
    let mut lines = Vec::new(alloc);
    match toml::table_from_slice(alloc, text) {
        Ok(sheet) => {
            put_sheet(alloc, &mut lines, &sheet)?;
            Ok(lines)
        }
        Err(error) if error.is_memory() => Err(Memory),
        Err(_) => Ok(lines),
    }
}

// The lines of a sheet.
fn put_sheet(alloc: Global, lines: &mut Vec<String>, sheet: &Table) -> Result<(), AllocError>
    ensures { OnOk result
        (map string_bytes lines.new.items ≡ map string_bytes lines.old.items ++ sheet_lines (table_view sheet.now)) }
{
    put_table(alloc, lines, "", sheet, &SHEET_KEYS)?;
    put_parts(alloc, lines, Part::Tier, table_at(sheet, "tiers"))?;
    put_parts(alloc, lines, Part::Drug, table_at(sheet, "drugs"))
}

// The table under a name, if there is one.
fn table_at<'t>(sheet: &'t Table, name: &str) -> Option<&'t Table>
    ensures { option_map (λ t. table_view t.now) result ≡ table_at name.now (table_view sheet.now) }
{
    match sheet.get(name) {
        Some(value) => value.as_table(),
        None => None,
    }
}

// The lines of the names of a table.
fn put_table(
    alloc: Global,
    lines: &mut Vec<String>,
    within: &str,
    table: &Table,
    known: &[&'static str],
) -> Result<(), AllocError>
    ensures { OnOk result (map string_bytes lines.new.items
        ≡ map string_bytes lines.old.items ++ table_lines within.now (texts_of known.now) (table_view table.now)) }
{
    for (name, _value) in table.iter() {
        put_name(alloc, lines, within, name.as_str(), known)?;
    }
    Ok(())
}

// The line of a name that isn't among the known ones.
fn put_name(
    alloc: Global,
    lines: &mut Vec<String>,
    within: &str,
    name: &str,
    known: &[&'static str],
) -> Result<(), AllocError>
    ensures { OnOk result (map string_bytes lines.new.items
        ≡ map string_bytes lines.old.items ++ name_lines within.now (texts_of known.now) name.now) }
{
    if is_among(name, known) {
        return Ok(());
    }
    let line = ignored_line(alloc, within, name, known)?;
    lines.push(line)?;
    Ok(())
}

// What is said of a name that is ignored.
fn ignored_line(
    alloc: Global,
    within: &str,
    name: &str,
    known: &[&'static str],
) -> Result<String, AllocError>
    ensures { IfOk result (λ line. string_bytes line ≡ ignored_line within.now (texts_of known.now) name.now) }
{
    let hint = hint(alloc, name, nearest(name.as_bytes(), known))?;
    line_with(alloc, within, name, hint.as_str())
}

#[tactic(auto, using(std::proofs::Common::append_assoc))]
fn line_with(alloc: Global, within: &str, name: &str, hint: &str) -> Result<String, AllocError>
    ensures { IfOk result (λ line. string_bytes line ≡ line_with within.now name.now hint.now) }
{
    format!(in alloc; "{within}key {name} is ignored{hint}")
}

// Which key may be meant, or where a key of the sheet belongs.
fn hint(alloc: Global, name: &str, like: Option<&'static str>) -> Result<String, AllocError>
    ensures { IfOk result (λ text. string_bytes text ≡ hint name.now (option_copied like.entry)) }
{
    if let Some(like) = like {
        return format!(in alloc; ": {like} may be meant");
    }
    if is_among(name, &SHEET_KEYS) {
        String::from_str(alloc, ": it belongs above the first table")
    } else {
        Ok(String::new(alloc))
    }
}

// What a table within the sheet holds.
#[derive(Clone, Copy)]
enum Part {
    Tier,
    Drug,
}

// The lines of tiers or of drugs, if there are any.
fn put_parts(
    alloc: Global,
    lines: &mut Vec<String>,
    part: Part,
    table: Option<&Table>,
) -> Result<(), AllocError>
    ensures { OnOk result (map string_bytes lines.new.items ≡ map string_bytes lines.old.items
        ++ lines_of (each_of (part_lines part)) (option_map (λ t. table_view t.now) table.entry)) }
{
    match table {
        Some(table) => put_each(alloc, lines, part, table),
        None => Ok(()),
    }
}

fn put_each(
    alloc: Global,
    lines: &mut Vec<String>,
    part: Part,
    table: &Table,
) -> Result<(), AllocError>
    ensures { OnOk result (map string_bytes lines.new.items
        ≡ map string_bytes lines.old.items ++ each_of (part_lines part) (table_view table.now)) }
{
    for (name, value) in table.iter() {
        put_part(alloc, lines, part, name.as_str(), value)?;
    }
    Ok(())
}

fn put_part(
    alloc: Global,
    lines: &mut Vec<String>,
    part: Part,
    name: &str,
    value: &Value,
) -> Result<(), AllocError>
    ensures { OnOk result
        (map string_bytes lines.new.items ≡ map string_bytes lines.old.items ++ part_lines part name.now (view value.now)) }
{
    match part {
        Part::Tier => put_tier(alloc, lines, name, value),
        Part::Drug => put_named(alloc, lines, "drug", name, value, &DRUG_KEYS),
    }
}

// The lines of a tier: whether its name is that of a key of the sheet, and the names in its table.
fn put_tier(
    alloc: Global,
    lines: &mut Vec<String>,
    name: &str,
    tier: &Value,
) -> Result<(), AllocError>
    ensures { OnOk result
        (map string_bytes lines.new.items ≡ map string_bytes lines.old.items ++ tier_lines name.now (view tier.now)) }
{
    put_misplaced(alloc, lines, name)?;
    put_named(alloc, lines, "tier", name, tier, &TIER_KEYS)
}

// The line of a tier that has the name of a key of the sheet.
fn put_misplaced(alloc: Global, lines: &mut Vec<String>, name: &str) -> Result<(), AllocError>
    ensures { OnOk result
        (map string_bytes lines.new.items ≡ map string_bytes lines.old.items ++ misplaced_lines name.now) }
{
    if is_among(name, &SHEET_KEYS) {
        let line = misplaced_line(alloc, name)?;
        lines.push(line)?;
    }
    Ok(())
}

fn misplaced_line(alloc: Global, name: &str) -> Result<String, AllocError>
    ensures { IfOk result (λ line. string_bytes line ≡ misplaced_line name.now) }
{
    format!(in alloc;
        "tier {name} has the name of a key of the sheet: that key belongs above [tiers]"
    )
}

// The lines of the names in the table of a tier or of a drug, if it is a table.
fn put_named(
    alloc: Global,
    lines: &mut Vec<String>,
    part: &str,
    name: &str,
    value: &Value,
    known: &[&'static str],
) -> Result<(), AllocError>
    ensures { OnOk result (map string_bytes lines.new.items
        ≡ map string_bytes lines.old.items ++ named_lines part.now name.now (texts_of known.now) (view value.now)) }
{
    let Some(table) = value.as_table() else {
        return Ok(());
    };
    let within = format!(in alloc; "{part} {name}: ")?;
    put_table(alloc, lines, within.as_str(), table, known)
}
