ghost use Rattle.std.specs.Prelude.{◌≡◌, IfOk, is_some, option_map, string_bytes};
ghost use Rattle.std.specs.Option.{option_and_then};
ghost use Rattle.toml.specs.Data.{as_table, get_member};
ghost use Rattle.toml.specs.View.{table_view, view};
ghost use Rattle.rx_sheet.specs.Values.{number, whole};
ghost use Rattle.rx_diagnostics.specs.SheetValues.{IsShown, TellsOf, backwards_text, no_date_text, value_text};

use crate::quoting::quoted;
use crate::sheet_keys::{expected_at, name_of};
use rx_ledger::SheetKey;
use std::alloc::{AllocError, Global};
use toml::{Table, Value};

/// The value as it may be written in a sheet; a list or a table by its kind only.
pub(crate) fn shown_value(alloc: Global, value: &Value) -> Result<String, AllocError>
    ensures { IfOk result (λ shown. IsShown (view value.now) (string_bytes shown)) }
{
    match value {
        Value::String(text) => quoted(alloc, text.as_str().as_bytes()),
        Value::Integer(number) => format!(in alloc; "{number}"),
        Value::Float(number) => format!(in alloc; "{number:?}"),
        Value::Boolean(answer) => format!(in alloc; "{answer}"),
        Value::Datetime(_) => String::from_str(alloc, "(a date without quotes)"),
        Value::Array(_) => String::from_str(alloc, "(a list)"),
        Value::Table(_) => String::from_str(alloc, "(a table)"),
    }
}

/// The value of a key, and what is expected in its place.
pub(crate) fn value_words(alloc: Global, key: SheetKey, value: &Value) -> Result<String, AllocError>
    ensures { IfOk result (λ said. TellsOf (view value.now) (value_text key) (string_bytes said)) }
{
    let shown = shown_value(alloc, value)?;
    expected_words(alloc, key, &shown)
}

/// The same of a value that is shown so.
#[tactic(auto, using(std::proofs::Common::append_assoc), unfolding(crate::specs::SheetValues::value_text))]
pub(crate) fn expected_words(
    alloc: Global,
    key: SheetKey,
    shown: &str,
) -> Result<String, AllocError>
    ensures { IfOk result (λ said. string_bytes said ≡ value_text key shown.now) }
{
    let name = name_of(key);
    let expected = expected_at(alloc, key)?;
    format!(in alloc; "{name} = {shown}: {expected}")
}

/// What is said of eight digits that are no date.
#[tactic(auto, using(std::proofs::Common::append_assoc), unfolding(crate::specs::SheetValues::no_date_text))]
pub(crate) fn no_date(alloc: Global, key: SheetKey, shown: &str) -> Result<String, AllocError>
    ensures { IfOk result (λ said. string_bytes said ≡ no_date_text key shown.now) }
{
    let name = name_of(key);
    format!(in alloc; "{name} = {shown}: no such date")
}

/// What is said of a last day before the first.
pub(crate) fn backwards_words(
    alloc: Global,
    key: SheetKey,
    shown: &str,
    first: &Value,
) -> Result<String, AllocError>
    ensures { IfOk result (λ said. TellsOf (view first.now) (backwards_text key shown.now) (string_bytes said)) }
{
    let first = shown_value(alloc, first)?;
    before_first(alloc, key, shown, &first)
}

#[tactic(auto, using(std::proofs::Common::append_assoc), unfolding(crate::specs::SheetValues::backwards_text))]
fn before_first(
    alloc: Global,
    key: SheetKey,
    shown: &str,
    first: &str,
) -> Result<String, AllocError>
    ensures { IfOk result (λ said. string_bytes said ≡ backwards_text key shown.now first.now) }
{
    let name = name_of(key);
    format!(in alloc; "{name} = {shown}: the last day is before the first, {first}")
}

/// The value under a name.
pub(crate) fn found<'t>(table: &'t Table, name: &str) -> Option<&'t Value>
    ensures { option_map (λ v. view v.now) result ≡ get_member name.now (table_view table.now) }
{
    table.get(name)
}

/// The table under a name.
pub(crate) fn table_at<'t>(table: &'t Table, name: &str) -> Option<&'t Table>
    ensures { option_map (λ t. table_view t.now) result
        ≡ option_and_then as_table (get_member name.now (table_view table.now)) }
{
    match found(table, name) {
        Some(value) => value.as_table(),
        None => None,
    }
}

/// Whether a whole number from 0 to `most`.
pub(crate) fn is_number(value: &Value, most: u64) -> bool
    ensures { result ≡ is_some (number 0 most (view value.now)) }
{
    match value.as_integer() {
        Some(number) => is_within(number, most),
        None => false,
    }
}

fn is_within(number: i64, most: u64) -> bool
    ensures { result ≡ is_some (whole 0 most number) }
{
    number >= 0 && number as u64 <= most
}
