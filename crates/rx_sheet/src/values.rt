ghost use Rattle.std.specs.Prelude.{◌≡◌, ◌≤◌, IfOk, IfSome, true};
ghost use Rattle.std.specs.Option.{option_map};
ghost use Rattle.std.specs.Result.{result_map_both};
ghost use Rattle.toml.specs.Data.{get_member};
ghost use Rattle.toml.specs.View.{view, table_view};
ghost use Rattle.rx_text.specs.Bytes.{all_digits, all_printable};
ghost use Rattle.rx_sheet.specs.Values.{value_at, read_at, read_if_there, whole, number, bin, pcn, day};

use crate::fault::SheetFault;
use crate::names::name_of;
use rx_fields::{Day, date_read};
use rx_ledger::SheetKey;
use rx_text::{all_digits, all_printable};
use toml::{Table, Value};

/// The value at a name, if there is one.
pub(crate) fn look_up<'t>(table: &'t Table, name: &str) -> Option<&'t Value>
    ensures { option_map (λ v. view v.now) result ≡ get_member name.now (table_view table.now) }
{
    table.get(name)
}

/// The value at a key, which has to be there.
pub(crate) fn value_at<'t>(table: &'t Table, key: SheetKey) -> Result<&'t Value, SheetFault>
    ensures { result_map_both (λ v. view v.now) (λ e. e) result ≡ value_at key (table_view table.now) }
{
    match look_up(table, name_of(key)) {
        Some(value) => Ok(value),
        None => Err(SheetFault::Missing(key)),
    }
}

/// The whole number from low to high at a key.
pub(crate) fn number_at(
    table: &Table,
    key: SheetKey,
    low: u64,
    high: u64,
) -> Result<u64, SheetFault>
    ensures value { result ≡ read_at key (number low high) (table_view table.now) }
    ensures within { IfOk result (λ n. (low ≤ n) × (n ≤ high)) }
{
    let value = value_at(table, key)?;
    number(value, low, high).ok_or(SheetFault::Wrong(key))
}

/// The whole number from low to high at a key that may be absent.
pub(crate) fn number_if_there(
    table: &Table,
    key: SheetKey,
    low: u64,
    high: u64,
) -> Result<Option<u64>, SheetFault>
    ensures value { result ≡ read_if_there key (number low high) (table_view table.now) }
    ensures within { IfOk result (λ found. IfSome found (λ n. (low ≤ n) × (n ≤ high))) }
{
    let Some(value) = look_up(table, name_of(key)) else {
        return Ok(None);
    };
    match number(value, low, high) {
        Some(number) => Ok(Some(number)),
        None => Err(SheetFault::Wrong(key)),
    }
}

/// A whole number from low to high.
pub(crate) fn number(value: &Value, low: u64, high: u64) -> Option<u64>
    ensures value { result ≡ number low high (view value.now) }
    ensures within { IfSome result (λ n. (low ≤ n) × (n ≤ high)) }
{
    whole(value.as_integer()?, low, high)
}

fn whole(integer: i64, low: u64, high: u64) -> Option<u64>
    ensures value { result ≡ whole low high integer }
    ensures within { IfSome result (λ n. (low ≤ n) × (n ≤ high)) }
{
    if integer < 0 {
        return None;
    }
    let number = integer as u64;
    if low <= number && number <= high {
        Some(number)
    } else {
        None
    }
}

/// A text of six digits.
pub(crate) fn bin(value: &Value) -> Option<[u8; 6]>
    ensures value { result ≡ bin (view value.now) }
    ensures within { IfSome result (λ bin. all_digits bin ≡ true) }
{
    let bytes = value.as_str()?.as_bytes();
    if bytes.len() != 6 || !all_digits(bytes) {
        return None;
    }
    let mut bin = [0; 6];
    bin.copy_from_slice(bytes);
    Some(bin)
}

/// A text of at most ten printable bytes, filled with blanks to ten.
pub(crate) fn pcn(value: &Value) -> Option<[u8; 10]>
    ensures value { result ≡ pcn (view value.now) }
    ensures within { IfSome result (λ pcn. all_printable pcn ≡ true) }
{
    let bytes = value.as_str()?.as_bytes();
    if bytes.len() > 10 || !all_printable(bytes) {
        return None;
    }
    let mut pcn = [b' '; 10];
    pcn[..bytes.len()].copy_from_slice(bytes);
    Some(pcn)
}

/// A text that is a date.
pub(crate) fn day(value: &Value) -> Option<Day>
    ensures { result ≡ day (view value.now) }
{
    date_read(value.as_str()?.as_bytes()).ok()
}
