ghost use Rattle.std.specs.Prelude.{◌≡◌, ◌↔◌, false};
ghost use Rattle.std.specs.List.{list_any};
ghost use Rattle.rx_check.specs.Warned.{adjudicated, feeds, groups, has_none_under, is_under, may_pass};

use rx_batch::Detail;
use rx_d0_request::{BIN_LENGTH, PCN_AT, PCN_LENGTH};
use rx_fields::{Door, Lot, MOST_LINES, NUMBERS_OF_A_BATCH, Period};
use rx_ledger::Row;
use rx_text::GROUP;

/// How many line feeds a text has.
pub fn feeds(text: &[u8]) -> usize
    ensures { result ≡ feeds text.now }
{
    text.iter().filter(|b| **b == b'\n').count()
}

/// Whether books are of another period than the sheet.
pub fn period_apart(sheet: Period, books: Period) -> bool
    ensures { result ≡ false ↔ sheet ≡ books }
{
    sheet != books
}

/// Whether there are records, and none names the plan's BIN and processor control number: the batch is of another plan.
pub fn has_none_under(door: &Door, details: &[Detail]) -> bool
    ensures { result ≡ has_none_under door.now details.now }
{
    !details.is_empty() && !has_under(door, details)
}

// Whether a record names the plan's BIN and processor control number.
fn has_under(door: &Door, details: &[Detail]) -> bool
    ensures { result ≡ list_any (is_under door.now) details.now }
{
    details.iter().any(|detail| is_under(door, detail))
}

// Whether this record names them.
fn is_under(door: &Door, detail: &Detail) -> bool
    ensures { result ≡ is_under door.now detail.now }
{
    let text = detail.text.bytes();
    text.len() >= PCN_AT + PCN_LENGTH
        && &text[..BIN_LENGTH] == door.bin.as_slice()
        && &text[PCN_AT..PCN_AT + PCN_LENGTH] == door.pcn.as_slice()
}

/// How many standing claims have a number of this lot: if there is one, the batch was adjudicated already.
pub fn adjudicated(lot: Lot, rows: &[Row]) -> usize
    ensures { result ≡ adjudicated lot.number rows.now }
{
    let number = u64::from(lot.number());
    rows.iter()
        .filter(|row| row.number.get() / NUMBERS_OF_A_BATCH == number)
        .count()
}

// How many claims a record can add at most.
fn groups(detail: &Detail) -> usize
    ensures { result ≡ groups detail.now }
{
    detail.text.bytes().iter().filter(|b| **b == GROUP).count()
}

/// Whether books of `lines` lines could have more than `MOST_LINES` after these records, which no later run would read.
pub fn may_pass(lines: usize, details: &[Detail]) -> bool
    ensures { result ≡ may_pass lines details.now }
{
    if lines > MOST_LINES {
        return true;
    }
    let mut room = MOST_LINES - lines;
    let mut rest = details;
    while let [detail, others @ ..] = rest {
        let groups = groups(detail);
        if groups > room {
            return true;
        }
        room -= groups;
        rest = others;
    }
    false
}
