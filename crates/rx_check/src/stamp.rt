ghost use Rattle.std.specs.Prelude.{◌≡◌, IfOk, string_bytes};
ghost use Rattle.rx_check.specs.Stamp.{early_line, early_text, is_dated_before, stamp_line};

use crate::report_lines::date;
use rx_fields::{Day, date_read};
use std::alloc::{AllocError, Global};

/// The line that says which stamp a run has: `stamp        202603020600`.
#[tactic(auto, using(std::proofs::Common::append_assoc))]
pub fn stamp_line(alloc: Global, stamp: &str) -> Result<String, AllocError>
    ensures { IfOk result (λ line. string_bytes line ≡ stamp_line stamp.now) }
{
    let mut line = String::from_str(alloc, "stamp        ")?;
    line.push_str(stamp)?;
    Ok(line)
}

/// The warning of a stamp that is dated before the day on which the batch was created, with its line feed; empty where it
/// isn't (docs/CLI.md, "adjudicate").
pub fn early_stamp(alloc: Global, stamp: &str, created: Day) -> Result<String, AllocError>
    ensures { IfOk result (λ text. string_bytes text ≡ early_text stamp.now created) }
{
    if is_dated_before(stamp.as_bytes(), created) {
        early_line(alloc, stamp, created)
    } else {
        Ok(String::new(alloc))
    }
}

// The warning of a stamp before the day.
#[tactic(auto, using(std::proofs::Common::append_assoc))]
fn early_line(alloc: Global, stamp: &str, created: Day) -> Result<String, AllocError>
    ensures { IfOk result (λ text. string_bytes text ≡ early_line stamp.now created) }
{
    let day = date(alloc, created)?;
    format!(in alloc; "--stamp {stamp}: warning: the batch was created later, on {day}\n")
}

// Whether the date of a stamp is before this day.
fn is_dated_before(stamp: &[u8], created: Day) -> bool
    ensures { result ≡ is_dated_before stamp.now created }
{
    if stamp.len() != 12 {
        return false;
    }
    match date_read(&stamp[..8]) {
        Ok(day) => day < created,
        Err(_) => false,
    }
}
