ghost use Rattle.std.specs.Prelude.{◌≡◌, ◌≤◌, length, None, Some, MatchOption};
ghost use Rattle.rx_run_log.specs.Header.{IsLot, digits_at, from_header, lot_of};

use crate::digit_text::text_of;
use rx_batch::{BATCH_NUMBER_AT, CREATION_DATE_AT, CREATION_TIME_AT};
use rx_text::{all_digits, line_ends};

/// The lot of a batch file: its header's batch number and creation date, CCYYMMDD.
#[derive(Clone, Copy)]
pub struct Lot<'a> {
    pub number: &'a str,
    pub created: &'a str,
}

impl<'a> Lot<'a> {
    /// The lot of a batch file, from its first bytes (docs/FORMATS.md, "Batch file"): the digits of its header, before which
    /// CR and LF are skipped. `None` where the bytes there are no digits.
    pub fn of_batch(front: &'a [u8]) -> Option<Lot<'a>>
        ensures { IsLot (lot_of front.now) result }
    {
        let header = from_header(front);
        // The places are counted after the STX.
        Some(Lot {
            number: digits(header, 1 + BATCH_NUMBER_AT, 1 + CREATION_DATE_AT)?,
            created: digits(header, 1 + CREATION_DATE_AT, 1 + CREATION_TIME_AT)?,
        })
    }
}

// The bytes from the header on.
fn from_header(front: &[u8]) -> &[u8]
    ensures { result.now ≡ from_header front.now }
{
    &front[line_ends(front)..]
}

// The digits from one place up to another; `None` where another byte stands there, or the bytes end before.
fn digits(bytes: &[u8], from: usize, to: usize) -> Option<&str>
    requires { from ≤ to }
    ensures { MatchOption result (digits_at from to bytes.now ≡ None) (λ text. digits_at from to bytes.now ≡ Some text.now) }
{
    let part = bytes.get(from..to)?;
    if all_digits(part) {
        text_of(part)
    } else {
        None
    }
}
