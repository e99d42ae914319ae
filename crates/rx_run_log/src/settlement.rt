ghost use Rattle.std.specs.Prelude.{◌≡◌, ◌-◌, ◌≤◌, drop, length, None, Some, MatchOption};
ghost use Rattle.std.specs.List.{prefix_len, suffix_len};
ghost use Rattle.rx_run_log.specs.Settlement.{after_lines, count_of, fields_of, first_count, is_in_field, is_in_line, last_line, net_of};
ghost use Rattle.rx_run_log.specs.Settlement.{totals_in, totals_of};

use crate::digit_text::text_of;
use rx_text::all_digits;

/// How many transactions of a run have each answer, and the net of its settlement in cents.
#[derive(Clone, Copy)]
pub struct Totals {
    pub paid: u64,
    pub duplicate: u64,
    pub approved: u64,
    pub rejected: u64,
    pub net: i64,
}

impl Totals {
    /// The counts and the net of a settlement, from its last bytes (docs/FORMATS.md, "Settlement file"): those of the last
    /// line, `TOTAL|paid|duplicate|approved|rejected|net`. `None` where they hold no such line whole.
    pub fn of_settlement(end: &[u8]) -> Option<Totals>
        ensures { result ≡ totals_of end.now }
    {
        let line = last_line(end)?;
        totals_in(fields_of(line)?)
    }
}

// The name of a total line, and the bar after it.
const NAME: &[u8] = b"TOTAL|";

// The last line, without its line feed.
fn last_line(text: &[u8]) -> Option<&[u8]>
    ensures { MatchOption result (last_line text.now ≡ None) (λ line. last_line text.now ≡ Some line.now) }
{
    if text.is_empty() || text[text.len() - 1] != b'\n' {
        return None;
    }
    let lines = &text[..text.len() - 1];
    Some(&lines[line_start(lines)..])
}

// Where the last line starts of a text that lacks its last line feed.
fn line_start(text: &[u8]) -> usize
    ensures value { result ≡ length text.now - suffix_len is_in_line text.now }
    ensures within { result ≤ length text.now }
{
    let mut start = text.len();
    while start > 0 && text[start - 1] != b'\n' {
        start -= 1;
    }
    start
}

// The fields after the name of a total line.
fn fields_of(line: &[u8]) -> Option<&[u8]>
    ensures { MatchOption result (fields_of line.now ≡ None) (λ fields. fields_of line.now ≡ Some fields.now) }
{
    if line.starts_with(NAME) {
        Some(&line[NAME.len()..])
    } else {
        None
    }
}

fn totals_in(fields: &[u8]) -> Option<Totals>
    ensures { result ≡ totals_in fields.now }
{
    let (paid, fields) = first_count(fields)?;
    let (duplicate, fields) = first_count(fields)?;
    let (approved, fields) = first_count(fields)?;
    let (rejected, fields) = first_count(fields)?;
    Some(Totals {
        paid,
        duplicate,
        approved,
        rejected,
        net: net_of(fields)?,
    })
}

// The count in the field that the first bar ends, and the bytes after that bar.
fn first_count(fields: &[u8]) -> Option<(u64, &[u8])>
    ensures { MatchOption result (first_count fields.now ≡ None) (λ p. first_count fields.now ≡ Some (p.0, p.1.now)) }
{
    let end = field_end(fields);
    if end == fields.len() {
        return None;
    }
    let count = count_of(&fields[..end])?;
    Some((count, &fields[end + 1..]))
}

// Where the first bar stands, or the end.
fn field_end(fields: &[u8]) -> usize
    ensures value { result ≡ prefix_len is_in_field fields.now }
    ensures within { result ≤ length fields.now }
{
    let mut end = 0;
    while end < fields.len() && fields[end] != b'|' {
        end += 1;
    }
    end
}

// The count that digits write.
#[tactic(auto, using(crate::proofs::Counts::count_is))]
fn count_of(digits: &[u8]) -> Option<u64>
    ensures { result ≡ count_of digits.now }
{
    if !all_digits(digits) {
        return None;
    }
    text_of(digits)?.parse().ok()
}

// The net, which may be negative.
fn net_of(text: &[u8]) -> Option<i64>
    ensures { result ≡ net_of text.now }
{
    match text {
        [] => None,
        [b'-', digits @ ..] => Some(-i64::try_from(count_of(digits)?).ok()?),
        digits => i64::try_from(count_of(digits)?).ok(),
    }
}
