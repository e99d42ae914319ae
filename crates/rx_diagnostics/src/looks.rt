ghost use Rattle.std.specs.Prelude.{◌≡◌, find, option_copied, option_map};
ghost use Rattle.rx_text.specs.Bytes.{cut};
ghost use Rattle.rx_diagnostics.specs.Looks.{has_mark, is_sheet, is_sheet_line, looks_like};

use crate::place::front;

// How many bytes are looked at for a line of a plan sheet.
const LOOKED_AT: usize = 1000;

/// What another kind of file looks like, from its first bytes; None where they don't say.
pub(crate) fn looks_like(text: &[u8]) -> Option<&'static str>
    ensures { option_map (λ kind. kind.now) result ≡ looks_like text.now }
{
    if text.starts_with(b"\x1F\x8B") {
        Some("gzip")
    } else if text.starts_with(b"PK\x03\x04") {
        Some("zip")
    } else if text.starts_with(b"\xFF\xFE") || text.starts_with(b"\xFE\xFF") {
        Some("UTF-16")
    } else if text.starts_with(b"BOOKS|") {
        Some("a books file")
    } else if text.starts_with(b"SETTLE|") {
        Some("a settlement")
    } else if text.starts_with(b"<02>") {
        Some("a batch file whose control bytes are spelled out")
    } else if text.starts_with(b"\x02") {
        Some("a batch file")
    } else if is_sheet(text) {
        Some("a plan sheet")
    } else {
        None
    }
}

// Whether one of the lines in front is one of a plan sheet.
fn is_sheet(text: &[u8]) -> bool
    ensures { result ≡ is_sheet text.now }
{
    match sheet_line(front(text, LOOKED_AT)) {
        Some(_) => true,
        None => false,
    }
}

// The first line that is one of a plan sheet.
fn sheet_line(text: &[u8]) -> Option<&[u8]>
    ensures { option_copied result ≡ find is_sheet_line (cut 10 text.now) }
{
    text.split(|b| *b == b'\n').find(|line| is_sheet_line(line))
}

// Whether a line begins as one of a plan sheet does.
fn is_sheet_line(line: &[u8]) -> bool
    ensures { result ≡ is_sheet_line line.now }
{
    line.starts_with(b"bin = ") || line.starts_with(b"pcn = ") || line.starts_with(b"[tiers]")
}

/// Whether the text begins with the byte order mark of UTF-8.
pub(crate) fn has_mark(text: &[u8]) -> bool
    ensures { result ≡ has_mark text.now }
{
    text.starts_with(b"\xEF\xBB\xBF")
}
