ghost use Rattle.std.specs.Prelude.{◌≡◌, ◌++◌, IfOk, OnOk, drop, option_copied, slice_get, slice_range, string_bytes};
ghost use Rattle.rx_print.specs.Hexadecimal.{bracketed};
ghost use Rattle.rx_text.specs.Bytes.{cut};
ghost use Rattle.rx_diagnostics.specs.Parts.{field_of, fields, line_feeds, line_of, piece};
ghost use Rattle.rx_diagnostics.specs.Quoting.{byte_text, bytes_text, quoted_text, shown_text};

use crate::place::front;
use rx_print::hexadecimal;
use rx_text::is_printable;
use std::alloc::{AllocError, Global};

// How many bytes of a quotation are shown.
const LONGEST: usize = 60;

/// The bytes in quotes, on one line: what isn't printable ASCII as two hexadecimal digits in angle brackets, and of a
/// long one the front only.
#[tactic(auto, using(std::proofs::Common::append_assoc))]
pub fn quoted(alloc: Global, bytes: &[u8]) -> Result<String, AllocError>
    ensures { IfOk result (λ text. string_bytes text ≡ quoted_text bytes.now) }
{
    let shown = shown(alloc, bytes)?;
    format!(in alloc; "\"{shown}\"")
}

/// The same without quotes.
pub(crate) fn shown(alloc: Global, bytes: &[u8]) -> Result<String, AllocError>
    ensures { IfOk result (λ text. string_bytes text ≡ shown_text bytes.now) }
{
    let mut text = String::new(alloc);
    put_bytes(&mut text, front(bytes, LONGEST))?;
    if bytes.len() > LONGEST {
        text.push_str("..")?;
    }
    Ok(text)
}

// Bytes, as they are shown.
fn put_bytes(text: &mut String, bytes: &[u8]) -> Result<(), AllocError>
    ensures { OnOk result (string_bytes text.new ≡ string_bytes text.old ++ bytes_text bytes.now) }
{
    for byte in bytes {
        put_byte(text, *byte)?;
    }
    Ok(())
}

// One byte, as it is shown.
fn put_byte(text: &mut String, byte: u8) -> Result<(), AllocError>
    ensures { OnOk result (string_bytes text.new ≡ string_bytes text.old ++ byte_text byte) }
{
    if is_printable(byte) {
        text.push(char::from(byte))
    } else {
        put_number(text, byte)
    }
}

// The number of a byte.
#[tactic(auto, using(std::proofs::Common::append_assoc))]
fn put_number(text: &mut String, byte: u8) -> Result<(), AllocError>
    ensures { OnOk result (string_bytes text.new ≡ string_bytes text.old ++ bracketed byte) }
{
    text.push('<')?;
    text.push(char::from(hexadecimal(byte / 16)))?;
    text.push(char::from(hexadecimal(byte % 16)))?;
    text.push('>')
}

/// The bytes from one place up to another, as far as they are there.
pub(crate) fn part(text: &[u8], start: usize, end: usize) -> &[u8]
    ensures { result.now ≡ slice_range text.now start end }
{
    front(from(text, start), end.saturating_sub(start))
}

/// The bytes from a place on.
pub(crate) fn from(text: &[u8], start: usize) -> &[u8]
    ensures { result.now ≡ drop start text.now }
{
    &text[text.len().min(start)..]
}

/// The line of this number, from 1, without its line feed; empty if there is none.
pub(crate) fn line_of(text: &[u8], number: u64) -> &[u8]
    ensures { result.now ≡ line_of text.now number }
{
    piece(text, b'\n', number)
}

/// How many line feeds there are.
pub(crate) fn line_feeds(text: &[u8]) -> usize
    ensures { result ≡ line_feeds text.now }
{
    text.iter().filter(|b| **b == b'\n').count()
}

/// The field of this number of a line, from 1; empty if there is none.
pub(crate) fn field_of(line: &[u8], number: usize) -> &[u8]
    ensures { result.now ≡ field_of line.now number }
{
    piece(line, b'|', number as u64)
}

/// How many fields a line has: one more than it has strokes.
pub(crate) fn fields(line: &[u8]) -> usize
    ensures { result ≡ fields line.now }
{
    line.iter().filter(|b| **b == b'|').count() + 1
}

// The piece of this number, from 1, between separators; empty if there is none.
fn piece(text: &[u8], separator: u8, number: u64) -> &[u8]
    ensures { result.now ≡ piece separator text.now number }
{
    if number == 0 {
        return &[];
    }
    match piece_after(text, separator, number - 1) {
        Some(piece) => piece,
        None => &[],
    }
}

// The piece after this many others.
fn piece_after(text: &[u8], separator: u8, others: u64) -> Option<&[u8]>
    ensures { option_copied result ≡ slice_get (cut separator text.now) others }
{
    text.split(|b| *b == separator).nth(others as usize)
}

/// A copy of a fixed text.
pub(crate) fn said(alloc: Global, text: &str) -> Result<String, AllocError>
    ensures { IfOk result (λ said. string_bytes said ≡ text.now) }
{
    String::from_str(alloc, text)
}
