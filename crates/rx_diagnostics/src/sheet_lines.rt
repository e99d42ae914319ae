ghost use Rattle.std.specs.Prelude.{◌≡◌, ◌++◌, ◌∷◌, [], IfOk, OnOk, map};
ghost use Rattle.std.specs.Str.{bytes_eq};
ghost use Rattle.rx_text.specs.Bytes.{cut};
ghost use Rattle.rx_diagnostics.specs.SheetLines.{dotted, front_of, heading_after, heading_of, is_heading, key_of};
ghost use Rattle.rx_diagnostics.specs.SheetLines.{line_naming, line_of_key, line_of_names, names_of, path_at};
ghost use Rattle.rx_diagnostics.specs.SheetLines.{name_byte, trimmed, unquoted};

use crate::batch_record::up_to;
use crate::quoting::from;
use std::alloc::{AllocError, Global};

/// Where a value stands in a plan sheet, by the names that lead to it.
#[derive(Clone, Copy)]
pub(crate) enum At<'t> {
    Nowhere,
    /// At a key of the sheet.
    Key(&'t str),
    /// At an entry of a table.
    Entry(&'static str, &'t str),
    /// At a key of such an entry.
    Part(&'static str, &'t str, &'static str),
}

/// The number of the first line that names a value, from 1, or else of the first that names what holds it.
#[tactic(auto, unfolding(crate::specs::SheetLines::line_of_key))]
pub(crate) fn line_of(alloc: Global, text: &[u8], at: At<'_>) -> Result<Option<u64>, AllocError>
    ensures { IfOk result (λ line. line ≡ line_of_key text.now (names_of at.entry)) }
{
    let lines = lines_of(alloc, text)?;
    line_in(alloc, lines.as_slice(), at)
}

// The lines of a text.
fn lines_of(alloc: Global, text: &[u8]) -> Result<Vec<&[u8]>, AllocError>
    ensures { IfOk result (λ lines. map (λ l. l.now) lines.items ≡ cut 10 text.now) }
{
    text.split(|b| *b == b'\n').collect(alloc)
}

// The line of a value among these.
fn line_in(alloc: Global, lines: &[&[u8]], at: At<'_>) -> Result<Option<u64>, AllocError>
    ensures { IfOk result (λ line. line ≡ line_of_names (map (λ l. l.now) lines.now) (names_of at.entry)) }
{
    match at {
        At::Nowhere => Ok(None),
        At::Key(key) => line_naming(alloc, lines, key),
        At::Entry(table, name) => entry_line(alloc, lines, table, name),
        At::Part(table, name, key) => match part_line(alloc, lines, table, name, key)? {
            Some(line) => Ok(Some(line)),
            None => entry_line(alloc, lines, table, name),
        },
    }
}

// The line of a key of an entry.
fn part_line(
    alloc: Global,
    lines: &[&[u8]],
    table: &str,
    name: &str,
    key: &str,
) -> Result<Option<u64>, AllocError>
    ensures { IfOk result (λ line. line ≡ line_naming (dotted (key.now ∷ name.now ∷ table.now ∷ [])) (map (λ l. l.now) lines.now)) }
{
    let path = format!(in alloc; "{table}.{name}.{key}")?;
    line_naming(alloc, lines, &path)
}

// The line of an entry of a table, or else that of the table.
fn entry_line(
    alloc: Global,
    lines: &[&[u8]],
    table: &str,
    name: &str,
) -> Result<Option<u64>, AllocError>
    ensures { IfOk result (λ line. line ≡ line_of_names (map (λ l. l.now) lines.now) (name.now ∷ table.now ∷ [])) }
{
    let path = format!(in alloc; "{table}.{name}")?;
    match line_naming(alloc, lines, &path)? {
        Some(line) => Ok(Some(line)),
        None => line_naming(alloc, lines, table),
    }
}

// The number of the first line that names this path, from 1.
fn line_naming(alloc: Global, lines: &[&[u8]], path: &str) -> Result<Option<u64>, AllocError>
    ensures { IfOk result (λ line. line ≡ line_naming path.now (map (λ l. l.now) lines.now)) }
{
    let mut left = lines;
    let mut above: &[u8] = b"";
    let mut number = 1;
    while let [line, rest @ ..] = left {
        if is_named(alloc, path, above, line)? {
            return Ok(Some(number));
        }
        above = heading_after(above, line);
        number += 1;
        left = rest;
    }
    Ok(None)
}

// Whether a line below a heading names this path.
fn is_named(alloc: Global, path: &str, above: &[u8], line: &[u8]) -> Result<bool, AllocError>
    ensures { IfOk result (λ answer. answer ≡ bytes_eq path.now (path_at above.now line.now)) }
{
    let named = path_at(alloc, above, line)?;
    Ok(path.as_bytes() == named.as_slice())
}

// What a line names below a heading.
fn path_at(alloc: Global, above: &[u8], line: &[u8]) -> Result<Vec<u8>, AllocError>
    ensures { IfOk result (λ path. path.items ≡ path_at above.now line.now) }
{
    let mut path = Vec::new(alloc);
    if is_heading(line) {
        put_unquoted(&mut path, heading_of(line))?;
    } else {
        put_front(&mut path, above)?;
        put_unquoted(&mut path, key_of(line))?;
    }
    Ok(path)
}

// A heading and a dot, if there is a heading.
fn put_front(path: &mut Vec<u8>, heading: &[u8]) -> Result<(), AllocError>
    ensures { OnOk result (path.new.items ≡ path.old.items ++ front_of heading.now) }
{
    if heading.is_empty() {
        return Ok(());
    }
    put_unquoted(path, heading)?;
    path.push(b'.')?;
    Ok(())
}

// Names without their quotes.
fn put_unquoted(path: &mut Vec<u8>, names: &[u8]) -> Result<(), AllocError>
    ensures { OnOk result (path.new.items ≡ path.old.items ++ unquoted names.now) }
{
    for byte in names {
        put_name_byte(path, *byte)?;
    }
    Ok(())
}

// A byte of a name, unless it is a quote.
fn put_name_byte(path: &mut Vec<u8>, byte: u8) -> Result<(), AllocError>
    ensures { OnOk result (path.new.items ≡ path.old.items ++ name_byte byte) }
{
    if byte == b'"' || byte == b'\'' {
        return Ok(());
    }
    path.push(byte)?;
    Ok(())
}

// The heading below which the next line stands.
fn heading_after<'x>(above: &'x [u8], line: &'x [u8]) -> &'x [u8]
    ensures { result.now ≡ heading_after above.now line.now }
{
    if is_heading(line) {
        heading_of(line)
    } else {
        above
    }
}

fn is_heading(line: &[u8]) -> bool
    ensures { result ≡ is_heading line.now }
{
    trimmed(line).starts_with(b"[")
}

// What stands in the brackets of a heading.
fn heading_of(line: &[u8]) -> &[u8]
    ensures { result.now ≡ heading_of line.now }
{
    trimmed(up_to(from(trimmed(line), 1), b']'))
}

// What stands before the first equals sign.
fn key_of(line: &[u8]) -> &[u8]
    ensures { result.now ≡ key_of line.now }
{
    trimmed(up_to(line, b'='))
}

// Without the blanks at both ends.
fn trimmed(text: &[u8]) -> &[u8]
    ensures { result.now ≡ trimmed text.now }
{
    text.trim_ascii()
}
