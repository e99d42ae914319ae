ghost use Rattle.std.specs.Prelude.{◌≡◌, [], IfOk, option_map, string_bytes};
ghost use Rattle.rx_diagnostics.specs.BooksTexts.{books_telling, day_fault, days_text, fields_text, head_fields_text, head_telling};
ghost use Rattle.rx_diagnostics.specs.BooksTexts.{is_version, mended, no_label_text, plain, telling_of, too_many_text};
ghost use Rattle.rx_diagnostics.specs.BooksTexts.{unread_books_text, version_text};
ghost use Rattle.rx_diagnostics.specs.Parts.{line_of};
ghost use Rattle.rx_diagnostics.specs.Places.{books_place};

use crate::books_field::date_fault;
use crate::books_line::line_words;
use crate::books_order::{order_words, unknown_words};
use crate::books_totals::totals_words;
use crate::looks::{has_mark, looks_like};
use crate::place::Place;
use crate::quoting::{field_of, fields, line_feeds, line_of, quoted, said};
use crate::words::{Said, Words};
use rx_books_text::BooksFault;
use rx_fields::{MOST_LINES, Memory};
use std::alloc::{AllocError, Global};

/// The words of a fault of this books file (docs/FORMATS.md, "Faults of a books file"): its line, what stands there,
/// and what is expected.
///
/// # Errors
///
/// Only Memory.
pub fn books_words(alloc: Global, fault: BooksFault, text: &[u8]) -> Result<Words, Memory>
    ensures place { IfOk result (λ words. words.place ≡ books_place fault) }
    ensures said { IfOk result (λ words. mended (string_bytes words.text) words.mend.now ≡ books_telling text.now fault) }
{
    let said = said_of(alloc, fault, text)?;
    Ok(Words::of(Place::of_books(fault), said))
}

// What is said where the text isn't known.
fn unread_text(alloc: Global, fault: BooksFault) -> Result<String, AllocError>
    ensures { IfOk result (λ text. string_bytes text ≡ unread_books_text fault) }
{
    let text = match fault {
        BooksFault::Head =>
            "no head line: expected BOOKS|3|first|last, e.g. BOOKS|3|20260101|20261231",
        BooksFault::Line(_) => "no line of the head's version, or no line feed at its end",
        BooksFault::Order(_) => "the line is out of order",
        BooksFault::UnknownMember(_) => "a member who isn't listed, or a family without one",
        BooksFault::Totals(_) =>
            "a figure isn't the sum over the claims, or a total line is missing",
        BooksFault::TooMuch => return format!(in alloc; "more than {MOST_LINES} lines"),
        BooksFault::Memory => "out of memory",
    };
    said(alloc, text)
}

/// The words of a fault of a books file that can't be read again.
///
/// # Errors
///
/// Only Memory.
pub fn unread_books_words(alloc: Global, fault: BooksFault) -> Result<Words, Memory>
    ensures place { IfOk result (λ words. words.place ≡ books_place fault) }
    ensures text { IfOk result (λ words. string_bytes words.text ≡ unread_books_text fault) }
    ensures mend { IfOk result (λ words. words.mend.now ≡ []) }
{
    let said = unread_text(alloc, fault)?;
    Ok(Words::of(Place::of_books(fault), Said::plain(said)))
}

fn said_of(alloc: Global, fault: BooksFault, text: &[u8]) -> Result<Said, Memory>
    ensures { IfOk result (λ said. telling_of said ≡ books_telling text.now fault) }
{
    match fault {
        BooksFault::Head => Ok(head_words(alloc, text, line_of(text, 1))?),
        BooksFault::Line(line) => Ok(line_words(alloc, text, line)?),
        BooksFault::Order(line) => Ok(order_words(alloc, text, line)?),
        BooksFault::UnknownMember(line) => Ok(unknown_words(alloc, text, line)?),
        BooksFault::Totals(line) => Ok(Said::plain(totals_words(alloc, text, line)?)),
        BooksFault::TooMuch => Ok(Said::plain(too_many_words(alloc, text)?)),
        BooksFault::Memory => Ok(Said::plain(said(alloc, "out of memory")?)),
    }
}

fn too_many_words(alloc: Global, text: &[u8]) -> Result<String, AllocError>
    ensures { IfOk result (λ said. string_bytes said ≡ too_many_text text.now) }
{
    let feeds = line_feeds(text);
    format!(in alloc; "{feeds} line feeds: at most {MOST_LINES} are read")
}

// What is said of a first line that is no head line.
#[tactic(auto, unfolding(crate::specs::BooksTexts::head_telling))]
fn head_words(alloc: Global, text: &[u8], line: &[u8]) -> Result<Said, AllocError>
    ensures { IfOk result (λ said. telling_of said ≡ head_telling text.now line.now) }
{
    if text.is_empty() {
        let text = "the file is empty: expected a head line, e.g. BOOKS|3|20260101|20261231";
        return Ok(Said::plain(said(alloc, text)?));
    }
    if has_mark(text) {
        return Said::mended(
            alloc,
            "the file begins with a byte order mark (EF BB BF)",
            "sed -i '1s/^\\xef\\xbb\\xbf//'",
        );
    }
    if line.ends_with(b"\r") {
        return Said::mended(
            alloc,
            "the line ends with CR LF: expected LF",
            "sed -i 's/\\r$//'",
        );
    }
    if !line.starts_with(b"BOOKS|") {
        return Ok(Said::plain(no_label(alloc, looks_like(text), line)?));
    }
    if line_feeds(text) == 0 {
        return Said::mended(alloc, "the line has no line feed at its end", "echo >>");
    }
    Ok(Said::plain(head_fields(alloc, line)?))
}

// What is said of a file that doesn't begin as books do.
#[tactic(auto, using(std::proofs::Common::append_assoc))]
fn no_label(alloc: Global, kind: Option<&'static str>, line: &[u8]) -> Result<String, AllocError>
    ensures { IfOk result (λ said. string_bytes said ≡ no_label_text (option_map (λ k. k.now) kind.entry) line.now) }
{
    if let Some(kind) = kind {
        return format!(in alloc; "no head line: this looks like {kind}");
    }
    let line = quoted(alloc, line)?;
    format!(in alloc;
        "{line} isn't a head line: expected BOOKS|3|first|last, e.g. BOOKS|3|20260101|20261231"
    )
}

// What is said of a head line by its fields.
#[tactic(auto, unfolding(crate::specs::BooksTexts::head_fields_text))]
fn head_fields(alloc: Global, line: &[u8]) -> Result<String, AllocError>
    ensures { IfOk result (λ said. string_bytes said ≡ head_fields_text line.now) }
{
    let count = fields(line);
    if count != 4 {
        return fields_words(alloc, count);
    }
    let version = field_of(line, 2);
    if !is_version(version) {
        return version_words(alloc, version);
    }
    let first = day_fault(alloc, 3, "first day", field_of(line, 3))?;
    let last = day_fault(alloc, 4, "last day", field_of(line, 4))?;
    days_words(alloc, first, last, line)
}

// What is said of a head line of this many fields.
#[tactic(auto, unfolding(crate::specs::BooksTexts::fields_text))]
fn fields_words(alloc: Global, count: usize) -> Result<String, AllocError>
    ensures { IfOk result (λ said. string_bytes said ≡ fields_text count) }
{
    format!(in alloc; "{count} fields: a head line has 4, e.g. BOOKS|3|20260101|20261231")
}

// What is said of a version that there isn't.
#[tactic(auto, using(std::proofs::Common::append_assoc), unfolding(crate::specs::BooksTexts::version_text))]
fn version_words(alloc: Global, version: &[u8]) -> Result<String, AllocError>
    ensures { IfOk result (λ said. string_bytes said ≡ version_text version.now) }
{
    let version = quoted(alloc, version)?;
    format!(in alloc; "version {version}: versions 1, 2 and 3 are read")
}

// What is said of the days of a head line.
#[tactic(auto, using(std::proofs::Common::append_assoc), unfolding(crate::specs::BooksTexts::days_text))]
fn days_words(
    alloc: Global,
    first: Option<String>,
    last: Option<String>,
    line: &[u8],
) -> Result<String, AllocError>
    ensures { IfOk result (λ said. string_bytes said
        ≡ days_text (option_map string_bytes first) (option_map string_bytes last) line.now) }
{
    if let Some(said) = first {
        return Ok(said);
    }
    if let Some(said) = last {
        return Ok(said);
    }
    let last = quoted(alloc, field_of(line, 4))?;
    let first = quoted(alloc, field_of(line, 3))?;
    format!(in alloc; "the last day {last} is before the first, {first}")
}

// What is said of a field of the head line that is no date; None if it is one.
#[tactic(auto, using(std::proofs::Common::append_assoc), unfolding(crate::specs::BooksTexts::day_fault))]
fn day_fault(
    alloc: Global,
    number: u8,
    name: &str,
    field: &[u8],
) -> Result<Option<String>, AllocError>
    ensures { IfOk result (λ said. option_map string_bytes said ≡ day_fault number name.now field.now) }
{
    let Some(fault) = date_fault(alloc, field)? else {
        return Ok(None);
    };
    let field = quoted(alloc, field)?;
    Ok(Some(format!(in alloc; "field {number}, {name} {field}: {fault}")?))
}

fn is_version(field: &[u8]) -> bool
    ensures { result ≡ is_version field.now }
{
    field == b"1".as_slice() || field == b"2".as_slice() || field == b"3".as_slice()
}
