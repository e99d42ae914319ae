ghost use Rattle.std.specs.Prelude.{◌≡◌, ◌==◌, IfOk, string_bytes};
ghost use Rattle.std.specs.List.{position_or_len};
ghost use Rattle.rx_diagnostics.specs.BatchTexts.{count_text, date_text, date_expected, detail_text, field_text, fields_text};
ghost use Rattle.rx_diagnostics.specs.BatchTexts.{file_type_text, first_body, header_text, is_file_type, kind_text, lot_text};
ghost use Rattle.rx_diagnostics.specs.BatchTexts.{number_text, time_text, to_mark, trailer_text, unclosed_text};
ghost use Rattle.rx_diagnostics.specs.Parts.{after_byte, body_at, up_to};

use crate::place::front;
use crate::quoting::{from, part, quoted};
use memchr::{memchr, memchr2};
use rx_batch::{
    BATCH_NUMBER_AT, CREATION_DATE_AT, CREATION_TIME_AT, ETX, HEADER_LENGTH, STX, TRAILER_LENGTH,
};
use rx_fields::{Time, date_read, number_read};
use rx_text::all_digits;
use std::alloc::{AllocError, Global};

/// The bytes after the one at a place.
pub(crate) fn after_byte(text: &[u8], at: u64) -> &[u8]
    ensures { result.now ≡ after_byte text.now at }
{
    from(from(text, at as usize), 1)
}

/// What a record holds whose STX stands at a place: up to the next ETX, or to the end.
pub(crate) fn body_at(text: &[u8], at: u64) -> &[u8]
    ensures { result.now ≡ body_at text.now at }
{
    up_to(after_byte(text, at), ETX)
}

/// What the first record of a text holds.
pub(crate) fn first_body(text: &[u8]) -> &[u8]
    ensures { result.now ≡ first_body text.now }
{
    body_at(text, to_byte(text, STX) as u64)
}

/// The bytes before the first one of this value; all if there is none.
pub(crate) fn up_to(bytes: &[u8], byte: u8) -> &[u8]
    ensures { result.now ≡ up_to byte bytes.now }
{
    front(bytes, to_byte(bytes, byte))
}

// How many bytes stand before the first one of this value; all if there is none.
fn to_byte(bytes: &[u8], byte: u8) -> usize
    ensures { result ≡ position_or_len (λ b. b == byte) bytes.now }
{
    memchr(byte, bytes).unwrap_or(bytes.len())
}

// How many bytes stand before the next STX or ETX.
fn to_mark(bytes: &[u8]) -> usize
    ensures { result ≡ to_mark bytes.now }
{
    memchr2(STX, ETX, bytes).unwrap_or(bytes.len())
}

/// What is said of a record that isn't closed, with what stands after its STX.
#[tactic(auto, using(std::proofs::Common::append_assoc), unfolding(crate::specs::BatchTexts::unclosed_text))]
pub(crate) fn unclosed_words(alloc: Global, at: u64, rest: &[u8]) -> Result<String, AllocError>
    ensures { IfOk result (λ said. string_bytes said ≡ unclosed_text at rest.now) }
{
    let place = to_mark(rest);
    if place < rest.len() {
        let byte = u128::from(at) + 1 + place as u128;
        return format!(in alloc;
            "another STX (X'02') at byte {byte}, before the record's ETX (X'03')"
        );
    }
    let count = rest.len();
    format!(in alloc;
        "the file ends {count} bytes after the record's STX, before its ETX (X'03'): it may have been cut"
    )
}

/// What is said of a record of no kind.
#[tactic(auto, using(std::proofs::Common::append_assoc), unfolding(crate::specs::BatchTexts::kind_text))]
pub(crate) fn kind_words(alloc: Global, body: &[u8]) -> Result<String, AllocError>
    ensures { IfOk result (λ said. string_bytes said ≡ kind_text body.now) }
{
    let kind = quoted(alloc, front(body, 2))?;
    format!(in alloc; "the record begins {kind}: a detail begins \"G1\", the trailer \"99\"")
}

/// What is said of a detail without a reference.
#[tactic(auto, using(std::proofs::Common::append_assoc), unfolding(crate::specs::BatchTexts::detail_text))]
pub(crate) fn detail_words(alloc: Global, body: &[u8]) -> Result<String, AllocError>
    ensures { IfOk result (λ said. string_bytes said ≡ detail_text body.now) }
{
    let count = body.len().saturating_sub(2);
    format!(in alloc; "the detail has {count} bytes after G1: expected a reference of 10 bytes")
}

/// What is said of a header: its length, or its first field that is wrong.
#[tactic(auto, using(std::proofs::Common::append_assoc), unfolding(crate::specs::BatchTexts::header_text))]
pub(crate) fn header_words(alloc: Global, at: u64, body: &[u8]) -> Result<String, AllocError>
    ensures { IfOk result (λ said. string_bytes said ≡ header_text at body.now) }
{
    if body.len() + 2 != HEADER_LENGTH {
        let count = body.len() + 2;
        return format!(in alloc; "the header has {count} bytes: expected {HEADER_LENGTH}");
    }
    if part(body, 2, 3) == b"R".as_slice() {
        let byte = u128::from(at) + 3;
        return format!(in alloc; "type \"R\" at byte {byte}: this is a response file, expected T");
    }
    fields_words(alloc, at, body)
}

// What is said of the first field of a header that is wrong.
#[tactic(auto, unfolding(crate::specs::BatchTexts::fields_text))]
fn fields_words(alloc: Global, at: u64, body: &[u8]) -> Result<String, AllocError>
    ensures { IfOk result (λ said. string_bytes said ≡ fields_text at body.now) }
{
    if part(body, 2, 3) == b"T".as_slice() {
        lot_words(alloc, at, body)
    } else {
        field_words(alloc, at, "type", body, 2, 3, "expected T")
    }
}

// From the batch number on.
#[tactic(auto, unfolding(crate::specs::BatchTexts::lot_text))]
fn lot_words(alloc: Global, at: u64, body: &[u8]) -> Result<String, AllocError>
    ensures { IfOk result (λ said. string_bytes said ≡ lot_text at body.now) }
{
    if all_digits(part(body, BATCH_NUMBER_AT, CREATION_DATE_AT)) {
        date_words(alloc, at, body)
    } else {
        field_words(
            alloc,
            at,
            "batch number",
            body,
            BATCH_NUMBER_AT,
            CREATION_DATE_AT,
            "expected 7 digits",
        )
    }
}

// From the creation date on.
#[tactic(auto, unfolding(crate::specs::BatchTexts::date_text))]
fn date_words(alloc: Global, at: u64, body: &[u8]) -> Result<String, AllocError>
    ensures { IfOk result (λ said. string_bytes said ≡ date_text at body.now) }
{
    let (start, end) = (CREATION_DATE_AT, CREATION_TIME_AT);
    let date = part(body, start, end);
    if date_read(date).is_err() {
        field_words(
            alloc,
            at,
            "creation date",
            body,
            start,
            end,
            date_expected(date),
        )
    } else {
        time_words(alloc, at, body)
    }
}

// From the creation time on.
#[tactic(auto, unfolding(crate::specs::BatchTexts::time_text))]
fn time_words(alloc: Global, at: u64, body: &[u8]) -> Result<String, AllocError>
    ensures { IfOk result (λ said. string_bytes said ≡ time_text at body.now) }
{
    if Time::new(part(body, CREATION_TIME_AT, 46)).is_none() {
        let expected = "expected HHMM from 0000 to 2359";
        field_words(
            alloc,
            at,
            "creation time",
            body,
            CREATION_TIME_AT,
            46,
            expected,
        )
    } else {
        file_type_words(alloc, at, body)
    }
}

// From the file type on.
#[tactic(auto, unfolding(crate::specs::BatchTexts::file_type_text))]
fn file_type_words(alloc: Global, at: u64, body: &[u8]) -> Result<String, AllocError>
    ensures { IfOk result (λ said. string_bytes said ≡ file_type_text at body.now) }
{
    if is_file_type(part(body, 46, 47)) {
        field_words(alloc, at, "version", body, 47, 49, "expected 12")
    } else {
        field_words(alloc, at, "file type", body, 46, 47, "expected P or T")
    }
}

fn is_file_type(file: &[u8]) -> bool
    ensures { result ≡ is_file_type file.now }
{
    file == b"P".as_slice() || file == b"T".as_slice()
}

// Why eight bytes are no date.
#[tactic(auto, unfolding(crate::specs::BatchTexts::date_expected))]
fn date_expected(date: &[u8]) -> &'static str
    ensures { result.now ≡ date_expected date.now }
{
    if all_digits(date) {
        "no such date"
    } else {
        "expected 8 digits CCYYMMDD"
    }
}

// A field of a record whose STX stands at a place, with its own byte.
#[tactic(auto, using(std::proofs::Common::append_assoc), unfolding(crate::specs::BatchTexts::field_text))]
fn field_words(
    alloc: Global,
    at: u64,
    name: &str,
    body: &[u8],
    start: usize,
    end: usize,
    expected: &str,
) -> Result<String, AllocError>
    ensures { IfOk result (λ said. string_bytes said ≡ field_text at name.now body.now start end expected.now) }
{
    let field = quoted(alloc, part(body, start, end))?;
    let byte = u128::from(at) + start as u128 + 1;
    format!(in alloc; "{name} {field} at byte {byte}: {expected}")
}

/// What is said of a trailer: its length, or its first number that is none.
#[tactic(auto, using(std::proofs::Common::append_assoc), unfolding(crate::specs::BatchTexts::trailer_text))]
pub(crate) fn trailer_words(alloc: Global, at: u64, body: &[u8]) -> Result<String, AllocError>
    ensures { IfOk result (λ said. string_bytes said ≡ trailer_text at body.now) }
{
    if body.len() < 19 {
        let count = body.len() + 2;
        return format!(in alloc; "the trailer has {count} bytes: expected 21 to {TRAILER_LENGTH}");
    }
    if body.len() > 54 {
        let message = body.len() - 19;
        return format!(in alloc; "the trailer's message has {message} bytes: expected at most 35");
    }
    if !all_digits(part(body, 2, 9)) {
        return field_words(alloc, at, "batch number", body, 2, 9, "expected 7 digits");
    }
    field_words(alloc, at, "count", body, 9, 19, "expected 10 digits")
}

/// What is said of a trailer of another batch than the header's.
#[tactic(auto, using(std::proofs::Common::append_assoc), unfolding(crate::specs::BatchTexts::number_text))]
pub(crate) fn number_words(
    alloc: Global,
    header: &[u8],
    trailer: &[u8],
) -> Result<String, AllocError>
    ensures { IfOk result (λ said. string_bytes said ≡ number_text header.now trailer.now) }
{
    let header = quoted(alloc, part(header, BATCH_NUMBER_AT, CREATION_DATE_AT))?;
    let trailer = quoted(alloc, part(trailer, 2, 9))?;
    format!(in alloc; "the trailer has batch number {trailer}, the header {header}")
}

/// What is said of a trailer that counts otherwise.
#[tactic(auto, using(std::proofs::Common::append_assoc), unfolding(crate::specs::BatchTexts::count_text))]
pub(crate) fn count_words(alloc: Global, trailer: &[u8], details: u64) -> Result<String, AllocError>
    ensures { IfOk result (λ said. string_bytes said ≡ count_text trailer.now details) }
{
    let count = number_read(part(trailer, 9, 19), 10).unwrap_or(0);
    format!(in alloc;
        "the trailer says {count} records, the file has {details}: it may have been cut or joined"
    )
}
