ghost use Rattle.std.specs.Prelude.{◌≡◌, ◌≤◌, IfOk, Some, option_map, string_bytes};
ghost use Rattle.rx_diagnostics.specs.BooksTexts.{claim_text, count_text, digit_of, ends_blank, figures_text, has_kind};
ghost use Rattle.rx_diagnostics.specs.BooksTexts.{has_small_kind, kind_text, line_fields_text, line_mended, line_telling, mended};
ghost use Rattle.rx_diagnostics.specs.BooksTexts.{number_at, share_name, share_of, telling_of, version_of};

use crate::books_field::{CLAIM, FIRST_CLAIM, Field, MEMBER, SHORT_TOTAL, TOTAL, first_fault};
use crate::books_order::LineKind;
use crate::quoting::{field_of, fields, line_feeds, line_of, quoted};
use crate::words::Said;
use rx_books_text::{Version, read_head};
use rx_fields::{MOST_CENTS, number_read};
use std::alloc::{AllocError, Global};

/// What is said of a line that is none of the head's version, or has no line feed.
#[tactic(auto, unfolding(crate::specs::BooksTexts::line_telling))]
pub(crate) fn line_words(alloc: Global, text: &[u8], number: u64) -> Result<Said, AllocError>
    ensures { IfOk result (λ said. telling_of said ≡ line_telling text.now number) }
{
    let line = line_of(text, number);
    if (line_feeds(text) as u64) < number {
        return Said::mended(
            alloc,
            "the last line has no line feed at its end",
            "echo >>",
        );
    }
    match line_mended(alloc, line)? {
        Some(said) => Ok(said),
        None => Ok(Said::plain(kind_words(alloc, line, version_of(text))?)),
    }
}

// What is said of a line that one command mends.
#[tactic(auto, unfolding(crate::specs::BooksTexts::line_mended))]
fn line_mended(alloc: Global, line: &[u8]) -> Result<Option<Said>, AllocError>
    ensures { IfOk result (λ said. option_map telling_of said ≡ line_mended line.now) }
{
    if line.is_empty() {
        return mended(alloc, "the line is empty", "sed -i '/^$/d'");
    }
    if line.ends_with(b"\r") {
        let said = "the line ends with CR LF: expected LF";
        return mended(alloc, said, "sed -i 's/\\r$//'");
    }
    if ends_blank(line) {
        let said = "the line ends with a blank";
        return mended(alloc, said, "sed -i 's/[[:blank:]]*$//'");
    }
    if line.starts_with(b"#") {
        let said = "the line begins with #: books have no comments";
        return mended(alloc, said, "sed -i '/^#/d'");
    }
    if has_small_kind(line) {
        let said = "a line begins M|, C| or T|, in capitals";
        return mended(alloc, said, "sed -i 's/^m|/M|/;s/^c|/C|/;s/^t|/T|/'");
    }
    Ok(None)
}

// A text with the command that mends the file.
fn mended(alloc: Global, said: &str, mend: &'static str) -> Result<Option<Said>, AllocError>
    ensures { IfOk result (λ telling. option_map telling_of telling ≡ Some (mended said.now mend.now)) }
{
    Ok(Some(Said::mended(alloc, said, mend)?))
}

// Whether a line ends with a blank or a tab.
fn ends_blank(line: &[u8]) -> bool
    ensures { result ≡ ends_blank line.now }
{
    line.ends_with(b" ") || line.ends_with(b"\t")
}

// Whether a line begins with its kind in a small letter.
fn has_small_kind(line: &[u8]) -> bool
    ensures { result ≡ has_small_kind line.now }
{
    line.starts_with(b"m|") || line.starts_with(b"c|") || line.starts_with(b"t|")
}

// The version that the head line says.
fn version_of(text: &[u8]) -> Version
    ensures { result ≡ version_of text.now }
{
    match read_head(line_of(text, 1)) {
        Some(head) => head.version,
        None => Version::Three,
    }
}

// What is said of a line by its kind.
#[tactic(auto, unfolding(crate::specs::BooksTexts::kind_text))]
fn kind_words(alloc: Global, line: &[u8], version: Version) -> Result<String, AllocError>
    ensures { IfOk result (λ said. string_bytes said ≡ kind_text line.now version) }
{
    if !has_kind(line) {
        let line = quoted(alloc, line)?;
        return format!(in alloc; "{line}: a line begins M|, C| or T|");
    }
    let kind = LineKind::of(line);
    match (kind, version) {
        (LineKind::Member, _) => fields_words(alloc, line, kind, version, &MEMBER),
        (LineKind::Claim, Version::One) => {
            fields_words(alloc, line, kind, version, &FIRST_CLAIM)
        }
        (LineKind::Claim, _) => fields_words(alloc, line, kind, version, &CLAIM),
        (LineKind::Total, Version::Three) => fields_words(alloc, line, kind, version, &TOTAL),
        (LineKind::Total, _) => fields_words(alloc, line, kind, version, &SHORT_TOTAL),
    }
}

// Whether a line begins with its kind.
fn has_kind(line: &[u8]) -> bool
    ensures { result ≡ has_kind line.now }
{
    line.starts_with(b"M|") || line.starts_with(b"C|") || line.starts_with(b"T|")
}

// What is said of a line by its fields: how many there are, the first that is wrong, or the figures together.
#[tactic(auto, unfolding(crate::specs::BooksTexts::line_fields_text))]
fn fields_words(
    alloc: Global,
    line: &[u8],
    kind: LineKind,
    version: Version,
    expected: &[Field],
) -> Result<String, AllocError>
    ensures { IfOk result (λ said. string_bytes said ≡ line_fields_text line.now kind version expected.now) }
{
    let count = fields(line);
    if count != expected.len() + 1 {
        return count_words(alloc, count, kind, version, expected.len() + 1);
    }
    match first_fault(alloc, line, expected)? {
        Some(said) => Ok(said),
        None => figures_words(alloc, line, version),
    }
}

// What is said of a line with another number of fields.
#[tactic(auto, using(std::proofs::Common::append_assoc))]
fn count_words(
    alloc: Global,
    count: usize,
    kind: LineKind,
    version: Version,
    expected: usize,
) -> Result<String, AllocError>
    ensures { IfOk result (λ said. string_bytes said ≡ count_text count kind version expected) }
{
    let kind = kind.name();
    let digit = digit_of(version);
    format!(in alloc; "{count} fields: a {kind} line of version {digit} has {expected}")
}

// The digit of a version.
fn digit_of(version: Version) -> u8
    ensures { result ≡ digit_of version }
{
    match version {
        Version::One => 1,
        Version::Two => 2,
        Version::Three => 3,
    }
}

// What is said of a line whose fields are right one by one.
#[tactic(auto, using(std::proofs::Common::append_assoc))]
fn figures_words(alloc: Global, line: &[u8], version: Version) -> Result<String, AllocError>
    ensures { IfOk result (λ said. string_bytes said ≡ figures_text line.now version) }
{
    if line.starts_with(b"M") {
        let first = quoted(alloc, field_of(line, 4))?;
        let last = quoted(alloc, field_of(line, 5))?;
        return format!(in alloc; "the last day {last} is before the first, {first}");
    }
    let paid = number_at(line, 10) + number_at(line, 11);
    claim_words(alloc, paid, share_name(version), share_of(version, line))
}

// What is said of a claim by what is paid and the member's share of it.
#[tactic(auto, using(std::proofs::Common::append_assoc))]
fn claim_words(alloc: Global, paid: u128, name: &str, share: u128) -> Result<String, AllocError>
    ensures { IfOk result (λ said. string_bytes said ≡ claim_text paid name.now share) }
{
    if paid > u128::from(MOST_CENTS) {
        return format!(in alloc; "F6 + F7 = {paid}: expected at most {MOST_CENTS} cents");
    }
    format!(in alloc; "{name} = {share}: expected at most F6 + F7 = {paid}")
}

// What the member pays of a claim.
fn share_of(version: Version, line: &[u8]) -> u128
    ensures { result ≡ share_of version line.now }
{
    let share = number_at(line, 12) + number_at(line, 13);
    match version {
        Version::One => share,
        Version::Two | Version::Three => share + number_at(line, 14),
    }
}

fn share_name(version: Version) -> &'static str
    ensures { result.now ≡ share_name version }
{
    match version {
        Version::One => "FH + FI",
        Version::Two | Version::Three => "FH + FI + 4U",
    }
}

// The number that a field is; 0 if it is none.
fn number_at(line: &[u8], number: usize) -> u128
    ensures value { result ≡ number_at line.now number }
    ensures small { result ≤ 18_446_744_073_709_551_615 }
{
    u128::from(number_read(field_of(line, number), 19).unwrap_or(0))
}
