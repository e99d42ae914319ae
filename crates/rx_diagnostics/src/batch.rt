ghost use Rattle.std.specs.Prelude.{◌≡◌, [], IfOk, option_copied, option_map, string_bytes};
ghost use Rattle.rx_diagnostics.specs.BatchTexts.{after_text, batch_mend, batch_text, blank_mend, details_before, ends_before};
ghost use Rattle.rx_diagnostics.specs.BatchTexts.{follows_text, front_mend, is_blank_after, is_end_mark, kind_at, no_header_text};
ghost use Rattle.rx_diagnostics.specs.BatchTexts.{no_trailer_text, outside_text, outside_with, seen_at, too_much_text, unread_batch_text};
ghost use Rattle.rx_batch.specs.declared.fault.BatchFault.TheVariants as fault;
ghost use Rattle.rx_diagnostics.specs.Places.{batch_place, unread_batch_place};

use crate::batch_record::{
    after_byte, body_at, count_words, detail_words, first_body, header_words, kind_words,
    number_words, trailer_words, unclosed_words,
};
use crate::looks::{has_mark, looks_like};
use crate::place::{Place, front, starts_before};
use crate::quoting::{from, part, quoted, said};
use crate::words::{Said, Words};
use rx_batch::BatchFault;
use rx_fields::{MOST_DETAILS, Memory};
use std::alloc::{AllocError, Global};

/// The words of a fault of this batch file (docs/FORMATS.md, "Faults of a batch file"): the record and the byte at which
/// it begins, what stands there, and what is expected.
///
/// # Errors
///
/// Only Memory.
pub fn batch_words(alloc: Global, fault: BatchFault, text: &[u8]) -> Result<Words, Memory>
    ensures place { IfOk result (λ words. words.place ≡ batch_place text.now fault) }
    ensures text { IfOk result (λ words. string_bytes words.text ≡ batch_text text.now fault) }
    ensures mend { IfOk result (λ words. words.mend.now ≡ batch_mend text.now fault) }
{
    let said = Said {
        text: said_of(alloc, fault, text)?,
        mend: mend_of(fault, text),
    };
    Ok(Words::of(Place::of_batch(fault, text), said))
}

// The command that mends the file, empty where no one step does.
fn mend_of(fault: BatchFault, text: &[u8]) -> &'static str
    ensures { result.now ≡ batch_mend text.now fault }
{
    match fault {
        BatchFault::Outside { at: 0 } => front_mend(text),
        BatchFault::Outside { at } => blank_mend(text, at),
        BatchFault::AfterTrailer { at } => end_mend(text, at),
        _ => "",
    }
}

// The command that takes away a byte order mark, unpacks a file, or writes control bytes that are spelled out as themselves.
fn front_mend(text: &[u8]) -> &'static str
    ensures { result.now ≡ front_mend text.now }
{
    if has_mark(text) {
        "sed -i '1s/^\\xef\\xbb\\xbf//'"
    } else if text.starts_with(b"\x1F\x8B") {
        "sh -c 'zcat < \"$1\" > \"$1.new\" && mv \"$1.new\" \"$1\"' sh"
    } else if text.starts_with(b"<02>") {
        "sed -i 's/<02>/\\x02/g;s/<03>/\\x03/g;s/<1C>/\\x1c/Ig;s/<1D>/\\x1d/Ig;s/<1E>/\\x1e/Ig;s/<0[AD]>//Ig'"
    } else {
        ""
    }
}

// The command that takes away blanks after records.
fn blank_mend(text: &[u8], at: u64) -> &'static str
    ensures { result.now ≡ blank_mend text.now at }
{
    if is_blank_after(text, at) {
        "sed -i 's/\\x03[[:blank:]]*/\\x03/g'"
    } else {
        ""
    }
}

// The command that takes away X'1A' after the trailer.
fn end_mend(text: &[u8], at: u64) -> &'static str
    ensures { result.now ≡ batch_mend text.now (fault.AfterTrailer at) }
{
    if is_end_mark(from(text, at as usize)) {
        "sed -i '$s/\\x1a$//'"
    } else {
        ""
    }
}

/// The words of a fault of a batch file that can't be read again.
///
/// # Errors
///
/// Only Memory.
pub fn unread_batch_words(alloc: Global, fault: BatchFault) -> Result<Words, Memory>
    ensures place { IfOk result (λ words. words.place ≡ unread_batch_place fault) }
    ensures text { IfOk result (λ words. string_bytes words.text ≡ unread_batch_text fault) }
    ensures mend { IfOk result (λ words. words.mend.now ≡ []) }
{
    let said = Said::plain(unread_text(alloc, fault)?);
    Ok(Words::of(Place::of_unread_batch(fault), said))
}

// What is said where the text isn't known.
fn unread_text(alloc: Global, fault: BatchFault) -> Result<String, AllocError>
    ensures { IfOk result (λ text. string_bytes text ≡ unread_batch_text fault) }
{
    let text = match fault {
        BatchFault::Outside { .. } => "a byte where a record could begin: expected STX (X'02')",
        BatchFault::NoHeader { .. } => "expected a header, which begins STX 00",
        BatchFault::HeaderShape { .. } => "a field of the header is wrong, or it hasn't 75 bytes",
        BatchFault::Unclosed { .. } => "the record has no ETX (X'03')",
        BatchFault::RecordKind { .. } => "the record begins neither G1 nor 99",
        BatchFault::DetailShape { .. } => "the detail has no reference of 10 bytes",
        BatchFault::TrailerShape { .. } =>
            "the trailer's numbers aren't digits, or its message is too long",
        BatchFault::NoTrailer { .. } => "the file ends without a trailer",
        BatchFault::NumberDiffers { .. } => "the trailer's batch number isn't the header's",
        BatchFault::CountDiffers { .. } =>
            "the trailer's count isn't the number of details, nor that number plus two",
        BatchFault::AfterTrailer { .. } => "bytes follow the trailer",
        BatchFault::TooMuch { .. } => return too_much_words(alloc),
        BatchFault::Memory => "out of memory",
    };
    said(alloc, text)
}

// What is said of the first detail that is too many.
#[tactic(auto, using(std::proofs::Common::append_assoc))]
fn too_much_words(alloc: Global) -> Result<String, AllocError>
    ensures { IfOk result (λ said. string_bytes said ≡ too_much_text) }
{
    let place = MOST_DETAILS + 1;
    format!(in alloc; "this is detail {place}: at most {MOST_DETAILS} are read")
}

fn said_of(alloc: Global, fault: BatchFault, text: &[u8]) -> Result<String, AllocError>
    ensures { IfOk result (λ said. string_bytes said ≡ batch_text text.now fault) }
{
    match fault {
        BatchFault::Outside { at } => outside_words(alloc, text, at),
        BatchFault::NoHeader { at } => no_header_words(alloc, text, at),
        BatchFault::HeaderShape { at } => header_words(alloc, at, body_at(text, at)),
        BatchFault::Unclosed { at } => unclosed_words(alloc, at, after_byte(text, at)),
        BatchFault::RecordKind { at } => kind_words(alloc, body_at(text, at)),
        BatchFault::DetailShape { at } => detail_words(alloc, body_at(text, at)),
        BatchFault::TrailerShape { at } => trailer_words(alloc, at, body_at(text, at)),
        BatchFault::NoTrailer { at } => no_trailer_words(alloc, details_before(text, at)),
        BatchFault::NumberDiffers { at } => {
            number_words(alloc, first_body(text), body_at(text, at))
        }
        BatchFault::CountDiffers { at } => {
            count_words(alloc, body_at(text, at), details_before(text, at))
        }
        BatchFault::AfterTrailer { at } => after_words(alloc, text, at),
        BatchFault::TooMuch { .. } => too_much_words(alloc),
        BatchFault::Memory => said(alloc, "out of memory"),
    }
}

// How many details begin before a byte after the header.
fn details_before(text: &[u8], at: u64) -> u64
    ensures { result ≡ details_before text.now at }
{
    starts_before(text, at).saturating_sub(1)
}

// What is said of a file that ends without a trailer.
#[tactic(auto, using(std::proofs::Common::append_assoc), unfolding(crate::specs::BatchTexts::no_trailer_text))]
fn no_trailer_words(alloc: Global, details: u64) -> Result<String, AllocError>
    ensures { IfOk result (λ said. string_bytes said ≡ no_trailer_text details) }
{
    format!(in alloc;
        "the file ends without a trailer, after {details} details: it may have been cut"
    )
}

// What stands at a place, as far as it is shown.
fn seen_at(alloc: Global, text: &[u8], at: u64) -> Result<String, AllocError>
    ensures { IfOk result (λ seen. string_bytes seen ≡ seen_at text.now at) }
{
    quoted(alloc, front(from(text, at as usize), 16))
}

// What the text looks like, where its first byte is at fault.
fn kind_at(text: &[u8], at: u64) -> Option<&'static str>
    ensures { option_map (λ kind. kind.now) result ≡ kind_at text.now at }
{
    if at == 0 { looks_like(text) } else { None }
}

// Whether an ETX stands before a place.
fn ends_before(text: &[u8], at: u64) -> bool
    ensures { result ≡ ends_before text.now at }
{
    part(text, (at as usize).saturating_sub(1), at as usize) == b"\x03".as_slice()
}

// Whether a blank or a tab stands right after a record.
fn is_blank_after(text: &[u8], at: u64) -> bool
    ensures { result ≡ is_blank_after text.now at }
{
    let rest = from(text, at as usize);
    ends_before(text, at) && (rest.starts_with(b" ") || rest.starts_with(b"\t"))
}

// What is said of a byte where a record could begin.
#[tactic(auto, using(std::proofs::Common::append_assoc), unfolding(crate::specs::BatchTexts::outside_text))]
fn outside_words(alloc: Global, text: &[u8], at: u64) -> Result<String, AllocError>
    ensures { IfOk result (λ said. string_bytes said ≡ outside_text text.now at) }
{
    if at == 0 && has_mark(text) {
        return said(
            alloc,
            "the file begins with a byte order mark (EF BB BF): expected STX (X'02')",
        );
    }
    if is_blank_after(text, at) {
        return said(
            alloc,
            "a blank after a record's ETX (X'03'): only line ends may stand between records",
        );
    }
    let there = seen_at(alloc, text, at)?;
    outside_with(
        alloc,
        there.as_str(),
        kind_at(text, at),
        ends_before(text, at),
    )
}

#[tactic(auto, using(std::proofs::Common::append_assoc))]
fn outside_with(
    alloc: Global,
    there: &str,
    kind: Option<&'static str>,
    after_end: bool,
) -> Result<String, AllocError>
    ensures { IfOk result (λ said. string_bytes said
        ≡ outside_with there.now (option_map (λ k. k.now) kind.entry) after_end) }
{
    match (kind, after_end) {
        (Some(kind), _) => format!(in alloc;
            "{there}: expected STX (X'02'); this looks like {kind}"
        ),
        (None, true) => format!(in alloc;
            "{there} after a record's ETX (X'03'): expected STX (X'02'); a record must not contain ETX"
        ),
        (None, false) => format!(in alloc;
            "{there} where a record could begin: expected STX (X'02')"
        ),
    }
}

// What is said where the header is expected.
#[tactic(auto, using(std::proofs::Common::append_assoc), unfolding(crate::specs::BatchTexts::no_header_text))]
fn no_header_words(alloc: Global, text: &[u8], at: u64) -> Result<String, AllocError>
    ensures { IfOk result (λ said. string_bytes said ≡ no_header_text text.now at) }
{
    if text.is_empty() {
        return said(
            alloc,
            "the file is empty: expected a header, which begins STX 00",
        );
    }
    if at as usize >= text.len() {
        return said(alloc, "the file ends before a header, which begins STX 00");
    }
    let there = quoted(alloc, front(after_byte(text, at), 2))?;
    format!(in alloc; "the first record begins {there}: expected a header, which begins \"00\"")
}

// Whether it is X'1A', with which some systems end a text.
fn is_end_mark(rest: &[u8]) -> bool
    ensures { result ≡ is_end_mark rest.now }
{
    rest == b"\x1A".as_slice()
}

// What is said of what follows the trailer.
#[tactic(auto, using(std::proofs::Common::append_assoc), unfolding(crate::specs::BatchTexts::after_text))]
fn after_words(alloc: Global, text: &[u8], at: u64) -> Result<String, AllocError>
    ensures { IfOk result (λ said. string_bytes said ≡ after_text text.now at) }
{
    let rest = from(text, at as usize);
    if rest.starts_with(b"\x0200") {
        return said(
            alloc,
            "a second batch begins after the trailer: a file has one batch",
        );
    }
    follows_words(alloc, text, at)
}

// What is said of bytes that are no second batch.
#[tactic(auto, using(std::proofs::Common::append_assoc), unfolding(crate::specs::BatchTexts::follows_text))]
fn follows_words(alloc: Global, text: &[u8], at: u64) -> Result<String, AllocError>
    ensures { IfOk result (λ said. string_bytes said ≡ follows_text text.now at) }
{
    let rest = from(text, at as usize);
    if is_end_mark(rest) {
        return said(
            alloc,
            "X'1A' (Ctrl-Z) follows the trailer: the file ends with the trailer",
        );
    }
    let there = seen_at(alloc, text, at)?;
    let count = rest.len();
    format!(in alloc; "{count} bytes follow the trailer, {there}: the file ends with the trailer")
}
