ghost use Rattle.std.specs.Prelude.{◌≡◌, ◌==◌, drop, find, take};
ghost use Rattle.std.specs.List.{slice_split};
ghost use Rattle.std.specs.Option.{option_copied};
ghost use Rattle.rx_text.specs.declared.separators.TheConstants.{FIELD, SEGMENT};
ghost use Rattle.rx_explain_text.specs.RequestField.{bytes_at, field_bytes, field_number, front_of, has_field, is_under};
ghost use Rattle.rx_explain_text.specs.RequestField.{part_of, stand_of, value_in, value_of, value_under};

use rx_d0_request::HEADER_LENGTH;
use rx_fields::{Code, trimmed};
use rx_text::{FIELD, GROUP, SEGMENT};

// Where the bytes stand that a code speaks of.
#[derive(Clone, Copy)]
enum Stand {
    // This many bytes of the header from a place on.
    Header(usize, usize),
    // The value in a segment of the common part under an id.
    Common([u8; 2], [u8; 2]),
    // The value in a segment of the transaction's group under an id.
    Group([u8; 2], [u8; 2]),
    // The whole group, or what stands before the first.
    Part,
}

/// The number and id of the field that a code speaks of, as `442-E7`; None of a syntax error, and of a code of
/// adjudication.
pub fn field_name(code: Code) -> Option<&'static str>
    ensures { option_copied result ≡ field_number code }
{
    match code {
        Code::Bin => Some("101-A1"),
        Code::Version => Some("102-A2"),
        Code::TransactionCode => Some("103-A3"),
        Code::ProcessorControlNumber => Some("104-A4"),
        Code::TransactionCount => Some("109-A9"),
        Code::Provider => Some("201-B1"),
        Code::DateOfService => Some("401-D1"),
        Code::Cardholder => Some("302-C2"),
        Code::Person => Some("303-C3"),
        Code::ReferenceQualifier => Some("455-EM"),
        Code::Reference => Some("402-D2"),
        Code::ProductQualifier => Some("436-E1"),
        Code::ProductId => Some("407-D7"),
        Code::Quantity => Some("442-E7"),
        Code::DaysSupply => Some("405-D5"),
        Code::Compound => Some("406-D6"),
        Code::OtherCoverage => Some("308-C8"),
        Code::IngredientCost => Some("409-D9"),
        Code::DispensingFee => Some("412-DC"),
        Code::UsualCharge => Some("426-DQ"),
        Code::GrossAmount => Some("430-DU"),
        _ => None,
    }
}

fn stand_of(code: Code) -> Stand
    ensures { result ≡ stand_of code }
{
    match code {
        Code::Bin => Stand::Header(0, 6),
        Code::Version => Stand::Header(6, 2),
        Code::TransactionCode => Stand::Header(8, 2),
        Code::ProcessorControlNumber => Stand::Header(10, 10),
        Code::TransactionCount => Stand::Header(20, 1),
        Code::Provider => Stand::Header(23, 15),
        Code::DateOfService => Stand::Header(38, 8),
        Code::Cardholder => Stand::Common(*b"04", *b"C2"),
        Code::Person => Stand::Common(*b"04", *b"C3"),
        Code::ReferenceQualifier => Stand::Group(*b"07", *b"EM"),
        Code::Reference => Stand::Group(*b"07", *b"D2"),
        Code::ProductQualifier => Stand::Group(*b"07", *b"E1"),
        Code::ProductId => Stand::Group(*b"07", *b"D7"),
        Code::Quantity => Stand::Group(*b"07", *b"E7"),
        Code::DaysSupply => Stand::Group(*b"07", *b"D5"),
        Code::Compound => Stand::Group(*b"07", *b"D6"),
        Code::OtherCoverage => Stand::Group(*b"07", *b"C8"),
        Code::IngredientCost => Stand::Group(*b"11", *b"D9"),
        Code::DispensingFee => Stand::Group(*b"11", *b"DC"),
        Code::UsualCharge => Stand::Group(*b"11", *b"DQ"),
        Code::GrossAmount => Stand::Group(*b"11", *b"DU"),
        _ => Stand::Part,
    }
}

/// The bytes of a request that a reject code speaks of: those of its field, None where that is absent; of a syntax error
/// those of the nth group, and of a rejected header, whose `nth` is 0, those before the first group.
pub fn field_bytes(request: &[u8], nth: u64, code: Code) -> Option<&[u8]>
    ensures { option_copied result ≡ field_bytes request.now nth code }
{
    bytes_at(request, nth, stand_of(code))
}

fn bytes_at(request: &[u8], nth: u64, stand: Stand) -> Option<&[u8]>
    ensures { option_copied result ≡ bytes_at request.now nth stand }
{
    match stand {
        Stand::Header(from, count) => Some(first(
            after_front(first(request, HEADER_LENGTH), from),
            count,
        )),
        Stand::Common(name, id) => value_in(part_of(request, 0)?, name, id),
        Stand::Group(name, id) => value_in(part_of(request, nth)?, name, id),
        Stand::Part if nth == 0 => Some(front_of(request)),
        Stand::Part => part_of(request, nth),
    }
}

// The first bytes, at most this many.
fn first(bytes: &[u8], count: usize) -> &[u8]
    ensures { result.now ≡ take count bytes.now }
{
    &bytes[..bytes.len().min(count)]
}

// The bytes after these.
fn after_front(bytes: &[u8], count: usize) -> &[u8]
    ensures { result.now ≡ drop count bytes.now }
{
    &bytes[bytes.len().min(count)..]
}

// Header and common part.
fn front_of(request: &[u8]) -> &[u8]
    ensures { result.now ≡ front_of request.now (part_of request.now 0) }
{
    match part_of(request, 0) {
        Some(common) => first(request, HEADER_LENGTH.saturating_add(common.len())),
        None => request,
    }
}

// The common part, whose number is 0, or the nth group.
fn part_of(request: &[u8], nth: u64) -> Option<&[u8]>
    ensures { option_copied result ≡ part_of request.now nth }
{
    after_front(request, HEADER_LENGTH)
        .split(|byte| *byte == GROUP)
        .nth(nth as usize)
}

// The value under an id in the first segment of this name that has one.
fn value_in(part: &[u8], name: [u8; 2], id: [u8; 2]) -> Option<&[u8]>
    ensures { option_copied result ≡ value_in name id part.now }
{
    value_under(segment_in(part, name, id)?, id)
}

fn segment_in(part: &[u8], name: [u8; 2], id: [u8; 2]) -> Option<&[u8]>
    ensures { option_copied result ≡ find (has_field name id) (slice_split (λ b. b == SEGMENT) part.now) }
{
    part.split(|byte| *byte == SEGMENT)
        .find(|segment| has_field(segment, name, id))
}

// Whether a segment has this name, and a value under the id.
fn has_field(segment: &[u8], name: [u8; 2], id: [u8; 2]) -> bool
    ensures { result ≡ has_field name id segment.now }
{
    match value_under(segment, *b"AM") {
        Some(own) => own == name.as_slice() && value_under(segment, id).is_some(),
        None => false,
    }
}

// The first value under an id in a segment.
fn value_under(segment: &[u8], id: [u8; 2]) -> Option<&[u8]>
    ensures { option_copied result ≡ value_under id segment.now }
{
    Some(value_of(piece_under(segment, id)?))
}

fn piece_under(segment: &[u8], id: [u8; 2]) -> Option<&[u8]>
    ensures { option_copied result ≡ find (is_under id) (slice_split (λ b. b == FIELD) segment.now) }
{
    segment
        .split(|byte| *byte == FIELD)
        .find(|piece| is_under(piece, id))
}

// Whether a piece has this id, and a value.
fn is_under(piece: &[u8], id: [u8; 2]) -> bool
    ensures { result ≡ is_under id piece.now }
{
    first(piece, 2) == id.as_slice() && !value_of(piece).is_empty()
}

// A piece's value, without trailing blanks.
fn value_of(piece: &[u8]) -> &[u8]
    ensures { result.now ≡ value_of piece.now }
{
    trimmed(after_front(piece, 2))
}
