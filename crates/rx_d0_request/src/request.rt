ghost use Rattle.std.specs.Prelude.{◌≡◌, ◌&&◌, if◌then◌else◌, IfOk, length, min, max, true, map, option_map, is_some, None, Some};
ghost use Rattle.rx_text.specs.declared.separators.TheConstants.{GROUP};
ghost use Rattle.rx_d0_values.specs.Listed.{is_few};
ghost use Rattle.rx_d0_request.specs.Bills.{transaction};
ghost use Rattle.rx_d0_request.specs.Codes.{is_faulty, header_conditions};
ghost use Rattle.rx_text.specs.Bytes.{cut};
ghost use Rattle.rx_d0_request.specs.Cut.{further};
ghost use Rattle.rx_d0_request.specs.Headers.{header_bytes, header_of};
ghost use Rattle.rx_d0_request.specs.Known.{group_of};
ghost use Rattle.rx_d0_request.specs.Request.{transmission_of, body};
ghost use Rattle.rx_d0_request.specs.Steps.{is_addressed, opening_parts, heard_parts, rejected_parts};
ghost use Rattle.rx_d0_request.specs.Views.{insurance_texts, opening_view};

use crate::bill::transaction;
use crate::codes::{first_five, header_conditions, is_count};
use crate::header::{Header, after_header, header_bytes, is_clean};
use crate::known::{Insurance, common_read};
use crate::marks::count_of;
use crate::piece::Pieces;
use crate::value;
use rx_d0_values::{Body, Heard, Rejected, Transactions, Transmission};
use rx_fields::{Count, Day, Door, Memory, Provider};
use rx_text::GROUP;
use std::alloc::Global;

// What a header without codes opens.
#[derive(Clone, Copy)]
struct Opening<'a> {
    provider: Provider,
    date: Day,
    is_billing: bool,
    common: Insurance<'a>,
}

// How many groups there are: one per separator.
fn count_groups(rest: &[u8]) -> usize
    ensures { result ≡ length (further (cut GROUP rest.now)) }
{
    count_of(rest, GROUP)
}

// How many answers a rejected header has: the groups, at least 1 and at most 4.
fn answers(groups: usize) -> Count
    ensures { result ≡ max 1 (min groups 4) }
{
    match Count::new(groups.clamp(1, 4) as u64) {
        Some(count) => count,
        None => unreachable!(),
    }
}

// None: a condition of a header holds.
#[tactic(auto, unfolding(crate::specs::Codes::is_faulty, crate::specs::Steps::opening_parts))]
fn opening_read<'a>(
    door: &Door,
    header: &Header,
    is_clean: bool,
    common: Option<Insurance<'a>>,
    groups: usize,
) -> Option<Opening<'a>>
    ensures { option_map opening_view result
        ≡ (if is_faulty (header_conditions door.now header.now (is_clean && is_some common.entry) groups) then None
        else Some (opening_parts header.now (option_map insurance_texts common.entry))) }
{
    let provider = value::provider(&header.provider)?;
    let date = value::date(&header.date)?;
    let common = common?;
    if !is_clean || !is_addressed(door, header) || !is_count(header.count, groups) {
        return None;
    }
    Some(Opening {
        provider,
        date,
        is_billing: header.code == *b"B1",
        common,
    })
}

// Whether a header names this door, and a version and a code that are accepted.
fn is_addressed(door: &Door, header: &Header) -> bool
    ensures { result ≡ is_addressed door.now header.now }
{
    header.bin == door.bin
        && header.version == *b"D0"
        && (header.code == *b"B1" || header.code == *b"B2")
        && header.pcn == door.pcn
}

// The transactions of the groups. A single one takes no allocation.
fn transactions(
    alloc: Global,
    is_billing: bool,
    common: &Insurance,
    mut pieces: Pieces<'_>,
    groups: usize,
) -> Result<Transactions, Memory>
    requires { is_few (length pieces) ≡ true }
    ensures { IfOk result
        (λ list. list
        ≡ map (λ group. transaction is_billing (insurance_texts common.now) (group_of group)) pieces.entry) }
{
    let first = transaction(is_billing, common, pieces.first());
    let Some(second) = pieces.next() else {
        return Ok(Transactions::one(first));
    };
    let mut list = Vec::with_capacity(alloc, groups)?;
    list.extend_from_slice(&[first, transaction(is_billing, common, second)])?;
    while let Some(group) = pieces.next() {
        list.extend_from_slice(&[transaction(is_billing, common, group)])?;
    }
    match Transactions::new(list) {
        Ok(list) => Ok(list),
        Err(_) => unreachable!(),
    }
}

// The transactions of a header that is accepted.
fn heard(
    alloc: Global,
    opening: &Opening,
    pieces: Pieces<'_>,
    groups: usize,
) -> Result<Heard, Memory>
    requires { is_few (length pieces) ≡ true }
    ensures { IfOk result (λ heard. heard ≡ heard_parts (opening_view opening.now) pieces.entry) }
{
    let list = transactions(alloc, opening.is_billing, &opening.common, pieces, groups)?;
    Ok(Heard {
        provider: opening.provider,
        date: opening.date,
        list,
    })
}

// A header that isn't accepted, before a number of groups.
fn rejected(
    door: &Door,
    header: &Header,
    is_clean: bool,
    has_common: bool,
    groups: usize,
) -> Rejected
    requires { is_faulty (header_conditions door.now header.now (is_clean && has_common) groups) ≡ true }
    ensures { result ≡ rejected_parts (header_conditions door.now header.now (is_clean && has_common) groups) groups }
{
    let is_sound = is_clean && has_common;
    Rejected {
        codes: first_five(&header_conditions(door, header, is_sound, groups)),
        groups: answers(groups),
    }
}

// What follows the echo.
fn body(alloc: Global, door: &Door, bytes: &[u8], header: &Header) -> Result<Body, Memory>
    requires { header.now ≡ header_of (header_bytes bytes.now) }
    ensures { IfOk result (λ b. b ≡ body door.now bytes.now) }
{
    let rest = after_header(bytes);
    let groups = count_groups(rest);
    let mut pieces = Pieces::new(rest, GROUP);
    let common = common_read(pieces.first());
    let is_clean = is_clean(bytes);
    match opening_read(door, header, is_clean, common, groups) {
        Some(opening) => Ok(Body::Heard(heard(alloc, &opening, pieces, groups)?)),
        None => Ok(Body::Rejected(rejected(door, header, is_clean, common.is_some(), groups))),
    }
}

/// The transmission of any byte string, at a plan's door (docs/FORMATS.md, "Request transmission").
///
/// # Errors
///
/// `Memory` where a growth was refused.
#[tactic(auto, unfolding(crate::specs::Request::transmission_of))]
pub fn decode(alloc: Global, door: &Door, bytes: &[u8]) -> Result<Transmission, Memory>
    ensures { IfOk result (λ t. t ≡ transmission_of door.now bytes.now) }
{
    let front = header_bytes(bytes);
    let header = Header::new(&front);
    let body = body(alloc, door, bytes, &header)?;
    Ok(Transmission {
        echo: header.echo(),
        body,
    })
}
