ghost use Rattle.std.specs.Prelude.{◌≡◌, ◌-◌, ◌≤◌, IfSome, length};
ghost use Rattle.rx_books_scan.specs.Lists.{BeginWith, claim_lengths, claim_lines, lines_text, total_lines};
ghost use Rattle.rx_books_text.specs.Printed.{member_lines};

use crate::claims::Claims;
use crate::line::line_at;
use crate::members::Members;
use rx_books_text::{MemberLine, TotalLine, Version};
use rx_ledger::Row;
use std::alloc::Global;

// The fewest bytes of a claim line, with its line feed.
const LEAST_CLAIM: usize = 59;

/// The members whose lines the bytes begin with, and what follows. None where memory runs out.
pub(crate) fn members_at(alloc: Global, version: Version, bytes: &[u8]) -> Option<(Members, &[u8])>
    ensures lines { IfSome result (λ x. BeginWith version bytes.now
        (member_lines x.0.members.items x.0.deductibles.items) x.1.now) }
    ensures bytes { IfSome result (λ x.
        x.0.bytes ≡ length (lines_text version (member_lines x.0.members.items x.0.deductibles.items))) }
{
    let mut members = Vec::new(alloc);
    let mut deductibles = Vec::new(alloc);
    let mut rest = bytes;
    while let Some((line, behind)) = line_at::<MemberLine>(version, rest) {
        let Ok(()) = members.push(line.member) else {
            return None;
        };
        let Ok(()) = deductibles.push(line.deductible) else {
            return None;
        };
        rest = behind;
    }
    let members = Members {
        members,
        deductibles,
        bytes: bytes.len() - rest.len(),
    };
    Some((members, rest))
}

/// The claims whose lines the bytes begin with, and what follows. None where a line has more bytes than are kept, or
/// where memory runs out.
pub(crate) fn claims_at(alloc: Global, version: Version, bytes: &[u8]) -> Option<(Claims, &[u8])>
    ensures lines { IfSome result (λ x. BeginWith version bytes.now (claim_lines x.0.rows.items) x.1.now) }
    ensures lengths { IfSome result (λ x. x.0.lengths.items ≡ claim_lengths version x.0.rows.items) }
{
    let most = bytes.len() / LEAST_CLAIM;
    let mut rows = Vec::with_capacity(alloc, most).ok()?;
    let mut lengths = Vec::with_capacity(alloc, most).ok()?;
    let mut rest = bytes;
    while let Some((row, behind)) = line_at::<Row>(version, rest) {
        let length = length_before(rest, behind)?;
        let Ok(()) = rows.push(row) else {
            return None;
        };
        let Ok(()) = lengths.push(length) else {
            return None;
        };
        rest = behind;
    }
    Some((Claims { rows, lengths }, rest))
}

// How many bytes stand before those that are left; None where they are too many to be kept.
fn length_before(bytes: &[u8], rest: &[u8]) -> Option<u8>
    requires { length rest.now ≤ length bytes.now }
    ensures { IfSome result (λ n. n ≡ length bytes.now - length rest.now) }
{
    u8::try_from(bytes.len() - rest.len()).ok()
}

/// The totals whose lines the bytes begin with, and what follows. None where memory runs out.
pub(crate) fn totals_at(
    alloc: Global,
    version: Version,
    bytes: &[u8],
) -> Option<(Vec<TotalLine>, &[u8])>
    ensures { IfSome result (λ x. BeginWith version bytes.now (total_lines x.0.items) x.1.now) }
{
    let mut totals = Vec::new(alloc);
    let mut rest = bytes;
    while let Some((line, behind)) = line_at::<TotalLine>(version, rest) {
        let Ok(()) = totals.push(line) else {
            return None;
        };
        rest = behind;
    }
    Some((totals, rest))
}
