use crate::claims::Claims;
use crate::members::Members;
use crate::run::{claims_at, members_at, totals_at};
use rx_books_text::{TotalLine, Version};
use rx_ledger::Row;
use std::alloc::Global;

/// What a part of the lines prints, in the order of the lines.
#[derive(Drop)]
pub(crate) struct Part {
    pub(crate) members: Members,
    pub(crate) rows: Vec<Row>,
    // For each row how many bytes its line has, with the line feed.
    pub(crate) lengths: Vec<u8>,
    pub(crate) totals: Vec<TotalLine>,
}

ghost use Rattle.std.specs.Prelude.{IfSome};
ghost use Rattle.rx_books_scan.specs.Parts.{IsPart};

/// What a part of the lines prints; None if it is none, or where memory runs out.
pub(crate) fn read_part(alloc: Global, version: Version, text: &[u8]) -> Option<Part>
    ensures { IfSome result (IsPart version text.now) }
{
    let Some((members, rest)) = members_at(alloc, version, text) else {
        return None;
    };
    let Some((claims, rest)) = claims_at(alloc, version, rest) else {
        return None;
    };
    let Some((totals, rest)) = totals_at(alloc, version, rest) else {
        return None;
    };
    if !rest.is_empty() {
        return None;
    }
    let Claims { rows, lengths } = claims;
    Some(Part {
        members,
        rows,
        lengths,
        totals,
    })
}
