//! A members table in which no line has a fault, read quickly.
ghost use Rattle.std.specs.Prelude.{◌≡◌, IfOk, IfSome, Ok, Some};
ghost use Rattle.std.specs.List.Sorted.{IsPermutation};
ghost use Rattle.rx_sorted.specs.Ascending.{IsAscending};
ghost use Rattle.rx_ledger.specs.Members.{member_cmp, member_key};
ghost use Rattle.rx_books_text.specs.TextReading.{lines};
ghost use Rattle.rx_books_upkeep.specs.QuickTable.{AreSorted, members_in, readily};

use crate::table::{HEADING, LINE_FEED};
use crate::table_line::member_in;
use memchr::memchr;
use rx_fields::Memory;
use rx_ledger::Member;
use rx_sorted::Ascending;
use std::alloc::Global;

// About the bytes of a line.
const LINE: usize = 24;

/// The members of a table, where none of its lines has a fault; None says nothing.
pub(crate) fn read_readily(alloc: Global, text: &[u8]) -> Result<Option<Ascending<Member>>, Memory>
    ensures { IfOk result (λ found. IfSome found (λ list. readily (lines text.now) ≡ Ok list)) }
{
    let Some(end) = memchr(LINE_FEED, text) else {
        return Ok(None);
    };
    if &text[..end] != HEADING.as_slice() {
        return Ok(None);
    }
    sorted_members(alloc, &text[end + 1..])
}

// The members of these lines, in order, where each line is a member's, and none of them another's member.
#[tactic(auto, using(crate::proofs::QuickTables::are_sorted))]
fn sorted_members(alloc: Global, text: &[u8]) -> Result<Option<Ascending<Member>>, Memory>
    ensures { IfOk result (λ found. IfSome found (AreSorted (lines text.now))) }
{
    match members_in(alloc, text)? {
        Some(members) => in_order(members),
        None => Ok(None),
    }
}

// The members of these lines, one after another, where each is a member's and a line feed ends the last.
fn members_in(alloc: Global, text: &[u8]) -> Result<Option<Vec<Member>>, Memory>
    ensures { IfOk result (λ found. IfSome found (λ list. members_in (lines text.now) ≡ Some list.items)) }
{
    let mut list = Vec::with_capacity(alloc, text.len() / LINE)?;
    let mut rest = text;
    while let Some(end) = memchr(LINE_FEED, rest) {
        let Ok(member) = member_in(&rest[..end]) else {
            return Ok(None);
        };
        list.push(member)?;
        rest = &rest[end + 1..];
    }
    if !rest.is_empty() {
        return Ok(None);
    }
    Ok(Some(list))
}

// These members in order, where each is there once.
fn in_order(members: Vec<Member>) -> Result<Option<Ascending<Member>>, Memory>
    ensures all { IfOk result (λ found. IfSome found (λ list. IsPermutation members.items list)) }
    ensures rise { IfOk result (λ found. IfSome found (λ list. IsAscending member_cmp member_key list)) }
{
    let mut members = members;
    members.sort_by(|first, second| first.key.cmp(&second.key))?;
    match Ascending::from_vec(members) {
        Ok(list) => Ok(Some(list)),
        Err(_) => Ok(None),
    }
}
