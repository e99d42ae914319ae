//! The report of a loading.
ghost use Rattle.std.specs.Prelude.{◌≡◌, ◌≤◌, ◌+◌, ◌++◌, ◌∷◌, [], IfOk, length, vec_capacity, vec_len};
ghost use Rattle.std.specs.List.{flat_map};
ghost use Rattle.rx_fields.specs.Calendar.{date_text};
ghost use Rattle.rx_text.specs.Outcomes.{PutsOrLeaves};
ghost use Rattle.rx_books_upkeep.specs.Report.{change_line, change_text, changes_text};

use crate::change::{Change, MemberChange};
use rx_fields::{Day, Memory, date_write};
use rx_ledger::MemberKey;
use rx_text::put;
use std::alloc::Global;

// Room for any line: the two ids have at most 23 bytes.
const LINE: usize = 64;

const HEADING: &[u8; 32] = b"family\tperson\tfirst\tlast\tchange\n";

/// The report of a loading: a heading, and for each of these members a line with the coverage in the table, and whether the
/// member came in, changed or stayed (docs/FORMATS.md, "Members report").
///
/// # Errors
///
/// Out of memory only.
pub fn changes_text(alloc: Global, changes: &[MemberChange]) -> Result<Vec<u8>, Memory>
    ensures { IfOk result (λ text. text.items ≡ changes_text changes.now) }
{
    let mut text = Vec::with_capacity(alloc, changes.len().saturating_mul(LINE))?;
    text.extend_from_slice(HEADING)?;
    for change in changes {
        put_change(&mut text, change)?;
    }
    Ok(text)
}

// Puts the line of a member; where a growth is refused the text stays as it was.
#[tactic(auto, using(std::proofs::Common::append_assoc))]
fn put_change(text: &mut Vec<u8>, change: &MemberChange) -> Result<(), Memory>
    ensures { PutsOrLeaves result text.old.items text.new.items (change_line change.now) }
{
    text.reserve(LINE)?;
    put_key(text, &change.member.key);
    put_day(text, change.member.coverage.first());
    put_day(text, change.member.coverage.last());
    put(text, word_of(change.change));
    put(text, b"\n");
    Ok(())
}

// The family and the person, each with a tab.
#[tactic(auto, using(std::proofs::Common::append_assoc))]
fn put_key(text: &mut Vec<u8>, key: &MemberKey)
    requires { vec_len text.old + 25 ≤ vec_capacity text.old }
    ensures items { text.new.items ≡ text.old.items ++ key.now.family ++ 9 ∷ key.now.person ++ 9 ∷ [] }
    ensures len { vec_len text.new ≤ vec_len text.old + 25 }
    ensures capacity { vec_capacity text.old ≤ vec_capacity text.new }
{
    put(text, key.family.bytes());
    put(text, b"\t");
    put(text, key.person.bytes());
    put(text, b"\t");
}

// A day, and a tab.
#[tactic(auto, using(std::proofs::Common::append_assoc))]
fn put_day(text: &mut Vec<u8>, day: Day)
    requires { vec_len text.old + 9 ≤ vec_capacity text.old }
    ensures items { text.new.items ≡ text.old.items ++ date_text day ++ 9 ∷ [] }
    ensures len { vec_len text.new ≤ vec_len text.old + 9 }
    ensures capacity { vec_capacity text.old ≤ vec_capacity text.new }
{
    put(text, &date_write(day));
    put(text, b"\t");
}

// What the table did, in words.
fn word_of(change: Change) -> &'static [u8]
    ensures value { result.now ≡ change_text change }
    ensures short { length result.now ≤ 7 }
{
    match change {
        Change::CameIn => b"came in",
        Change::Changed => b"changed",
        Change::Stayed => b"stayed",
    }
}
