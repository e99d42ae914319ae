//! A line of a members table, read.
ghost use Rattle.std.specs.Prelude.{◌≡◌, ◌≤◌, option_map};
ghost use Rattle.rx_books_upkeep.specs.TableField.{cut, day_in, id_in, is_bare};
ghost use Rattle.rx_books_upkeep.specs.TableLine.{fields_in, member_in};

use crate::table_fault::Wrong;
use memchr::memchr;
use rx_fields::{Day, ShortId, date_read};
use rx_ledger::Member;

/// The member of a line without its line feed, or why it is none's.
#[tactic(auto, unfolding(crate::specs::TableLine::member_in))]
pub(crate) fn member_in(line: &[u8]) -> Result<Member, Wrong>
    ensures { result ≡ member_in line.now }
{
    let Some((family, rest)) = cut(line) else {
        return Err(Wrong::Fields);
    };
    let Some((person, rest)) = cut(rest) else {
        return Err(Wrong::Fields);
    };
    let Some((first, last)) = cut(rest) else {
        return Err(Wrong::Fields);
    };
    fields_in(family, person, first, last)
}

// The member of four fields.
#[tactic(auto, unfolding(crate::specs::TableLine::fields_in))]
fn fields_in(family: &[u8], person: &[u8], first: &[u8], last: &[u8]) -> Result<Member, Wrong>
    ensures { result ≡ fields_in family.now person.now first.now last.now }
{
    let Some(family) = id_in::<20>(family) else {
        return Err(Wrong::Family);
    };
    let Some(person) = id_in::<3>(person) else {
        return Err(Wrong::Person);
    };
    let Some(first) = day_in(first) else {
        return Err(Wrong::First);
    };
    let Some(last) = day_in(last) else {
        return Err(Wrong::Last);
    };
    match Member::new(family.id(), person, first, last) {
        Some(member) => Ok(member),
        None => Err(Wrong::Order),
    }
}

// The field before the first tab, and what follows the tab.
fn cut(bytes: &[u8]) -> Option<(&[u8], &[u8])>
    ensures { option_map (λ x. (x.0.now, x.1.now)) result ≡ cut bytes.now }
{
    let at = memchr(b'\t', bytes)?;
    Some((&bytes[..at], &bytes[at + 1..]))
}

// The id of at most `MAX` bytes that a field is.
#[tactic(auto, unfolding(crate::specs::TableField::id_in))]
fn id_in<const MAX: usize>(field: &[u8]) -> Option<ShortId<MAX>>
    requires { MAX ≤ 20 }
    ensures { result ≡ id_in MAX field.now }
{
    if !is_bare(field) {
        return None;
    }
    let id = ShortId::<MAX>::new(field).ok()?;
    if id.bytes() == field { Some(id) } else { None }
}

// Whether neither a blank nor a quotation mark begins the field, and no quotation mark ends it.
fn is_bare(field: &[u8]) -> bool
    ensures { result ≡ is_bare field.now }
{
    !field.starts_with(b" ") && !field.starts_with(b"\"") && !field.ends_with(b"\"")
}

// The date that a field is.
#[tactic(auto, unfolding(crate::specs::TableField::day_in))]
fn day_in(field: &[u8]) -> Option<Day>
    ensures { result ≡ day_in field.now }
{
    date_read(field).ok()
}
