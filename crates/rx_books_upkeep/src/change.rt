ghost use Rattle.std.specs.Prelude.{◌≡◌, IfOk, Some, count_by};
ghost use Rattle.rx_sorted.specs.Ascending.{IsAscending};
ghost use Rattle.rx_ledger.specs.Ledger.{Ledger};
ghost use Rattle.rx_ledger.specs.Members.{member_cmp, member_key};
ghost use Rattle.rx_books_upkeep.specs.ChangeKinds.{came_in, changed, stayed};
ghost use Rattle.rx_books_upkeep.specs.Loading.{change_from, changes_of, member_in};

use rx_fields::Memory;
use rx_ledger::Member;
use rx_sorted::place_near;
use std::alloc::Global;

/// What a table does to a member.
#[derive(Clone, Copy, PartialEq, Eq)]
pub enum Change {
    /// The member wasn't listed before.
    CameIn,
    /// The member was listed with another coverage.
    Changed,
    /// The member was listed with this coverage.
    Stayed,
}

/// A member of a table, with the table's coverage, and what the table does to it.
#[derive(Clone, Copy)]
pub struct MemberChange {
    pub member: Member,
    pub change: Change,
}

/// What a table did to the members of books: how many of its members there are of each kind.
#[derive(Clone, Copy)]
pub struct Loaded {
    /// Members who weren't listed before.
    pub came_in: usize,
    /// Members who were listed with another coverage.
    pub changed: usize,
    /// Members who were listed with this coverage.
    pub stayed: usize,
}

/// What each member of a table comes to where these members are listed. One is looked for where the one before it is.
pub(crate) fn changes_of(
    alloc: Global,
    members: &[Member],
    table: &[Member],
) -> Result<Vec<MemberChange>, Memory>
    requires { IsAscending member_cmp member_key members.now }
    ensures { IfOk result (λ list. (L : Ledger) → L.members ≡ members.now → list.items ≡ changes_of L table.now) }
{
    let mut list = Vec::with_capacity(alloc, table.len())?;
    let mut near = 0;
    for member in table {
        let (change, next) = change_near(members, near, member);
        list.push(MemberChange {
            member: *member,
            change,
        })?;
        near = next;
    }
    Ok(list)
}

// What a member comes to, and the place after the one where it is listed or would be. It is looked for at a place first.
fn change_near(members: &[Member], near: usize, member: &Member) -> (Change, usize)
    requires { IsAscending member_cmp member_key members.now }
    ensures { result.0 ≡ change_from (member_in members.now member.now.key) member.now }
{
    match place_near(members, near, &member.key) {
        Ok(at) => (change_from(&members[at], member), at.saturating_add(1)),
        Err(at) => (Change::CameIn, at),
    }
}

// What a member comes to who is listed.
fn change_from(own: &Member, member: &Member) -> Change
    ensures { result ≡ change_from (Some own.now) member.now }
{
    if *own == *member {
        Change::Stayed
    } else {
        Change::Changed
    }
}

/// How many of these members there are of each kind.
pub(crate) fn counted(changes: &[MemberChange]) -> Loaded
    ensures came_in { result.came_in ≡ count_by came_in changes.now }
    ensures changed { result.changed ≡ count_by changed changes.now }
    ensures stayed { result.stayed ≡ count_by stayed changes.now }
{
    Loaded {
        came_in: changes.iter().filter(|c| came_in(c)).count(),
        changed: changes.iter().filter(|c| changed(c)).count(),
        stayed: changes.iter().filter(|c| stayed(c)).count(),
    }
}

fn came_in(change: &MemberChange) -> bool
    ensures { result ≡ came_in change.now }
{
    matches!(change.change, Change::CameIn)
}

fn changed(change: &MemberChange) -> bool
    ensures { result ≡ changed change.now }
{
    matches!(change.change, Change::Changed)
}

fn stayed(change: &MemberChange) -> bool
    ensures { result ≡ stayed change.now }
{
    matches!(change.change, Change::Stayed)
}
