ghost use Rattle.std.specs.Prelude.{◌≡◌, ◌++◌, ◌∷◌, IfOk};
ghost use Rattle.rx_sorted.specs.Ascending.{IsAscending, put, put_all};
ghost use Rattle.rx_ledger.specs.declared.member.Member.{Member};
ghost use Rattle.rx_ledger.specs.Members.{member_cmp, member_key};

use rx_fields::Memory;
use rx_ledger::{Member, MemberKey};
use rx_sorted::place_near;
use std::alloc::Global;

/// The members with those of the table, each in its place; where both lists have one, the table's.
pub(crate) fn merged_list(
    alloc: Global,
    members: &[Member],
    table: &[Member],
) -> Result<Vec<Member>, Memory>
    requires members { IsAscending member_cmp member_key members.now }
    requires table { IsAscending member_cmp member_key table.now }
    ensures value { IfOk result (λ list. list.items ≡ put_all member_cmp member_key members.now table.now) }
    ensures rise { IfOk result (λ list. IsAscending member_cmp member_key list.items) }
{
    let mut rest = members;
    let mut list = Vec::with_capacity(alloc, members.len().saturating_add(table.len()))?;
    'table: for member in table {
        let (before, after) = sides_of(rest, &member.key);
        list.extend_from_slice(before)?;
        list.push(*member)?;
        rest = after;
    }
    list.extend_from_slice(rest)?;
    Ok(list)
}

// The members before a key and those after it, between which a member of this key goes. It is looked for at the first of them
// before the others.
fn sides_of<'a>(members: &'a [Member], key: &MemberKey) -> (&'a [Member], &'a [Member])
    requires { IsAscending member_cmp member_key members.now }
    ensures { (m : Member) → m.key ≡ key.now
        → put member_cmp member_key members.now m ≡ result.0.now ++ m ∷ result.1.now }
{
    match place_near(members, 0, key) {
        Ok(at) => (&members[..at], &members[at + 1..]),
        Err(at) => (&members[..at], &members[at..]),
    }
}
