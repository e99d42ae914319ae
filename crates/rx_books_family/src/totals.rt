ghost use Rattle.std.specs.Prelude.{◌≡◌, true};
ghost use Rattle.rx_ledger.specs.Members.{member_cmp, member_key};
ghost use Rattle.rx_sorted.specs.Ascending.{IsAt, contains_key};

use rx_ledger::{Member, MemberKey};
use rx_sorted::Ascending;

/// The totals of a family's book, in cents.
#[derive(Drop)]
pub struct FamilyTotals {
    /// The members' deductibles, in their order.
    pub deductibles: Vec<u128>,
    /// The family's out of pocket.
    pub out_of_pocket: u128,
    /// The family's deductible.
    pub deductible: u128,
}

// The place of a listed member.
pub(crate) fn place_of_member(members: &Ascending<Member>, key: &MemberKey) -> usize
    requires { contains_key member_cmp member_key members.now key.now ≡ true }
    ensures { IsAt member_cmp member_key members.now key.now result }
{
    match members.place(key) {
        Ok(at) => at,
        Err(_) => unreachable!(),
    }
}
