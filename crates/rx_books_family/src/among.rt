ghost use Rattle.std.specs.Prelude.{◌≡◌};
ghost use Rattle.rx_sorted.specs.Ascending.{IsAscending};
ghost use Rattle.rx_ledger.specs.Members.{member_cmp, member_key};
ghost use Rattle.rx_books_family.specs.Amended.{is_among};

use rx_ledger::Member;
use rx_sorted::place_of;

/// Whether the member is one of these, which ascend.
pub fn is_among(members: &[Member], member: &Member) -> bool
    requires { IsAscending member_cmp member_key members.now }
    ensures { result ≡ is_among members.now member.now }
{
    match place_of(members, &member.key) {
        Ok(at) => members[at] == *member,
        Err(_) => false,
    }
}
