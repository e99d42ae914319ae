ghost use Rattle.std.specs.Prelude.{◌≡◌};
ghost use Rattle.rx_ledger.specs.Basis.{billed_member};
ghost use Rattle.rx_ledger.specs.Members.{member_of};

use rx_d0_values::Bill;
use rx_fields::{Day, Id, Period, Person};
use rx_sorted::Keyed;

/// What a member is known by: the family, and the person within it.
#[derive(Clone, Copy, PartialEq, Eq, PartialOrd, Ord)]
pub struct MemberKey {
    /// The cardholder id.
    pub family: Id,
    /// The person code.
    pub person: Person,
}

impl MemberKey {
    /// The member that a billing names.
    pub fn of(bill: &Bill) -> MemberKey
        ensures { result ≡ billed_member bill.now }
    {
        let parts = bill.parts();
        MemberKey {
            family: parts.family,
            person: parts.person,
        }
    }
}

/// A person that the plan covers.
#[derive(Clone, Copy, PartialEq, Eq)]
pub struct Member {
    /// The family and the person.
    pub key: MemberKey,
    /// The days on which the member is covered.
    pub coverage: Period,
}

impl Member {
    /// The member; None where the coverage ends before it begins.
    pub fn new(family: Id, person: Person, first: Day, last: Day) -> Option<Member>
        ensures { result ≡ member_of family person first last }
    {
        let coverage = Period::new(first, last)?;
        Some(Member {
            key: MemberKey { family, person },
            coverage,
        })
    }
}

impl Keyed for Member {
    type Key = MemberKey;

    ghost key_of = { λ member. member.key };

    fn key(&self) -> MemberKey {
        self.key
    }
}
