//! The families of members.
ghost use Rattle.std.specs.Prelude.{◌≡◌, IfOk};
ghost use Rattle.rx_sorted.specs.Ascending.{IsAscending};
ghost use Rattle.rx_ledger.specs.Members.{member_cmp, member_key};
ghost use Rattle.rx_books_store.specs.BooksText.{families_of};
ghost use Rattle.rx_books_upkeep.specs.Figured.{ids_of};

use rx_fields::{Id, Memory};
use rx_ledger::Member;
use rx_sorted::{Ascending, Keyed};
use std::alloc::Global;

/// A family that has a member.
#[derive(Clone, Copy)]
pub(crate) struct Family {
    pub(crate) id: Id,
}

impl Keyed for Family {
    type Key = Id;

    ghost key_of = { λ family. family.id };

    fn key(&self) -> Id {
        self.id
    }
}

/// The families of these members, in order.
pub(crate) fn families_of(alloc: Global, members: &[Member]) -> Result<Ascending<Family>, Memory>
    requires { IsAscending member_cmp member_key members.now }
    ensures { IfOk result (λ families. ids_of families ≡ families_of members.now) }
{
    let mut families = Ascending::new(alloc);
    for member in members {
        let id = member.key.family;
        if families.is_past(&id) {
            families.push(Family { id })?;
        }
    }
    Ok(families)
}
