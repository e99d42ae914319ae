ghost use Rattle.std.specs.Prelude.{◌<◌, IsTrue, length};

use crate::open_books::OpenBooks;
use rx_fields::{Id, Person};
use rx_ledger::MemberKey;

// Looks at what is asked for soon, by which the processor has it near then. No look hangs on another, so the processor waits for
// many of them at once. What a look answers is no more than that something is there to be looked at: no answer of the books rests
// on it.
impl OpenBooks {
    /// Looks where a member is probably listed; true only where there are members.
    pub fn is_member_seen(&self, family: &Id, person: &Person) -> bool
        ensures { IsTrue result → 0 < length self.now.books.ledger.members }
    {
        self.opening.is_member_seen(&MemberKey {
            family: *family,
            person: *person,
        })
    }

    /// Looks at the slot at a place; true only if there is one.
    pub fn is_slot_seen(&self, slot: usize) -> bool
        ensures { IsTrue result → slot < length self.now.slots }
    {
        let Some(slot) = self.changed.as_slice().get(slot) else {
            return false;
        };
        !slot.key.provider.bytes().is_empty() && slot.holder < u32::MAX
    }

    /// Looks at the member at a place, and at the totals of the member and the family; true only if there is one.
    pub fn are_totals_seen(&self, member: usize) -> bool
        ensures { IsTrue result → member < length self.now.books.ledger.members }
    {
        match self.members().get(member) {
            Some(found) => !found.key.family.bytes().is_empty() && self.are_sums_seen(member),
            None => false,
        }
    }

    // Looks at the totals of the member at a place, if there is one, and of the family.
    pub(crate) fn are_sums_seen(&self, member: usize) -> bool {
        let is_listed = member < self.opening.members().len();
        is_listed && self.are_sums_below(member, self.opening.home(member))
    }

    // Looks at the totals of a member and a family.
    fn are_sums_below(&self, member: usize, family: usize) -> bool {
        is_below(&self.deductibles, member)
            && is_below(&self.out_of_pockets, family)
            && is_below(&self.family_deductibles, family)
    }
}

// Looks at the total at a place.
fn is_below(totals: &[u128], place: usize) -> bool {
    totals.get(place).copied() != Some(u128::MAX)
}
