ghost use Rattle.std.specs.Prelude.{◌≡◌, ◌<◌, IfNone, IfSome, Some, is_some, length, slice_get, true};
ghost use Rattle.std.specs.List.{Contains};
ghost use Rattle.rx_sorted.specs.Ascending.{IsAt};
ghost use Rattle.rx_ledger.specs.Ledger.{is_listed};
ghost use Rattle.rx_ledger.specs.Members.{member_cmp, member_key};
ghost use Rattle.rx_books_store.specs.LedgerBooks.{has_members};

use crate::in_order::InOrder;
use rx_fields::{Id, Key};
use rx_ledger::MemberKey;

// How many transactions a record has at most.
const MOST: usize = 4;

// What a record asks for is mostly near: it was found for the record's own transactions.
impl InOrder {
    /// The place of a fill key's slot: near, or else it is looked up. Each key that the records name has one.
    pub(crate) fn slot_of(&self, key: &Key) -> Option<usize>
        ensures found { IfSome result (λ at. slice_get self.now.slots at ≡ Some key.now) }
        ensures absent { IfNone result (¬ Contains self.now.keys key.now) }
    {
        for slot in near_of(&self.slots, self.at) {
            if self.books.is_slot(*slot, key) {
                return Some(*slot);
            }
        }
        self.books.slot_of(key)
    }

    /// The place of a listed member: near, or else it is looked up.
    pub(crate) fn holder_of(&self, key: &MemberKey) -> Option<usize>
        ensures found { IfSome result (IsAt member_cmp member_key self.now.books.ledger.members key.now) }
        ensures listed { is_some result ≡ is_listed self.now.books.ledger key.now }
    {
        for offset in 0..MOST {
            if let Some(holder) = self.near_holder(offset) {
                if self.books.member_at(holder).key == *key {
                    return Some(holder);
                }
            }
        }
        self.books.member_of(&key.family, &key.person)
    }

    /// Whether a member who is near is of the family.
    pub(crate) fn is_near(&self, family: &Id) -> bool
        ensures { result ≡ true → has_members self.now.books.ledger family.now ≡ true }
    {
        for offset in 0..MOST {
            if let Some(holder) = self.near_holder(offset) {
                if self.books.member_at(holder).key.family == *family {
                    return true;
                }
            }
        }
        false
    }

    // The member of the record's transaction at an offset.
    fn near_holder(&self, offset: usize) -> Option<usize>
        ensures { IfSome result (λ i. i < length self.now.books.ledger.members) }
    {
        match self.holders.get(self.at.saturating_add(offset)) {
            Some(holder) => *holder,
            None => None,
        }
    }
}

/// What is kept for as many transactions as a record has at most, from a place on.
pub(crate) fn near_of(kept: &[usize], at: usize) -> &[usize] {
    let from = at.min(kept.len());
    let to = from.saturating_add(MOST).min(kept.len());
    &kept[from..to]
}
