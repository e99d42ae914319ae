ghost use Rattle.std.specs.Prelude.{◌≡◌, ◌↔◌, ◌&&◌, IfOk, IsTrue, OnErr, OnOk, true, false, not};
ghost use Rattle.rx_sorted.specs.Ascending.{is_past};
ghost use Rattle.rx_ledger.specs.Ledger.{is_listed, is_taken, row_under};
ghost use Rattle.rx_ledger.specs.Members.{member_cmp, member_key, person_in};
ghost use Rattle.rx_ledger.specs.Rows.{member_of_row};
ghost use Rattle.rx_ledger.specs.Sums.{family_deductible_in, out_of_pocket_in};
ghost use Rattle.rx_books_family.specs.FamilyBook.{AreTotals, IsOwn, book_with_member, book_with_row, book_without_row};
ghost use Rattle.rx_books_family.specs.FamilyBook.{deductible_at, empty_book, own_ledger};

use crate::totals::{FamilyTotals, place_of_member};
use rx_d0_values::TryCopy;
use rx_fields::{Id, Key, Memory, Period, Person};
use rx_ledger::{Member, MemberKey, Row, counted_in};
use rx_sorted::{Ascending, InsertError, Keyed};
use smallvec::SmallVec;
use std::alloc::Global;
use std::marker::Model;

// For how many members their deductibles stand in the book itself, which is then copied without a list of its own for them.
const FEW_MEMBERS: usize = 4;

/// The book of a family: its members and its standing claims, with each member's deductible and the family's out of
/// pocket and deductible stored next to them. Each total is the sum over the book's rows that are dated within its
/// period (docs/RULES.md, "Accumulators").
#[derive(Drop)]
pub struct Family {
    family: Id,
    period: Period,
    members: Ascending<Member>,
    rows: Ascending<Row>,
    // The members' deductibles, in their order.
    deductibles: SmallVec<u128, FEW_MEMBERS>,
    out_of_pocket: u128,
    deductible: u128,
}

impl Model for Family {
    ghost use Rattle.rx_books_family.specs.FamilyBook.{FamilyBook, IsFamilyBook};

    ghost Value = { FamilyBook };

    ghost view = { λ f. record { family = f.family; period = f.period; members = f.members; rows = f.rows } };

    ghost invariant = { λ f. IsFamilyBook (record { family = f.family; period = f.period; members = f.members; rows = f.rows })
        f.deductibles.items f.out_of_pocket f.deductible };
}

impl Keyed for Family {
    type Key = Id;

    ghost key_of = { λ book. book.family };

    fn key(&self) -> Id {
        self.family
    }
}

impl Family {
    /// The book of a family, without members and rows. It takes no memory.
    pub fn new(alloc: Global, family: Id, period: Period) -> Family
        ensures { result ≡ empty_book period family }
    {
        Family {
            family,
            period,
            members: Ascending::new(alloc),
            rows: Ascending::new(alloc),
            deductibles: SmallVec::new(alloc),
            out_of_pocket: 0,
            deductible: 0,
        }
    }

    /// The book of these members and rows, with totals that are the sums over the rows. It takes no memory.
    pub fn of_lists(
        family: Id,
        period: Period,
        members: Ascending<Member>,
        rows: Ascending<Row>,
        totals: FamilyTotals,
    ) -> Family
        requires own { IsOwn (record { family = family; period = period; members = members; rows = rows }) }
        requires totals { AreTotals (record { family = family; period = period; members = members; rows = rows }) totals.deductibles.items
            totals.out_of_pocket totals.deductible }
        ensures { result ≡ record { family = family; period = period; members = members; rows = rows } }
    {
        let FamilyTotals {
            deductibles,
            out_of_pocket,
            deductible,
        } = totals;
        Family {
            family,
            period,
            members,
            rows,
            deductibles: SmallVec::from_vec(deductibles),
            out_of_pocket,
            deductible,
        }
    }

    /// The family.
    pub fn family(&self) -> Id
        ensures { result ≡ self.now.family }
    {
        self.family
    }

    /// The period that the totals are of.
    pub fn period(&self) -> Period
        ensures value { result ≡ self.now.period }
        ensures within { IsOwn self.now }
    {
        self.period
    }

    /// The members, ascending by person.
    pub fn members(&self) -> &[Member]
        ensures value { result.now ≡ self.now.members }
        ensures within { IsOwn self.now }
    {
        self.members.as_slice()
    }

    /// The standing claims, ascending by fill key.
    pub fn rows(&self) -> &[Row]
        ensures value { result.now ≡ self.now.rows }
        ensures within { IsOwn self.now }
    {
        self.rows.as_slice()
    }

    /// The member with the person code.
    pub fn member(&self, person: &Person) -> Option<Member>
        ensures { result ≡ person_in self.now.members person.now }
    {
        let key = MemberKey {
            family: self.family,
            person: *person,
        };
        self.members.get(&key).copied()
    }

    /// The row under a fill key.
    pub fn row(&self, key: &Key) -> Option<Row>
        ensures { result ≡ row_under (own_ledger self.now) key.now }
    {
        self.rows.get(key).copied()
    }

    /// The deductible of a person so far, in cents; None where the person isn't a member.
    pub fn deductible(&self, person: &Person) -> Option<u128>
        ensures { result ≡ deductible_at self.now person.now }
    {
        let key = MemberKey {
            family: self.family,
            person: *person,
        };
        match self.members.place(&key) {
            Ok(at) => Some(self.deductibles[at]),
            Err(_) => None,
        }
    }

    /// The family's out of pocket so far, in cents.
    pub fn out_of_pocket(&self) -> u128
        ensures { result ≡ out_of_pocket_in self.now.period self.now.rows }
    {
        self.out_of_pocket
    }

    /// The family's deductible so far, in cents.
    pub fn family_deductible(&self) -> u128
        ensures { result ≡ family_deductible_in self.now.period self.now.rows }
    {
        self.deductible
    }

    /// Whether a person comes after the members that are there, so that the person may be added.
    pub fn is_past(&self, person: &Person) -> bool
        ensures { result ≡ is_past member_cmp member_key self.now.members (record { family = self.now.family; person = person.now }) }
    {
        self.members.is_past(&MemberKey {
            family: self.family,
            person: *person,
        })
    }

    /// Adds a member of the family, who comes after those that are there. On a refusal the book is unchanged.
    pub fn add_member(&mut self, member: Member) -> Result<(), Memory>
        requires own { member.key.family ≡ self.old.family }
        requires past { IsTrue (is_past member_cmp member_key self.old.members member.key) }
        ensures ok { OnOk result (self.new ≡ book_with_member self.old member) }
        ensures err { OnErr result (self.new ≡ self.old) }
        ensures within { IsOwn self.new }
    {
        self.deductibles.reserve(1)?;
        self.members.push(member)?;
        self.deductibles.push_reserved(0);
        Ok(())
    }

    /// Whether a row may be added: its fill key is free, and its member listed.
    pub fn can_add(&self, row: &Row) -> bool
        ensures { result ≡ (not (is_taken (own_ledger self.now) row.now.key)
            && is_listed (own_ledger self.now) (member_of_row row.now)) }
    {
        !self.rows.contains_key(&row.key) && self.members.contains_key(&row.member())
    }

    /// Adds a standing claim of a member under a free fill key: it counts from now on. On a refusal the book is
    /// unchanged.
    pub fn add(&mut self, row: Row) -> Result<(), Memory>
        requires free { is_taken (own_ledger self.old) row.key ≡ false }
        requires listed { is_listed (own_ledger self.old) (member_of_row row) ≡ true }
        ensures ok { OnOk result (self.new ≡ book_with_row self.old row) }
        ensures err { OnErr result (self.new ≡ self.old) }
        ensures within { IsOwn self.new }
    {
        let at = place_of_member(&self.members, &row.member());
        let counted = counted_in(self.period, &row);
        match self.rows.insert(row) {
            Ok(()) => {}
            Err(InsertError::There(_)) => unreachable!(),
            Err(InsertError::Memory(_)) => return Err(Memory),
        }
        self.deductibles[at] += counted.deductible;
        self.out_of_pocket += counted.out_of_pocket;
        self.deductible += counted.deductible;
        Ok(())
    }

    /// Takes out the row under a fill key: it counts no more. It takes no memory.
    pub fn remove(&mut self, key: &Key) -> Option<Row>
        ensures value { result ≡ row_under (own_ledger self.old) key.now }
        ensures rows { self.new ≡ book_without_row self.old key.now }
        ensures within { IsOwn self.new }
    {
        let row = self.rows.remove(key)?;
        let at = place_of_member(&self.members, &row.member());
        let counted = counted_in(self.period, &row);
        self.deductibles[at] -= counted.deductible;
        self.out_of_pocket -= counted.out_of_pocket;
        self.deductible -= counted.deductible;
        Some(row)
    }

    /// An equal book.
    #[inline(always)]
    pub fn copy(&self, alloc: Global) -> Result<Family, Memory>
        ensures { IfOk result (λ family. family ≡ self.now) }
    {
        let members = self.members.to_copy(alloc)?;
        let rows = self.rows.to_copy(alloc)?;
        let deductibles = SmallVec::from_slice(alloc, &self.deductibles)?;
        Ok(Family {
            family: self.family,
            period: self.period,
            members,
            rows,
            deductibles,
            out_of_pocket: self.out_of_pocket,
            deductible: self.deductible,
        })
    }
}

impl TryCopy for Family {
    fn try_copy(&self, alloc: Global) -> Result<Family, Memory> {
        self.copy(alloc)
    }
}

ghost use Rattle.rx_d0_values.specs.Same.{same, same_laws, same_equivalence};
ghost use Rattle.rx_books_family.specs.contracts.family.Family.{the_row as family_row};

impl PartialEq for Family {
    ghost eq = { same family_row.coded };

    ghost laws = { same_laws family_row.coded };

    fn eq(&self, other: &Family) -> bool
        ensures { IsTrue result ↔ (self.now ≡ other.now) }
    {
        self.family == other.family
            && self.period == other.period
            && self.members == other.members
            && self.rows == other.rows
    }
}

impl Eq for Family {
    ghost laws = { same_equivalence family_row.coded };
}
