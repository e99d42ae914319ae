ghost use Rattle.std.specs.Prelude.{◌≡◌, ◌<◌, ◌≤◌, ◌^◌, [], IfOk, IsTrue, OnErr, OnOk, length, true};
ghost use Rattle.rx_fields.specs.declared.limits.TheConstants.{MOST_CENTS};
ghost use Rattle.rx_fields.specs.Order.{key_cmp};
ghost use Rattle.rx_sorted.specs.Ascending.{is_past, put};
ghost use Rattle.rx_ledger.specs.Ledger.{is_listed};
ghost use Rattle.rx_ledger.specs.Members.{member_cmp, member_key};
ghost use Rattle.rx_ledger.specs.Rows.{member_of_row, row_key};
ghost use Rattle.rx_ledger.specs.Sums.{paid_by_patient};
ghost use Rattle.rx_books_family.specs.FamilyBook.{AreTotals, IsOwn, book_with_member, book_with_row, empty_book, own_ledger};

use rx_books_family::{Family, FamilyTotals};
use rx_fields::{Id, Memory, Period};
use rx_ledger::{Member, Row};
use rx_sorted::{Ascending, Keyed};
use std::alloc::Global;
use std::marker::Model;

/// The book of a family while its members and rows are gathered, before its totals are there.
#[derive(Drop)]
pub(crate) struct Unsummed {
    family: Id,
    period: Period,
    members: Ascending<Member>,
    rows: Ascending<Row>,
}

impl Model for Unsummed {
    ghost use Rattle.rx_books_family.specs.FamilyBook.{FamilyBook, IsOwn};

    ghost Value = { FamilyBook };

    ghost view = { λ u. record { family = u.family; period = u.period; members = u.members; rows = u.rows } };

    ghost invariant = { λ u. IsOwn (record { family = u.family; period = u.period; members = u.members; rows = u.rows }) };
}

impl Keyed for Unsummed {
    type Key = Id;

    ghost key_of = { λ book. book.family };

    fn key(&self) -> Id {
        self.family
    }
}

/// How many members and rows a book will have.
#[derive(Clone, Copy)]
pub(crate) struct Room {
    pub(crate) members: usize,
    pub(crate) rows: usize,
}

impl Room {
    /// Room for nothing.
    pub(crate) const NONE: Room = Room {
        members: 0,
        rows: 0,
    };
}

impl Unsummed {
    /// The book of a family, without members and rows, and with room for some.
    pub(crate) fn new(
        alloc: Global,
        family: Id,
        period: Period,
        room: Room,
    ) -> Result<Unsummed, Memory>
        ensures { IfOk result (λ book. book ≡ empty_book period family) }
    {
        let members = with_room(alloc, room.members)?;
        let rows = with_room(alloc, room.rows)?;
        Ok(Unsummed {
            family,
            period,
            members,
            rows,
        })
    }

    /// Adds a member of the family, who comes after those that are there. On a refusal the book is unchanged.
    pub(crate) fn add_member(&mut self, member: Member) -> Result<(), Memory>
        requires own { member.key.family ≡ self.old.family }
        requires past { IsTrue (is_past member_cmp member_key self.old.members member.key) }
        ensures ok { OnOk result (self.new ≡ book_with_member self.old member) }
        ensures err { OnErr result (self.new ≡ self.old) }
    {
        self.members.push(member)?;
        Ok(())
    }

    /// Adds a standing claim of a member, whose fill key comes after those that are there. On a refusal the book is
    /// unchanged.
    pub(crate) fn add(&mut self, row: Row) -> Result<(), Memory>
        requires past { IsTrue (is_past key_cmp row_key self.old.rows row.key) }
        requires listed { is_listed (own_ledger self.old) (member_of_row row) ≡ true }
        requires small { paid_by_patient row ≤ MOST_CENTS }
        ensures ok { OnOk result (self.new ≡ book_with_row self.old row) }
        ensures err { OnErr result (self.new ≡ self.old) }
    {
        put_behind(&mut self.rows, row)?;
        Ok(())
    }

    /// The family.
    pub(crate) fn family(&self) -> Id
        ensures { result ≡ self.now.family }
    {
        self.family
    }

    /// The members, in order.
    pub(crate) fn members(&self) -> &[Member]
        ensures value { result.now ≡ self.now.members }
        ensures within { IsOwn self.now }
    {
        self.members.as_slice()
    }

    /// The book, with the totals that are the sums over its rows. It takes no memory.
    pub(crate) fn with_totals(self, totals: FamilyTotals) -> Family
        requires { AreTotals self totals.deductibles.items totals.out_of_pocket totals.deductible }
        ensures { result ≡ self }
    {
        let Unsummed {
            family,
            period,
            members,
            rows,
        } = self;
        Family::of_lists(family, period, members, rows, totals)
    }
}

// The list without items, with room for this many.
fn with_room<T: Keyed>(alloc: Global, count: usize) -> Result<Ascending<T>, Memory>
    ensures { IfOk result (λ list. list ≡ []) }
{
    match Ascending::from_vec(Vec::with_capacity(alloc, count)?) {
        Ok(list) => Ok(list),
        Err(_) => unreachable!(),
    }
}

// Puts a row after the others.
fn put_behind(rows: &mut Ascending<Row>, row: Row) -> Result<(), Memory>
    requires { IsTrue (is_past key_cmp row_key rows.old row.key) }
    ensures ok { OnOk result (rows.new ≡ put key_cmp row_key rows.old row) }
    ensures err { OnErr result (rows.new ≡ rows.old) }
    ensures small { OnOk result (length rows.new < 2 ^ 63) }
{
    rows.push(row)?;
    Ok(())
}
