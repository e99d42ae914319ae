ghost use Rattle.std.specs.Prelude.{◌≡◌, ◌↔◌, IfOk, OnErr, OnOk, IsErrOf, true, false};
ghost use Rattle.rx_ledger.specs.Members.{person_in};
ghost use Rattle.rx_ledger.specs.Rows.{member_of_row};

use crate::member::{Member, MemberKey};
use crate::row::Row;
use rx_fields::{Key, Memory};
use rx_sorted::{Ascending, InsertError};
use std::alloc::Global;
use std::marker::Model;

/// Why a member or a row was not added to a ledger.
#[derive(Clone, Copy, Debug, PartialEq, Eq)]
pub enum AddError {
    /// The member, or a row under the fill key, is there.
    There,
    /// The row's member isn't listed.
    Unknown,
    /// There is no memory for one more.
    Memory,
}

ghost use Rattle.rx_ledger.specs.Keys.{add_error_number};

impl AddError {
    /// The error's number, from 1, in the order in which they are looked for.
    pub fn code(self) -> u32
        ensures { result ≡ add_error_number self }
    {
        match self {
            AddError::There => 1,
            AddError::Unknown => 2,
            AddError::Memory => 3,
        }
    }
}

impl From<Memory> for AddError {
    ghost use Rattle.std.specs.Prelude.{◌≡◌};
    ghost use Rattle.rx_ledger.specs.declared.ledger.AddError.{AddError};
    ghost use Rattle.rx_ledger.specs.declared.ledger.AddError.TheVariants as errors;

    ghost from_gives = { λ refused error. error ≡ errors.Memory };

    fn from(_refused: Memory) -> AddError {
        AddError::Memory
    }
}

/// The members and the standing claims, in plain lists: members ascending by family and person, rows ascending by
/// fill key, and the member of each row is listed (docs/RULES.md, "Words").
#[derive(Drop)]
pub struct Ledger {
    members: Ascending<Member>,
    rows: Ascending<Row>,
}

impl Model for Ledger {
    ghost use Rattle.rx_ledger.specs.Ledger.{Ledger, IsLedger};

    ghost Value = { Ledger };

    ghost view = { λ l. record { members = l.members; rows = l.rows } };

    ghost invariant = { λ l. IsLedger (record { members = l.members; rows = l.rows }) };
}

ghost use Rattle.rx_ledger.specs.Ledger.{IsLedger, empty, is_listed, is_taken, members_of, row_under, with_member, with_row, without_row};

impl Ledger {
    /// A ledger without members and rows.
    pub fn new(alloc: Global) -> Ledger
        ensures { result ≡ empty }
    {
        Ledger {
            members: Ascending::new(alloc),
            rows: Ascending::new(alloc),
        }
    }

    /// The ledger of these members and rows, where the member of each row is listed. It takes no memory.
    pub fn from_lists(members: Ascending<Member>, rows: Ascending<Row>) -> Ledger
        requires { IsLedger (record { members = members; rows = rows }) }
        ensures { result ≡ record { members = members; rows = rows } }
    {
        Ledger { members, rows }
    }

    /// The two lists. It takes no memory.
    pub fn into_lists(self) -> (Ascending<Member>, Ascending<Row>)
        ensures members { result.0 ≡ self.members }
        ensures rows { result.1 ≡ self.rows }
        ensures within { IsLedger self }
    {
        let Ledger { rows, members } = self;
        (members, rows)
    }

    /// The members, ascending by family and person.
    pub fn members(&self) -> &[Member]
        ensures value { result.now ≡ self.now.members }
        ensures within { IsLedger self.now }
    {
        self.members.as_slice()
    }

    /// The standing claims, ascending by fill key.
    pub fn rows(&self) -> &[Row]
        ensures value { result.now ≡ self.now.rows }
        ensures within { IsLedger self.now }
    {
        self.rows.as_slice()
    }

    /// Adds a member. On a refusal the ledger is unchanged.
    pub fn add_member(&mut self, member: Member) -> Result<(), AddError>
        ensures ok { OnOk result (self.new ≡ with_member self.old member) }
        ensures err { OnErr result (self.new ≡ self.old) }
        ensures there { IsErrOf result AddError.There ↔ (is_listed self.old member.key ≡ true) }
        ensures known { ¬ IsErrOf result AddError.Unknown }
    {
        match self.members.insert(member) {
            Ok(()) => Ok(()),
            Err(InsertError::There(_)) => Err(AddError::There),
            Err(InsertError::Memory(_)) => Err(AddError::Memory),
        }
    }

    /// Adds a standing claim. On a refusal the ledger is unchanged.
    pub fn add_row(&mut self, row: Row) -> Result<(), AddError>
        ensures ok { OnOk result (self.new ≡ with_row self.old row) }
        ensures err { OnErr result (self.new ≡ self.old) }
        ensures there { IsErrOf result AddError.There ↔ (is_taken self.old row.key ≡ true) }
        ensures unknown { IsErrOf result AddError.Unknown ↔ ((is_taken self.old row.key ≡ false)
            × (is_listed self.old (member_of_row row) ≡ false)) }
    {
        if self.rows.contains_key(&row.key) {
            return Err(AddError::There);
        }
        if !self.members.contains_key(&row.member()) {
            return Err(AddError::Unknown);
        }
        Ok(self.put_row(row)?)
    }

    /// An equal ledger.
    pub fn copy(&self, alloc: Global) -> Result<Ledger, Memory>
        ensures { IfOk result (λ ledger. ledger ≡ self.now) }
    {
        let members = self.members.to_copy(alloc)?;
        let rows = self.rows.to_copy(alloc)?;
        Ok(Ledger::from_lists(members, rows))
    }

    /// The row under a fill key.
    pub(crate) fn row(&self, key: &Key) -> Option<Row>
        ensures { result ≡ row_under self.now key.now }
    {
        self.rows.get(key).copied()
    }

    /// The member of a family who has the person code.
    pub(crate) fn listed(&self, key: &MemberKey) -> Option<Member>
        ensures { result ≡ person_in (members_of self.now key.now.family) key.now.person }
    {
        self.members.get(key).copied()
    }

    /// Puts a row under its fill key, which is free; its member is listed.
    pub(crate) fn put_row(&mut self, row: Row) -> Result<(), Memory>
        requires free { is_taken self.old row.key ≡ false }
        requires listed { is_listed self.old (member_of_row row) ≡ true }
        ensures ok { OnOk result (self.new ≡ with_row self.old row) }
        ensures err { OnErr result (self.new ≡ self.old) }
    {
        match self.rows.insert(row) {
            Ok(()) => Ok(()),
            Err(InsertError::There(_)) => unreachable!(),
            Err(InsertError::Memory(_)) => Err(Memory),
        }
    }

    /// Takes out the row under a fill key.
    pub(crate) fn remove_row(&mut self, key: &Key) -> Option<Row>
        ensures value { result ≡ row_under self.old key.now }
        ensures rows { self.new ≡ without_row self.old key.now }
    {
        self.rows.remove(key)
    }
}
