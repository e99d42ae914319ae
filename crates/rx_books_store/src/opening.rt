ghost use Rattle.std.specs.Prelude.{◌≡◌, ◌<◌, ◌≤◌, ◌-◌, ◌^◌, ◌++◌, ◌∷◌, ℕ, [], OnOk, false, if◌then◌else◌};
ghost use Rattle.std.specs.Prelude.{IfOk, IfSome, IsTrue, Some, true, is_some, length, slice_get, slice_index};
ghost use Rattle.rx_fields.specs.Order.{id_cmp};
ghost use Rattle.rx_sorted.specs.Ascending.{IsAscending, IsAt, is_past};
ghost use Rattle.rx_ledger.specs.Ledger.{IsLedger, is_listed, is_whole};
ghost use Rattle.rx_ledger.specs.Members.{member_cmp, member_key};
ghost use Rattle.rx_ledger.specs.Rows.{member_of_row};
ghost use Rattle.std.specs.Arc.{arc_value};
ghost use Rattle.rx_books_store.specs.BooksText.{families_of};
ghost use Rattle.rx_books_store.specs.Kept.{IsKept};
ghost use Rattle.rx_books_store.specs.LedgerBooks.{has_members};
ghost use Rattle.rx_books_store.specs.Opening.{name_of, names_of};
ghost use Rattle.rx_books_store.specs.Standing.{IsNextMarked, is_marked};
ghost use Rattle.rx_books_store.specs.Held.{AreHeld};
ghost use Rattle.rx_books_store.specs.Store.{AreHolders, AreHomes};

use crate::hints::Places;
use crate::holders::holders_of;
use crate::kept::Kept;
use rx_fields::{Id, Memory};
use rx_ledger::{Member, MemberKey, Row};
use rx_sorted::{Ascending, Keyed, Runs};
use std::alloc::Global;
use std::marker::Model;
use std::sync::Arc;

/// A family that has a member.
#[derive(Clone, Copy)]
pub(crate) struct FamilyName {
    pub(crate) family: Id,
}

impl Keyed for FamilyName {
    type Key = Id;

    ghost key_of = { λ name. name.family };

    fn key(&self) -> Id {
        self.family
    }
}

/// The lists of a ledger, with the place of each member's family and of each row's member. Contracts see the ledger.
#[derive(Drop)]
pub(crate) struct Lists {
    members: Ascending<Member>,
    rows: Arc<Runs<Row>, Global>,
    families: Ascending<FamilyName>,
    homes: Vec<u32>,
    holders: Vec<u32>,
    places: Places,
}

impl Model for Lists {
    ghost use Rattle.rx_ledger.specs.Ledger.{Ledger};

    ghost Value = { Ledger };

    ghost use Rattle.std.specs.Arc.{arc_value};
    ghost use Rattle.rx_books_store.specs.Opening.{names_of};
    ghost use Rattle.rx_books_store.specs.Store.{AreLists};

    ghost view = { λ l. record { members = l.members; rows = arc_value l.rows } };

    ghost invariant = { λ l. AreLists (record { members = l.members; rows = arc_value l.rows }) (names_of l.families) l.homes.items
        l.holders.items };
}

/// What books were made from. It never changes, and copies share it. Contracts see the ledger.
pub(crate) struct Opening {
    lists: Arc<Lists, Global>,
    // The text that they were read from, if it is one of version 3 and was given to be kept.
    kept: Option<Arc<Kept, Global>>,
}

// Written out, so that freeing one is one call wherever a function ends early, not one for each of its fields.
impl Drop for Opening {
    fn drop(self) {
        let Opening { lists: _, kept: _ } = self;
    }
}

impl Model for Opening {
    ghost use Rattle.std.specs.Arc.{arc_value};
    ghost use Rattle.rx_ledger.specs.Ledger.{Ledger};

    ghost Value = { Ledger };

    ghost use Rattle.std.specs.Prelude.{IfSome};
    ghost use Rattle.rx_books_store.specs.Kept.{IsKept};

    ghost view = { λ o. arc_value o.lists };

    ghost invariant = { λ o. IfSome o.kept (λ kept. IsKept (arc_value kept) (arc_value o.lists).rows) };
}

impl Opening {
    /// The opening lists of these members and rows, each of which has a listed member, at these places.
    pub(crate) fn of(
        alloc: Global,
        members: Ascending<Member>,
        rows: Runs<Row>,
        holders: Vec<u32>,
        places: Places,
    ) -> Result<Opening, Memory>
        requires few { length members < 2 ^ 32 }
        requires held { AreHeld members rows holders.items }
        ensures value { IfOk result (λ opening. opening ≡ record { members = members; rows = rows }) }
        ensures within { IfOk result (λ opening. IsLedger opening) }
    {
        let rows = Arc::new(alloc, rows)?;
        let lists = Lists::of(alloc, members, rows, holders, places)?;
        let lists = Arc::new(alloc, lists)?;
        Ok(Opening { lists, kept: None })
    }

    /// The same rows, with the text that they were read from, of these members; each row's is one of them.
    pub(crate) fn with_members(
        &self,
        alloc: Global,
        members: Ascending<Member>,
    ) -> Result<Opening, Memory>
        ensures value { IfOk result (λ opening. opening ≡ record { members = members; rows = self.now.rows }) }
        ensures within { IfOk result (λ opening. IsLedger opening) }
    {
        let lists = self.lists.with_members(alloc, members)?;
        let lists = Arc::new(alloc, lists)?;
        let kept = self.share_kept()?;
        Ok(Opening { lists, kept })
    }

    // The text that the rows were read from, shared.
    fn share_kept(&self) -> Result<Option<Arc<Kept, Global>>, Memory>
        ensures { IfOk result (λ kept. IfSome kept (λ kept. IsKept (arc_value kept) self.now.rows)) }
    {
        match &self.kept {
            Some(kept) => Ok(Some(Arc::try_clone(kept)?)),
            None => Ok(None),
        }
    }

    /// The same lists, shared.
    pub(crate) fn share(&self) -> Result<Opening, Memory>
        ensures { IfOk result (λ opening. opening ≡ self.now) }
    {
        let lists = Arc::try_clone(&self.lists)?;
        let kept = self.share_kept()?;
        Ok(Opening { lists, kept })
    }

    /// Keeps the text that the lists were read from.
    pub(crate) fn keep(&mut self, kept: Arc<Kept, Global>)
        requires { IsKept (arc_value kept) self.old.rows }
        ensures { self.new ≡ self.old }
    {
        self.kept = Some(kept);
    }

    /// The text that they were read from, where it is kept.
    pub(crate) fn kept(&self) -> Option<&Kept>
        ensures { IfSome result (λ kept. IsKept kept.now self.now.rows) }
    {
        match &self.kept {
            Some(kept) => {
                let kept: &Kept = kept;
                Some(kept)
            }
            None => None,
        }
    }

    /// The members, in order.
    pub(crate) fn members(&self) -> &Ascending<Member>
        ensures value { result.now ≡ self.now.members }
        ensures within { IsLedger self.now }
        ensures few { length self.now.members < 2 ^ 32 }
    {
        self.lists.members()
    }

    /// The rows, in order.
    pub(crate) fn rows(&self) -> &Runs<Row>
        ensures value { result.now ≡ self.now.rows }
        ensures within { IsLedger self.now }
    {
        self.lists.rows()
    }

    /// The families that have a member, in order.
    pub(crate) fn families(&self) -> &[FamilyName]
        ensures { names_of result.now ≡ families_of self.now.members }
    {
        self.lists.families()
    }

    /// The place of a family that has a member.
    pub(crate) fn family_of(&self, family: &Id) -> Option<usize>
        ensures found { IfSome result (λ at. slice_get (families_of self.now.members) at ≡ Some family.now) }
        ensures listed { is_some result ≡ has_members self.now family.now }
    {
        self.lists.family_of(family)
    }

    /// The place of a listed member.
    pub(crate) fn member_of(&self, key: &MemberKey) -> Option<usize>
        ensures found { IfSome result (IsAt member_cmp member_key self.now.members key.now) }
        ensures listed { is_some result ≡ is_listed self.now key.now }
    {
        self.lists.member_of(key)
    }

    /// Looks where a member is first looked for, by which the processor has it near; true only where there are members.
    pub(crate) fn is_member_seen(&self, key: &MemberKey) -> bool
        ensures { IsTrue result → 0 < length self.now.members }
    {
        self.lists.is_member_seen(key)
    }

    /// The place of a member, as a slot keeps it.
    pub(crate) fn kept_place(&self, member: usize) -> u32
        requires { member < length self.now.members }
        ensures { result ≡ member }
    {
        self.lists.kept_place(member)
    }

    /// The place of the family of the member at a place.
    pub(crate) fn home(&self, member: usize) -> usize
        requires { member < length self.now.members }
        ensures { IfSome (slice_get self.now.members member) (λ m. slice_get (families_of self.now.members) result ≡ Some m.key.family) }
    {
        self.lists.home(member)
    }

    /// The place of the member of the row at a place.
    pub(crate) fn holder(&self, row: usize) -> usize
        requires { row < length self.now.rows }
        ensures { IfSome (slice_get self.now.rows row) (λ r. IsAt member_cmp member_key self.now.members (member_of_row r) result) }
    {
        self.lists.holder(row)
    }

    /// For each row the place of its member.
    pub(crate) fn holders(&self) -> &[u32]
        ensures { AreHolders self.now.members self.now.rows result.now }
    {
        self.lists.holders()
    }

    /// The place of the first row from a place on whose member has a mark; how many rows there are if none has.
    pub(crate) fn next_marked(&self, from: usize, marks: &[bool]) -> usize
        requires { from ≤ length self.now.rows }
        ensures { IsNextMarked self.now marks.now from result }
    {
        self.lists.next_marked(from, marks)
    }
}

impl Lists {
    fn of(
        alloc: Global,
        members: Ascending<Member>,
        rows: Arc<Runs<Row>, Global>,
        holders: Vec<u32>,
        places: Places,
    ) -> Result<Lists, Memory>
        requires few { length members < 2 ^ 32 }
        requires held { AreHeld members (arc_value rows) holders.items }
        ensures value { IfOk result (λ lists. lists ≡ record { members = members; rows = arc_value rows }) }
        ensures within { IfOk result (λ lists. IsLedger lists) }
    {
        let (families, homes) = homes_of(alloc, members.as_slice())?;
        Ok(Lists {
            members,
            rows,
            families,
            homes,
            holders,
            places,
        })
    }

    // The same rows, shared, of these members; each row's is one of them.
    fn with_members(&self, alloc: Global, members: Ascending<Member>) -> Result<Lists, Memory>
        ensures value { IfOk result (λ lists. lists ≡ record { members = members; rows = self.now.rows }) }
        ensures within { IfOk result (λ lists. IsLedger lists) }
    {
        let rows = Arc::try_clone(&self.rows)?;
        let places = Places::of(alloc, members.as_slice()).ok_or(Memory)?;
        let holders = holders_of(alloc, &places, &members, self.rows()).ok_or(Memory)?;
        Lists::of(alloc, members, rows, holders, places)
    }

    fn members(&self) -> &Ascending<Member>
        ensures value { result.now ≡ self.now.members }
        ensures within { IsLedger self.now }
        ensures few { length self.now.members < 2 ^ 32 }
    {
        &self.members
    }

    fn rows(&self) -> &Runs<Row>
        ensures value { result.now ≡ self.now.rows }
        ensures within { IsLedger self.now }
    {
        let rows: &Runs<Row> = &self.rows;
        rows
    }

    fn families(&self) -> &[FamilyName]
        ensures { names_of result.now ≡ families_of self.now.members }
    {
        self.families.as_slice()
    }

    fn family_of(&self, family: &Id) -> Option<usize>
        ensures found { IfSome result (λ at. slice_get (families_of self.now.members) at ≡ Some family.now) }
        ensures listed { is_some result ≡ has_members self.now family.now }
    {
        match self.families.place(family) {
            Ok(at) => Some(at),
            Err(_) => None,
        }
    }

    fn member_of(&self, key: &MemberKey) -> Option<usize>
        ensures found { IfSome result (IsAt member_cmp member_key self.now.members key.now) }
        ensures listed { is_some result ≡ is_listed self.now key.now }
    {
        self.places.place_of(&self.members, key)
    }

    fn is_member_seen(&self, key: &MemberKey) -> bool
        ensures { IsTrue result → 0 < length self.now.members }
    {
        self.places.is_seen(self.members.as_slice(), key)
    }

    fn kept_place(&self, member: usize) -> u32
        requires { member < length self.now.members }
        ensures { result ≡ member }
    {
        prove!(member < self.homes.len());
        member as u32
    }

    fn home(&self, member: usize) -> usize
        requires { member < length self.now.members }
        ensures { IfSome (slice_get self.now.members member) (λ m. slice_get (families_of self.now.members) result ≡ Some m.key.family) }
    {
        self.homes[member] as usize
    }

    fn holder(&self, row: usize) -> usize
        requires { row < length self.now.rows }
        ensures { IfSome (slice_get self.now.rows row) (λ r. IsAt member_cmp member_key self.now.members (member_of_row r) result) }
    {
        self.holders[row] as usize
    }

    fn holders(&self) -> &[u32]
        ensures { AreHolders self.now.members self.now.rows result.now }
    {
        &self.holders
    }

    fn next_marked(&self, from: usize, marks: &[bool]) -> usize
        requires { from ≤ length self.now.rows }
        ensures { IsNextMarked self.now marks.now from result }
    {
        from + marked_in(&self.holders[from..], marks)
    }
}

// The first of these places that has a mark; how many places there are if none has.
fn marked_in(places: &[u32], marks: &[bool]) -> usize
    ensures within { result ≤ length places.now }
    ensures unmarked { (i : ℕ) → i < result → is_marked marks.now (slice_index places.now i) ≡ false }
{
    let found = places
        .iter()
        .position(|place| is_marked(marks, *place as usize));
    match found {
        Some(at) => at,
        None => places.len(),
    }
}

// Whether the member at a place has a mark.
fn is_marked(marks: &[bool], place: usize) -> bool
    ensures { result ≡ is_marked marks.now place }
{
    match marks.get(place) {
        Some(mark) => *mark,
        None => false,
    }
}

// The families of these members, which ascend, and for each member the place of its family.
fn homes_of(alloc: Global, members: &[Member]) -> Result<(Ascending<FamilyName>, Vec<u32>), Memory>
    requires rise { IsAscending member_cmp member_key members.now }
    requires few { length members.now < 2 ^ 32 }
    ensures names { IfOk result (λ r. names_of r.0 ≡ families_of members.now) }
    ensures homes { IfOk result (λ r. AreHomes members.now (families_of members.now) r.1.items) }
{
    let mut families = Ascending::new(alloc);
    let mut homes = Vec::with_capacity(alloc, members.len())?;
    for member in members {
        let home = last_place(&mut families, member.key.family)?;
        homes.push(home as u32)?;
    }
    Ok((families, homes))
}

// The place of a family that comes after these, or is the last of them. It is the last of them from now on.
fn last_place(families: &mut Ascending<FamilyName>, family: Id) -> Result<usize, Memory>
    ensures names { OnOk result (families.new ≡ (if is_past id_cmp name_of families.old family then families.old
        ++ (record { family = family }) ∷ [] else families.old)) }
    ensures place { IfOk result (λ at. at ≡ length families.new - 1) }
{
    if families.is_past(&family) {
        families.push(FamilyName { family })?;
    }
    Ok(families.len() - 1)
}
