ghost use Rattle.std.specs.Prelude.{◌≡◌, IfOk, OnOk, filter, map};
ghost use Rattle.std.specs.List.{fold};
ghost use Rattle.rx_fields.specs.Order.{id_cmp, key_cmp};
ghost use Rattle.rx_sorted.specs.Ascending.{IsAscending, put, put_all};
ghost use Rattle.rx_sorted.specs.Overlaid.{with_slot};
ghost use Rattle.rx_ledger.specs.Members.{member_cmp, member_key};
ghost use Rattle.rx_ledger.specs.Rows.{row_key};
ghost use Rattle.rx_books_family.specs.Amended.{amended_members, amended_rows, is_unplaced, members_held};
ghost use Rattle.rx_books_family.specs.Shelves.{place_family, place_key, row_held};

use rx_books_family::{FamilyPlace, KeyPlace};
use rx_fields::Memory;
use rx_ledger::{Member, Row};
use rx_sorted::{Ascending, InsertError, Keyed, item_of};
use std::alloc::Global;

/// The members of the families without a place, and those that the places hold.
pub(crate) fn amended_members(
    alloc: Global,
    members: &[Member],
    places: &[FamilyPlace],
) -> Result<Ascending<Member>, Memory>
    requires { IsAscending id_cmp place_family places.now }
    ensures { IfOk result (λ all. all ≡ amended_members members.now places.now) }
{
    let mut all = Ascending::new(alloc);
    put_unplaced(&mut all, members, places)?;
    put_held(&mut all, places)?;
    Ok(all)
}

// Puts in the members of the families without a place.
fn put_unplaced(
    all: &mut Ascending<Member>,
    members: &[Member],
    places: &[FamilyPlace],
) -> Result<(), Memory>
    requires { IsAscending id_cmp place_family places.now }
    ensures { OnOk result (all.new ≡ put_all member_cmp member_key all.old (filter (is_unplaced places.now) members.now)) }
{
    for member in members {
        if item_of(places, &member.key.family).is_none() {
            put(all, *member)?;
        }
    }
    Ok(())
}

// Puts in the members that the places hold.
fn put_held(all: &mut Ascending<Member>, places: &[FamilyPlace]) -> Result<(), Memory>
    ensures { OnOk result (all.new ≡ fold (put_all member_cmp member_key) all.old (map members_held places.now)) }
{
    for place in places {
        put_members(all, place.members())?;
    }
    Ok(())
}

// Puts in these members.
fn put_members(all: &mut Ascending<Member>, members: &[Member]) -> Result<(), Memory>
    ensures { OnOk result (all.new ≡ put_all member_cmp member_key all.old members.now) }
{
    for member in members {
        put(all, *member)?;
    }
    Ok(())
}

/// The rows, with what the place of each fill key holds.
pub(crate) fn amended_rows(
    rows: Ascending<Row>,
    places: &[KeyPlace],
) -> Result<Ascending<Row>, Memory>
    ensures { IfOk result (λ all. all ≡ amended_rows rows places.now) }
{
    let mut all = rows;
    for place in places {
        put_place(&mut all, place)?;
    }
    Ok(all)
}

// Puts in the row that a place holds, or takes out the one under its fill key.
fn put_place(rows: &mut Ascending<Row>, place: &KeyPlace) -> Result<(), Memory>
    ensures { OnOk result (rows.new ≡ with_slot key_cmp row_key place_key row_held rows.old place.now) }
{
    match place.row() {
        Some(row) => put(rows, *row),
        None => {
            let _before = rows.remove(&place.key);
            Ok(())
        }
    }
}

// Puts an item into its place, where it replaces the one that has its key.
fn put<T: Keyed + Drop>(items: &mut Ascending<T>, item: T) -> Result<(), Memory>
    ensures { OnOk result (items.new ≡ put T.Key.cmp T.key_of items.old item) }
{
    match items.replace(item) {
        Ok(_) => Ok(()),
        Err(item) => match items.insert(item) {
            Ok(()) => Ok(()),
            Err(InsertError::There(_)) => unreachable!(),
            Err(InsertError::Memory(_)) => Err(Memory),
        },
    }
}
