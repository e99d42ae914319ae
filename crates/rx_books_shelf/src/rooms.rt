use crate::unsummed::Room;
use rx_books_store::OpenBooks;
use rx_fields::{Id, Memory};
use rx_ledger::Member;
use std::alloc::Global;

/// For each of these members where the family is among these families, or where it would go. Both lists are in order.
/// Nothing rests on it but speed.
pub(crate) fn homes_of(
    alloc: Global,
    members: &[Member],
    families: &[Id],
) -> Result<Vec<u32>, Memory> {
    let mut homes = Vec::with_capacity(alloc, members.len())?;
    let mut place = 0;
    for member in members {
        place = passed(families, place, &member.key.family);
        homes.push(u32::try_from(place).unwrap_or(u32::MAX))?;
    }
    Ok(homes)
}

// The first place from this one on where no lesser family is.
fn passed(families: &[Id], from: usize, family: &Id) -> usize {
    for place in from..families.len() {
        if families[place] >= *family {
            return place;
        }
    }
    families.len()
}

/// The home of the member at a place.
pub(crate) fn home_at(homes: &[u32], member: usize) -> usize {
    homes.get(member).copied().unwrap_or(u32::MAX) as usize
}

/// How many members and rows each of these families has. Nothing rests on it but the room that is taken.
pub(crate) fn rooms_of(
    alloc: Global,
    open: &OpenBooks,
    families: &[Id],
    homes: &[u32],
) -> Result<Vec<Room>, Memory> {
    let mut rooms = vec![in alloc; Room::NONE; families.len()]?;
    // The home of each member whose family is one of these. A row is counted without a look at it.
    let mut named = Vec::with_capacity(alloc, homes.len())?;
    for (place, member) in open.members().iter().enumerate() {
        let home = named_home(families, home_at(homes, place), &member.key.family);
        count_member(&mut rooms, home as usize);
        named.push(home)?;
    }
    let mut standing = open.standing();
    'rows: while let Some((_, member)) = standing.next_row() {
        count_row(&mut rooms, home_at(&named, member));
    }
    Ok(rooms)
}

// The place, where the family there is this one; else one that no family has.
fn named_home(families: &[Id], place: usize, family: &Id) -> u32 {
    match families.get(place) {
        Some(named) if named == family => u32::try_from(place).unwrap_or(u32::MAX),
        _ => u32::MAX,
    }
}

fn count_member(rooms: &mut Vec<Room>, home: usize) {
    if let Some(room) = rooms.get_mut(home) {
        room.members = room.members.saturating_add(1);
    }
}

fn count_row(rooms: &mut Vec<Room>, home: usize) {
    if let Some(room) = rooms.get_mut(home) {
        room.rows = room.rows.saturating_add(1);
    }
}
