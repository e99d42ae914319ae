ghost use Rattle.std.specs.Prelude.{◌≡◌, ◌&&◌, if◌then◌else◌, length, map, filter, option_map, Some, None};
ghost use Rattle.std.specs.List.{list_all};
ghost use Rattle.rx_d0_request.specs.Cut.{field_of, fields, has_id, is_name, is_nonempty, is_segment, is_part};
ghost use Rattle.rx_d0_request.specs.Known.{segment};
ghost use Rattle.rx_d0_request.specs.Slots.{texts_of, all_of, name_of, put_segment};

use crate::field::put;
use crate::piece::Pieces;
use rx_fields::trimmed;
use rx_text::{FIELD, SEGMENT};

/// The id of the field that names a segment.
const AM: &[u8] = b"AM";

// The name that a first field gives. None: it gives none.
fn name_in(piece: &[u8]) -> Option<[u8; 2]>
    ensures { result
        ≡ (if has_id piece.now && is_name (field_of piece.now) then Some (field_of piece.now).value else None) }
{
    if piece.len() < 2 {
        return None;
    }
    let (id, value) = piece.split_at(2);
    let name = trimmed(value);
    if id == AM && name.len() == 2 {
        Some([name[0], name[1]])
    } else {
        None
    }
}

// Whether each piece that isn't skipped has an id.
fn all_have_ids(mut pieces: Pieces<'_>) -> bool
    ensures { result ≡ list_all has_id (filter is_nonempty pieces.entry) }
{
    while let Some(piece) = pieces.next() {
        if piece.len() == 1 {
            return false;
        }
    }
    true
}

// The name of a segment, or nothing where it is skipped. None: a syntax error.
fn segment_name(segment: &[u8]) -> Option<Option<[u8; 2]>>
    ensures { result ≡ (if is_segment segment.now then Some (name_of (fields segment.now)) else None) }
{
    let mut pieces = Pieces::after_first(segment, FIELD)?;
    while let Some(piece) = pieces.next() {
        if !piece.is_empty() {
            let name = name_in(piece)?;
            return if all_have_ids(pieces) {
                Some(Some(name))
            } else {
                None
            };
        }
    }
    Some(None)
}

// Puts a segment into the slot of its name, where it isn't skipped. None: a syntax error, or the slot is taken.
fn put_segment<'a>(
    slots: &mut [Option<&'a [u8]>],
    names: &[[u8; 2]],
    segment: &'a [u8],
) -> Option<()>
    requires { length slots.old ≡ length names.now }
    ensures { option_map (λ _. texts_of slots.new) result
        ≡ put_segment names.now segment.entry.now (texts_of slots.old) }
{
    match segment_name(segment)? {
        Some(name) => put(slots, names, name, segment),
        None => Some(()),
    }
}

/// Puts the segments of these names into their slots. None: a syntax error of the part.
pub(crate) fn put_segments<'a>(
    slots: &mut [Option<&'a [u8]>],
    names: &[[u8; 2]],
    part: &'a [u8],
) -> Option<()>
    requires { texts_of slots.old ≡ map (λ _. None) names.now }
    ensures { option_map (λ _. texts_of slots.new) result
        ≡ (if is_part part.entry.now then all_of (λ name. segment name part.entry.now) names.now else None) }
{
    let mut pieces = Pieces::after_first(part, SEGMENT)?;
    while let Some(segment) = pieces.next() {
        put_segment(slots, names, segment)?;
    }
    Some(())
}
