ghost use Rattle.std.specs.Prelude.{◌≡◌, length, map, option_map, None};
ghost use Rattle.rx_d0_request.specs.Cut.{field_of, same};
ghost use Rattle.rx_d0_request.specs.Known.{field};
ghost use Rattle.rx_d0_request.specs.Slots.{texts_of, text_of, all_of, put, put_field};

use crate::piece::Pieces;
use rx_fields::trimmed;
use rx_text::FIELD;

// Whether these are the same two bytes. One test of both is guessed wrong less often than one after the other.
#[inline(always)]
fn is_same(a: [u8; 2], b: [u8; 2]) -> bool
    ensures { result ≡ same a b }
{
    (a[0] == b[0]) & (a[1] == b[1])
}

/// Puts a text into the slot of its key. None: the slot is taken.
#[inline(always)]
pub(crate) fn put<'a>(
    slots: &mut [Option<&'a [u8]>],
    keys: &[[u8; 2]],
    key: [u8; 2],
    text: &'a [u8],
) -> Option<()>
    requires { length slots.old ≡ length keys.now }
    ensures { option_map (λ _. texts_of slots.new) result ≡ put keys.now key text.entry.now (texts_of slots.old) }
{
    for (at, known) in keys.iter().enumerate() {
        if is_same(key, *known) {
            if slots[at].is_some() {
                return None;
            }
            slots[at] = Some(text);
        }
    }
    Some(())
}

// Puts the value of a field into the slot of its id, where it has a value. None: the slot is taken.
#[inline(always)]
fn put_field<'a>(slots: &mut [Option<&'a [u8]>], ids: &[[u8; 2]], piece: &'a [u8]) -> Option<()>
    requires { length slots.old ≡ length ids.now }
    ensures { option_map (λ _. texts_of slots.new) result
        ≡ put_field ids.now (field_of piece.entry.now) (texts_of slots.old) }
{
    if piece.len() < 2 {
        return Some(());
    }
    let (id, value) = piece.split_at(2);
    let value = trimmed(value);
    if value.is_empty() {
        return Some(());
    }
    put(slots, ids, [id[0], id[1]], value)
}

// Puts the values of a segment under these ids into their slots. None: an id has two.
#[inline(always)]
fn put_fields<'a>(slots: &mut [Option<&'a [u8]>], ids: &[[u8; 2]], segment: &'a [u8]) -> Option<()>
    requires { texts_of slots.old ≡ map (λ _. None) ids.now }
    ensures { option_map (λ _. texts_of slots.new) result
        ≡ all_of (λ id. field id (Some segment.entry.now)) ids.now }
{
    let mut pieces = Pieces::new(segment, FIELD);
    let _front = pieces.next();
    while let Some(piece) = pieces.next() {
        put_field(slots, ids, piece)?;
    }
    Some(())
}

/// Puts the values under these ids into their slots; there are none where the segment is absent. None: an id has two.
#[inline(always)]
pub(crate) fn put_values<'a>(
    slots: &mut [Option<&'a [u8]>],
    ids: &[[u8; 2]],
    segment: Option<&'a [u8]>,
) -> Option<()>
    requires { texts_of slots.old ≡ map (λ _. None) ids.now }
    ensures { option_map (λ _. texts_of slots.new) result
        ≡ all_of (λ id. field id (text_of segment.entry)) ids.now }
{
    match segment {
        Some(segment) => put_fields(slots, ids, segment),
        None => Some(()),
    }
}
