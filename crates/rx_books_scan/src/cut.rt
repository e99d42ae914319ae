ghost use Rattle.std.specs.Prelude.{◌≡◌, ◌++◌, IfSome};
ghost use Rattle.std.specs.List.{flat_map};
ghost use Rattle.rx_books_text.specs.LineText.{ended};

use memchr::memchr;
use std::alloc::Global;

/// The pieces of a text, cut after the first line feed at or after each of these places, which ascend. None where
/// memory runs out.
pub(crate) fn pieces<'a>(alloc: Global, text: &'a [u8], places: &[usize]) -> Option<Vec<&'a [u8]>>
    ensures { IfSome result (λ pieces. flat_map (λ piece. piece.now) pieces.items ≡ text.now) }
{
    let mut pieces = Vec::new(alloc);
    let mut rest = text;
    for place in places {
        let before = text.len().saturating_sub(rest.len());
        let (piece, behind) = cut(rest, place.saturating_sub(before));
        let Ok(()) = pieces.push(piece) else {
            return None;
        };
        rest = behind;
    }
    let Ok(()) = pieces.push(rest) else {
        return None;
    };
    Some(pieces)
}

// The text up to the first line feed at or after a place, and what follows it.
fn cut(text: &[u8], place: usize) -> (&[u8], &[u8])
    ensures { result.0.now ++ result.1.now ≡ text.now }
{
    if place >= text.len() {
        return text.split_at(text.len());
    }
    let end = match memchr(b'\n', &text[place..]) {
        Some(end) => place + end + 1,
        None => text.len(),
    };
    text.split_at(end)
}

/// The places at which this many parts of one length begin, but for the first.
pub(crate) fn places(alloc: Global, parts: usize, len: usize) -> Option<Vec<usize>> {
    let step = len / parts.max(1);
    let mut places = Vec::new(alloc);
    for part in 1..parts {
        places.push(part.checked_mul(step)?).ok()?;
    }
    Some(places)
}

/// The bytes before the first line feed, and what follows it.
pub(crate) fn first_line(bytes: &[u8]) -> Option<(&[u8], &[u8])>
    ensures { IfSome result (λ x. bytes.now ≡ ended x.0.now ++ x.1.now) }
{
    let end = memchr(b'\n', bytes)?;
    Some((&bytes[..end], &bytes[end + 1..]))
}
