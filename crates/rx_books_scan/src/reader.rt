ghost use Rattle.std.specs.Prelude.{◌≡◌, ◌++◌, IfOk, IfSome};
ghost use Rattle.std.specs.List.{AllZip};
ghost use Rattle.rx_books_text.specs.LineFits.{IsPeriod};
ghost use Rattle.rx_books_text.specs.LineText.{ended, head_text};
ghost use Rattle.rx_books_scan.specs.Lists.{AreLists, AreMeasured};
ghost use Rattle.rx_books_scan.specs.Parts.{IsPart, printed_lists};

use crate::cut::{first_line, pieces, places};
use crate::lists::{Lists, lists_of};
use crate::part::{Part, read_part};
use rayon::prelude::*;
use rx_books_text::{Head, Version, read_head};
use std::alloc::Global;
use std::thread::Threads;

/// The lists that a books text prints (docs/FORMATS.md, "Books file"), read on the calling thread. None says nothing:
/// memory ran out, or it isn't the text of a books file.
pub fn read_lists(alloc: Global, text: &[u8]) -> Option<Lists>
    ensures lists { IfSome result (λ lists. AreLists text.now (printed_lists lists)) }
    ensures measured { IfSome result (λ lists. AreMeasured (printed_lists lists) lists.above lists.lengths.items) }
{
    let Some((head, lines)) = head_at(text) else {
        return None;
    };
    let part = read_part(alloc, head.version, lines)?;
    let mut parts = Vec::new(alloc);
    let Ok(()) = parts.push(part) else {
        return None;
    };
    lists_of(alloc, head, text.len() - lines.len(), parts)
}

/// The same, where the lines after the head line are cut into this many parts, and each is read by a thread of its own;
/// one part is read on the calling thread.
pub fn read_lists_in_parts<R: Threads + Sync>(
    rt: &R,
    alloc: Global,
    parts: usize,
    text: &[u8],
) -> Option<Lists>
    ensures lists { IfSome result (λ lists. AreLists text.now (printed_lists lists)) }
    ensures measured { IfSome result (λ lists. AreMeasured (printed_lists lists) lists.above lists.lengths.items) }
{
    if parts < 2 {
        return read_lists(alloc, text);
    }
    let places = places(alloc, parts, text.len())?;
    read_lists_cut(rt, alloc, &places, text)
}

// The same, where the lines are cut after the first line feed at or after each of these places.
fn read_lists_cut<R: Threads + Sync>(
    rt: &R,
    alloc: Global,
    places: &[usize],
    text: &[u8],
) -> Option<Lists>
    ensures lists { IfSome result (λ lists. AreLists text.now (printed_lists lists)) }
    ensures measured { IfSome result (λ lists. AreMeasured (printed_lists lists) lists.above lists.lengths.items) }
{
    let Some((head, lines)) = head_at(text) else {
        return None;
    };
    let pieces = pieces(alloc, lines, places)?;
    let parts = read_parts(rt, alloc, head.version, &pieces)?;
    lists_of(alloc, head, text.len() - lines.len(), parts)
}

// The head, and what follows its line feed.
fn head_at(text: &[u8]) -> Option<(Head, &[u8])>
    ensures { IfSome result (λ x. IsPeriod x.0.period × (text.now ≡ ended (head_text x.0) ++ x.1.now)) }
{
    let (line, rest) = first_line(text)?;
    let head = read_head(line)?;
    Some((head, rest))
}

// What is no part of the lines, or runs out of memory.
#[derive(Drop)]
struct Unread;

// What each piece prints, read by as many threads as there are processors.
fn read_parts<R: Threads + Sync>(
    rt: &R,
    alloc: Global,
    version: Version,
    pieces: &[&[u8]],
) -> Option<Vec<Part>>
    ensures { IfSome result (λ parts. AllZip (λ piece part. IsPart version piece.now part) pieces.now parts.items) }
{
    let Ok(read) = pieces
        .par_iter()
        .with_min_len(1)
        .map(
            move |piece: &&[u8]| -> Result<Part, Unread>
                ensures { IfOk result (IsPart version piece.now.now) }
            { read_part(alloc, version, piece).ok_or(Unread) },
        )
        .collect::<Result<Vec<Part>, Unread>>(rt, alloc)
    else {
        return None;
    };
    let Ok(parts) = read else {
        return None;
    };
    Some(parts)
}
