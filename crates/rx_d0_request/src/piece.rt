ghost use Rattle.std.specs.Prelude.{◌≡◌};

use crate::marks::{MOST, first_marks};
use memchr::memchr;
use std::marker::Model;

/// The pieces of a text between its separators that are left, in their order.
#[derive(Drop)]
pub(crate) struct Pieces<'a> {
    rest: Option<&'a [u8]>,
    separator: u8,
    // Where the separator stands among the first `seen` bytes that are left, a bit for each.
    marks: u64,
    seen: usize,
}

impl<'a> Model for Pieces<'a> {
    ghost use Rattle.std.specs.Prelude.{List, ℕ};
    ghost use Rattle.rx_d0_request.specs.Marks.{AreMarksLeft};
    ghost use Rattle.rx_d0_request.specs.Slots.{pieces_left};

    ghost Value = { List (List ℕ) };

    ghost view = { λ p. pieces_left p.separator p.rest };

    ghost invariant = { λ p. AreMarksLeft p.separator p.marks p.seen p.rest };
}

ghost use Rattle.std.specs.Prelude.{◌∷◌, [], ◌≤◌, if◌then◌else◌, length, take, MatchOption, None, Some};
ghost use Rattle.memchr.specs.Find.{IsFirstByte, is_byte};
ghost use Rattle.rx_text.specs.Bytes.{cut};
ghost use Rattle.rx_d0_request.specs.Cut.{begins_empty, first, further};
ghost use Rattle.rx_d0_request.specs.Marks.{marks_of};

impl<'a> Pieces<'a> {
    /// All pieces of a text.
    pub(crate) fn new(text: &'a [u8], separator: u8) -> Pieces<'a>
        ensures { result ≡ cut separator text.now }
    {
        Pieces {
            rest: Some(text),
            separator,
            marks: first_marks(text, separator),
            seen: MOST.min(text.len()),
        }
    }

    /// The pieces after the first separator. None: there are bytes before it.
    pub(crate) fn after_first(text: &'a [u8], separator: u8) -> Option<Pieces<'a>>
        ensures { result
            ≡ (if begins_empty (cut separator text.now) then Some (further (cut separator text.now)) else None) }
    {
        let mut pieces = Pieces::new(text, separator);
        let front = pieces.next()?;
        if front.is_empty() { Some(pieces) } else { None }
    }

    /// The next piece, or an empty one where none is left.
    pub(crate) fn first(&mut self) -> &'a [u8]
        ensures value { result.now ≡ first self.old }
        ensures rest { self.new ≡ further self.old }
    {
        match self.next() {
            Some(piece) => piece,
            None => &[],
        }
    }

    /// The next piece.
    #[inline(always)]
    pub(crate) fn next(&mut self) -> Option<&'a [u8]>
        ensures value { MatchOption result (self.old ≡ []) (λ piece. self.old ≡ piece.now ∷ self.new) }
        ensures rest { self.new ≡ further self.old }
    {
        let text = self.rest?;
        if self.marks != 0 {
            let at = self.marks.trailing_zeros() as usize;
            self.rest = Some(&text[at + 1..]);
            self.marks = self.marks >> at >> 1;
            self.seen -= at + 1;
            return Some(&text[..at]);
        }
        match end_behind(text, self.seen, self.separator) {
            Some(at) => {
                let rest = &text[at + 1..];
                self.rest = Some(rest);
                self.marks = first_marks(rest, self.separator);
                self.seen = MOST.min(rest.len());
                Some(&text[..at])
            }
            None => {
                self.rest = None;
                Some(text)
            }
        }
    }
}

// The place of the first separator, where it isn't among the first bytes.
#[inline(always)]
fn end_behind(text: &[u8], seen: usize, separator: u8) -> Option<usize>
    requires within { seen ≤ length text.now }
    requires none { marks_of separator (take seen text.now) ≡ 0 }
    ensures { IsFirstByte (is_byte separator) text.now result }
{
    if seen == text.len() {
        return None;
    }
    match memchr(separator, &text[seen..]) {
        Some(at) => Some(seen + at),
        None => None,
    }
}
