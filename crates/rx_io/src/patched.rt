ghost use Rattle.std.specs.Prelude.{◌≡◌, ◌≤◌, ◌++◌, ℕ, List, IfOk, OnOk, false, is_err, length};
ghost use Rattle.std.specs.Arc.{arc_value};
ghost use Rattle.std.specs.Io.KnownBytes.{Appends};
ghost use Rattle.std.specs.List.{All, slice_range};
ghost use Rattle.rx_io.specs.Patches.{IsWithin, piece_text, pieces_text};
ghost use Rattle.rx_io.specs.Writing.{AppendsFront};

use crate::fault::Failed;
use crate::gathering::{put_gathered, room, write_gathered};
use crate::sink::Sink;
use rx_fields::Memory;
use std::alloc::Global;
use std::marker::Model;
use std::sync::Arc;

// A part of the text that lends, or of the own bytes, from one place to another.
#[derive(Clone, Copy)]
enum Piece {
    Lent { first: usize, last: usize },
    Own { first: usize, last: usize },
}

/// A text that is made of parts of another, which it shares, and of bytes of its own between them. Contracts see the text
/// that lends, and the one that is made.
#[derive(Drop)]
pub struct Patched {
    lender: Arc<Vec<u8>, Global>,
    own: Vec<u8>,
    pieces: Vec<Piece>,
    // Where the own bytes begin that are in no piece yet.
    begun: usize,
}

impl Model for Patched {
    ghost use Rattle.rx_io.specs.Patches.{Patch};

    ghost Value = { Patch };

    ghost use Rattle.std.specs.Arc.{arc_value};
    ghost use Rattle.rx_io.specs.Patches.{ArePieces, patched_text};

    ghost view = { λ p. record {
      lender = (arc_value p.lender).items;
      text = patched_text (arc_value p.lender).items p.own.items p.pieces.items p.begun;
    } };

    ghost invariant = { λ p. ArePieces (arc_value p.lender).items p.own.items p.pieces.items p.begun };
}

impl Patched {
    /// These bytes, over a text of which no part is lent yet.
    pub fn over(alloc: Global, lender: Arc<Vec<u8>, Global>, own: Vec<u8>) -> Patched
        ensures { result ≡ record { lender = (arc_value lender).items; text = own.items } }
    {
        Patched {
            lender,
            own,
            pieces: Vec::new(alloc),
            begun: 0,
        }
    }

    /// Puts bytes after the text, which are copied.
    pub fn put(&mut self, bytes: &[u8]) -> Result<(), Memory>
        ensures { OnOk result (self.new ≡ record self.old { text = self.old.text ++ bytes.now }) }
    {
        self.own.extend_from_slice(bytes)?;
        Ok(())
    }

    /// Puts the part of the other text after the text that is from one place to another.
    pub fn lend(&mut self, first: usize, last: usize) -> Result<(), Memory>
        requires order { first ≤ last }
        requires within { last ≤ length self.old.lender }
        ensures { OnOk result (self.new ≡ record self.old { text = self.old.text ++ slice_range self.old.lender first last }) }
    {
        if first == last {
            return Ok(());
        }
        push_own(&mut self.pieces, self.begun, self.own.len())?;
        self.begun = self.own.len();
        self.pieces.push(Piece::Lent { first, last })?;
        Ok(())
    }

    /// The text, in one piece.
    pub fn joined(&self, alloc: Global) -> Result<Vec<u8>, Memory>
        ensures { IfOk result (λ text. text.items ≡ self.now.text) }
    {
        let (lender, own) = (self.lender.as_slice(), self.own.as_slice());
        let room = len_of(&self.pieces).saturating_add(own.len());
        let mut text = Vec::with_capacity(alloc, room)?;
        for piece in &self.pieces {
            text.extend_from_slice(bytes_of(lender, own, piece))?;
        }
        text.extend_from_slice(&own[self.begun..])?;
        Ok(text)
    }

    /// Writes the text to its end, as `write_all` does, where pieces that are short are written together.
    ///
    /// # Errors
    ///
    /// `Failed` where a write failed.
    pub fn write_to<S: Sink>(&self, alloc: Global, sink: &mut S) -> Result<(), Failed>
        requires { S.failed sink.old ≡ false }
        ensures whole { OnOk result (Appends (S.written sink.old) (S.written sink.new) self.now.text) }
        ensures front { AppendsFront (S.written sink.old) (S.written sink.new) self.now.text }
        ensures failed { S.failed sink.new ≡ is_err result }
    {
        let (lender, own) = (self.lender.as_slice(), self.own.as_slice());
        let mut gathered = room(alloc);
        for piece in &self.pieces {
            put_gathered(sink, &mut gathered, bytes_of(lender, own, piece))?;
        }
        put_gathered(sink, &mut gathered, &own[self.begun..])?;
        write_gathered(sink, &mut gathered)
    }
}

// Adds the piece of the own bytes from one place to another, if there are some.
fn push_own(pieces: &mut Vec<Piece>, first: usize, last: usize) -> Result<(), Memory>
    requires { first ≤ last }
    ensures text { (lender own : List ℕ) → OnOk result (pieces_text lender own pieces.new.items
        ≡ pieces_text lender own pieces.old.items ++ slice_range own first last) }
    ensures within { (lender own : List ℕ) → last ≤ length own → All (IsWithin lender own) pieces.old.items
        → All (IsWithin lender own) pieces.new.items }
{
    if first < last {
        pieces.push(Piece::Own { first, last })?;
    }
    Ok(())
}

// The bytes of a piece.
fn bytes_of<'a>(lender: &'a [u8], own: &'a [u8], piece: &Piece) -> &'a [u8]
    requires { IsWithin lender.now own.now piece.now }
    ensures { result.now ≡ piece_text lender.now own.now piece.now }
{
    match piece {
        Piece::Lent { first, last } => &lender[*first..*last],
        Piece::Own { first, last } => &own[*first..*last],
    }
}

// How many bytes the pieces have, so that a text grows once.
fn len_of(pieces: &[Piece]) -> usize {
    let mut len: usize = 0;
    for piece in pieces {
        let (first, last) = match piece {
            Piece::Lent { first, last } => (*first, *last),
            Piece::Own { first, last } => (*first, *last),
        };
        len = len.saturating_add(last.saturating_sub(first));
    }
    len
}
