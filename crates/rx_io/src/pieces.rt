use crate::patched::Patched;

/// A text in pieces, one after another.
#[derive(Drop)]
pub enum Pieces {
    /// Texts of their own.
    Texts(Vec<Vec<u8>>),
    /// Parts of another text, and bytes between them.
    Patched(Patched),
}

ghost use Rattle.std.specs.Prelude.{◌≡◌, ◌++◌, IfOk, OnOk, false, is_err};
ghost use Rattle.std.specs.Io.KnownBytes.{Appends};
ghost use Rattle.std.specs.List.{flat_map};
ghost use Rattle.std.specs.Vec.{vec_items};
ghost use Rattle.rx_io.specs.Pieces.{text_of};
ghost use Rattle.rx_io.specs.Writing.{AppendsFront};

use crate::fault::Failed;
use crate::sink::{Sink, write_pieces};
use rx_fields::Memory;
use std::alloc::{AllocError, Global};

impl Pieces {
    /// The text, in one piece. A single text isn't copied.
    ///
    /// # Errors
    ///
    /// Out of memory only.
    pub fn joined(self, alloc: Global) -> Result<Vec<u8>, Memory>
        ensures { IfOk result (λ text. text.items ≡ text_of self) }
    {
        match self {
            Pieces::Texts(texts) => one_text(alloc, texts),
            Pieces::Patched(patched) => patched.joined(alloc),
        }
    }

    /// Writes the text to its end, one piece after the other, as `write_all` writes each.
    ///
    /// # Errors
    ///
    /// `Failed` where a write failed.
    pub fn write_to<S: Sink>(&self, alloc: Global, sink: &mut S) -> Result<(), Failed>
        requires { S.failed sink.old ≡ false }
        ensures whole { OnOk result (Appends (S.written sink.old) (S.written sink.new) (text_of self.now)) }
        ensures front { AppendsFront (S.written sink.old) (S.written sink.new) (text_of self.now) }
        ensures failed { S.failed sink.new ≡ is_err result }
    {
        match self {
            Pieces::Texts(texts) => write_pieces(sink, texts),
            Pieces::Patched(patched) => patched.write_to(alloc, sink),
        }
    }
}

/// The pieces of a text, as one text. A single piece isn't copied.
///
/// # Errors
///
/// Out of memory only.
pub fn one_text(alloc: Global, pieces: Vec<Vec<u8>>) -> Result<Vec<u8>, Memory>
    ensures { IfOk result (λ text. text.items ≡ flat_map vec_items pieces.items) }
{
    let mut pieces = pieces;
    if pieces.len() == 1 {
        if let Some(text) = pieces.pop() {
            return Ok(text);
        }
    }
    let mut text = Vec::with_capacity(alloc, len_of(&pieces))?;
    put_pieces(&mut text, &pieces)?;
    Ok(text)
}

// The pieces, one after another.
fn put_pieces(text: &mut Vec<u8>, pieces: &[Vec<u8>]) -> Result<(), AllocError>
    ensures { OnOk result (text.new.items ≡ text.old.items ++ flat_map vec_items pieces.now) }
{
    for piece in pieces {
        text.extend_from_slice(piece)?;
    }
    Ok(())
}

// How many bytes the pieces have, so that the text grows once.
fn len_of(pieces: &[Vec<u8>]) -> usize {
    let mut len: usize = 0;
    for piece in pieces {
        len = len.saturating_add(piece.len());
    }
    len
}
