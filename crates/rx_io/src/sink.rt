ghost use Rattle.std.specs.Prelude.{◌≡◌, ◌||◌, ℕ, Bool, List, Option, false, is_err, OnOk, length};
ghost use Rattle.std.specs.Io.{WritesAtMost};
ghost use Rattle.std.specs.List.{flat_map};
ghost use Rattle.std.specs.Vec.{vec_items};
ghost use Rattle.std.specs.Io.KnownBytes.{Appends, WriteAppends};
ghost use Rattle.rx_io.specs.Writing.{AppendsFront, is_failed_write};

use crate::fault::Failed;

/// A device that bytes are written to.
pub trait Sink {
    /// The bytes that were written, where the device reports them.
    ghost written: { Self → Option (List ℕ) };

    /// Whether a write to it ever failed, or took none of a piece that has bytes.
    ghost failed: { Self → Bool };

    /// Writes bytes from the front of the piece, and answers how many.
    fn write(&mut self, piece: &[u8]) -> Result<usize, Failed>
        ensures bound { WritesAtMost result piece.now }
        ensures bytes { WriteAppends (written self.old) (written self.new) result piece.now }
        ensures failed { failed self.new ≡ (failed self.old || is_failed_write result piece.now) };
}

/// Writes the text to its end. A write that takes none of the bytes that are left is a failure. After a failure a
/// front of the text was written.
///
/// # Errors
///
/// `Failed` where a write failed.
pub fn write_all<S: Sink>(sink: &mut S, text: &[u8]) -> Result<(), Failed>
    requires { S.failed sink.old ≡ false }
    ensures whole { OnOk result (Appends (S.written sink.old) (S.written sink.new) text.now) }
    ensures front { AppendsFront (S.written sink.old) (S.written sink.new) text.now }
    ensures failed { S.failed sink.new ≡ is_err result }
{
    let mut done = 0;
    'by_piece: while done < text.len() {
        let taken = sink.write(&text[done..])?;
        if taken == 0 {
            return Err(Failed);
        }
        done += taken;
    }
    Ok(())
}

/// Writes a text that is in pieces to its end, one piece after the other, as `write_all` writes each.
///
/// # Errors
///
/// `Failed` where a write failed.
pub fn write_pieces<S: Sink>(sink: &mut S, pieces: &[Vec<u8>]) -> Result<(), Failed>
    requires { S.failed sink.old ≡ false }
    ensures whole { OnOk result (Appends (S.written sink.old) (S.written sink.new) (flat_map vec_items pieces.now)) }
    ensures front { AppendsFront (S.written sink.old) (S.written sink.new) (flat_map vec_items pieces.now) }
    ensures failed { S.failed sink.new ≡ is_err result }
{
    for piece in pieces {
        write_all(sink, piece)?;
    }
    Ok(())
}
