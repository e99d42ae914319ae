ghost use Rattle.std.specs.Prelude.{◌≡◌, ◌++◌, IsTrue, OnOk, [], false, is_err};
ghost use Rattle.std.specs.Io.KnownBytes.{Appends};
ghost use Rattle.rx_io.specs.Writing.{AppendsFront, Gathers};

use crate::fault::Failed;
use crate::sink::{Sink, write_all};
use std::alloc::Global;

// How many bytes are gathered before they are written.
const FULL: usize = 65_536;

// This many bytes are written from where they stand.
const LONG: usize = 4_096;

/// Room for what is gathered: none if there is no memory.
pub(crate) fn room(alloc: Global) -> Vec<u8>
    ensures { result.items ≡ [] }
{
    match Vec::with_capacity(alloc, FULL + LONG) {
        Ok(room) => room,
        Err(_) => Vec::new(alloc),
    }
}

/// Writes a piece after what is gathered, or gathers it too, where it is short.
pub(crate) fn put_gathered<S: Sink>(
    sink: &mut S,
    gathered: &mut Vec<u8>,
    piece: &[u8],
) -> Result<(), Failed>
    requires { S.failed sink.old ≡ false }
    ensures whole { OnOk result (Gathers (S.written sink.old) (S.written sink.new) gathered.new.items
        (gathered.old.items ++ piece.now)) }
    ensures front { AppendsFront (S.written sink.old) (S.written sink.new) (gathered.old.items ++ piece.now) }
    ensures failed { S.failed sink.new ≡ is_err result }
{
    if gather(gathered, piece) {
        return Ok(());
    }
    write_gathered(sink, gathered)?;
    write_all(sink, piece)
}

/// Writes what is gathered.
pub(crate) fn write_gathered<S: Sink>(sink: &mut S, gathered: &mut Vec<u8>) -> Result<(), Failed>
    requires { S.failed sink.old ≡ false }
    ensures whole { OnOk result (Appends (S.written sink.old) (S.written sink.new) gathered.old.items) }
    ensures none_left { OnOk result (gathered.new.items ≡ []) }
    ensures front { AppendsFront (S.written sink.old) (S.written sink.new) gathered.old.items }
    ensures failed { S.failed sink.new ≡ is_err result }
{
    write_all(sink, gathered)?;
    gathered.clear();
    Ok(())
}

// Gathers a piece, where it is short, not too much is gathered, and there is memory.
fn gather(gathered: &mut Vec<u8>, piece: &[u8]) -> bool
    ensures more { IsTrue result → gathered.new.items ≡ gathered.old.items ++ piece.now }
    ensures same { result ≡ false → gathered.new.items ≡ gathered.old.items }
{
    if piece.len() >= LONG || gathered.len() >= FULL {
        return false;
    }
    gathered.extend_from_slice(piece).is_ok()
}
