ghost use Rattle.std.specs.Prelude.{◌≡◌, ◌≤◌, ◌<◌, ◌+◌, ℕ, List, false, length, take, drop, vec_len, [], Err, IfOk, IfSome, OnErr, OnOk};
ghost use Rattle.std.specs.Io.KnownBytes.{Consumes, IsAtEnd};
ghost use Rattle.rx_io.specs.Reading.{AreFewReads, IsRead, PassesAll, PassesFront, PassesPiece, TakesNothing};
ghost use Rattle.rx_io.specs.Reading.{has_failed, least_room, most_bytes, most_reads};

use crate::consumer::Consumer;
use crate::fault::ReadFault;
use crate::source::{LEAST_ROOM, Source};
use std::alloc::{AllocError, Global};

// The most bytes that an input may have (docs/RULES.md, "Limits").
const MOST_BYTES: usize = 268_435_456;

// The most reads that an input may take; the read that finds the end counts.
const MOST_READS: usize = 4_194_304;

// The room that each read is offered, in bytes.
const ROOM: usize = 65_536;

// What room is made of: it is copied, which takes a tenth of the time of writing zeros one by one.
static ZEROS: [u8; ROOM] = [0; ROOM];

/// Reads an input to its end, whose bytes are then the text (docs/RULES.md, "Limits").
///
/// # Errors
///
/// `Failed` where a read failed, which is never taken for the end; `Long` where the input is too long or takes too
/// many reads; `Memory` where a growth was refused.
pub fn read_all<S: Source>(alloc: Global, source: &mut S) -> Result<Vec<u8>, ReadFault>
    requires { S.failed source.old ≡ false }
    ensures ok { IfOk result (λ text. IsRead (S.left source.old) (S.left source.new) text.items) }
    ensures failed { S.failed source.new ≡ has_failed result }
    ensures long { result ≡ Err ReadFault.Long → IfSome (S.left source.old) (λ bytes. most_reads ≤ length bytes) }
    ensures reads { AreFewReads S.reads S.cramped source.old source.new }
{
    let mut text = room_of(alloc, source.hint());
    let len = fill(source, &mut text)?;
    text.truncate(len);
    Ok(text)
}

// Room for the text that is expected and for the read that finds its end; none if there is no memory for it.
fn room_of(alloc: Global, hint: Option<usize>) -> Vec<u8>
    ensures { result.items ≡ [] }
{
    match Vec::with_capacity(alloc, expected(hint) + LEAST_ROOM) {
        Ok(room) => room,
        Err(_) => Vec::new(alloc),
    }
}

// How many bytes are expected; as many as one read takes where their number is unknown, or 0 as that of a pipe.
fn expected(hint: Option<usize>) -> usize
    ensures { result ≤ most_bytes }
{
    match hint {
        None | Some(0) => ROOM,
        Some(expected) => expected.min(MOST_BYTES),
    }
}

// Reads an input to its end into the front of a text, and answers how many bytes it has.
fn fill<S: Source>(source: &mut S, text: &mut Vec<u8>) -> Result<usize, ReadFault>
    requires { S.failed source.old ≡ false }
    ensures ok { IfOk result (λ len. IsRead (S.left source.old) (S.left source.new) (take len text.new.items)) }
    ensures failed { S.failed source.new ≡ has_failed result }
    ensures long { result ≡ Err ReadFault.Long → IfSome (S.left source.old) (λ bytes. most_reads ≤ length bytes) }
    ensures reads { AreFewReads S.reads S.cramped source.old source.new }
{
    let mut len = 0;
    'by_room: for _ in 0..MOST_READS {
        make_room(text, len)?;
        let count = read_after(source, text.as_mut_slice(), len)?;
        if count == 0 {
            return Ok(len);
        }
        len += count;
    }
    Err(ReadFault::Long)
}

// Room for a read after the first bytes of a text: as far as memory is taken already, but for at most ROOM.
fn make_room(text: &mut Vec<u8>, len: usize) -> Result<(), AllocError>
    requires most { len ≤ most_bytes }
    requires within { len ≤ vec_len text.old }
    ensures front { take len text.new.items ≡ take len text.old.items }
    ensures room { OnOk result (len + least_room ≤ vec_len text.new) }
{
    if text.len() - len >= LEAST_ROOM {
        return Ok(());
    }
    let room = room_within(text.capacity().saturating_sub(len));
    let missing = len + room - text.len();
    text.extend_from_slice(&ZEROS[..missing])
}

// How much room a read is offered where this much is there.
fn room_within(there: usize) -> usize
    ensures least { least_room ≤ result }
    ensures most { result ≤ ROOM }
{
    if there < LEAST_ROOM {
        return ROOM;
    }
    there.min(ROOM)
}

// Reads the next piece into a text after its first bytes; none at the end.
fn read_after<S: Source>(source: &mut S, text: &mut [u8], len: usize) -> Result<usize, ReadFault>
    requires failed { S.failed source.old ≡ false }
    requires room { len + least_room ≤ length text.old }
    requires most { len ≤ most_bytes }
    ensures front { take len text.new ≡ take len text.old }
    ensures fits { IfOk result (λ count. len + count ≤ length text.new) }
    ensures within { IfOk result (λ count. len + count ≤ most_bytes) }
    ensures piece { IfOk result (λ count. Consumes (S.left source.old) (S.left source.new) (take count (drop len text.new))) }
    ensures end { IfOk result (λ count. count ≡ 0 → IsAtEnd (S.left source.new)) }
    ensures failed { S.failed source.new ≡ has_failed result }
    ensures long { result ≡ Err ReadFault.Long → IfSome (S.left source.old) (λ bytes. most_bytes < len + length bytes) }
    ensures reads { S.reads source.new ≤ S.reads source.old + 1 }
    ensures cramped { S.cramped source.old ≡ false → S.cramped source.new ≡ false }
{
    read_within(source, &mut text[len..], len)
}

// Reads the next piece to the front of the room; none at the end.
fn read_within<S: Source>(source: &mut S, room: &mut [u8], total: usize) -> Result<usize, ReadFault>
    requires failed { S.failed source.old ≡ false }
    requires room { least_room ≤ length room.old }
    requires total { total ≤ most_bytes }
    ensures fits { IfOk result (λ count. count ≤ length room.new) }
    ensures within { IfOk result (λ count. total + count ≤ most_bytes) }
    ensures piece { IfOk result (λ count. Consumes (S.left source.old) (S.left source.new) (take count room.new)) }
    ensures end { IfOk result (λ count. count ≡ 0 → IsAtEnd (S.left source.new)) }
    ensures failed { S.failed source.new ≡ has_failed result }
    ensures long { result ≡ Err ReadFault.Long → IfSome (S.left source.old) (λ bytes. most_bytes < total + length bytes) }
    ensures reads { S.reads source.new ≤ S.reads source.old + 1 }
    ensures cramped { S.cramped source.old ≡ false → S.cramped source.new ≡ false }
{
    let count = source.read(room)?;
    if count > MOST_BYTES - total {
        return Err(ReadFault::Long);
    }
    Ok(count)
}

/// Reads an input to its end, and hands each piece on as it comes, so that no more of it is kept than the consumer
/// keeps. Limits and errors are those of `read_all`; after an error the consumer has taken a front of the input.
pub fn read_each<S: Source, C: Consumer>(
    alloc: Global,
    source: &mut S,
    consumer: &mut C,
) -> Result<(), ReadFault>
    requires { S.failed source.old ≡ false }
    ensures ok { OnOk result (PassesAll (S.left source.old) (S.left source.new) (C.stands_for consumer.old) (C.stands_for consumer.new)) }
    ensures failed { S.failed source.new ≡ has_failed result }
    ensures long { result ≡ Err ReadFault.Long → IfSome (S.left source.old) (λ bytes. most_reads ≤ length bytes) }
    ensures reads { AreFewReads S.reads S.cramped source.old source.new }
    ensures front { OnErr result (PassesFront (S.left source.old) (C.stands_for consumer.old) (C.stands_for consumer.new)) }
{
    let mut room = room(alloc, source.hint())?;
    let mut total = 0;
    'by_piece: for _ in 0..MOST_READS {
        let count = read_piece(source, consumer, room.as_mut_slice(), total)?;
        if count == 0 {
            return Ok(());
        }
        total += count;
    }
    Err(ReadFault::Long)
}

// Room for a piece, less where fewer bytes are expected.
fn room(alloc: Global, hint: Option<usize>) -> Result<Vec<u8>, AllocError>
    ensures { IfOk result (λ room. least_room ≤ vec_len room) }
{
    let room = room_within(expected(hint).max(LEAST_ROOM));
    Vec::from_slice(alloc, &ZEROS[..room])
}

// Reads the next piece, and hands it on; none at the end.
fn read_piece<S: Source, C: Consumer>(
    source: &mut S,
    consumer: &mut C,
    room: &mut [u8],
    total: usize,
) -> Result<usize, ReadFault>
    requires failed { S.failed source.old ≡ false }
    requires room { least_room ≤ length room.old }
    requires total { total ≤ most_bytes }
    ensures within { IfOk result (λ count. total + count ≤ most_bytes) }
    ensures piece { IfOk result (PassesPiece (S.left source.old) (S.left source.new) (C.stands_for consumer.old)
        (C.stands_for consumer.new)) }
    ensures end { IfOk result (λ count. count ≡ 0 → IsAtEnd (S.left source.new)) }
    ensures failed { S.failed source.new ≡ has_failed result }
    ensures long { result ≡ Err ReadFault.Long → IfSome (S.left source.old) (λ bytes. most_bytes < total + length bytes) }
    ensures reads { S.reads source.new ≤ S.reads source.old + 1 }
    ensures cramped { S.cramped source.old ≡ false → S.cramped source.new ≡ false }
    ensures front { OnErr result (TakesNothing (C.stands_for consumer.old) (C.stands_for consumer.new)) }
{
    let count = read_within(source, room, total)?;
    consumer.take(&room[..count])?;
    Ok(count)
}
