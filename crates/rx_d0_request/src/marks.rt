// The places of a byte in a text as the bits of a number: bit k stands for place k.
ghost use Rattle.std.specs.Prelude.{◌≡◌, ◌==◌, ◌<◌, ◌≤◌, count_by, length, take};
ghost use Rattle.rx_d0_request.specs.Marks.{marks_of};

use std::simd::prelude::*;

/// How many bytes' marks a number has.
pub(crate) const MOST: usize = 64;

// How many bytes a step over a shorter text looks at.
const CHUNK: usize = 16;

// The marks of the first 64 bytes.
#[inline(always)]
fn window_marks(text: &[u8], byte: u8) -> u64
    requires { 64 ≤ length text.now }
    ensures { result ≡ marks_of byte (take 64 text.now) }
{
    let window = u8x64::from_slice(text);
    window.simd_eq(u8x64::splat(byte)).to_bitmask()
}

// The marks of the first 16 bytes.
#[inline(always)]
fn chunk_marks(text: &[u8], byte: u8) -> u64
    requires { 16 ≤ length text.now }
    ensures { result ≡ marks_of byte (take 16 text.now) }
{
    let chunk = u8x16::from_slice(text);
    chunk.simd_eq(u8x16::splat(byte)).to_bitmask()
}

// The marks of fewer than 64 bytes, from the last to the first. What is left over at the end is read with bytes before
// it: a copy that fills it up costs more than the whole text.
#[inline(always)]
fn chunked_marks(text: &[u8], byte: u8) -> u64
    requires some { 16 ≤ length text.now }
    requires few { length text.now < 64 }
    ensures { result ≡ marks_of byte text.now }
{
    let left_over = text.len() % CHUNK;
    let mut at = text.len() - left_over;
    let mut marks = chunk_marks(&text[text.len() - CHUNK..], byte) >> (CHUNK - left_over);
    while at > 0 {
        at -= CHUNK;
        marks = (marks << CHUNK) + chunk_marks(&text[at..], byte);
    }
    marks
}

// The marks of fewer than 16 bytes.
#[inline(always)]
fn single_marks(text: &[u8], byte: u8) -> u64
    requires { length text.now < 16 }
    ensures { result ≡ marks_of byte text.now }
{
    let mut at = text.len();
    let mut marks = 0;
    while at > 0 {
        at -= 1;
        marks = marks * 2 + u64::from(text[at] == byte);
    }
    marks
}

/// The marks of a byte among the first 64 of a text, or among all that there are.
#[inline(always)]
pub(crate) fn first_marks(text: &[u8], byte: u8) -> u64
    ensures { result ≡ marks_of byte (take 64 text.now) }
{
    if text.len() >= MOST {
        return window_marks(text, byte);
    }
    if text.len() >= CHUNK {
        chunked_marks(text, byte)
    } else {
        single_marks(text, byte)
    }
}

/// How often a byte stands in a text.
pub(crate) fn count_of(text: &[u8], byte: u8) -> usize
    ensures { result ≡ count_by (λ b. b == byte) text.now }
{
    let mut count = 0;
    let mut rest = text;
    while rest.len() >= MOST {
        count += window_marks(rest, byte).count_ones() as usize;
        rest = &rest[MOST..];
    }
    count + first_marks(rest, byte).count_ones() as usize
}
