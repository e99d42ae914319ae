ghost use Rattle.std.specs.Prelude.{◌≡◌, ◌<◌, ◌^◌, length};
ghost use Rattle.rx_batch.specs.declared.layout.TheConstants.{STX};
ghost use Rattle.rx_run_log.specs.Traffic.{count_of};

use rx_batch::STX;
use std::simd::prelude::*;

// How many bytes are compared at once.
const LANES: usize = 64;

/// How many line feeds and how many STX some bytes have.
#[derive(Clone, Copy)]
pub(crate) struct Marks {
    /// The line feeds.
    pub(crate) line_feeds: u64,
    /// STX, which begins each record of a batch.
    pub(crate) starts: u64,
}

impl Marks {
    /// Those of the bytes.
    pub(crate) fn of(bytes: &[u8]) -> Marks
        requires { length bytes.now < 2 ^ 64 }
        ensures line_feeds { result.line_feeds ≡ count_of 10 bytes.now }
        ensures starts { result.starts ≡ count_of STX bytes.now }
    {
        let mut line_feeds = 0;
        let mut starts = 0;
        let mut rest = bytes;
        while let Some((block, after)) = rest.split_first_chunk::<LANES>() {
            line_feeds += count_in(block, b'\n');
            starts += count_in(block, STX);
            rest = after;
        }
        Marks {
            line_feeds: line_feeds + count_of(rest, b'\n'),
            starts: starts + count_of(rest, STX),
        }
    }
}

/// How many of the bytes are line feeds.
pub fn line_feeds_in(bytes: &[u8]) -> u64
    ensures { result ≡ count_of 10 bytes.now }
{
    if bytes.len() < LANES {
        return count_of(bytes, b'\n');
    }
    line_feeds_by_blocks(bytes)
}

// The same, where STX aren't counted with them.
fn line_feeds_by_blocks(bytes: &[u8]) -> u64
    requires { length bytes.now < 2 ^ 64 }
    ensures { result ≡ count_of 10 bytes.now }
{
    let mut count = 0;
    let mut rest = bytes;
    while let Some((block, after)) = rest.split_first_chunk::<LANES>() {
        count += count_in(block, b'\n');
        rest = after;
    }
    count + count_of(rest, b'\n')
}

// How many bytes of a block are `mark`.
#[inline(always)]
fn count_in(block: &[u8; LANES], mark: u8) -> u64
    ensures { result ≡ count_of mark block.now }
{
    let equal = u8x64::from_array(*block).simd_eq(u8x64::splat(mark));
    u64::from(equal.to_bitmask().count_ones())
}

// How many of the bytes are `mark`, one by one.
fn count_of(bytes: &[u8], mark: u8) -> u64
    ensures { result ≡ count_of mark bytes.now }
{
    bytes.iter().filter(|byte| **byte == mark).count() as u64
}
