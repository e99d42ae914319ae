ghost use Rattle.std.specs.Prelude.{◌≡◌, ◌+◌, ◌≤◌, ◌-◌, ◌++◌, length, replicate, drop, slice_range};
ghost use Rattle.rx_d0_values.specs.Echoed.{blanked_parts};
ghost use Rattle.rx_d0_request.specs.Headers.{header_bytes, header_of, is_clean, echo_parts};
ghost use Rattle.rx_d0_request.specs.declared.header.TheConstants.{HEADER_LENGTH};

use rx_d0_values::{Echo, EchoParts};
use rx_text::all_printable;

/// How many bytes the header of a request has (docs/FORMATS.md, "Request header").
pub const HEADER_LENGTH: usize = 56;

/// How many bytes the BIN has, with which a header begins.
pub const BIN_LENGTH: usize = 6;

/// Where the processor control number stands in a header, counted in bytes from 0.
pub const PCN_AT: usize = 10;

/// How many bytes the processor control number has.
pub const PCN_LENGTH: usize = 10;

/// The fields of a header, missing bytes being blanks.
#[derive(Clone, Copy)]
pub(crate) struct Header {
    pub(crate) bin: [u8; BIN_LENGTH],
    pub(crate) version: [u8; 2],
    pub(crate) code: [u8; 2],
    pub(crate) pcn: [u8; PCN_LENGTH],
    pub(crate) count: u8,
    pub(crate) qualifier: [u8; 2],
    pub(crate) provider: [u8; 15],
    pub(crate) date: [u8; 8],
}

/// The text, and the same byte after it up to N bytes.
#[inline(always)]
pub(crate) fn padded<const N: usize>(text: &[u8], byte: u8) -> [u8; N]
    requires { length text.now ≤ N }
    ensures { result ≡ text.now ++ replicate (N - length text.now) byte }
{
    let mut bytes = [byte; N];
    bytes[..text.len()].copy_from_slice(text);
    bytes
}

/// The bytes of the header, missing ones blanks.
#[tactic(auto, unfolding(crate::specs::Headers::header_bytes))]
pub(crate) fn header_bytes(bytes: &[u8]) -> [u8; HEADER_LENGTH]
    ensures { result ≡ header_bytes bytes.now }
{
    if bytes.len() < HEADER_LENGTH {
        padded(bytes, b' ')
    } else {
        padded(&bytes[..HEADER_LENGTH], b' ')
    }
}

// The N bytes from a place on.
fn bytes_at<const N: usize>(front: &[u8; HEADER_LENGTH], at: usize) -> [u8; N]
    requires { at + N ≤ HEADER_LENGTH }
    ensures { result ≡ slice_range front.now at (at + N) }
{
    let mut bytes = [0; N];
    bytes.copy_from_slice(&front[at..at + N]);
    bytes
}

/// What follows the header.
pub(crate) fn after_header(bytes: &[u8]) -> &[u8]
    ensures { result.now ≡ drop HEADER_LENGTH bytes.now }
{
    if bytes.len() < HEADER_LENGTH {
        &[]
    } else {
        &bytes[HEADER_LENGTH..]
    }
}

impl Header {
    /// The fields of these bytes.
    #[tactic(auto, unfolding(crate::specs::Headers::header_of))]
    pub(crate) fn new(front: &[u8; HEADER_LENGTH]) -> Header
        ensures { result ≡ header_of front.now }
    {
        Header {
            bin: bytes_at(front, 0),
            version: bytes_at(front, 6),
            code: bytes_at(front, 8),
            pcn: bytes_at(front, PCN_AT),
            count: front[20],
            qualifier: bytes_at(front, 21),
            provider: bytes_at(front, 23),
            date: bytes_at(front, 38),
        }
    }

    /// What a reply repeats.
    pub(crate) fn echo(&self) -> Echo
        ensures { result ≡ blanked_parts (echo_parts self.now) }
    {
        Echo::blanked(EchoParts {
            version: self.version,
            code: self.code,
            qualifier: self.qualifier,
            provider: self.provider,
            date: self.date,
        })
    }
}

/// Whether the bytes of a header are there, and printable.
#[tactic(auto, unfolding(crate::specs::Headers::is_clean, crate::specs::Headers::header_bytes))]
pub(crate) fn is_clean(bytes: &[u8]) -> bool
    ensures { result ≡ is_clean bytes.now }
{
    bytes.len() >= HEADER_LENGTH && all_printable(&bytes[..HEADER_LENGTH])
}
