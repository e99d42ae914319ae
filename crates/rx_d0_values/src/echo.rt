ghost use Rattle.std.specs.Prelude.{◌≡◌};

use rx_text::{all_printable, is_printable};
use std::marker::Model;

/// The bytes of a request's header that a reply repeats.
#[derive(Clone, Copy, PartialEq, Eq)]
pub struct EchoParts {
    /// The version, as `D0`.
    pub version: [u8; 2],
    /// The transaction code, as `B1`.
    pub code: [u8; 2],
    /// The service provider id qualifier, as `01`.
    pub qualifier: [u8; 2],
    /// The service provider id, filled with blanks.
    pub provider: [u8; 15],
    /// The date of service, CCYYMMDD.
    pub date: [u8; 8],
}

/// What a reply repeats of its request: only printable bytes (docs/FORMATS.md, "Reply transmission").
#[derive(Clone, Copy, PartialEq, Eq)]
pub struct Echo {
    parts: EchoParts,
}

impl Model for Echo {
    ghost use Rattle.rx_d0_values.specs.declared.echo.EchoParts.{EchoParts};
    ghost use Rattle.rx_d0_values.specs.Echoed.{IsEcho};

    ghost Value = { EchoParts };

    ghost view = { λ e. e.parts };

    ghost invariant = { λ e. IsEcho e.parts };

    ghost inverse = { λ parts. record { parts = parts } };
}

ghost use Rattle.std.specs.Prelude.{if◌then◌else◌};
ghost use Rattle.rx_text.specs.Bytes.{is_printable};
ghost use Rattle.rx_d0_values.specs.Echoed.{echo_of, blanked, blanked_parts, IsEcho};

impl Echo {
    /// The echo of these bytes; None where one of them isn't printable.
    pub fn new(parts: EchoParts) -> Option<Echo>
        ensures { result ≡ echo_of parts }
    {
        if all_printable(&parts.version)
            && all_printable(&parts.code)
            && all_printable(&parts.qualifier)
            && all_printable(&parts.provider)
            && all_printable(&parts.date)
        {
            Some(Echo { parts })
        } else {
            None
        }
    }

    /// The echo of these bytes, each unprintable one a blank.
    pub fn blanked(parts: EchoParts) -> Echo
        ensures { result ≡ blanked_parts parts }
    {
        Echo {
            parts: EchoParts {
                version: printable(parts.version),
                code: printable(parts.code),
                qualifier: printable(parts.qualifier),
                provider: printable(parts.provider),
                date: printable(parts.date),
            },
        }
    }

    /// The echo's bytes.
    pub fn parts(&self) -> &EchoParts
        ensures value { result.now ≡ self.now }
        ensures printable { IsEcho self.now }
    {
        &self.parts
    }
}

// The bytes, each unprintable one a blank.
fn printable<const N: usize>(mut bytes: [u8; N]) -> [u8; N]
    ensures { result ≡ blanked bytes.entry }
{
    blank_unprintable(&mut bytes);
    bytes
}

fn blank_unprintable(bytes: &mut [u8])
    ensures { bytes.new ≡ blanked bytes.old }
{
    for byte in bytes.iter_mut() {
        *byte = printable_or_blank(*byte);
    }
}

fn printable_or_blank(byte: u8) -> u8
    ensures { result ≡ (if is_printable byte then byte else 32) }
{
    if is_printable(byte) { byte } else { b' ' }
}
