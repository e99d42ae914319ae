//! Reading the header.

ghost use Rattle.std.specs.Prelude.{◌≡◌, option_map};
ghost use Rattle.rx_d0_reply.specs.Reading.{status_at, front_at, back_at, header_at};

use super::fields::{bytes_at, number_at};
use rx_d0_values::{Echo, EchoParts};
use rx_fields::Count;

/// Whether the request's header was accepted.
#[derive(Clone, Copy)]
pub(super) enum Status {
    Heard,
    Rejected,
}

/// What a reply's header says.
#[derive(Clone, Copy)]
pub(super) struct Header {
    pub(super) echo: Echo,
    pub(super) count: Count,
    pub(super) status: Status,
}

// The header up to its status.
#[derive(Clone, Copy)]
struct Front {
    version: [u8; 2],
    code: [u8; 2],
    count: Count,
    status: Status,
}

// The header after its status.
#[derive(Clone, Copy)]
struct Back {
    qualifier: [u8; 2],
    provider: [u8; 15],
    date: [u8; 8],
}

#[tactic(auto, unfolding(crate::specs::Reading::status_at))]
fn status_at(bytes: &[u8]) -> Option<(Status, &[u8])>
    ensures { option_map (λ x. (x.0, x.1.now)) result ≡ status_at bytes.now }
{
    match bytes {
        [b'A', rest @ ..] => Some((Status::Heard, rest)),
        [b'R', rest @ ..] => Some((Status::Rejected, rest)),
        _ => None,
    }
}

#[tactic(auto, unfolding(crate::specs::Reading::front_at))]
fn front_at(bytes: &[u8]) -> Option<(Front, &[u8])>
    ensures { option_map (λ x. (x.0, x.1.now)) result ≡ front_at bytes.now }
{
    let (version, rest) = bytes_at(bytes)?;
    let (code, rest) = bytes_at(rest)?;
    let Some((count, rest)) = number_at(1, rest) else {
        return None;
    };
    let (status, rest) = status_at(rest)?;
    let front = Front {
        version,
        code,
        count,
        status,
    };
    Some((front, rest))
}

#[tactic(auto, unfolding(crate::specs::Reading::back_at))]
fn back_at(bytes: &[u8]) -> Option<(Back, &[u8])>
    ensures { option_map (λ x. (x.0, x.1.now)) result ≡ back_at bytes.now }
{
    let (qualifier, rest) = bytes_at(bytes)?;
    let (provider, rest) = bytes_at(rest)?;
    let (date, rest) = bytes_at(rest)?;
    let back = Back {
        qualifier,
        provider,
        date,
    };
    Some((back, rest))
}

// The header, and what follows.
#[tactic(auto, unfolding(crate::specs::Reading::header_at))]
pub(super) fn header_at(bytes: &[u8]) -> Option<(Header, &[u8])>
    ensures { option_map (λ x. (x.0, x.1.now)) result ≡ header_at bytes.now }
{
    let Some((front, rest)) = front_at(bytes) else {
        return None;
    };
    let (back, rest) = back_at(rest)?;
    let Front {
        version,
        code,
        count,
        status,
    } = front;
    let Back {
        qualifier,
        provider,
        date,
    } = back;
    let echo = Echo::new(EchoParts {
        version,
        code,
        qualifier,
        provider,
        date,
    })?;
    let header = Header {
        echo,
        count,
        status,
    };
    Some((header, rest))
}
