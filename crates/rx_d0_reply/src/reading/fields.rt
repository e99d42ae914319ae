//! Reading the parts of fields.

ghost use Rattle.std.specs.Prelude.{◌≡◌, ◌≤◌, option_map};
ghost use Rattle.rx_d0_reply.specs.Readers.{after, behind, bytes_at, digits_at, number_at, signed_at};

use rx_fields::{Bounded, number_read, signed_read, signed_write};

// What follows a text.
#[tactic(auto, unfolding(crate::specs::Readers::after))]
pub(super) fn after<'a>(text: &[u8], bytes: &'a [u8]) -> Option<&'a [u8]>
    ensures { option_map (λ rest. rest.now) result ≡ after text.now bytes.now }
{
    bytes.strip_prefix(text)
}

// What follows that many copies of a text.
pub(super) fn behind<'a>(count: u64, text: &[u8], bytes: &'a [u8]) -> Option<&'a [u8]>
    ensures { option_map (λ rest. rest.now) result ≡ behind count text.now bytes.now }
{
    let mut rest = bytes;
    for _ in 0..count {
        rest = after(text, rest)?;
    }
    Some(rest)
}

// N bytes, and what follows.
#[tactic(auto, unfolding(crate::specs::Readers::bytes_at))]
pub(super) fn bytes_at<const N: usize>(bytes: &[u8]) -> Option<([u8; N], &[u8])>
    ensures { option_map (λ x. (x.0, x.1.now)) result ≡ bytes_at N bytes.now }
{
    let (front, rest) = bytes.split_first_chunk::<N>()?;
    Some((*front, rest))
}

// The number of that many digits, and what follows.
#[tactic(auto, unfolding(crate::specs::Readers::digits_at))]
fn digits_at(count: usize, bytes: &[u8]) -> Option<(u64, &[u8])>
    requires some { 1 ≤ count }
    requires few { count ≤ 19 }
    ensures { option_map (λ x. (x.0, x.1.now)) result ≡ digits_at count bytes.now }
{
    if bytes.len() < count {
        return None;
    }
    let (front, rest) = bytes.split_at(count);
    match number_read(front, count) {
        Ok(number) => Some((number, rest)),
        Err(_) => None,
    }
}

// A number within its bounds, in that many digits, and what follows.
#[tactic(auto, unfolding(crate::specs::Readers::number_at))]
pub(super) fn number_at<const LOW: u64, const HIGH: u64>(
    count: usize,
    bytes: &[u8],
) -> Option<(Bounded<LOW, HIGH>, &[u8])>
    requires some { 1 ≤ count }
    requires few { count ≤ 19 }
    ensures { option_map (λ x. (x.0, x.1.now)) result ≡ number_at LOW HIGH count bytes.now }
{
    let (number, rest) = digits_at(count, bytes)?;
    let number = Bounded::new(number)?;
    Some((number, rest))
}

// An amount in its one spelling, and what follows.
#[tactic(auto, unfolding(crate::specs::Readers::signed_at))]
pub(super) fn signed_at(bytes: &[u8]) -> Option<(i64, &[u8])>
    ensures { option_map (λ x. (x.0, x.1.now)) result ≡ signed_at bytes.now }
{
    if bytes.len() < 8 {
        return None;
    }
    let (front, rest) = bytes.split_at(8);
    let Ok(amount) = signed_read(front) else {
        return None;
    };
    if front == signed_write(amount).as_slice() {
        Some((amount, rest))
    } else {
        None
    }
}
