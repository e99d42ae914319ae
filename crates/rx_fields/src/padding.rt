ghost use Rattle.std.specs.Prelude.{◌≡◌, ◌≤◌, length};
ghost use Rattle.std.specs.Ordering.{nat_cmp};
ghost use Rattle.std.specs.Cmp.Lexicographic.{slice_cmp};
ghost use Rattle.rx_fields.specs.Padded.{padded};

use std::cmp::Ordering;

// The text, and zeros up to `MAX` bytes.
pub(crate) fn padded<const MAX: usize>(text: &[u8]) -> [u8; MAX]
    requires { length text.now ≤ MAX }
    ensures { result ≡ padded MAX text.now }
{
    let mut bytes = [0; MAX];
    bytes[..text.len()].copy_from_slice(text);
    bytes
}

// The order of two texts of one length by their bytes, eight at once.
#[inline]
pub(crate) fn compare(first: &[u8], second: &[u8]) -> Ordering
    requires { length first.now ≡ length second.now }
    ensures { result ≡ slice_cmp nat_cmp first.now second.now }
{
    let mut left = first;
    let mut right = second;
    while let Some((word, others)) = left.split_first_chunk::<8>() {
        let Some((against, rest)) = right.split_first_chunk::<8>() else {
            unreachable!();
        };
        let order = u64::from_be_bytes(*word).cmp(&u64::from_be_bytes(*against));
        if !order.is_eq() {
            return order;
        }
        left = others;
        right = rest;
    }
    compare_rest(left, right)
}

// The same of texts that have no eight bytes more: four at once, and then one by one.
#[inline]
fn compare_rest(left: &[u8], right: &[u8]) -> Ordering
    requires { length left.now ≡ length right.now }
    ensures { result ≡ slice_cmp nat_cmp left.now right.now }
{
    let Some((half, others)) = left.split_first_chunk::<4>() else {
        return left.cmp(right);
    };
    let Some((against, rest)) = right.split_first_chunk::<4>() else {
        unreachable!();
    };
    let order = u32::from_be_bytes(*half).cmp(&u32::from_be_bytes(*against));
    if !order.is_eq() {
        return order;
    }
    others.cmp(rest)
}
