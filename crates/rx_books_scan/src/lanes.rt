ghost use Rattle.std.specs.Prelude.{◌≡◌, ◌≤◌, true, length, take, IfSome};
ghost use Rattle.std.specs.List.{list_all};
ghost use Rattle.rx_books_scan.specs.Fields.{is_letter};

use std::simd::prelude::*;

/// How many bytes are tested at once.
pub(crate) const LANES: usize = 32;

/// How many of the bytes stand before the first that no id has: a bar, or one that isn't printable. None where that is
/// not one of the first 32.
#[inline(always)]
pub(crate) fn letters(bytes: &[u8]) -> Option<usize>
    requires { LANES ≤ length bytes.now }
    ensures { IfSome result (λ n. list_all is_letter (take n bytes.now) ≡ true) }
{
    let lanes = u8x32::from_slice(bytes);
    let unprintable = lanes.simd_lt(u8x32::splat(b' ')) | lanes.simd_gt(u8x32::splat(b'~'));
    let others = unprintable | lanes.simd_eq(u8x32::splat(b'|'));
    let places = others.to_bitmask();
    if places == 0 {
        return None;
    }
    Some(places.trailing_zeros() as usize)
}
