ghost use Rattle.std.specs.Prelude.{◌≡◌, ◌≤◌, ◌<◌, ◌^◌, ◌++◌, ◌∷◌, IfSome, decimal, take};
ghost use Rattle.rx_fields.specs.declared.limits.TheConstants.{MOST_AUTHORIZATION};
ghost use Rattle.rx_fields.specs.Calendar.{IsCivil, date_text};
ghost use Rattle.rx_fields.specs.Digits.{digits_text};
ghost use Rattle.rx_fields.specs.Text.{IsId};
ghost use Rattle.rx_books_scan.specs.Fields.{AreDigits, is_plain};

use crate::lanes::{LANES, letters};
use rx_fields::{Authorization, Day, Product, date_read};

// The most digits that are read here: what has more is left to the exact reader.
const MOST_DIGITS: usize = 18;

/// The bytes before the place, where this byte stands, and what follows it.
#[inline(always)]
pub(crate) fn cut_at(bytes: &[u8], at: usize, byte: u8) -> Option<(&[u8], &[u8])>
    ensures front { IfSome result (λ x. x.0.now ≡ take at bytes.now) }
    ensures whole { IfSome result (λ x. bytes.now ≡ x.0.now ++ byte ∷ x.1.now) }
{
    if at >= bytes.len() || bytes[at] != byte {
        return None;
    }
    Some((&bytes[..at], &bytes[at + 1..]))
}

/// What follows the kind that the bytes begin with, and the bar after it.
#[inline(always)]
pub(crate) fn kind_at(bytes: &[u8], kind: u8) -> Option<&[u8]>
    ensures { IfSome result (λ rest. bytes.now ≡ kind ∷ 124 ∷ rest.now) }
{
    let [first, b'|', rest @ ..] = bytes else {
        return None;
    };
    if *first != kind {
        return None;
    }
    Some(rest)
}

/// The id of at most `max` bytes that the bytes begin with, and what follows the bar after it. None, too, where fewer
/// bytes are left than are tested at once.
#[inline(always)]
pub(crate) fn id_at(bytes: &[u8], max: usize) -> Option<(&[u8], &[u8])>
    ensures id { IfSome result (λ x. IsId max x.0.now) }
    ensures whole { IfSome result (λ x. bytes.now ≡ x.0.now ++ 124 ∷ x.1.now) }
{
    if bytes.len() < LANES {
        return None;
    }
    let at = letters(bytes)?;
    let (text, rest) = cut_at(bytes, at, b'|')?;
    if text.is_empty() || text.len() > max || text[text.len() - 1] == b' ' {
        return None;
    }
    Some((text, rest))
}

/// The date that the bytes begin with, and what follows the bar after it.
pub(crate) fn day_at(bytes: &[u8]) -> Option<(Day, &[u8])>
    ensures day { IfSome result (λ x. IsCivil x.0) }
    ensures whole { IfSome result (λ x. bytes.now ≡ date_text x.0 ++ 124 ∷ x.1.now) }
{
    let (field, rest) = cut_at(bytes, 8, b'|')?;
    let day = date_read(field).ok()?;
    Some((day, rest))
}

/// The product that the bytes begin with, and what follows the bar after it.
pub(crate) fn product_at(bytes: &[u8]) -> Option<(Product, &[u8])>
    ensures product { IfSome result (λ x. x.0 < 10 ^ 11) }
    ensures whole { IfSome result (λ x. bytes.now ≡ digits_text 11 x.0 ++ 124 ∷ x.1.now) }
{
    let (field, rest) = cut_at(bytes, 11, b'|')?;
    let product = Product::new(field)?;
    Some((product, rest))
}

/// The authorization number that the bytes begin with, and what follows the line feed after it.
pub(crate) fn authorization_at(bytes: &[u8]) -> Option<(Authorization, &[u8])>
    ensures number { IfSome result (λ x. x.0 ≤ MOST_AUTHORIZATION) }
    ensures whole { IfSome result (λ x. bytes.now ≡ digits_text 15 x.0 ++ 10 ∷ x.1.now) }
{
    let (number, at) = digits_at(bytes)?;
    if at != 15 {
        return None;
    }
    let (_field, rest) = cut_at(bytes, at, b'\n')?;
    let number = Authorization::new(number)?;
    Some((number, rest))
}

/// The number that the bytes begin with, without leading zeros, and what follows the byte after it.
#[inline(always)]
pub(crate) fn number_at(bytes: &[u8], end: u8) -> Option<(u64, &[u8])>
    ensures short { IfSome result (λ x. x.0 < 10 ^ 18) }
    ensures whole { IfSome result (λ x. bytes.now ≡ decimal x.0 ++ end ∷ x.1.now) }
{
    let (number, at) = digits_at(bytes)?;
    let (field, rest) = cut_at(bytes, at, end)?;
    if !is_plain(field) {
        return None;
    }
    Some((number, rest))
}

// Whether digits are some, with no zero before another.
#[inline(always)]
fn is_plain(digits: &[u8]) -> bool
    ensures { result ≡ is_plain digits.now }
{
    match digits {
        [] => false,
        [_] => true,
        [first, ..] => *first != b'0',
    }
}

// The number of the digits that the bytes begin with, up to another byte, and how many there are.
#[inline(always)]
fn digits_at(bytes: &[u8]) -> Option<(u64, usize)>
    ensures { IfSome result (λ x. AreDigits bytes.now x.0 x.1) }
{
    let mut number = 0u64;
    for (at, byte) in bytes.iter().enumerate() {
        if *byte < b'0' || *byte > b'9' {
            return Some((number, at));
        }
        if at >= MOST_DIGITS {
            return None;
        }
        number = number * 10 + u64::from(*byte - b'0');
    }
    None
}
