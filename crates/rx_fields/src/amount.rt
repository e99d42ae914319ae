ghost use Rattle.std.specs.Prelude.{◌≡◌, ◌≤◌, ◌<◌, ◌^◌, Ok, IfOk, IfSome, unsigned_abs};
ghost use Rattle.rx_fields.specs.Amount.{signed, last_of, signed_of, signed_text};
ghost use Rattle.rx_fields.specs.declared.limits.TheConstants.{MOST_CENTS};

use crate::digits::{digits_write, value};
use crate::fault::FieldFault;
use rx_text::all_digits;

// What a last character says: whether the amount is negative, and its last digit.
fn last_digit(byte: u8) -> Option<(bool, u8)>
    ensures value { result ≡ last_of byte }
    ensures within { IfSome result (λ last. last.1 < 10) }
{
    match byte {
        b'0'..=b'9' => Some((false, byte - b'0')),
        b'{' => Some((false, 0)),
        b'A'..=b'I' => Some((false, byte - b'A' + 1)),
        b'}' => Some((true, 0)),
        b'J'..=b'R' => Some((true, byte - b'J' + 1)),
        _ => None,
    }
}

// The amount of a sign and a size.
fn signed(is_negative: bool, magnitude: u64) -> i64
    requires { magnitude < 2 ^ 62 }
    ensures value { result ≡ signed is_negative magnitude }
    ensures within { unsigned_abs result ≡ magnitude }
{
    let amount = magnitude as i64;
    if is_negative { -amount } else { amount }
}

/// The amount, in cents, of 1 to 8 characters: digits, the last of them overpunched or plain. A plain last digit is
/// positive, and negative zero is 0 (docs/FORMATS.md, "Overpunched amounts").
pub fn signed_read(bytes: &[u8]) -> Result<i64, FieldFault>
    ensures value { result ≡ signed_of bytes.now }
    ensures within { IfOk result (λ cents. unsigned_abs cents ≤ MOST_CENTS) }
{
    if bytes.is_empty() {
        return Err(FieldFault::Empty);
    }
    if bytes.len() > 8 {
        return Err(FieldFault::TooLong);
    }
    let (front, last) = bytes.split_at(bytes.len() - 1);
    if !all_digits(front) {
        return Err(FieldFault::NotDigit);
    }
    let Some((negative, digit)) = last_digit(last[0]) else {
        return Err(FieldFault::NotDigit);
    };
    Ok(signed(negative, value(front) * 10 + u64::from(digit)))
}

// The characters of an amount.
#[tactic(auto, unfolding(crate::specs::Amount::signed_text, crate::specs::Digits::digits_text))]
fn spelled(amount: i64) -> [u8; 8]
    requires { unsigned_abs amount ≤ MOST_CENTS }
    ensures { result ≡ signed_text amount }
{
    let magnitude = amount.unsigned_abs();
    let front: [u8; 7] = digits_write(magnitude / 10);
    let digit = (magnitude % 10) as u8;
    let last = if digit == 0 {
        if amount < 0 { b'}' } else { b'{' }
    } else if amount < 0 {
        b'J' - 1 + digit
    } else {
        b'A' - 1 + digit
    };
    [
        front[0], front[1], front[2], front[3], front[4], front[5], front[6], last,
    ]
}

/// The one spelling of an amount in cents, 99,999,999 at most either way: seven digits and an overpunched one. Zero is
/// `0000000{` (docs/FORMATS.md, "Overpunched amounts").
pub fn signed_write(amount: i64) -> [u8; 8]
    requires { unsigned_abs amount ≤ MOST_CENTS }
    ensures text { result ≡ signed_text amount }
    ensures again { signed_of result ≡ Ok amount }
{
    spelled(amount)
}
