ghost use Rattle.std.specs.Prelude.{◌≡◌, ◌≤◌, ◌<◌, ◌^◌, length, true, Err, Ok, IfOk, MatchResult};
ghost use Rattle.rx_text.specs.Bytes.{all_digits};
ghost use Rattle.rx_fields.specs.Digits.{number, number_of, digits_text};

use crate::fault::FieldFault;
use rx_text::all_digits;

// The number that digits stand for.
pub(crate) fn value(digits: &[u8]) -> u64
    requires few { length digits.now ≤ 19 }
    requires digits { all_digits digits.now ≡ true }
    ensures value { result ≡ number digits.now }
    ensures within { result < 10 ^ length digits.now }
{
    let mut sum = 0u64;
    for digit in digits {
        sum = sum * 10 + u64::from(*digit - b'0');
    }
    sum
}

// Whether the bytes are 1 to `max` digits; where they aren't, the first fault.
pub(crate) fn check_digits(bytes: &[u8], max: usize) -> Result<(), FieldFault>
    ensures number { MatchResult result
        (λ _. number_of max bytes.now ≡ Ok (number bytes.now)) (λ fault. number_of max bytes.now ≡ Err fault) }
    ensures few { IfOk result (λ _. length bytes.now ≤ max) }
    ensures digits { IfOk result (λ _. all_digits bytes.now ≡ true) }
{
    match bytes {
        [] => Err(FieldFault::Empty),
        _ if bytes.len() > max => Err(FieldFault::TooLong),
        _ if !all_digits(bytes) => Err(FieldFault::NotDigit),
        _ => Ok(()),
    }
}

/// The number of 1 to `max` digits; leading zeros count as digits (docs/FORMATS.md, "Notation").
pub fn number_read(bytes: &[u8], max: usize) -> Result<u64, FieldFault>
    requires { max ≤ 19 }
    ensures value { result ≡ number_of max bytes.now }
    ensures within { IfOk result (λ n. n < 10 ^ max) }
{
    check_digits(bytes, max)?;
    Ok(value(bytes))
}

/// The number in exactly `N` digits, filled with zeros in front (docs/FORMATS.md, "Notation").
pub fn digits_write<const N: usize>(number: u64) -> [u8; N]
    requires some { 1 ≤ N }
    requires few { N ≤ 19 }
    requires fits { number < 10 ^ N }
    ensures text { result ≡ digits_text N number }
    ensures again { number_of N result ≡ Ok number }
{
    let mut digits = [b'0'; N];
    let mut rest = number;
    for i in (0..N).rev() {
        digits[i] = b'0' + (rest % 10) as u8;
        rest /= 10;
    }
    digits
}
