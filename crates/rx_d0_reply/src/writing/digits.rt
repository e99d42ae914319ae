//! Numbers in a fixed count of digits, each digit by a division of its own, so that none waits for another.

ghost use Rattle.std.specs.Prelude.{◌≡◌, ◌<◌};
ghost use Rattle.rx_fields.specs.Digits.{digits_text};

#[inline(always)]
#[tactic(auto, unfolding(rx_fields::specs::Digits::digits_text))]
fn four_digits(number: u64) -> [u8; 4]
    requires { number < 10_000 }
    ensures { result ≡ digits_text 4 number }
{
    [
        b'0' + (number / 1000) as u8,
        b'0' + (number / 100 % 10) as u8,
        b'0' + (number / 10 % 10) as u8,
        b'0' + (number % 10) as u8,
    ]
}

#[inline(always)]
pub(super) fn eight_digits(number: u64) -> [u8; 8]
    requires { number < 100_000_000 }
    ensures { result ≡ digits_text 8 number }
{
    let [a, b, c, d] = four_digits(number / 10_000);
    let [e, f, g, h] = four_digits(number % 10_000);
    [a, b, c, d, e, f, g, h]
}

pub(super) fn twelve_digits(number: u64) -> [u8; 12]
    requires { number < 1_000_000_000_000 }
    ensures { result ≡ digits_text 12 number }
{
    let [a, b, c, d] = four_digits(number / 100_000_000);
    let [e, f, g, h, i, j, k, l] = eight_digits(number % 100_000_000);
    [a, b, c, d, e, f, g, h, i, j, k, l]
}

pub(super) fn fifteen_digits(number: u64) -> [u8; 15]
    requires { number < 1_000_000_000_000_000 }
    ensures { result ≡ digits_text 15 number }
{
    let [_, a, b, c, d, e, f, g] = eight_digits(number / 100_000_000);
    let [h, i, j, k, l, m, n, o] = eight_digits(number % 100_000_000);
    [a, b, c, d, e, f, g, h, i, j, k, l, m, n, o]
}
