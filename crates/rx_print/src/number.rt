ghost use Rattle.std.specs.Prelude.{◌≡◌, ◌++◌, ◌<◌, OnOk};
ghost use Rattle.std.specs.Fmt.{decimal, signed_decimal};
ghost use Rattle.rx_print.specs.Decimal.{comma_before, grouped, in_threes};
ghost use Rattle.rx_print.specs.Money.{cents_text, dollars, hundredths_text, signed_dollars};

use itoa::Buffer;
use std::alloc::AllocError;

/// Puts a number in decimal digits.
pub fn put_decimal(text: &mut Vec<u8>, number: u128) -> Result<(), AllocError>
    ensures { OnOk result (text.new.items ≡ text.old.items ++ decimal number) }
{
    let mut digits = Buffer::new();
    text.extend_from_slice(digits.format(number).as_bytes())
}

/// Puts a number in decimal digits, after a minus where it is below zero.
pub fn put_signed(text: &mut Vec<u8>, number: i128) -> Result<(), AllocError>
    ensures { OnOk result (text.new.items ≡ text.old.items ++ signed_decimal number) }
{
    let mut buffer = Buffer::new();
    text.extend_from_slice(buffer.format(number).as_bytes())
}

/// Puts a number with a comma before each three digits from its end, as `1,234,567`.
pub fn put_grouped(text: &mut Vec<u8>, number: u64) -> Result<(), AllocError>
    ensures { OnOk result (text.new.items ≡ text.old.items ++ grouped number) }
{
    put_large(text, u128::from(number))
}

// The same of a number that may be larger.
fn put_large(text: &mut Vec<u8>, number: u128) -> Result<(), AllocError>
    ensures { OnOk result (text.new.items ≡ text.old.items ++ grouped number) }
{
    let mut buffer = Buffer::new();
    put_threes(text, buffer.format(number).as_bytes())
}

#[tactic(auto, using(std::proofs::Common::append_assoc))]
fn put_threes(text: &mut Vec<u8>, digits: &[u8]) -> Result<(), AllocError>
    ensures { OnOk result (text.new.items ≡ text.old.items ++ in_threes digits.now) }
{
    let [digit, rest @ ..] = digits else {
        return Ok(());
    };
    text.push(*digit)?;
    put_comma(text, rest)?;
    put_threes(text, rest)
}

// A comma before these digits, where they are some threes.
fn put_comma(text: &mut Vec<u8>, digits: &[u8]) -> Result<(), AllocError>
    ensures { OnOk result (text.new.items ≡ text.old.items ++ comma_before digits.now) }
{
    if digits.is_empty() || digits.len() % 3 != 0 {
        return Ok(());
    }
    text.push(b',')?;
    Ok(())
}

/// Puts an amount of cents as dollars and cents, as `1234.50`.
#[tactic(auto, using(std::proofs::Common::append_assoc))]
pub fn put_dollars(text: &mut Vec<u8>, cents: u128) -> Result<(), AllocError>
    ensures { OnOk result (text.new.items ≡ text.old.items ++ dollars cents) }
{
    put_decimal(text, cents / 100)?;
    text.extend_from_slice(&cents_text((cents % 100) as u8))
}

/// Puts an amount of cents as dollars and cents, after a minus where it is below zero, as `-171.75`.
#[tactic(auto, using(std::proofs::Common::append_assoc))]
pub fn put_signed_dollars(text: &mut Vec<u8>, cents: i128) -> Result<(), AllocError>
    ensures { OnOk result (text.new.items ≡ text.old.items ++ signed_dollars cents) }
{
    if cents.is_negative() {
        text.push(b'-')?;
    }
    put_dollars(text, cents.unsigned_abs())
}

/// Puts a number of hundredths with commas before the point, as `1,234.50`.
pub fn put_hundredths(text: &mut Vec<u8>, hundredths: u64) -> Result<(), AllocError>
    ensures { OnOk result (text.new.items ≡ text.old.items ++ hundredths_text hundredths) }
{
    put_amount(text, u128::from(hundredths))
}

/// The same of cents, which may be more.
#[tactic(auto, using(std::proofs::Common::append_assoc))]
pub(crate) fn put_amount(text: &mut Vec<u8>, cents: u128) -> Result<(), AllocError>
    ensures { OnOk result (text.new.items ≡ text.old.items ++ hundredths_text cents) }
{
    put_large(text, cents / 100)?;
    text.extend_from_slice(&cents_text((cents % 100) as u8))
}

// A point and two digits.
fn cents_text(cents: u8) -> [u8; 3]
    requires { cents < 100 }
    ensures { result ≡ cents_text cents }
{
    [b'.', b'0' + cents / 10, b'0' + cents % 10]
}
