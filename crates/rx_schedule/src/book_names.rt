ghost use Rattle.std.specs.Prelude.{◌≡◌};
ghost use Rattle.std.specs.List.{fold};
ghost use Rattle.rx_schedule.specs.Mentions.{half_of, name_of_day, name_of_family, with_bytes, with_number};

use rx_d0_values::Heard;
use rx_fields::{Id, Reference};

/// The name of a family.
pub(crate) fn name_of_family(family: &Id) -> u32
    ensures { result ≡ name_of_family family.now }
{
    half_of(with_bytes(0, family.bytes()))
}

/// The name of a record's fill keys, without the reference number.
pub(crate) fn name_of_day(heard: &Heard) -> u64
    ensures { result ≡ name_of_day heard.now.provider heard.now.date }
{
    let provider = with_bytes(1, heard.provider.bytes());
    let year = with_number(provider, u64::from(heard.date.year()));
    let month = with_number(year, u64::from(heard.date.month()));
    with_number(month, u64::from(heard.date.day()))
}

/// The name of a record's fill key with this reference number.
pub(crate) fn name_of_key(day: u64, reference: Reference) -> u32
    ensures { result ≡ half_of (with_number day reference) }
{
    half_of(with_number(day, reference.get()))
}

// The upper half of a name, once more mixed.
fn half_of(name: u64) -> u32
    ensures { result ≡ half_of name }
{
    (with_number(name, 0) / (1 << 32)) as u32
}

// The name with these bytes too, eight at once.
fn with_bytes(name: u64, bytes: &[u8]) -> u64
    ensures { result ≡ with_bytes name bytes.now }
{
    let mut named = name;
    let mut rest = bytes;
    'words: while let Some((word, others)) = rest.split_first_chunk::<8>() {
        named = with_number(named, u64::from_be_bytes(*word));
        rest = others;
    }
    with_each(named, rest)
}

// The name with each of these bytes too.
fn with_each(name: u64, bytes: &[u8]) -> u64
    ensures { result ≡ fold with_number name bytes.now }
{
    let mut named = name;
    'bytes: for byte in bytes {
        named = with_number(named, u64::from(*byte));
    }
    named
}

// The name with one more number in it. The factor is 2^64 over the golden ratio, made odd: each number moves many bits.
fn with_number(name: u64, number: u64) -> u64
    ensures { result ≡ with_number name number }
{
    name.wrapping_mul(11_400_714_819_323_198_485)
        .wrapping_add(number)
}
