ghost use Rattle.std.specs.Prelude.{◌≡◌, ◌<◌};
ghost use Rattle.rx_explain.specs.Parts.{part_of_key, part_of_text};

use rx_fields::Key;

/// In how many parts events are kept, so that only one of them is visited.
pub(crate) const PARTS: usize = 4_096;

/// The part of a text.
pub(crate) fn part_of_text(bytes: &[u8]) -> usize
    ensures value { result ≡ part_of_text bytes.now }
    ensures within { result < 4_096 }
{
    let mut part: usize = 0;
    for byte in bytes {
        part = (part * 31 + usize::from(*byte)) % PARTS;
    }
    part
}

/// The part of a fill key.
pub(crate) fn part_of_key(key: &Key) -> usize
    ensures value { result ≡ part_of_key key.now }
    ensures within { result < 4_096 }
{
    let reference = key.reference.get() as usize;
    (part_of_text(key.provider.bytes()) + reference) % PARTS
}
