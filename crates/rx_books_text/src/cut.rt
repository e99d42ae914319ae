ghost use Rattle.std.specs.Prelude.{◌≡◌, option_map};
ghost use Rattle.rx_books_text.specs.LineReading.{split};

use memchr::memchr;

/// The field before the first bar, and what follows the bar.
pub(crate) fn split(bytes: &[u8]) -> Option<(&[u8], &[u8])>
    ensures { option_map (λ x. (x.0.now, x.1.now)) result ≡ split bytes.now }
{
    let at = memchr(b'|', bytes)?;
    Some((&bytes[..at], &bytes[at + 1..]))
}
