ghost use Rattle.std.specs.Prelude.{◌≡◌};
ghost use Rattle.rx_text.specs.Bytes.{all_digits, all_printable, is_digit, is_printable};

/// Whether the byte is printable ASCII: a blank, `~`, or one between.
pub fn is_printable(byte: u8) -> bool
    ensures { result ≡ is_printable byte }
{
    byte >= b' ' && byte <= b'~'
}

/// Whether each byte is printable ASCII.
pub fn all_printable(bytes: &[u8]) -> bool
    ensures { result ≡ all_printable bytes.now }
{
    bytes.iter().all(|byte| is_printable(*byte))
}

/// Whether each byte is a digit, `0` to `9`.
pub fn all_digits(bytes: &[u8]) -> bool
    ensures { result ≡ all_digits bytes.now }
{
    bytes.iter().all(|byte| is_digit(*byte))
}

fn is_digit(byte: u8) -> bool
    ensures { result ≡ is_digit byte }
{
    byte >= b'0' && byte <= b'9'
}
