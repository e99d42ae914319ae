ghost use Rattle.std.specs.Prelude.{◌≡◌, ◌<◌};
ghost use Rattle.rx_print.specs.Hexadecimal.{bracketed, hexadecimal};

/// The character of a hexadecimal digit: 0 to 9, A to F.
pub fn hexadecimal(digit: u8) -> u8
    requires { digit < 16 }
    ensures { result ≡ hexadecimal digit }
{
    if digit < 10 {
        b'0' + digit
    } else {
        b'A' + digit - 10
    }
}

/// The number of a byte: two hexadecimal digits in angle brackets, as `<1C>`.
pub fn bracketed(byte: u8) -> [u8; 4]
    ensures { result ≡ bracketed byte }
{
    [b'<', hexadecimal(byte / 16), hexadecimal(byte % 16), b'>']
}
