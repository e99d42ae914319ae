ghost use Rattle.std.specs.Prelude.{◌≡◌, ◌≤◌, length};
ghost use Rattle.std.specs.List.{prefix_len};
ghost use Rattle.rx_text.specs.Bytes.{is_line_end};

/// How many CR and LF the bytes begin with.
pub fn line_ends(bytes: &[u8]) -> usize
    ensures value { result ≡ prefix_len is_line_end bytes.now }
    ensures within { result ≤ length bytes.now }
{
    let mut count = 0;
    while count < bytes.len() && (bytes[count] == b'\r' || bytes[count] == b'\n') {
        count += 1;
    }
    count
}
