//! How a path is shown in a message.
use crate::files::names_stream;
use rx_fields::Memory;
use std::alloc::{AllocError, Global};

/// The path as a shell reads it back, in printable ASCII on one line: as it is where it has only letters, digits and some
/// marks, else in quotes, with each other byte by its number.
pub fn shown_path(alloc: Global, path: &str) -> Result<String, Memory> {
    let bytes = path.as_bytes();
    if names_stream(path) {
        return Ok(String::from_str(alloc, path)?);
    }
    // A command would read it as an option.
    let front = if path.starts_with('-') { "./" } else { "" };
    if !bytes.is_empty() && bytes.iter().all(|byte| is_plain(*byte)) {
        Ok(format!(in alloc; "{front}{path}")?)
    } else if bytes.iter().all(|byte| is_quotable(*byte)) {
        Ok(format!(in alloc; "{front}'{path}'")?)
    } else {
        Ok(numbered_path(alloc, front, bytes)?)
    }
}

// The path in quotes, with each byte that a shell wouldn't read as it is by its number.
fn numbered_path(alloc: Global, front: &str, bytes: &[u8]) -> Result<String, AllocError> {
    let mut shown = format!(in alloc; "{front}$'")?;
    for byte in bytes {
        put_byte(alloc, &mut shown, *byte)?;
    }
    shown.push('\'')?;
    Ok(shown)
}

// Whether a shell reads the byte as it is, without quotes.
fn is_plain(byte: u8) -> bool {
    byte.is_ascii_alphanumeric() || b"_./+,:@%=-".contains(&byte)
}

// Whether a shell reads the byte as it is, between quotes.
fn is_quotable(byte: u8) -> bool {
    (b' '..=b'~').contains(&byte) && byte != b'\'' && byte != b'\\'
}

fn put_byte(alloc: Global, shown: &mut String, byte: u8) -> Result<(), AllocError> {
    if is_quotable(byte) {
        shown.push(char::from(byte))
    } else {
        let number = format!(in alloc; "\\x{byte:02X}")?;
        shown.push_str(number.as_str())
    }
}
