ghost use Rattle.std.specs.Prelude.{◌≡◌, ◌++◌, OnOk};
ghost use Rattle.std.specs.List.{flat_map};
ghost use Rattle.rx_print.specs.Escape.{byte_text, escaped, number_text};

use crate::byte::hexadecimal;
use crate::style::Style;
use std::alloc::AllocError;

/// Puts bytes at the end of a text, each that isn't printable ASCII or would be read as markup by its number in two
/// hexadecimal digits.
///
/// # Errors
///
/// `AllocError` where a growth was refused; what was put by then stays.
pub fn put_escaped(text: &mut Vec<u8>, style: Style, bytes: &[u8]) -> Result<(), AllocError>
    ensures { OnOk result (text.new.items ≡ text.old.items ++ escaped style bytes.now) }
{
    for byte in bytes {
        put_byte(text, style, *byte)?;
    }
    Ok(())
}

fn put_byte(text: &mut Vec<u8>, style: Style, byte: u8) -> Result<(), AllocError>
    ensures { OnOk result (text.new.items ≡ text.old.items ++ byte_text style byte) }
{
    if style.is_special(byte) {
        put_number(text, style, byte)
    } else {
        Ok(text.push(byte)?)
    }
}

#[tactic(auto, using(std::proofs::Common::append_assoc))]
fn put_number(text: &mut Vec<u8>, style: Style, byte: u8) -> Result<(), AllocError>
    ensures { OnOk result (text.new.items ≡ text.old.items ++ number_text style byte) }
{
    text.extend_from_slice(style.front())?;
    text.extend_from_slice(&[hexadecimal(byte / 16), hexadecimal(byte % 16)])?;
    text.extend_from_slice(style.back())
}
