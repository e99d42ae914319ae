ghost use Rattle.std.specs.Prelude.{◌≡◌, IfOk};
ghost use Rattle.std.specs.List.{flat_map};
ghost use Rattle.rx_show.specs.Bytes.{shown_byte};

use rx_fields::Memory;
use rx_print::bracketed;
use std::alloc::Global;

/// The bytes on one line: each byte below X'20' as two hexadecimal digits in angle brackets (docs/FORMATS.md,
/// "Fixed inputs").
pub(crate) fn shown(alloc: Global, text: &[u8]) -> Result<Vec<u8>, Memory>
    ensures { IfOk result (λ line. line.items ≡ flat_map shown_byte text.now) }
{
    let mut line = Vec::new(alloc);
    for byte in text {
        if *byte < b' ' {
            line.extend_from_slice(&bracketed(*byte))?;
        } else {
            line.push(*byte)?;
        }
    }
    Ok(line)
}
