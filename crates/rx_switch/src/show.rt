ghost use Rattle.std.specs.Prelude.{◌≡◌, IfErr, IfOk};
ghost use Rattle.rx_d0_request.specs.Request.{transmission_of};
ghost use Rattle.rx_wave.specs.Decoding.{transmissions_of};
ghost use Rattle.rx_switch.specs.Shown.{IsShown, IsNotShown};

use crate::fault::SwitchFault;
use rx_batch::{Detail, read_batch};
use rx_d0_request::decode;
use rx_d0_values::Transmission;
use rx_fields::{Door, Memory};
use rx_sheet::read_sheet;
use rx_show::show_lines;
use std::alloc::Global;

/// What `show` prints of a batch file under a plan sheet: a line for each transaction and each rejected header, each
/// ended by a line feed (docs/CLI.md, "show").
///
/// # Errors
///
/// The first, in this order, of Sheet and Batch; Memory may stand in place of any other answer.
pub fn show_text(alloc: Global, sheet: &[u8], batch: &[u8]) -> Result<Vec<u8>, SwitchFault>
    ensures shown { IfOk result (λ text. IsShown sheet.now batch.now text.items) }
    ensures refused { IfErr result (λ fault. IsNotShown sheet.now batch.now fault) }
{
    let sheet = read_sheet(alloc, sheet)?;
    let batch = read_batch(alloc, batch)?;
    let transmissions = decode_each(alloc, sheet.door(), batch.details.as_slice())?;
    Ok(show_lines(alloc, &transmissions)?)
}

// The transmission of each detail, in order.
pub(crate) fn decode_each(
    alloc: Global,
    door: &Door,
    details: &[Detail],
) -> Result<Vec<Transmission>, Memory>
    ensures { IfOk result (λ transmissions. transmissions.items ≡ transmissions_of door.now details.now) }
{
    let mut transmissions = Vec::with_capacity(alloc, details.len())?;
    for detail in details {
        transmissions.push(decode(alloc, door, detail.text.bytes())?)?;
    }
    Ok(transmissions)
}
