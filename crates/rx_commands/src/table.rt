ghost use Rattle.std.specs.Prelude.{IfErr, IfOk};
ghost use Rattle.rx_commands.specs.Reported.{IsTable};
ghost use Rattle.rx_switch.specs.Shown.{IsNotShown};

use rx_batch::read_batch;
use rx_sheet::read_sheet;
use rx_switch::SwitchFault;
use rx_wave::decode_in_parts;
use std::alloc::Global;
use std::thread::Threads;

/// The table that `show --tsv` prints of a batch file under a plan sheet (docs/CLI.md, "show"). It starts no
/// thread.
///
/// # Errors
///
/// The first, in this order, of Sheet and Batch; Memory may stand in place of any other answer.
pub fn show_table<R: Threads + Sync>(
    rt: &R,
    alloc: Global,
    sheet: &[u8],
    batch: &[u8],
) -> Result<Vec<u8>, SwitchFault>
    ensures shown { IfOk result (λ text. IsTable sheet.now batch.now text.items) }
    ensures refused { IfErr result (λ fault. IsNotShown sheet.now batch.now fault) }
{
    let sheet = read_sheet(alloc, sheet)?;
    let batch = read_batch(alloc, batch)?;
    let asked = decode_in_parts(rt, alloc, 1, sheet.door(), batch.details.as_slice())?;
    let text = rx_show::show_table(alloc, &asked)?;
    Ok(text)
}
