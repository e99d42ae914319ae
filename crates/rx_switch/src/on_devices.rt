ghost use Rattle.std.specs.Prelude.{◌≡◌, Err, IfErr, IfOk, List, OnOk, false, ℕ};
ghost use Rattle.rx_batch.specs.Pieces.{StandsFor};
ghost use Rattle.rx_io.specs.Reading.{AreFewReads};
ghost use Rattle.rx_switch.specs.Devices.{IsBroken, IsDone, devices_of, has_failed};
ghost use Rattle.rx_switch.specs.Job.{given_read};
ghost use Rattle.rx_switch.specs.Output.{IsOutput, IsRefused, RefusesOne};
ghost use Rattle.rx_switch.specs.Rendered.{texts_made};
ghost use Rattle.rx_io.specs.declared.device.Device.TheVariants as device;
ghost use Rattle.rx_switch.specs.declared.fault.IoFault.TheVariants as io;

use crate::accepting::{BatchFile, BooksFile, accept, bytes_of};
use crate::adjudicating::{Adjudicated, Manner, adjudicate, parts_of, wait_for};
use crate::fault::{IoFault, SwitchFault};
use crate::inputs::read_inputs;
use crate::outputs::write_outputs;
use rx_batch::Pieces;
use rx_io::{Inputs, Outputs, Sink, Source};
use rx_wave::Gate;
use std::alloc::Global;
use std::sync::Wait;
use std::thread::Threads;

/// Adjudicates the batch of three inputs, and writes the three outputs (docs/CLI.md, "run").
///
/// The inputs are read to their ends, in the order sheet, books and batch, before anything else is looked at, and all
/// three texts are made before the first byte is written. None of the devices has failed.
///
/// # Errors
///
/// Read or Long where an input can't be read to its end, and Memory where memory ran out for that; then the refusals of
/// `run`, in its order; nothing was written then. Write where a write failed: the outputs before that one are whole, of
/// that one a front was written, of the later ones nothing.
pub fn run_io<
    R: Threads + Wait + Sync,
    G: Gate + Sync,
    A: Source,
    B: Source,
    C: Source,
    D: Sink,
    E: Sink,
    F: Sink,
>(
    rt: &R,
    alloc: Global,
    gate: &G,
    stamp: &[u8],
    workers: u16,
    plain: bool,
    inputs: &mut Inputs<A, B, C>,
    outputs: &mut Outputs<D, E, F>,
) -> Result<(), IoFault>
    requires sheet { A.failed inputs.old.sheet ≡ false }
    requires books { B.failed inputs.old.books ≡ false }
    requires batch { C.failed inputs.old.batch ≡ false }
    requires response { D.failed outputs.old.response ≡ false }
    requires end_books { E.failed outputs.old.books ≡ false }
    requires settlement { F.failed outputs.old.settlement ≡ false }
    ensures done { let devices = devices_of A.left B.left C.left D.written E.written F.written in
        OnOk result (IsDone stamp.now workers (devices inputs.old outputs.old) (devices inputs.new outputs.new)) }
    ensures broken { let devices = devices_of A.left B.left C.left D.written E.written F.written in
        IfErr result (IsBroken stamp.now workers (devices inputs.old outputs.old) (devices inputs.new outputs.new)) }
    // A device failed in the run exactly where the answer says it.
    ensures sheet { A.failed inputs.new.sheet ≡ has_failed device.Sheet result }
    ensures books { B.failed inputs.new.books ≡ has_failed device.Books result }
    ensures batch { C.failed inputs.new.batch ≡ has_failed device.Batch result }
    ensures response { D.failed outputs.new.response ≡ has_failed device.Response result }
    ensures end_books { E.failed outputs.new.books ≡ has_failed device.EndBooks result }
    ensures settlement { F.failed outputs.new.settlement ≡ has_failed device.Settlement result }
    ensures thread { result ≡ Err (io.Switch SwitchFault.Thread) → RefusesOne plain (G.starts gate.now) workers }
    // Each input is read at most 4,194,304 times, with room for at least 4,096 bytes.
    ensures sheet_reads { AreFewReads A.reads A.cramped inputs.old.sheet inputs.new.sheet }
    ensures books_reads { AreFewReads B.reads B.cramped inputs.old.books inputs.new.books }
    ensures batch_reads { AreFewReads C.reads C.cramped inputs.old.batch inputs.new.batch }
{
    let manner = Manner {
        gate,
        workers,
        plain,
    };
    let read = read_inputs(alloc, inputs)?;
    let Adjudicated { pieces, freeing } = output_of(rt, alloc, &manner, stamp, read)?;
    let written = write_outputs(alloc, &pieces, outputs);
    wait_for(rt, freeing);
    written
}

// What a run gives of the inputs that were read.
fn output_of<R: Threads + Wait + Sync, G: Gate + Sync>(
    rt: &R,
    alloc: Global,
    manner: &Manner<'_, G>,
    stamp: &[u8],
    read: Inputs<Vec<u8>, Vec<u8>, Pieces>,
) -> Result<Adjudicated, SwitchFault>
    requires { (batch : List ℕ) × StandsFor read.batch batch }
    ensures output { (batch : List ℕ) → StandsFor read.batch batch → IfOk result (λ adjudicated.
        IsOutput (given_read stamp.now manner.now.workers read.sheet.items read.books.items batch) (texts_made adjudicated)) }
    ensures refused { (batch : List ℕ) → StandsFor read.batch batch → IfErr result (λ fault.
        IsRefused (given_read stamp.now manner.now.workers read.sheet.items read.books.items batch) fault) }
    ensures thread { result ≡ Err SwitchFault.Thread
        → RefusesOne manner.now.plain (G.starts manner.now.gate.now) manner.now.workers }
{
    let Inputs {
        sheet,
        books,
        batch,
    } = read;
    let len = books.len();
    let (books, batch) = (BooksFile::Given(books), BatchFile::Fed(batch));
    let accepted = accept(rt, alloc, manner.workers, stamp, &sheet, books, batch)?;
    let bytes = bytes_of(accepted.batch.details.as_slice());
    let parts = parts_of(manner.workers, len.max(bytes));
    adjudicate(rt, alloc, manner, parts, accepted)
}
