ghost use Rattle.std.specs.Prelude.{◌≡◌, IfErr, IfOk, false};
ghost use Rattle.rx_io.specs.Reading.{AreFewReads, IsRead};
ghost use Rattle.rx_switch.specs.Devices.{AreRead, IsFed, IsUnread, IsUnreadAt, has_failed, left_of, of_reading};

use crate::fault::{IoFault, SwitchFault};
use rx_batch::Pieces;
use rx_fields::Memory;
use rx_io::{Consumer, Device, Inputs, ReadFault, Source, read_each};
use std::alloc::Global;

/// Reads an input of a run to its end (docs/RULES.md, "Limits").
///
/// # Errors
///
/// Read where a read of the device failed, which is never taken for its end; Long where it has too many bytes or takes
/// too many reads; Memory.
pub fn read_all<S: Source>(
    alloc: Global,
    source: &mut S,
    device: Device,
) -> Result<Vec<u8>, IoFault>
    requires { S.failed source.old ≡ false }
    ensures read { IfOk result (λ text. IsRead (S.left source.old) (S.left source.new) text.items) }
    ensures unread { IfErr result (IsUnreadAt device (S.left source.old)) }
    ensures failed { S.failed source.new ≡ has_failed device result }
    ensures reads { AreFewReads S.reads S.cramped source.old source.new }
{
    match rx_io::read_all(alloc, source) {
        Ok(text) => Ok(text),
        Err(fault) => Err(of_reading(device, fault)),
    }
}

// A fault of reading the device, as the run says it.
fn of_reading(device: Device, fault: ReadFault) -> IoFault
    ensures { result ≡ of_reading device fault }
{
    match fault {
        ReadFault::Failed => IoFault::Read(device),
        ReadFault::Long => IoFault::Long(device),
        ReadFault::Memory => IoFault::Switch(SwitchFault::Memory),
    }
}

// The pieces of the batch file, which are read to the end even after a fault: the pieces keep it.
#[derive(Drop)]
struct FedBatch {
    pieces: Pieces,
}

impl Consumer for FedBatch {
    ghost use Rattle.rx_batch.specs.Pieces.{StandsFor};

    ghost stands_for = { λ fed text. StandsFor fed.pieces text };

    fn take(&mut self, piece: &[u8]) -> Result<(), Memory> {
        let _ = self.pieces.feed(piece);
        Ok(())
    }
}

// Reads the batch file to its end, piece by piece.
fn read_pieces<S: Source>(alloc: Global, source: &mut S) -> Result<Pieces, IoFault>
    requires { S.failed source.old ≡ false }
    ensures read { IfOk result (λ pieces. IsFed (S.left source.old) (S.left source.new) pieces) }
    ensures unread { IfErr result (IsUnreadAt Device.Batch (S.left source.old)) }
    ensures failed { S.failed source.new ≡ has_failed Device.Batch result }
    ensures reads { AreFewReads S.reads S.cramped source.old source.new }
{
    let mut fed = FedBatch {
        pieces: Pieces::new(alloc),
    };
    match read_each(alloc, source, &mut fed) {
        Ok(()) => Ok(fed.pieces),
        Err(fault) => Err(of_reading(Device::Batch, fault)),
    }
}

// Reads the three inputs to their ends, in this order.
#[tactic(auto, using(rx_io::proofs::Passing::none_made))]
pub(crate) fn read_inputs<A: Source, B: Source, C: Source>(
    alloc: Global,
    inputs: &mut Inputs<A, B, C>,
) -> Result<Inputs<Vec<u8>, Vec<u8>, Pieces>, IoFault>
    requires sheet { A.failed inputs.old.sheet ≡ false }
    requires books { B.failed inputs.old.books ≡ false }
    requires batch { C.failed inputs.old.batch ≡ false }
    ensures read { let left = left_of A.left B.left C.left in
        IfOk result (λ read. AreRead (left inputs.old) (left inputs.new) read.sheet.items read.books.items read.batch) }
    ensures unread { let left = left_of A.left B.left C.left in
        IfErr result (IsUnread (left inputs.old) (left inputs.new)) }
    ensures sheet { A.failed inputs.new.sheet ≡ has_failed Device.Sheet result }
    ensures books { B.failed inputs.new.books ≡ has_failed Device.Books result }
    ensures batch { C.failed inputs.new.batch ≡ has_failed Device.Batch result }
    ensures sheet_reads { AreFewReads A.reads A.cramped inputs.old.sheet inputs.new.sheet }
    ensures books_reads { AreFewReads B.reads B.cramped inputs.old.books inputs.new.books }
    ensures batch_reads { AreFewReads C.reads C.cramped inputs.old.batch inputs.new.batch }
{
    let sheet = read_all(alloc, &mut inputs.sheet, Device::Sheet)?;
    let books = read_all(alloc, &mut inputs.books, Device::Books)?;
    let batch = read_pieces(alloc, &mut inputs.batch)?;
    Ok(Inputs {
        sheet,
        books,
        batch,
    })
}
