ghost use Rattle.std.specs.Prelude.{◌≡◌, IfErr, OnOk, false, is_err};
ghost use Rattle.std.specs.Io.KnownBytes.{Appends};
ghost use Rattle.std.specs.List.{flat_map};
ghost use Rattle.std.specs.Vec.{vec_items};
ghost use Rattle.rx_io.specs.Pieces.{text_of};
ghost use Rattle.rx_io.specs.Writing.{AppendsFront};
ghost use Rattle.rx_switch.specs.Devices.{AreWritten, IsUnwritten, has_failed, written_of};
ghost use Rattle.rx_switch.specs.Job.{texts_in_pieces};
ghost use Rattle.rx_switch.specs.declared.fault.IoFault.TheVariants as io;

use crate::fault::IoFault;
use crate::job::OutputPieces;
use rx_io::{Device, Failed, Outputs, Pieces, Sink, write_pieces};
use std::alloc::Global;
use std::slice;

// Writes the three texts to their ends, in this order.
pub(crate) fn write_outputs<D: Sink, E: Sink, F: Sink>(
    alloc: Global,
    output: &OutputPieces,
    outputs: &mut Outputs<D, E, F>,
) -> Result<(), IoFault>
    requires response { D.failed outputs.old.response ≡ false }
    requires end_books { E.failed outputs.old.books ≡ false }
    requires settlement { F.failed outputs.old.settlement ≡ false }
    ensures done { let written = written_of D.written E.written F.written in
        OnOk result (AreWritten (written outputs.old) (written outputs.new) (texts_in_pieces output.now)) }
    ensures unwritten { let written = written_of D.written E.written F.written in
        IfErr result (IsUnwritten (written outputs.old) (written outputs.new) (texts_in_pieces output.now)) }
    ensures response { D.failed outputs.new.response ≡ has_failed Device.Response result }
    ensures end_books { E.failed outputs.new.books ≡ has_failed Device.EndBooks result }
    ensures settlement { F.failed outputs.new.settlement ≡ has_failed Device.Settlement result }
{
    write_text(&mut outputs.response, &output.response, Device::Response)?;
    write_books(alloc, &mut outputs.books, &output.books)?;
    write_text(
        &mut outputs.settlement,
        slice::from_ref(&output.settlement),
        Device::Settlement,
    )
}

// Writes a text that is in pieces to its end.
fn write_text<S: Sink>(sink: &mut S, pieces: &[Vec<u8>], device: Device) -> Result<(), IoFault>
    requires { S.failed sink.old ≡ false }
    ensures whole { OnOk result (Appends (S.written sink.old) (S.written sink.new) (flat_map vec_items pieces.now)) }
    ensures front { AppendsFront (S.written sink.old) (S.written sink.new) (flat_map vec_items pieces.now) }
    ensures fault { IfErr result (λ fault. fault ≡ io.Write device) }
    ensures failed { S.failed sink.new ≡ has_failed device result }
{
    match write_pieces(sink, pieces) {
        Ok(()) => Ok(()),
        Err(_) => Err(IoFault::Write(device)),
    }
}

// Writes the text of the end books to its end.
fn write_books<S: Sink>(alloc: Global, sink: &mut S, list: &[Pieces]) -> Result<(), IoFault>
    requires { S.failed sink.old ≡ false }
    ensures whole { OnOk result (Appends (S.written sink.old) (S.written sink.new) (flat_map text_of list.now)) }
    ensures front { AppendsFront (S.written sink.old) (S.written sink.new) (flat_map text_of list.now) }
    ensures fault { IfErr result (λ fault. fault ≡ io.Write Device.EndBooks) }
    ensures failed { S.failed sink.new ≡ has_failed Device.EndBooks result }
{
    match write_each(alloc, sink, list) {
        Ok(()) => Ok(()),
        Err(_) => Err(IoFault::Write(Device::EndBooks)),
    }
}

// Writes the texts of these pieces, one after another.
fn write_each<S: Sink>(alloc: Global, sink: &mut S, list: &[Pieces]) -> Result<(), Failed>
    requires { S.failed sink.old ≡ false }
    ensures whole { OnOk result (Appends (S.written sink.old) (S.written sink.new) (flat_map text_of list.now)) }
    ensures front { AppendsFront (S.written sink.old) (S.written sink.new) (flat_map text_of list.now) }
    ensures failed { S.failed sink.new ≡ is_err result }
{
    for pieces in list {
        pieces.write_to(alloc, sink)?;
    }
    Ok(())
}
