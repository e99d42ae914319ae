ghost use Rattle.std.specs.Prelude.{◌≡◌, IfErr, IfOk};
ghost use Rattle.rx_schedule.specs.Footprints.{footprints_of};
ghost use Rattle.rx_wave.specs.Decoding.{transmissions_of};
ghost use Rattle.rx_switch.specs.Planned.{IsNotPlanned, IsPlanOf, IsPlanned};

use crate::fault::SwitchFault;
use crate::show::decode_each;
use rx_batch::{Batch, read_batch};
use rx_books_parcel::Footprint;
use rx_books_store::Books;
use rx_fields::{Door, Memory};
use rx_schedule::{footprints, waves};
use rx_sheet::read_sheet;
use rx_show::plan_lines;
use std::alloc::Global;

/// What `plan` prints of a batch file under a plan sheet and opening books: a line for each record with its place and
/// its wave, the number of waves, and the chain, each ended by a line feed (docs/CLI.md, "plan").
///
/// # Errors
///
/// The first, in this order, of Sheet, Books and Batch; Memory may stand in place of any other answer.
pub fn plan_text(
    alloc: Global,
    sheet: &[u8],
    books: &[u8],
    batch: &[u8],
) -> Result<Vec<u8>, SwitchFault>
    ensures planned { IfOk result (λ text. IsPlanned sheet.now books.now batch.now text.items) }
    ensures refused { IfErr result (λ fault. IsNotPlanned sheet.now books.now batch.now fault) }
{
    let sheet = read_sheet(alloc, sheet)?;
    let books = Books::read(alloc, books)?;
    let batch = read_batch(alloc, batch)?;
    let lines = lines_of(alloc, sheet.door(), &books, &batch);
    drop((sheet, books, batch));
    Ok(lines?)
}

// The lines of a batch's records over the opening books.
fn lines_of(alloc: Global, door: &Door, books: &Books, batch: &Batch) -> Result<Vec<u8>, Memory>
    ensures { IfOk result (λ text.
        IsPlanOf books.now.ledger (transmissions_of door.now batch.now.details) text.items) }
{
    let footprints = footprints_in(alloc, door, books, batch)?;
    let waves = waves(alloc, &footprints)?;
    plan_lines(alloc, &waves.numbers, waves.count, &waves.chain)
}

// The footprints of a batch's records.
fn footprints_in(
    alloc: Global,
    door: &Door,
    books: &Books,
    batch: &Batch,
) -> Result<Vec<Footprint>, Memory>
    ensures { IfOk result (λ list.
        list.items ≡ footprints_of books.now.ledger (transmissions_of door.now batch.now.details)) }
{
    let transmissions = decode_each(alloc, door, batch.details.as_slice())?;
    footprints(alloc, books, &transmissions)
}
