ghost use Rattle.std.specs.Prelude.{◌≡◌, IfOk};
ghost use Rattle.std.specs.List.{flat_map};
ghost use Rattle.std.specs.Vec.{vec_items};
ghost use Rattle.rx_io.specs.Pieces.{text_of};
ghost use Rattle.rx_switch.specs.Job.{texts_in, texts_in_pieces};

use rx_fields::Memory;
use rx_io::{Outputs, Pieces, one_text};
use std::alloc::Global;

/// What a run is given (docs/CLI.md, "run").
#[derive(Clone, Copy)]
pub struct Job<'a> {
    /// The plan sheet's text.
    pub sheet: &'a [u8],
    /// The opening books' text.
    pub books: &'a [u8],
    /// The batch file's bytes.
    pub batch: &'a [u8],
    /// Date and time of the run: twelve digits CCYYMMDDHHMM.
    pub stamp: &'a [u8],
    /// The number of workers, 1 to 64.
    pub workers: u16,
    /// Whether to adjudicate over plain lists, one record after another.
    pub plain: bool,
}

/// What a run gives.
#[derive(Drop)]
pub struct Output {
    /// The response file's bytes.
    pub response: Vec<u8>,
    /// The end books' text.
    pub books: Vec<u8>,
    /// The settlement's text.
    pub settlement: Vec<u8>,
}

/// The same, where the response and the end books are in pieces, one after another.
pub(crate) type OutputPieces = Outputs<Vec<Vec<u8>>, Vec<Pieces>, Vec<u8>>;

/// The three texts, each whole.
pub(crate) fn joined(alloc: Global, pieces: OutputPieces) -> Result<Output, Memory>
    ensures { IfOk result (λ output. texts_in output ≡ texts_in_pieces pieces) }
{
    let Outputs {
        response,
        books,
        settlement,
    } = pieces;
    Ok(Output {
        response: one_text(alloc, response)?,
        books: one_text(alloc, texts_of(alloc, books)?)?,
        settlement,
    })
}

// The text of each of these pieces.
fn texts_of(alloc: Global, list: Vec<Pieces>) -> Result<Vec<Vec<u8>>, Memory>
    ensures { IfOk result (λ texts. flat_map vec_items texts.items ≡ flat_map text_of list.items) }
{
    let mut texts = Vec::with_capacity(alloc, list.len())?;
    for pieces in list {
        texts.push(pieces.joined(alloc)?)?;
    }
    Ok(texts)
}
