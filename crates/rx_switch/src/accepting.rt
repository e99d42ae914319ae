ghost use Rattle.std.specs.Prelude.{◌≡◌, ℕ, List, Err, IfErr, IfOk, Ok};
ghost use Rattle.rx_batch.specs.Fault.{UnlessMemory};
ghost use Rattle.rx_batch.specs.Grammar.{IsFile};
ghost use Rattle.rx_batch.specs.Reading.{HasFault};
ghost use Rattle.rx_books_store.specs.BooksFile.{IsBooksText, NamesFirstFault, ReadsBooksAlone};
ghost use Rattle.rx_ledger.specs.Plan.{Plan};
ghost use Rattle.rx_sheet.specs.SheetText.{sheet_of_text};
ghost use Rattle.rx_switch.specs.Job.{HasBytes, accepted_of, books_bytes, given_read};
ghost use Rattle.rx_switch.specs.Output.{IsRefused, StandFor, stamp_for};
ghost use Rattle.rx_wave.specs.Decoding.{transmissions_of};

use crate::adjudicating::parts_of;
use crate::fault::SwitchFault;
use rx_batch::{Batch, BatchFault, Detail, Pieces, read_batch};
use rx_books_store::Books;
use rx_books_text::BooksFault;
use rx_d0_values::Transmission;
use rx_fields::{Door, MOST_WORKERS, Memory, Stamp};
use rx_ledger::Sheet;
use rx_sheet::read_sheet;
use rx_wave::decode_in_parts;
use std::alloc::Global;
use std::thread;
use std::thread::Threads;

// About as many bytes has a detail with one billing.
const DETAIL_BYTES: usize = 200;

// The batch file: its bytes, or the pieces that they were fed to.
#[derive(Drop)]
pub(crate) enum BatchFile<'a> {
    Bytes(&'a [u8]),
    Fed(Pieces),
}

impl BatchFile<'_> {
    fn read(self, alloc: Global) -> Result<Batch, BatchFault>
        ensures ok { (text : List ℕ) → HasBytes self.entry text
            → IfOk result (λ batch. IsFile text batch.head batch.details) }
        ensures refuses { (text : List ℕ) → HasBytes self.entry text
            → IfErr result (λ fault. UnlessMemory fault (HasFault text fault)) }
    {
        match self {
            BatchFile::Bytes(bytes) => read_batch(alloc, bytes),
            BatchFile::Fed(pieces) => pieces.finish(),
        }
    }
}

// The opening books' text: lent, or given away, so that the books can keep it.
#[derive(Drop)]
pub(crate) enum BooksFile<'a> {
    Lent(&'a [u8]),
    Given(Vec<u8>),
}

// What a run is given, once it is accepted.
#[derive(Drop)]
pub(crate) struct Accepted {
    pub(crate) stamp: Stamp,
    pub(crate) sheet: Sheet,
    pub(crate) books: Books,
    pub(crate) batch: Batch,
    // What the details of the batch ask for.
    pub(crate) asked: Vec<Transmission>,
}

// Looks at what is given in the order of the refusals, of which it answers the first.
pub(crate) fn accept<R: Threads + Sync>(
    rt: &R,
    alloc: Global,
    workers: u16,
    stamp: &[u8],
    sheet: &[u8],
    books: BooksFile<'_>,
    batch: BatchFile<'_>,
) -> Result<Accepted, SwitchFault>
    ensures accepted { (bytes : List ℕ) → HasBytes batch.entry bytes → IfOk result (λ accepted.
        StandFor (given_read stamp.now workers sheet.now (books_bytes books.entry) bytes) (accepted_of accepted)) }
    ensures asked { IfOk result (λ accepted.
        accepted.asked.items ≡ transmissions_of accepted.sheet.figures.door accepted.batch.details) }
    ensures refused { (bytes : List ℕ) → HasBytes batch.entry bytes
        → IfErr result (λ fault. IsRefused (given_read stamp.now workers sheet.now (books_bytes books.entry) bytes) fault) }
    ensures words { (fault : SwitchFault) → stamp_for workers stamp.now ≡ Err fault → result ≡ Err fault }
    ensures no_thread { result ≡ Err SwitchFault.Thread → ⊥ }
{
    let stamp = stamp_for(workers, stamp)?;
    let sheet = read_sheet(alloc, sheet)?;
    let opened = read_books_and_batch(rt, alloc, workers, sheet.door(), books, batch)?;
    let Opened {
        books,
        batch,
        asked,
    } = opened;
    Ok(Accepted {
        stamp,
        sheet,
        books,
        batch,
        asked,
    })
}

// The books and the batch, and what its details ask for.
#[derive(Drop)]
struct Opened {
    books: Books,
    batch: Batch,
    asked: Vec<Transmission>,
}

// Reads the books and the batch. Where neither can be read, the fault is that of the books.
fn read_books_and_batch<R: Threads + Sync>(
    rt: &R,
    alloc: Global,
    workers: u16,
    door: &Door,
    books: BooksFile<'_>,
    batch: BatchFile<'_>,
) -> Result<Opened, SwitchFault>
    ensures books { IfOk result (λ opened. IsBooksText (books_bytes books.entry) opened.books.period opened.books.ledger) }
    ensures batch { (bytes : List ℕ) → HasBytes batch.entry bytes
        → IfOk result (λ opened. IsFile bytes opened.batch.head opened.batch.details) }
    ensures asked { IfOk result (λ opened. opened.asked.items ≡ transmissions_of door.now opened.batch.details) }
    ensures refused { (stamp sheet bytes : List ℕ) → (s : Stamp) → (plan : Plan) → HasBytes batch.entry bytes
        → stamp_for workers stamp ≡ Ok s → sheet_of_text sheet ≡ Ok plan
        → IfErr result (IsRefused (given_read stamp workers sheet (books_bytes books.entry) bytes)) }
    ensures no_thread { result ≡ Err SwitchFault.Thread → ⊥ }
{
    let batch = batch.read(alloc);
    let details = details_of(&batch);
    let (asked, books) = asked_and_books(rt, alloc, workers, door, details, books);
    let books = books?;
    let batch = batch?;
    let asked = asked?;
    Ok(Opened {
        books,
        batch,
        asked,
    })
}

// The details of a batch, none where it can't be read.
fn details_of(batch: &Result<Batch, BatchFault>) -> &[Detail]
    ensures { IfOk batch.now (λ read. result.now ≡ read.details) }
{
    match batch {
        Ok(batch) => batch.details.as_slice(),
        Err(_) => &[],
    }
}

// What the details ask for, and the books.
fn asked_and_books<R: Threads + Sync>(
    rt: &R,
    alloc: Global,
    workers: u16,
    door: &Door,
    details: &[Detail],
    books: BooksFile<'_>,
) -> (Result<Vec<Transmission>, Memory>, Result<Books, BooksFault>)
    ensures asked { IfOk result.0 (λ asked. asked.items ≡ transmissions_of door.now details.now) }
    ensures ok { ReadsBooksAlone (books_bytes books.entry) result.1 }
    ensures refuses { NamesFirstFault (books_bytes books.entry) result.1 }
{
    match books {
        BooksFile::Lent(text) => {
            let parts = parts_of(workers, bytes_of(details));
            let asked = decode_in_parts(rt, alloc, parts, door, details);
            let parts = parts_of(workers, text.len());
            (asked, Books::read_in_parts(rt, alloc, parts, text))
        }
        BooksFile::Given(text) => decode_while_reading(rt, alloc, workers, text, door, details),
    }
}

/// About how many bytes the details have.
pub(crate) fn bytes_of(details: &[Detail]) -> usize {
    details.len().saturating_mul(DETAIL_BYTES)
}

// The books of a text that they keep.
fn read_given<R: Threads + Sync>(
    rt: &R,
    alloc: Global,
    workers: u16,
    text: Vec<u8>,
) -> Result<Books, BooksFault>
    ensures ok { ReadsBooksAlone text.items result }
    ensures refuses { NamesFirstFault text.items result }
{
    let parts = parts_of(workers, text.len());
    Books::read_kept(rt, alloc, parts, text)
}

// What the details ask for, and the books of a text that they keep: side by side, where there are several workers and the
// details aren't few.
fn decode_while_reading<R: Threads + Sync>(
    rt: &R,
    alloc: Global,
    workers: u16,
    text: Vec<u8>,
    door: &Door,
    details: &[Detail],
) -> (Result<Vec<Transmission>, Memory>, Result<Books, BooksFault>)
    ensures asked { IfOk result.0 (λ asked. asked.items ≡ transmissions_of door.now details.now) }
    ensures ok { ReadsBooksAlone text.items result.1 }
    ensures refuses { NamesFirstFault text.items result.1 }
{
    let bytes = bytes_of(details);
    let parts = parts_of(workers, bytes);
    if parts < 2 {
        let asked = decode_in_parts(rt, alloc, parts, door, details);
        return (asked, read_given(rt, alloc, workers, text));
    }
    let parts = share_of(parts, bytes, text.len());
    thread::join(
        rt,
        || -> Result<Vec<Transmission>, Memory>
            ensures { IfOk result (λ asked. asked.items ≡ transmissions_of door.entry.now details.entry.now) }
        { decode_in_parts(rt, alloc, parts, door, details) },
        || -> Result<Books, BooksFault>
            ensures ok { ReadsBooksAlone text.items result }
            ensures refuses { NamesFirstFault text.items result }
        { read_given(rt, alloc, workers, text) },
    )
}

// How many of the parts have to do with this many bytes, where others are read meanwhile.
fn share_of(parts: usize, bytes: usize, others: usize) -> usize {
    let all = bytes.saturating_add(others).max(1);
    (parts.saturating_mul(bytes) / all).max(1)
}

// The run's date and time.
pub(crate) fn stamp_for(workers: u16, stamp: &[u8]) -> Result<Stamp, SwitchFault>
    ensures { result ≡ stamp_for workers stamp.now }
{
    if workers < 1 || workers > MOST_WORKERS {
        return Err(SwitchFault::Workers);
    }
    Stamp::new(stamp).ok_or(SwitchFault::Stamp)
}
