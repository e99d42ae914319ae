ghost use Rattle.std.specs.Prelude.{◌≡◌, take};
ghost use Rattle.rx_diagnostics.specs.Places.{batch_place, books_place, starts_before, unread_batch_place};

use rx_batch::{BatchFault, STX};
use rx_books_text::BooksFault;

/// Where in its file a fault stands.
#[derive(Clone, Copy)]
pub enum Place {
    /// The file as a whole.
    Whole,
    /// The line, from 1.
    Line(u64),
    /// The line and the column, both from 1; a column counts characters.
    Column { line: u64, column: u64 },
    /// The number of bytes before it, where nothing more is known.
    Byte(u64),
    /// The record by its number, 0 for the header and its place for a detail, and the number of bytes before it.
    Record { number: u64, byte: u64 },
}

impl Place {
    /// Where a books fault stands.
    pub fn of_books(fault: BooksFault) -> Place
        ensures { result ≡ books_place fault }
    {
        match fault {
            BooksFault::Head => Place::Line(1),
            BooksFault::Line(line)
            | BooksFault::Order(line)
            | BooksFault::UnknownMember(line)
            | BooksFault::Totals(line) => Place::Line(line),
            BooksFault::TooMuch | BooksFault::Memory => Place::Whole,
        }
    }

    /// Where a fault of this batch file stands.
    pub fn of_batch(fault: BatchFault, text: &[u8]) -> Place
        ensures { result ≡ batch_place text.now fault }
    {
        match fault.place() {
            Some(byte) => Place::Record {
                number: starts_before(text, byte),
                byte,
            },
            None => Place::Whole,
        }
    }

    /// Where a fault of a batch file stands that can't be read again.
    pub fn of_unread_batch(fault: BatchFault) -> Place
        ensures { result ≡ unread_batch_place fault }
    {
        match fault.place() {
            Some(byte) => Place::Byte(byte),
            None => Place::Whole,
        }
    }
}

/// How many records begin before a byte: the number of the record that begins there, the header's being 0.
pub(crate) fn starts_before(text: &[u8], byte: u64) -> u64
    ensures { result ≡ starts_before text.now byte }
{
    let before = front(text, byte as usize);
    before.iter().filter(|b| **b == STX).count() as u64
}

/// The first bytes, at most this many.
pub(crate) fn front(text: &[u8], length: usize) -> &[u8]
    ensures { result.now ≡ take length text.now }
{
    if length < text.len() {
        &text[..length]
    } else {
        text
    }
}
