use rx_books_store::Books;
use rx_d0_values::Transmission;
use rx_fields::Lot;
use rx_ledger::Sheet;

/// What is adjudicated: the records of a batch, by a plan sheet, on opening books.
#[derive(Clone, Copy)]
pub(crate) struct Job<'a> {
    pub(crate) lot: Lot,
    pub(crate) sheet: &'a Sheet,
    pub(crate) books: &'a Books,
    pub(crate) transmissions: &'a [Transmission],
}
