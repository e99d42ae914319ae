use rx_batch::Details;
use rx_books_store::Books;
use rx_d0_values::{Reply, Transmission};
use rx_fields::Lot;
use rx_ledger::Sheet;

/// A batch, and what it is adjudicated on.
#[derive(Drop)]
pub struct Batch<'a> {
    /// The batch's lot.
    pub lot: Lot,
    /// The plan.
    pub sheet: &'a Sheet,
    /// The books before the batch.
    pub opening: &'a Books,
    /// What its records ask.
    pub asked: &'a [Transmission],
}

/// A batch, what it is adjudicated on, and the replies to it.
#[derive(Drop)]
pub struct Adjudicated {
    /// The batch's lot.
    pub lot: Lot,
    /// The plan.
    pub sheet: Sheet,
    /// The books before the batch.
    pub opening: Books,
    /// The details of the batch.
    pub details: Details,
    /// What they ask.
    pub asked: Vec<Transmission>,
    /// The replies to them.
    pub replies: Vec<Reply>,
}
