use rx_books_store::Books;
use rx_d0_values::Reply;

/// What a run of records gives.
#[derive(Drop)]
pub struct Finished {
    /// The books after all records.
    pub books: Books,
    /// The reply to each record, in file order.
    pub replies: Vec<Reply>,
}
