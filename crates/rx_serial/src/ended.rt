use rx_books_store::OpenBooks;
use rx_fields::Key;

/// What some records of a batch leave.
#[derive(Drop)]
pub struct Ended {
    /// The books after the records, with a slot for each of the fill keys.
    pub books: OpenBooks,
    /// The fill keys that the records name, each once, in order.
    pub keys: Vec<Key>,
}
