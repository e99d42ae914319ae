use rx_fields::Key;
use rx_ledger::Row;
use rx_sorted::Keyed;

/// The book of a fill key: the row that stands under it, if there is one.
#[derive(Clone, Copy, PartialEq, Eq)]
pub struct KeyBook {
    /// The fill key.
    pub key: Key,
    /// The row under it.
    pub row: Option<Row>,
}

impl Keyed for KeyBook {
    type Key = Key;

    ghost key_of = { λ book. book.key };

    fn key(&self) -> Key {
        self.key
    }
}
