use rx_ledger::Row;

/// Claims, and for each how many bytes its line has, with the line feed.
#[derive(Drop)]
pub(crate) struct Claims {
    pub(crate) rows: Vec<Row>,
    pub(crate) lengths: Vec<u8>,
}
