use rx_fields::{Lot, Stamp};

/// A batch that was run: what the head line of its settlement says.
#[derive(Clone, Copy)]
pub struct BatchRun {
    /// The batch number, with the creation date of its header.
    pub lot: Lot,
    /// The run's date and time.
    pub stamp: Stamp,
}
