use crate::detail::Details;
use crate::head::Head;

/// A batch: its head, and its details in file order.
#[derive(Drop)]
pub struct Batch {
    /// The header's fields.
    pub head: Head,
    /// The details; a batch that was read has at most 100,000.
    pub details: Details,
}
