/// One atomic step of a desk, at the place of a record, from 1: its books are moved out, or in again
/// (docs/RULES.md, "The atomic step").
#[derive(Clone, Copy, PartialEq, Eq)]
pub enum Event {
    /// The books of the record are moved out.
    Take(usize),
    /// The finished books of the record are moved in.
    Give(usize),
}
