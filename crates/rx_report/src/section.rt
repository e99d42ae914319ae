use crate::line::Line;
use rx_settle::{Field, Tally};

/// A provider's lines, with what they come to.
#[derive(Clone, Copy)]
pub struct Section<'a> {
    /// The provider, filled with blanks; all blanks stand for all that are no id.
    pub provider: Field,
    /// What its answers come to.
    pub tally: Tally,
    /// Its lines, in file order.
    pub lines: &'a [Line],
}

/// The sections of a report, in order of first appearance, and what they come to.
#[derive(Drop)]
pub struct Account<'a> {
    pub sections: Vec<Section<'a>>,
    pub total: Tally,
}
