use crate::settlement::Totals;
use crate::step::Step;

/// What is counted in a step.
#[derive(Clone, Copy)]
pub enum Counted {
    /// Lines of a text.
    Lines(u64),
    /// Records of a batch, without header and trailer.
    Records(u64),
}

/// What is reported of a step. What isn't known, or isn't the step's, is `None`.
#[derive(Clone, Copy)]
pub struct StepReport {
    pub step: Step,
    pub counted: Option<Counted>,
    /// How many bytes were read or written.
    pub bytes: Option<u64>,
    /// How long the step took, in microseconds.
    pub micros: Option<u64>,
}

/// How a batch was dealt out to several workers, in shards that share no book.
#[derive(Clone, Copy)]
pub struct Shards {
    pub count: u64,
    /// How many transactions the largest shard has.
    pub largest: u64,
    /// How many all shards have together.
    pub transactions: u64,
}

/// What is reported of a run that is done. What isn't known is `None`.
#[derive(Clone, Copy)]
pub struct RunReport {
    pub totals: Option<Totals>,
    /// The most memory that the program had, in bytes.
    pub peak: Option<u64>,
    /// How long the run took, in microseconds.
    pub micros: Option<u64>,
}
