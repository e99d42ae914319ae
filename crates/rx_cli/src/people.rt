//! What the commands are asked to do that people need and no program.
use rx_io::Inputs;

/// The words of `adjudicate`.
#[derive(Clone, Copy)]
pub struct AdjudicateWords<'a> {
    pub inputs: Inputs<&'a str>,
    /// `--out`: the folder for the outputs and the log.
    pub out: &'a str,
    /// `--stamp`, as it was written. Without it the run's is the time when it begins.
    pub stamp: Option<&'a str>,
    /// `--workers`, 0 to 65535. Without it there are as many as processors.
    pub workers: Option<u16>,
    /// `--again`: adjudicate though a warning would stop it.
    pub again: bool,
    /// `--strict`: stop at each warning.
    pub strict: bool,
    /// `--quiet`: no steps and no sums.
    pub quiet: bool,
}

/// The numbers of the line `refused N M P` (docs/CLI.md, "Refusals").
#[derive(Clone, Copy)]
pub struct FaultNumbers {
    /// N: the kind of refusal.
    pub kind: u64,
    /// M: the fault of that input.
    pub within: u64,
    /// P: its key, line or byte.
    pub place: u64,
}
