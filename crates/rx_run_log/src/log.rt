use crate::header::Lot;
use crate::report::Shards;
use crate::settlement::Totals;
use crate::step::StepTimes;
use rx_io::{Inputs, Outputs};

/// A file of a run. What isn't known is `None`.
#[derive(Clone, Copy)]
pub struct FileLog<'a> {
    /// The path, as it was given.
    pub path: &'a str,
    /// How many bytes were read or written.
    pub bytes: Option<u64>,
    /// The SHA-256 of these bytes, in 64 hexadecimal digits.
    pub sha256: Option<&'a str>,
}

/// How often a reject code was given.
#[derive(Drop)]
pub struct CodeCount {
    pub code: String,
    pub count: u64,
}

/// The fields of a log's line. What isn't known is `None`.
#[derive(Clone, Copy)]
pub struct RunLog<'a> {
    /// The version of the program.
    pub version: &'a str,
    /// When the run began, as RFC 3339 has it, in UTC.
    pub start: Option<&'a str>,
    /// How long it took, in microseconds.
    pub duration: Option<u64>,
    /// The name of the machine.
    pub host: Option<&'a str>,
    /// The number of the process.
    pub process: u32,
    /// The name of the plan, where the run is one of several plans'.
    pub plan: Option<&'a str>,
    /// The exit status.
    pub status: u8,
    /// The three numbers of a refusal.
    pub refused: Option<[u64; 3]>,
    /// The number of the file that failed.
    pub file: Option<u64>,
    /// Why the run isn't done, in words.
    pub fault: Option<&'a str>,
    /// What an operator should know of a run that is done, in words.
    pub warning: Option<&'a str>,
    /// How many records the batch has.
    pub records: Option<u64>,
    /// How many lines the end books have.
    pub end_books_lines: Option<u64>,
    /// How often each reject code was given.
    pub codes: Option<&'a [CodeCount]>,
    pub stamp: &'a str,
    pub workers: u16,
    pub plain: bool,
    pub desk: bool,
    pub safe: bool,
    /// How the batch was dealt out, where it was.
    pub shards: Option<Shards>,
    pub lot: Option<Lot<'a>>,
    pub totals: Option<Totals>,
    pub inputs: Inputs<FileLog<'a>>,
    pub outputs: Outputs<FileLog<'a>>,
    pub steps: StepTimes,
    /// The most memory that the program had, in kilobytes of 1,024 bytes.
    pub peak: Option<u64>,
}
