//! What the commands for several plans are asked to do.

/// The files of a command for several plans.
#[derive(Clone, Copy)]
pub struct SwitchFiles<'a> {
    /// `--plans`: the plans file.
    pub plans: &'a str,
    /// `--batch`: the batch file.
    pub batch: &'a str,
    /// `--response`: the response file of all plans.
    pub response: &'a str,
    /// `--settlement`: the settlement of all plans.
    pub settlement: &'a str,
}

/// The words of `route`.
#[derive(Clone, Copy)]
pub struct RouteWords<'a> {
    pub files: SwitchFiles<'a>,
    /// `--stamp`, as it was written.
    pub stamp: &'a str,
    /// `--workers`, 0 to 65535. Without it there are as many as processors.
    pub workers: Option<u16>,
    /// `--safe`: the outputs take their paths only when all are written.
    pub safe: bool,
    /// `--verbose`: what each plan came to.
    pub verbose: bool,
    /// `--log`: the file to add a line about each plan to.
    pub log: Option<&'a str>,
}

/// The words of `join`.
#[derive(Clone, Copy)]
pub struct JoinWords<'a> {
    pub files: SwitchFiles<'a>,
    /// `--safe`: the outputs take their paths only when all are written.
    pub safe: bool,
}
