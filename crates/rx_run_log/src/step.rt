ghost use Rattle.std.specs.Prelude.{◌≡◌};
ghost use Rattle.rx_run_log.specs.Lines.{label_of};
ghost use Rattle.rx_run_log.specs.Steps.{time_of};

/// A step of a run, in the order in which a run takes them.
#[derive(Clone, Copy)]
pub enum Step {
    /// The plan sheet is read.
    Sheet,
    /// The opening books are read.
    Books,
    /// The batch file is read.
    Batch,
    /// The inputs are understood, and the records adjudicated.
    Adjudicate,
    /// The response file is written.
    Response,
    /// The end books are written.
    EndBooks,
    /// The settlement is written.
    Settlement,
    /// The outputs are brought to the disk, and under their names.
    Disk,
}

impl Step {
    // The step at the front of its line.
    pub(crate) fn label(self) -> &'static str
        ensures { result.now ≡ label_of self }
    {
        match self {
            Step::Sheet => "sheet      ",
            Step::Books => "books      ",
            Step::Batch => "batch      ",
            Step::Adjudicate => "adjudicate ",
            Step::Response => "response   ",
            Step::EndBooks => "end books  ",
            Step::Settlement => "settlement ",
            Step::Disk => "disk       ",
        }
    }
}

/// How long each step took, in microseconds; `None` where the run didn't come to it.
#[derive(Clone, Copy)]
pub struct StepTimes {
    /// In the order of the steps.
    pub micros: [Option<u64>; 8],
}

impl StepTimes {
    /// How long this step took.
    pub fn of(&self, step: Step) -> Option<u64>
        ensures { result ≡ time_of self.now step }
    {
        self.micros[step as usize]
    }
}
