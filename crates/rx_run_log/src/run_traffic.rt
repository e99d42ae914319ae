ghost use Rattle.std.specs.Prelude.{◌≡◌, ◌-◌, []};
ghost use Rattle.rx_run_log.specs.RunTraffic.{details_passed, input_report, later_reports, lines_passed, lines_report, steps_of};
ghost use Rattle.rx_run_log.specs.Traffic.{IsTrafficOf};

use crate::report::{Counted, StepReport};
use crate::step::{Step, StepTimes};
use crate::times::{RunTimes, micros_between};
use crate::traffic::Traffic;
use rx_io::{Inputs, Outputs};

// A batch file has two records more than details: header and trailer.
const NO_DETAILS: u64 = 2;

/// What passed through the six files of a run.
#[derive(Drop)]
pub struct RunTraffic {
    pub inputs: Inputs<Traffic>,
    pub outputs: Outputs<Traffic>,
}

/// How many details a batch file has, by what passed through it.
pub fn details_in(batch: &Traffic) -> u64
    ensures { result ≡ batch.now.starts - NO_DETAILS }
{
    batch.starts().saturating_sub(NO_DETAILS)
}

/// The same where the file was read.
pub fn details_passed(batch: &Traffic) -> Option<u64>
    ensures { result ≡ details_passed batch.now }
{
    if batch.is_called() {
        Some(details_in(batch))
    } else {
        None
    }
}

/// How many lines of a text passed, where it was read or written.
pub fn lines_passed(text: &Traffic) -> Option<u64>
    ensures { result ≡ lines_passed text.now }
{
    if text.is_called() {
        Some(text.line_feeds())
    } else {
        None
    }
}

impl RunTraffic {
    /// Of a run that opened no file.
    pub fn nothing() -> RunTraffic
        ensures inputs { IsTrafficOf result.inputs.sheet [] × IsTrafficOf result.inputs.books []
            × IsTrafficOf result.inputs.batch [] }
        ensures outputs { IsTrafficOf result.outputs.response [] × IsTrafficOf result.outputs.books []
            × IsTrafficOf result.outputs.settlement [] }
    {
        RunTraffic {
            inputs: Inputs {
                sheet: Traffic::new(false),
                books: Traffic::new(false),
                batch: Traffic::new(false),
            },
            outputs: Outputs {
                response: Traffic::new(false),
                books: Traffic::new(false),
                settlement: Traffic::new(false),
            },
        }
    }

    /// How long each step took: each ends with the last call of its file, adjudication with the first call of the response.
    pub fn steps(&self, times: RunTimes) -> StepTimes
        ensures { result ≡ steps_of self.now times }
    {
        let (inputs, outputs) = (&self.inputs, &self.outputs);
        let response = &outputs.response;
        StepTimes {
            micros: [
                micros_between(times.begin, inputs.sheet.last()),
                micros_between(inputs.sheet.last(), inputs.books.last()),
                micros_between(inputs.books.last(), inputs.batch.last()),
                micros_between(inputs.batch.last(), response.first()),
                micros_between(response.first(), response.last()),
                micros_between(response.last(), outputs.books.last()),
                micros_between(outputs.books.last(), outputs.settlement.last()),
                micros_between(outputs.settlement.last(), times.end),
            ],
        }
    }

    /// The reports of the steps after the inputs.
    pub fn later_reports(&self, times: RunTimes) -> [StepReport; 5]
        ensures { result ≡ later_reports self.now times }
    {
        let steps = self.steps(times);
        let outputs = &self.outputs;
        let records = Counted::Records(details_in(&self.inputs.batch));
        [
            StepReport {
                step: Step::Adjudicate,
                counted: Some(records),
                bytes: None,
                micros: steps.of(Step::Adjudicate),
            },
            StepReport {
                step: Step::Response,
                counted: Some(records),
                bytes: Some(outputs.response.bytes()),
                micros: steps.of(Step::Response),
            },
            lines_report(Step::EndBooks, &outputs.books, &steps),
            lines_report(Step::Settlement, &outputs.settlement, &steps),
            StepReport {
                step: Step::Disk,
                counted: None,
                bytes: None,
                micros: steps.of(Step::Disk),
            },
        ]
    }
}

// The report of a step that reads or writes a text.
fn lines_report(step: Step, text: &Traffic, steps: &StepTimes) -> StepReport
    ensures { result ≡ lines_report step text.now steps.now }
{
    StepReport {
        step,
        counted: Some(Counted::Lines(text.line_feeds())),
        bytes: Some(text.bytes()),
        micros: steps.of(step),
    }
}

/// The report of an input that was read to its end.
pub fn input_report(step: Step, input: &Traffic) -> StepReport
    ensures { result ≡ input_report step input.now }
{
    let counted = match step {
        Step::Batch => Counted::Records(details_in(input)),
        _ => Counted::Lines(input.line_feeds()),
    };
    StepReport {
        step,
        counted: Some(counted),
        bytes: Some(input.bytes()),
        micros: micros_between(input.first(), input.last()),
    }
}
