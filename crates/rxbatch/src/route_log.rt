//! The log of a run of several plans.
use crate::ending::Ending;
use crate::switch_inputs::{PlanTexts, SwitchInputs};
use crate::watched_run::{ended_line, failed_end, host_name, peak, text_of, time_now};
use rx_cli::{RouteWords, VERSION};
use rx_io::{Inputs, Outputs};
use rx_run_log::{
    FileLog, Lot, RunLog, StepTimes, Totals, line_feeds_in, log_line, micros_between,
};
use rx_sheet::PlanFiles;
use rx_switch::{PlanOutput, RouteOutput};
use std::alloc::{AllocError, Global};
use std::process;
use std::time::{Clock, Duration};

/// When a run began, where, and with how many workers.
#[derive(Drop)]
pub struct RouteBegin {
    pub workers: u16,
    start: Option<String>,
    time: Option<Duration>,
    host: Option<String>,
}

impl RouteBegin {
    /// Of a run that begins now.
    pub fn now(rt: &HostRuntime, workers: u16) -> RouteBegin {
        RouteBegin {
            workers,
            start: time_now(rt),
            time: rt.monotonic().ok(),
            host: host_name(rt),
        }
    }
}

// A file with its size, as far as it is known.
#[derive(Drop)]
struct SizedFile {
    path: String,
    bytes: Option<u64>,
}

impl SizedFile {
    // No file.
    fn none(alloc: Global) -> SizedFile {
        SizedFile {
            path: String::new(alloc),
            bytes: None,
        }
    }

    // A file that wasn't written.
    fn unwritten(alloc: Global, path: &str) -> Result<SizedFile, AllocError> {
        Ok(SizedFile {
            path: String::from_str(alloc, path)?,
            bytes: None,
        })
    }

    // A file of these bytes.
    fn of(alloc: Global, path: &str, text: &[u8]) -> Result<SizedFile, AllocError> {
        Ok(SizedFile {
            path: String::from_str(alloc, path)?,
            bytes: Some(text.len() as u64),
        })
    }

    fn log(&self) -> FileLog<'_> {
        FileLog {
            path: self.path.as_str(),
            bytes: self.bytes,
            sha256: None,
        }
    }
}

// What all lines of a run have. They own what they say, since a line borrows from one value.
struct RunParts {
    start: Option<String>,
    host: Option<String>,
    stamp: String,
    lot: Option<LotParts>,
}

// Written out, so that freeing one is one call wherever a function ends early, not one for each of its fields.
impl Drop for RunParts {
    fn drop(self) {
        let RunParts {
            start: _,
            host: _,
            stamp: _,
            lot: _,
        } = self;
    }
}

// The lot of the batch.
#[derive(Drop)]
struct LotParts {
    number: String,
    created: String,
}

// What a line says.
struct LineParts {
    run: RunParts,
    plan: Option<String>,
    status: u8,
    refused: Option<[u64; 3]>,
    file: Option<u64>,
    fault: Option<String>,
    end_books_lines: Option<u64>,
    totals: Option<Totals>,
    inputs: Inputs<SizedFile>,
    outputs: Outputs<SizedFile>,
}

// Written out, so that freeing one is one call wherever a function ends early, not one for each of its fields.
impl Drop for LineParts {
    fn drop(self) {
        let LineParts {
            run: _,
            plan: _,
            status: _,
            refused: _,
            file: _,
            fault: _,
            end_books_lines: _,
            totals: _,
            inputs: _,
            outputs: _,
        } = self;
    }
}

/// The lines of a run that is done, one a plan.
pub fn done_lines(
    rt: &HostRuntime,
    words: &RouteWords<'_>,
    begin: &RouteBegin,
    inputs: &SwitchInputs,
    output: &RouteOutput,
) -> Result<String, AllocError> {
    let alloc = rt.alloc();
    let mut lines = String::new(alloc);
    let plans = inputs.plans.iter().zip(inputs.texts.iter());
    for ((plan, texts), own) in plans.zip(output.plans.iter()) {
        let done = DonePlan { plan, texts, own };
        let parts = done_parts(alloc, words, begin, inputs, output, done)?;
        let line = line(rt, words, begin, &parts)?;
        lines.push_str(line.as_str())?;
    }
    Ok(lines)
}

// A plan with what was read of it, and what it got.
#[derive(Clone, Copy)]
struct DonePlan<'a> {
    plan: &'a PlanFiles,
    texts: &'a PlanTexts,
    own: &'a PlanOutput,
}

/// The line of a run that isn't done.
pub fn failed_line(
    rt: &HostRuntime,
    words: &RouteWords<'_>,
    begin: &RouteBegin,
    inputs: &SwitchInputs,
    ending: &Ending,
) -> Result<String, AllocError> {
    let run = run_parts(rt.alloc(), words, begin, &inputs.batch)?;
    let parts = failed_parts(rt.alloc(), run, words, &inputs.batch, ending)?;
    line(rt, words, begin, &parts)
}

fn run_parts(
    alloc: Global,
    words: &RouteWords<'_>,
    begin: &RouteBegin,
    batch: &[u8],
) -> Result<RunParts, AllocError> {
    Ok(RunParts {
        start: copied(alloc, &begin.start)?,
        host: copied(alloc, &begin.host)?,
        stamp: String::from_str(alloc, words.stamp)?,
        lot: lot_parts(alloc, batch)?,
    })
}

fn copied(alloc: Global, text: &Option<String>) -> Result<Option<String>, AllocError> {
    match text {
        Some(text) => Ok(Some(String::from_str(alloc, text.as_str())?)),
        None => Ok(None),
    }
}

fn lot_parts(alloc: Global, batch: &[u8]) -> Result<Option<LotParts>, AllocError> {
    match Lot::of_batch(batch) {
        Some(lot) => Ok(Some(LotParts {
            number: String::from_str(alloc, lot.number)?,
            created: String::from_str(alloc, lot.created)?,
        })),
        None => Ok(None),
    }
}

// Those of a plan that is done.
fn done_parts(
    alloc: Global,
    words: &RouteWords<'_>,
    begin: &RouteBegin,
    inputs: &SwitchInputs,
    output: &RouteOutput,
    done: DonePlan<'_>,
) -> Result<LineParts, AllocError> {
    let DonePlan { plan, texts, own } = done;
    Ok(LineParts {
        run: run_parts(alloc, words, begin, &inputs.batch)?,
        plan: Some(String::from_str(alloc, plan.name.as_str())?),
        status: 0,
        refused: None,
        file: None,
        fault: None,
        end_books_lines: Some(line_feeds_in(&own.books)),
        totals: Totals::of_settlement(&own.settlement),
        inputs: plan_inputs(alloc, plan, texts, words.files.batch, &inputs.batch)?,
        outputs: plan_outputs(alloc, &output.response, words.files.response, plan, own)?,
    })
}

fn plan_inputs(
    alloc: Global,
    plan: &PlanFiles,
    texts: &PlanTexts,
    path: &str,
    batch: &[u8],
) -> Result<Inputs<SizedFile>, AllocError> {
    Ok(Inputs {
        sheet: SizedFile::of(alloc, plan.sheet.as_str(), &texts.sheet)?,
        books: SizedFile::of(alloc, plan.books.as_str(), texts.books.as_slice())?,
        batch: SizedFile::of(alloc, path, batch)?,
    })
}

fn plan_outputs(
    alloc: Global,
    response: &[u8],
    path: &str,
    plan: &PlanFiles,
    own: &PlanOutput,
) -> Result<Outputs<SizedFile>, AllocError> {
    let settlement = match &plan.settlement {
        Some(path) => SizedFile::of(alloc, path.as_str(), &own.settlement)?,
        None => SizedFile::none(alloc),
    };
    Ok(Outputs {
        response: SizedFile::of(alloc, path, response)?,
        books: SizedFile::of(alloc, plan.books_out.as_str(), &own.books)?,
        settlement,
    })
}

// Those of a run that isn't done.
fn failed_parts(
    alloc: Global,
    run: RunParts,
    words: &RouteWords<'_>,
    batch: &[u8],
    ending: &Ending,
) -> Result<LineParts, AllocError> {
    let (status, refused, file) = failed_end(ending);
    Ok(LineParts {
        run,
        plan: None,
        status,
        refused,
        file,
        fault: fault_words(alloc, ending)?,
        end_books_lines: None,
        totals: None,
        inputs: Inputs {
            sheet: SizedFile::none(alloc),
            books: SizedFile::none(alloc),
            batch: SizedFile::of(alloc, words.files.batch, batch)?,
        },
        outputs: failed_outputs(alloc, words)?,
    })
}

fn fault_words(alloc: Global, ending: &Ending) -> Result<Option<String>, AllocError> {
    match ending {
        Ending::InWords(_, line) | Ending::Conflict(line) => {
            Ok(Some(String::from_str(alloc, line.as_str())?))
        }
        _ => Ok(None),
    }
}

// The outputs of a run that wrote none.
fn failed_outputs(alloc: Global, words: &RouteWords<'_>) -> Result<Outputs<SizedFile>, AllocError> {
    Ok(Outputs {
        response: SizedFile::unwritten(alloc, words.files.response)?,
        books: SizedFile::none(alloc),
        settlement: SizedFile::unwritten(alloc, words.files.settlement)?,
    })
}

// A line of the log, with its line feed.
fn line(
    rt: &HostRuntime,
    words: &RouteWords<'_>,
    begin: &RouteBegin,
    parts: &LineParts,
) -> Result<String, AllocError> {
    let log = RunLog {
        version: VERSION,
        start: text_of(&parts.run.start),
        duration: micros_between(begin.time, rt.monotonic().ok()),
        host: text_of(&parts.run.host),
        process: process::id(rt.process()),
        plan: text_of(&parts.plan),
        status: parts.status,
        refused: parts.refused,
        file: parts.file,
        fault: text_of(&parts.fault),
        warning: None,
        records: None,
        end_books_lines: parts.end_books_lines,
        codes: None,
        stamp: parts.run.stamp.as_str(),
        workers: begin.workers,
        plain: false,
        desk: false,
        safe: words.safe,
        shards: None,
        lot: lot_in_log(&parts.run.lot),
        totals: parts.totals,
        inputs: inputs_in_log(&parts.inputs),
        outputs: outputs_in_log(&parts.outputs),
        steps: StepTimes { micros: [None; 8] },
        peak: peak(rt),
    };
    ended_line(log_line(rt.alloc(), &log))
}

fn lot_in_log(lot: &Option<LotParts>) -> Option<Lot<'_>> {
    match lot {
        Some(lot) => Some(Lot {
            number: lot.number.as_str(),
            created: lot.created.as_str(),
        }),
        None => None,
    }
}

fn inputs_in_log(files: &Inputs<SizedFile>) -> Inputs<FileLog<'_>> {
    Inputs {
        sheet: files.sheet.log(),
        books: files.books.log(),
        batch: files.batch.log(),
    }
}

fn outputs_in_log(files: &Outputs<SizedFile>) -> Outputs<FileLog<'_>> {
    Outputs {
        response: files.response.log(),
        books: files.books.log(),
        settlement: files.settlement.log(),
    }
}
