//! A run that is watched: what passes through its files is counted, reported on standard error, and kept in a log.
use crate::code_counts::code_counts;
use crate::ending::{Ending, Numbers};
use crate::fault_line::{file_words, long_books_words, refused_words};
use crate::log_file::LogFile;
use crate::nodes::Node;
use crate::noted_file::{CodesWritten, LastError, coded_output, noted_output};
use crate::read_again::ReadInputs;
use crate::reporter::Reporter;
use crate::run_files::RunFiles;
use crate::settings::RunSettings;
use crate::step_source::{StepSource, Sums};
use jiff::Timestamp;
use rx_cli::VERSION;
use rx_io::{Inputs, Outputs};
use rx_run_log::{
    CodeCount, CodesPassed, FileLog, FileSum, Lot, RunLog, RunTimes, RunTraffic, Shards, Step,
    Summing, Totals, Traffic, Watched, details_passed, lines_passed, log_line, micros_between,
};
use rx_switch::{IoFault, run_io};
use std::alloc::{AllocError, Global};
use std::cell::Cell;
use std::sync::Wait;
use std::thread::Threads;
use std::time::Clock;
use std::{fs, io, process};

/// Adjudicates a batch file, and adds a line to its log, if it has one, of a refused run too. A log that fails after a run
/// that is done ends the program as a file fault. A fault is reported in words too where that is asked for. The answer is how
/// many lines the end books have.
pub fn run<R: Threads + Wait + Sync>(
    rt: &HostRuntime,
    threads: &R,
    words: &RunSettings<'_>,
) -> Result<u64, Ending> {
    let log = match words.log {
        Some(path) => Some(LogFile::open(rt, path, words)?),
        None => None,
    };
    let node = log.as_ref().map_or(Node::Other, |log| log.node());
    let run = watched(rt, threads, words, node);
    let lines = run.traffic.outputs.books.line_feeds();
    let logged = match log {
        Some(log) => add_line(rt, words, log, &run),
        None => Ok(()),
    };
    run.into_end().into_done(words.manner.explains_refusal)?;
    logged?;
    Ok(lines)
}

// The SHA-256 of an input that a thread of its own summed.
type Digest = [u8; 32];

// How a run ended.
#[derive(Drop)]
struct RunEnd {
    done: Result<(), Ending>,
    // Why it isn't done, in words.
    fault: Option<String>,
}

impl RunEnd {
    // In words where the refusal is explained.
    fn into_done(self, explains_refusal: bool) -> Result<(), Ending> {
        match (self.done, self.fault) {
            (Err(ending), Some(line)) if explains_refusal => Err(ending.in_words(line)),
            (done, _) => done,
        }
    }
}

// A run that was watched.
#[derive(Drop)]
struct WatchedRun {
    end: RunEnd,
    traffic: RunTraffic,
    digests: Inputs<Option<Digest>>,
    // The reject codes in the response.
    codes: Option<CodesPassed>,
    shards: Option<Shards>,
    // When it began, as RFC 3339 has it.
    start: Option<String>,
    times: RunTimes,
}

impl WatchedRun {
    fn into_end(self) -> RunEnd {
        self.end
    }
}

// Adjudicates a batch file, and watches its files. The steps are reported on standard error where that is asked for.
fn watched<R: Threads + Wait + Sync>(
    rt: &HostRuntime,
    threads: &R,
    words: &RunSettings<'_>,
    log: Node,
) -> WatchedRun {
    let start = time_now(rt);
    let reporter = Reporter::new(rt, words);
    // Only the log has the codes.
    let codes = Cell::new(words.log.map(|_| CodesPassed::new(rt.alloc())));
    let Passed {
        mut end,
        traffic,
        digests,
    } = match RunFiles::open(rt, words, log) {
        Ok(files) => on_files(rt, threads, words, files, &reporter, &codes),
        Err(ending) => Passed::nothing(ending),
    };
    if end.fault.is_none() {
        end.fault = fault_of(rt, words, &end.done);
    }
    let times = RunTimes {
        begin: reporter.begin(),
        end: rt.monotonic().ok(),
    };
    if end.done.is_ok() {
        reporter.report_done(&traffic, times);
    }
    WatchedRun {
        end,
        traffic,
        digests,
        codes: codes.into_inner(),
        shards: reporter.shards(),
        start,
        times,
    }
}

// Why a run isn't done, in words, where no input is refused.
fn fault_of(
    rt: &HostRuntime,
    words: &RunSettings<'_>,
    done: &Result<(), Ending>,
) -> Option<String> {
    match done {
        Ok(()) => None,
        Err(Ending::File(fault)) => file_words(rt, words, fault).ok(),
        Err(ending) => ending.words(rt.alloc()),
    }
}

// What became of the files of a run: how it ended, with a refusal in words, what passed through them, and the sums of inputs that
// threads of their own made.
#[derive(Drop)]
struct Passed {
    end: RunEnd,
    traffic: RunTraffic,
    digests: Inputs<Option<Digest>>,
}

impl Passed {
    // Of a run whose files couldn't be opened.
    fn nothing(ending: Ending) -> Passed {
        Passed {
            end: RunEnd {
                done: Err(ending),
                fault: None,
            },
            traffic: RunTraffic::nothing(),
            digests: Inputs {
                sheet: None,
                books: None,
                batch: None,
            },
        }
    }
}

// How the sums of inputs are made: only the log has them, and with several workers they are made while the run goes on.
fn sums_of(words: &RunSettings<'_>) -> Sums {
    match (
        words.manner.sums && words.log.is_some(),
        words.manner.workers,
    ) {
        (false, _) => Sums::Unasked,
        (true, 1) => Sums::AsRead,
        (true, _) => Sums::Apart,
    }
}

// The run on its files.
fn on_files<R: Threads + Wait + Sync>(
    rt: &HostRuntime,
    threads: &R,
    words: &RunSettings<'_>,
    files: RunFiles,
    steps: &Reporter<'_>,
    codes: &CodesWritten,
) -> Passed {
    let alloc = rt.alloc();
    let sums = sums_of(words);
    let last: LastError = Cell::new(None);
    let RunFiles { inputs, outputs } = files;
    let read = ReadInputs::new(&inputs);
    let mut sources = Inputs {
        sheet: StepSource::new(rt, threads, &inputs.sheet, &last, Step::Sheet, steps, sums),
        books: StepSource::new(rt, threads, &inputs.books, &last, Step::Books, steps, sums),
        batch: StepSource::new(rt, threads, &inputs.batch, &last, Step::Batch, steps, sums),
    };
    let files = outputs.files();
    let sums = sums.is_asked();
    let mut sinks = Outputs {
        response: Watched::new(coded_output(files.response, &last, codes), rt, sums),
        books: Watched::new(noted_output(files.books, &last), rt, sums),
        settlement: Watched::new(noted_output(files.settlement, &last), rt, sums),
    };
    let done = run_io(
        threads,
        alloc,
        steps,
        words.stamp.as_bytes(),
        words.manner.workers,
        words.manner.plain,
        &mut sources,
        &mut sinks,
    );
    let Inputs {
        sheet,
        books,
        batch,
    } = sources;
    let (sheet, sheet_sum) = sheet.into_traffic();
    let (books, books_sum) = books.into_traffic();
    let (batch, batch_sum) = batch.into_traffic();
    let traffic = RunTraffic {
        inputs: Inputs {
            sheet,
            books,
            batch,
        },
        outputs: Outputs {
            response: sinks.response.into_traffic(),
            books: sinks.books.into_traffic(),
            settlement: sinks.settlement.into_traffic(),
        },
    };
    let fault = refusal_of(rt, words, &done, &read, &traffic.inputs);
    let done = done.map_err(|fault| Ending::of_run(fault, last.get()));
    Passed {
        end: RunEnd {
            done: outputs.end(rt, done),
            fault,
        },
        traffic,
        digests: Inputs {
            sheet: digest_of(threads, sheet_sum),
            books: digest_of(threads, books_sum),
            batch: digest_of(threads, batch_sum),
        },
    }
}

// The digest that a thread makes, once it is made.
fn digest_of<R: Threads>(threads: &R, summing: Option<Summing>) -> Option<Digest> {
    match summing {
        Some(summing) => Some(summing.end(threads)),
        None => None,
    }
}

// The refusal of a run, in words.
fn refusal_of(
    rt: &HostRuntime,
    words: &RunSettings<'_>,
    done: &Result<(), IoFault>,
    read: &ReadInputs<'_>,
    traffic: &Inputs<Traffic>,
) -> Option<String> {
    match done {
        Err(IoFault::Switch(refused)) => refused_words(rt, words, *refused, read, traffic).ok(),
        _ => None,
    }
}

// Adds the line of the run to its log.
fn add_line(
    rt: &HostRuntime,
    words: &RunSettings<'_>,
    log: LogFile,
    run: &WatchedRun,
) -> Result<(), Ending> {
    match line(rt, words, run) {
        Ok(line) => log.add(rt, line.as_str()),
        Err(refused) => Err(Ending::of_log(io::Error::from(refused))),
    }
}

// The line of the log, with its line feed.
fn line(rt: &HostRuntime, words: &RunSettings<'_>, run: &WatchedRun) -> Result<String, AllocError> {
    let alloc = rt.alloc();
    let (status, refused, file) = end_of(&run.end.done);
    let (inputs, outputs) = (&run.traffic.inputs, &run.traffic.outputs);
    let lines = lines_passed(&outputs.books);
    let warning = warning_of(rt, words, &run.end.done, lines);
    let host = host_name(rt);
    let codes = given_codes(alloc, run);
    let read = sums_read(alloc, run);
    let written = outputs.as_ref().map(|file| FileSum::of(alloc, file));
    let log = RunLog {
        version: VERSION,
        start: text_of(&run.start),
        duration: micros_between(run.times.begin, run.times.end),
        host: text_of(&host),
        process: process::id(rt.process()),
        plan: None,
        status,
        refused,
        file,
        fault: text_of(&run.end.fault),
        warning: text_of(&warning),
        records: details_passed(&inputs.batch),
        end_books_lines: lines,
        codes: slice_of(&codes),
        stamp: words.stamp,
        workers: words.manner.workers,
        plain: words.manner.plain,
        desk: words.manner.desk,
        safe: words.manner.safe,
        shards: run.shards,
        lot: Lot::of_batch(inputs.batch.front()),
        totals: Totals::of_settlement(outputs.settlement.end()),
        inputs: inputs_in_log(&read, &words.inputs),
        outputs: outputs_in_log(&written, &words.outputs),
        steps: run.traffic.steps(run.times),
        peak: peak(rt),
    };
    ended_line(log_line(alloc, &log))
}

/// The line with its line feed.
pub fn ended_line(line: Result<String, AllocError>) -> Result<String, AllocError> {
    let mut line = line?;
    line.push('\n')?;
    Ok(line)
}

// The sizes and the sums of the inputs.
fn sums_read(alloc: Global, run: &WatchedRun) -> Inputs<FileSum> {
    let (inputs, digests) = (&run.traffic.inputs, &run.digests);
    Inputs {
        sheet: sum_read(alloc, &inputs.sheet, digests.sheet),
        books: sum_read(alloc, &inputs.books, digests.books),
        batch: sum_read(alloc, &inputs.batch, digests.batch),
    }
}

fn sum_read(alloc: Global, input: &Traffic, digest: Option<Digest>) -> FileSum {
    match digest {
        Some(digest) => FileSum::of_digest(alloc, input, digest),
        None => FileSum::of(alloc, input),
    }
}

fn inputs_in_log<'a>(sums: &'a Inputs<FileSum>, paths: &Inputs<&'a str>) -> Inputs<FileLog<'a>> {
    Inputs {
        sheet: sums.sheet.log(paths.sheet),
        books: sums.books.log(paths.books),
        batch: sums.batch.log(paths.batch),
    }
}

fn outputs_in_log<'a>(
    sums: &'a Outputs<FileSum>,
    paths: &Outputs<&'a str>,
) -> Outputs<FileLog<'a>> {
    Outputs {
        response: sums.response.log(paths.response),
        books: sums.books.log(paths.books),
        settlement: sums.settlement.log(paths.settlement),
    }
}

// The exit status of a run, the numbers of a refusal, and that of a file that failed.
fn end_of(done: &Result<(), Ending>) -> (u8, Option<[u64; 3]>, Option<u64>) {
    match done {
        Ok(()) => (0, None, None),
        Err(ending) => failed_end(ending),
    }
}

/// The same of a run that isn't done.
pub fn failed_end(ending: &Ending) -> (u8, Option<[u64; 3]>, Option<u64>) {
    match ending.numbers() {
        Some(Numbers::Refused(numbers)) => (ending.status(), Some(numbers), None),
        Some(Numbers::File(number)) => (ending.status(), None, Some(number)),
        Some(Numbers::Response(_) | Numbers::Reply(_)) | None => (ending.status(), None, None),
    }
}

// What an operator should know of the end books of a run that is done.
fn warning_of(
    rt: &HostRuntime,
    words: &RunSettings<'_>,
    done: &Result<(), Ending>,
    lines: Option<u64>,
) -> Option<String> {
    match (done, lines) {
        (Ok(()), Some(lines)) => long_books_words(rt, words, lines),
        _ => None,
    }
}

// How often each reject code was given, where the response was written.
fn given_codes(alloc: Global, run: &WatchedRun) -> Option<Vec<CodeCount>> {
    match &run.codes {
        Some(codes) if run.traffic.outputs.response.is_called() => {
            code_counts(alloc, codes).ok()
        }
        _ => None,
    }
}

fn slice_of(counts: &Option<Vec<CodeCount>>) -> Option<&[CodeCount]> {
    match counts {
        Some(counts) => Some(counts.as_slice()),
        None => None,
    }
}

/// The same text, borrowed.
pub fn text_of(text: &Option<String>) -> Option<&str> {
    match text {
        Some(text) => Some(text.as_str()),
        None => None,
    }
}

/// The time of the clock, as RFC 3339 has it, in UTC.
pub fn time_now(rt: &HostRuntime) -> Option<String> {
    let seconds = rt.since_1970().ok()?.as_secs();
    let time = Timestamp::from_second(i64::try_from(seconds).ok()?).ok()?;
    format!(in rt.alloc(); "{time}").ok()
}

/// The name of the machine, where the system says it.
pub fn host_name(rt: &HostRuntime) -> Option<String> {
    let name = fs::read_to_string(rt, "/proc/sys/kernel/hostname").ok()?;
    String::from_str(rt.alloc(), name.as_str().trim()).ok()
}

/// The most memory that the program had, in kilobytes, where the system says it.
pub fn peak(rt: &HostRuntime) -> Option<u64> {
    let status = fs::read_to_string(rt, "/proc/self/status").ok()?;
    for line in status.as_str().lines() {
        if let Some(rest) = line.strip_prefix("VmHWM:") {
            return rest.trim().strip_suffix(" kB")?.parse().ok();
        }
    }
    None
}
