use crate::ending::Ending;
use crate::fault_line::{explained, long_books_words};
use crate::file_fault::{FileFault, ProgramFile};
use crate::files::{names_stream, open_inputs};
use crate::moment::{stamp_or_now, workers_or_all};
use crate::named::Named;
use crate::nodes::{Node, one_file_twice};
use crate::noted_file::{CountedFile, LastError, LinesWritten, noted_input, noted_output};
use crate::outputs::RunOutputs;
use crate::run_gate::RunGate;
use crate::settings::{RunManner, RunPlan, RunSettings};
use crate::streams::stream_of;
use crate::watched_run;
use rx_check::stamp_line;
use rx_cli::RunWords;
use rx_io::{Device, Inputs, Outputs, WriterSink};
use rx_switch::run_io;
use std::cell::Cell;
use std::fs::File;
use std::io::IsTerminal;
use std::sync::Wait;
use std::thread::Threads;

/// Adjudicates a batch file, as the words of `run` say. A fault is reported in words too where that is asked for, and on a
/// terminal.
pub fn run<R: Threads + Wait + Sync>(
    rt: &HostRuntime,
    threads: &R,
    words: &RunWords<'_>,
) -> Result<(), Ending> {
    let stamp = stamp_or_now(rt, words.stamp)?;
    let workers = workers_or_all(threads, words.workers);
    let explains_refusal = words.verbose || rt.stderr().is_terminal();
    if words.verbose && words.stamp.is_none() {
        print_stamp(rt, stamp.as_str());
    }
    let manner = RunManner::of_run(words, workers, explains_refusal);
    let plan = RunPlan::of_run(rt.alloc(), words, stamp, manner)?;
    run_as(rt, threads, &plan.settings(None))
}

/// Says which stamp a run has.
pub fn print_stamp(rt: &HostRuntime, stamp: &str) {
    if let Ok(line) = stamp_line(rt.alloc(), stamp) {
        let _ = eprintln!(rt; "{line}");
    }
}

/// Adjudicates a batch file. A file that failed is reported in words too where that is asked for, and always where another run
/// has it; so are end books that have more lines than a run reads.
pub fn run_as<R: Threads + Wait + Sync>(
    rt: &HostRuntime,
    threads: &R,
    words: &RunSettings<'_>,
) -> Result<(), Ending> {
    let done = if words.manner.explains_refusal || words.manner.reports_end || words.log.is_some() {
        watched_run::run(rt, threads, words)
    } else {
        unwatched(rt, threads, words)
    };
    match done {
        Ok(lines) => {
            if let Some(line) = long_books_words(rt, words, lines) {
                let _ = eprintln!(rt; "rxbatch: {line}");
            }
            Ok(())
        }
        Err(Ending::File(fault)) if words.manner.explains_refusal || fault.is_busy() => {
            Err(explained(rt, words, fault))
        }
        Err(ending) => Err(ending),
    }
}

// The same without a look at what passes through the files: how many lines the end books have.
fn unwatched<R: Threads + Wait + Sync>(
    rt: &HostRuntime,
    threads: &R,
    words: &RunSettings<'_>,
) -> Result<u64, Ending> {
    let RunFiles { inputs, outputs } = RunFiles::open(rt, words, Node::Other)?;
    let lines: LinesWritten = Cell::new(0);
    let done = on_files(rt, threads, words, &inputs, &outputs, &lines);
    outputs.end(rt, done)?;
    Ok(lines.get())
}

/// The files of a run, opened.
#[derive(Drop)]
pub struct RunFiles {
    pub inputs: Inputs<File>,
    pub outputs: RunOutputs,
}

impl RunFiles {
    /// Opens the inputs, then the outputs, and makes them ready where no output is another of the six files, nor one that a
    /// standard stream leads to. The log is opened already.
    pub fn open(rt: &HostRuntime, words: &RunSettings<'_>, log: Node) -> Result<RunFiles, Ending> {
        let inputs = match words.opened {
            Some(files) => same_files(files)?,
            None => open_inputs(rt, &words.inputs)?,
        };
        let nodes = inputs.as_ref().map(|file| Node::of(file));
        let kept = [nodes.sheet, nodes.books, nodes.batch, log];
        let outputs = RunOutputs::open(rt, words, &kept)?;
        if let Some((one, other)) = one_twice(rt, words, nodes, &outputs) {
            outputs.remove_made(rt);
            return Err(Ending::OneFile(one, other));
        }
        match outputs.begin() {
            Ok(()) => Ok(RunFiles { inputs, outputs }),
            Err(ending) => {
                outputs.leave(rt);
                Err(ending)
            }
        }
    }
}

// The same open files, under descriptors of their own.
fn same_files(files: &Inputs<File>) -> Result<Inputs<File>, Ending> {
    files.as_ref().try_map(|device, file| {
        match file.try_clone() {
            Ok(file) => Ok(file),
            Err(error) => Err(Ending::of_input(device, error)),
        }
    })
}

// What an output is, as far as the system says, and the output's option.
fn one_twice(
    rt: &HostRuntime,
    words: &RunSettings<'_>,
    inputs: Inputs<Node>,
    outputs: &RunOutputs,
) -> Option<(Named, Named)> {
    let outputs = outputs.nodes();
    if let Some(options) = one_file_twice(inputs, outputs) {
        return Some(options);
    }
    let paths = &words.outputs;
    let nodes = [
        (Device::Response, paths.response, outputs.response),
        (Device::EndBooks, paths.books, outputs.books),
        (Device::Settlement, paths.settlement, outputs.settlement),
    ];
    for (device, path, node) in nodes {
        if names_stream(path) {
            continue;
        }
        if let Some(stream) = stream_of(rt, node) {
            return Some((Named::of(device), stream));
        }
    }
    None
}

// The run on its files.
fn on_files<R: Threads + Wait + Sync>(
    rt: &HostRuntime,
    threads: &R,
    words: &RunSettings<'_>,
    inputs: &Inputs<File>,
    outputs: &RunOutputs,
    lines: &LinesWritten,
) -> Result<(), Ending> {
    let last: LastError = Cell::new(None);
    let mut sources = inputs.as_ref().map(|file| noted_input(file, &last));
    let files = outputs.files();
    let mut sinks = Outputs {
        response: noted_output(files.response, &last),
        books: WriterSink::new(CountedFile::new(files.books, &last, lines)),
        settlement: noted_output(files.settlement, &last),
    };
    let gate = RunGate {
        at_desk: words.manner.desk,
    };
    let done = run_io(
        threads,
        rt.alloc(),
        &gate,
        words.stamp.as_bytes(),
        words.manner.workers,
        words.manner.plain,
        &mut sources,
        &mut sinks,
    );
    done.map_err(|fault| Ending::of_run(fault, last.get()))
}
