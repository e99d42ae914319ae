//! The command that adjudicates a batch file for several plans.
use crate::ending::Ending;
use crate::fault_line::long_books;
use crate::log_file::LogFile;
use crate::moment::workers_or_all;
use crate::nodes::Node;
use crate::plan_words::plan_line;
use crate::route_log::{RouteBegin, done_lines, failed_line};
use crate::switch_inputs::SwitchInputs;
use crate::switch_outputs::{add_common_outputs, add_plan_outputs, write_common, write_plan};
use rx_cli::RouteWords;
use rx_fields::Memory;
use rx_run_log::{Totals, line_feeds_in, totals_words};
use rx_sheet::PlanFiles;
use rx_switch::{PlanOutput, RouteOutput};
use std::alloc::{AllocError, Global};
use std::io;
use std::thread::Threads;

/// Adjudicates a batch file for several plans. Nothing is written where an input is refused. The outputs of all plans are
/// written first, and then plan by plan its settlement and its end books; last the lines of the log.
pub fn route<R: Threads + Sync>(
    rt: &HostRuntime,
    threads: &R,
    words: &RouteWords<'_>,
) -> Result<(), Ending> {
    let workers = workers_or_all(threads, words.workers);
    let begin = RouteBegin::now(rt, workers);
    let mut inputs = inputs_beside_outputs(rt, words)?;
    match words.log {
        Some(path) => route_with_log(rt, threads, words, &begin, &mut inputs, path),
        None => match route_and_write(rt, threads, words, workers, &inputs) {
            Ok(_) => Ok(()),
            Err(ending) => Err(ending),
        },
    }
}

// The inputs, of which no output is one.
fn inputs_beside_outputs(rt: &HostRuntime, words: &RouteWords<'_>) -> Result<SwitchInputs, Ending> {
    let mut inputs = SwitchInputs::read(rt, words.files.plans, words.files.batch)?;
    add_common_outputs(rt, &words.files, words.safe, &mut inputs.known)?;
    add_plan_outputs(rt, &inputs.plans, words.safe, &mut inputs.known)?;
    Ok(inputs)
}

// The same with a log at a path, to which lines are added.
fn route_with_log<R: Threads + Sync>(
    rt: &HostRuntime,
    threads: &R,
    words: &RouteWords<'_>,
    begin: &RouteBegin,
    inputs: &mut SwitchInputs,
    path: &str,
) -> Result<(), Ending> {
    let log = LogFile::open_known(rt, path, &mut inputs.known)?;
    match route_and_write(rt, threads, words, begin.workers, inputs) {
        Ok(output) => {
            let lines = done_lines(rt, words, begin, inputs, &output);
            add_lines(rt, log, lines)
        }
        Err(ending) => {
            // What ended the run is the answer, also where the log fails.
            let line = failed_line(rt, words, begin, inputs, &ending);
            let _ = add_lines(rt, log, line);
            Err(ending)
        }
    }
}

fn add_lines(
    rt: &HostRuntime,
    log: LogFile,
    lines: Result<String, AllocError>,
) -> Result<(), Ending> {
    match lines {
        Ok(lines) => log.add(rt, lines.as_str()),
        Err(refused) => Err(Ending::of_log(io::Error::from(refused))),
    }
}

// The outputs, once they are written.
fn route_and_write<R: Threads + Sync>(
    rt: &HostRuntime,
    threads: &R,
    words: &RouteWords<'_>,
    workers: u16,
    inputs: &SwitchInputs,
) -> Result<RouteOutput, Ending> {
    let output = inputs.route(rt, threads, words.files.batch, words.stamp, workers)?;
    let kept = inputs.known.nodes();
    let paths = (words.files.response, words.files.settlement);
    let texts = (output.response.as_slice(), output.settlement.as_slice());
    write_common(rt, paths, texts, words.safe, kept)?;
    write_plans(rt, words, &inputs.plans, &output.plans, kept)?;
    Ok(output)
}

// Writes the outputs of each plan.
fn write_plans(
    rt: &HostRuntime,
    words: &RouteWords<'_>,
    plans: &[PlanFiles],
    outputs: &[PlanOutput],
    kept: &[Node],
) -> Result<(), Ending> {
    for (plan, own) in plans.iter().zip(outputs.iter()) {
        write_plan(rt, plan, &own.settlement, &own.books, words.safe, kept)?;
        warn_of_long_books(rt, plan, &own.books)?;
        if words.verbose {
            print_totals(rt, plan, &own.settlement);
        }
    }
    Ok(())
}

// Says that no run reads the end books of a plan, where they have too many lines.
fn warn_of_long_books(rt: &HostRuntime, plan: &PlanFiles, books: &[u8]) -> Result<(), Memory> {
    let label = plan_line(rt.alloc(), plan.name.as_str(), "books_out")?;
    let path = plan.books_out.as_str();
    if let Some(line) = long_books(rt, label.as_str(), path, line_feeds_in(books)) {
        let _ = eprintln!(rt; "rxbatch: {line}");
    }
    Ok(())
}

// Says what a plan came to.
fn print_totals(rt: &HostRuntime, plan: &PlanFiles, settlement: &[u8]) {
    if let Some(totals) = Totals::of_settlement(settlement) {
        if let Ok(line) = totals_line(rt.alloc(), plan.name.as_str(), &totals) {
            let _ = eprintln!(rt; "{line}");
        }
    }
}

fn totals_line(alloc: Global, name: &str, totals: &Totals) -> Result<String, Memory> {
    let words = totals_words(alloc, totals)?;
    plan_line(alloc, name, str::from_utf8(&words).unwrap_or(""))
}
