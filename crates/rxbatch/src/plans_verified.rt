//! `verify` for the plans of a plans file.
use crate::ending::Ending;
use crate::named::WrongValue;
use crate::plan_words::plan_line;
use crate::standard_output::print;
use crate::switch_inputs::{SwitchInputs, plan_text};
use crate::texts::text_of;
use rx_batch::ETX;
use rx_cli::VerifyWords;
use rx_commands::{first_difference, pieces_before, rest_of_piece};
use rx_fields::Memory;
use rx_io::Device;
use rx_print::{Page, Style};
use rx_sheet::PlanFiles;
use rx_switch::{PlanOutput, RouteOutput};
use std::alloc::Global;
use std::thread::Threads;

// How many bytes of a line or record are shown.
const LONGEST: usize = 60;

// What a place in a file is counted in: the byte that ends one, its word, and the number of the first.
#[derive(Clone, Copy)]
struct Cut {
    end: u8,
    word: &'static str,
    first: usize,
}

const RECORD: Cut = Cut {
    end: ETX,
    word: "record",
    first: 0,
};

const LINE: Cut = Cut {
    end: b'\n',
    word: "line",
    first: 1,
};

/// Does a run of several plans again and prints whether the files of an earlier one are what it gives: the outputs of all plans,
/// and those that the plans file names. `--plain` and `--desk` are of one plan's run.
pub fn verify<R: Threads + Sync>(
    rt: &HostRuntime,
    threads: &R,
    words: &VerifyWords<'_>,
    inputs: (&str, &str),
    outputs: (&str, &str),
) -> Result<(), Ending> {
    if words.plain || words.desk {
        return Err(Ending::NoValue(WrongValue::PlansRun));
    }
    let (plans, batch) = inputs;
    let inputs = SwitchInputs::read(rt, plans, batch)?;
    verify_read(rt, threads, words, &inputs, batch, outputs)
}

// The same of inputs that were read.
fn verify_read<R: Threads + Sync>(
    rt: &HostRuntime,
    threads: &R,
    words: &VerifyWords<'_>,
    inputs: &SwitchInputs,
    batch: &str,
    outputs: (&str, &str),
) -> Result<(), Ending> {
    let (response, settlement) = outputs;
    let files = SharedFiles {
        response: text_of(rt, response, Device::Response)?,
        settlement: text_of(rt, settlement, Device::Settlement)?,
    };
    let output = inputs.route(rt, threads, batch, words.stamp, words.workers)?;
    verify_output(rt, inputs, &output, &files)
}

// The same of what the inputs give.
fn verify_output(
    rt: &HostRuntime,
    inputs: &SwitchInputs,
    output: &RouteOutput,
    files: &SharedFiles,
) -> Result<(), Ending> {
    let lines = differences(rt, inputs, output, files)?;
    if lines.is_empty() {
        return print_same(rt, output);
    }
    print(rt, &lines)?;
    Err(Ending::Differs)
}

// The files of an earlier run that are of all plans.
#[derive(Drop)]
struct SharedFiles {
    response: Vec<u8>,
    settlement: Vec<u8>,
}

// A line for each file that isn't what the inputs give.
fn differences(
    rt: &HostRuntime,
    inputs: &SwitchInputs,
    output: &RouteOutput,
    files: &SharedFiles,
) -> Result<Vec<u8>, Ending> {
    let mut page = Page::new(rt.alloc());
    put_difference(
        &mut page,
        "response",
        RECORD,
        &output.response,
        &files.response,
    );
    put_difference(
        &mut page,
        "settlement",
        LINE,
        &output.settlement,
        &files.settlement,
    );
    for (plan, own) in inputs.plans.iter().zip(output.plans.iter()) {
        put_plan(rt, &mut page, plan, own)?;
    }
    Ok(page.into_bytes()?)
}

// What differs of the files of a plan.
fn put_plan(
    rt: &HostRuntime,
    page: &mut Page,
    plan: &PlanFiles,
    own: &PlanOutput,
) -> Result<(), Ending> {
    let name = plan.name.as_str();
    let books = plan_text(
        rt,
        name,
        "books_out",
        plan.books_out.as_str(),
        Device::EndBooks,
    )?;
    put_plan_file(rt.alloc(), page, (name, "books_out"), &own.books, &books)?;
    let Some(path) = &plan.settlement else {
        return Ok(());
    };
    let settlement = plan_text(rt, name, "settlement", path.as_str(), Device::Settlement)?;
    Ok(put_plan_file(
        rt.alloc(),
        page,
        (name, "settlement"),
        &own.settlement,
        &settlement,
    )?)
}

// What differs of a file of a plan, by the plan's name and the file's key.
fn put_plan_file(
    alloc: Global,
    page: &mut Page,
    (name, key): (&str, &str),
    ours: &[u8],
    theirs: &[u8],
) -> Result<(), Memory> {
    let label = plan_line(alloc, name, key)?;
    put_difference(page, label.as_str(), LINE, ours, theirs);
    Ok(())
}

// A line where a file isn't the text: which line or record differs first, and from which byte on.
fn put_difference(page: &mut Page, label: &str, cut: Cut, ours: &[u8], theirs: &[u8]) {
    let Some(at) = first_difference(ours, theirs) else {
        return;
    };
    let number = pieces_before(ours, at, cut.end).saturating_add(cut.first);
    page.say(label);
    page.say(": ");
    page.say(cut.word);
    page.say(" ");
    page.number(number as u128);
    page.say(" differs from byte ");
    page.number(at as u128);
    page.say(": file ");
    put_piece(page, rest_of_piece(theirs, at, cut.end));
    page.say(", replay ");
    put_piece(page, rest_of_piece(ours, at, cut.end));
    page.say("\n");
}

// Bytes as a terminal shows them, of many the front only.
fn put_piece(page: &mut Page, piece: &[u8]) {
    let front = piece.get(..LONGEST).unwrap_or(piece);
    page.escaped(Style::Terminal, front);
    if front.len() < piece.len() {
        page.say("..");
    }
}

fn print_same(rt: &HostRuntime, output: &RouteOutput) -> Result<(), Ending> {
    let (response, settlement) = (output.response.len(), output.settlement.len());
    let plans = output.plans.len();
    let line = format!(in rt.alloc();
        "same: response {response} bytes, settlement {settlement}, and the files of {plans} plans\n"
    )?;
    print(rt, line.as_str().as_bytes())
}
