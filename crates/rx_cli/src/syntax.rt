//! The command line as `clap` reads it.
ghost use Rattle.std.specs.Prelude.{◌≡◌, IfOk};
ghost use Rattle.clap.specs.Words.{App, app_of, new_app};
ghost use Rattle.rx_cli.specs.Syntax.{Draws, IsLocal};
ghost use Rattle.rx_cli.specs.Syntax.{with_inputs, with_log, with_outputs, with_run_options, with_watch, with_ways};
ghost use Rattle.rx_cli.specs.Syntax.{with_compared, with_given};
ghost use Rattle.rx_cli.specs.Syntax.{check_line, plan_line, run_line, show_line, with_adjudication};
ghost use Rattle.rx_cli.specs.Syntax.{explain_line, replies_line, report_line, verify_line, with_retracing};
ghost use Rattle.rx_cli.specs.Syntax.{whole_line, with_asked, with_forms, with_reader, with_verify_options};

use crate::compare_options::compare_line;
use crate::dispute_syntax::takes_disputes;
use crate::draft::Draft;
use crate::people_syntax::takes_people;
use crate::settle_options::settle_line;
use crate::switch_syntax::takes_switch;
use crate::upkeep_syntax::takes_upkeep;
use clap::Command as Line;
use std::alloc::{AllocError, Global};

/// What `rxbatch --version` prints after the program's name: the version, and the kit that proved it, without the letter of
/// its edition, which proves nothing.
pub const VERSION: &str = "0.1.0 (rattle-kit-13 logic dac8208d650f15bf)";

// What is said of the plans file that stands in place of sheet and books.
const PLANS: &'static str = "Plans file, in place of sheet and books";

// What is said of options that may be left out.
pub(crate) const STAMP_OR_NOW: &'static str = "Date and time, CCYYMMDDHHMM; else now";

pub(crate) const WORKERS_OR_ALL: &'static str = "Number of threads, 1 to 64; else the processors";

/// The line of this name, as yet without an option.
fn named<'a>(alloc: Global, name: &'a str, about: &'a str) -> Line<'a>
    ensures shape { app_of result ≡ new_app name.entry.now }
    ensures local { IsLocal result }
{
    Line::new(alloc, name).about(about)
}

/// A draft of the line of this name.
pub(crate) fn draft<'a>(alloc: Global, name: &'a str, about: &'a str) -> Draft<'a>
    ensures { Draws (new_app name.entry.now) result }
{
    Draft::of(alloc, named(alloc, name, about))
}

/// A line with the three input files.
pub(crate) fn takes_inputs<'a>(line: Draft<'a>) -> Draft<'a>
    ensures { (app : App) → Draws app line.entry → Draws (with_inputs app) result }
{
    line.file("sheet", "Plan sheet")
        .file("books", "Opening books")
        .file("batch", "Batch file")
}

/// A line with the batch file, and plan sheet and opening books or the plans file.
fn takes_given<'a>(line: Draft<'a>) -> Draft<'a>
    ensures { (app : App) → Draws app line.entry → Draws (with_given app) result }
{
    line.optional("sheet", "FILE", "Plan sheet")
        .optional("books", "FILE", "Opening books")
        .optional("plans", "FILE", PLANS)
        .file("batch", "Batch file")
}

/// A line with the output files that are compared, of which the plans file names the end books of several plans.
fn takes_compared<'a>(line: Draft<'a>) -> Draft<'a>
    ensures { (app : App) → Draws app line.entry → Draws (with_compared app) result }
{
    line.file("response", "Response file to compare")
        .optional("books-out", "FILE", "End books to compare")
        .file("settlement", "Settlement to compare")
}

/// A line with the three output files.
fn takes_outputs<'a>(line: Draft<'a>) -> Draft<'a>
    ensures { (app : App) → Draws app line.entry → Draws (with_outputs app) result }
{
    line.file("response", "Response file to write")
        .file("books-out", "End books to write")
        .file("settlement", "Settlement to write")
}

/// A line with the options of `run` that are no files.
fn takes_run_options<'a>(line: Draft<'a>) -> Draft<'a>
    ensures { (app : App) → Draws app line.entry → Draws (with_run_options app) result }
{
    let timed = line.optional("stamp", "STAMP", STAMP_OR_NOW);
    takes_ways(timed.workers(WORKERS_OR_ALL))
}

/// A line with the other ways to adjudicate, which change no byte of an output.
fn takes_ways<'a>(line: Draft<'a>) -> Draft<'a>
    ensures { (app : App) → Draws app line.entry → Draws (with_ways app) result }
{
    line.flag(
        "plain",
        "Use the reference implementation, slow on large books",
    )
    .flag("desk", "Hand the records out to the workers one by one")
}

/// A line with the options of `run` for a run that nobody watches.
fn takes_watch<'a>(line: Draft<'a>) -> Draft<'a>
    ensures { (app : App) → Draws app line.entry → Draws (with_watch app) result }
{
    let safe = line.flag("safe", "Write to temporary files, renamed when all is done");
    takes_log(safe.verbose("Print the steps, and a refusal in words"))
}

/// A line with the options of a log.
fn takes_log<'a>(line: Draft<'a>) -> Draft<'a>
    ensures { (app : App) → Draws app line.entry → Draws (with_log app) result }
{
    line.optional("log", "FILE", "Log of the run, one line of JSON")
        .flag("sums", "Write the SHA-256 of each file into the log")
}

/// The subcommand `run`.
pub(crate) fn run<'a>(alloc: Global) -> Draft<'a>
    ensures { Draws run_line result }
{
    let inputs = takes_inputs(draft(alloc, "run", "Adjudicates a batch file"));
    takes_watch(takes_run_options(takes_outputs(inputs)))
}

/// The subcommand `show`.
fn show<'a>(alloc: Global) -> Draft<'a>
    ensures { Draws show_line result }
{
    draft(
        alloc,
        "show",
        "Prints the transactions of a batch, a line each",
    )
    .file("sheet", "Plan sheet")
    .file("batch", "Batch file")
    .flag("tsv", "Print tab-separated values, with the amounts")
}

/// The subcommand `plan`.
fn plan<'a>(alloc: Global) -> Draft<'a>
    ensures { Draws plan_line result }
{
    let plan = draft(alloc, "plan", "Prints which records wait for each other");
    takes_inputs(plan)
}

/// The subcommand `check`.
pub(crate) fn check<'a>(alloc: Global) -> Draft<'a>
    ensures { Draws check_line result }
{
    draft(
        alloc,
        "check",
        "Prints faults of input files in words, and warnings",
    )
    .optional("sheet", "FILE", "Plan sheet")
    .optional("books", "FILE", "Books")
    .optional("plans", "FILE", PLANS)
    .optional("batch", "FILE", "Batch file")
}

/// A line with what `explain` is asked after.
fn takes_asked<'a>(line: Draft<'a>) -> Draft<'a>
    ensures { (app : App) → Draws app line.entry → Draws (with_asked app) result }
{
    line.optional(
        "record",
        "PLACE",
        "Record, PLACE or PLACE.NTH for one transaction",
    )
    .optional("number", "AUTHORIZATION", "Authorization number")
    .optional("rx", "REFERENCE", "Prescription reference number")
    .optional("provider", "ID", "Provider of the prescription")
}

/// The subcommand `explain`.
pub(crate) fn explain<'a>(alloc: Global) -> Draft<'a>
    ensures { Draws explain_line result }
{
    let explain = draft(
        alloc,
        "explain",
        "Explains why claims are answered as they are",
    );
    let answered = takes_asked(takes_given(explain))
        .optional("response", "FILE", "Response file to compare")
        .flag("json", "Print JSON")
        .flag("all", "List all claims of each sum");
    takes_reader(answered)
}

/// A line with the pharmacy that a text is for.
fn takes_reader<'a>(line: Draft<'a>) -> Draft<'a>
    ensures { (app : App) → Draws app line.entry → Draws (with_reader app) result }
{
    line.optional(
        "for-provider",
        "ID",
        "Only what this provider may see: its own claims, of others' dates and amounts",
    )
}

/// A line with the options of `verify` that are no files.
fn takes_verify_options<'a>(line: Draft<'a>) -> Draft<'a>
    ensures { (app : App) → Draws app line.entry → Draws (with_verify_options app) result }
{
    let timed = line.option("stamp", "STAMP", "Date and time, CCYYMMDDHHMM");
    takes_ways(timed.workers("Number of threads, 1 to 64"))
}

/// The subcommand `verify`.
pub(crate) fn verify<'a>(alloc: Global) -> Draft<'a>
    ensures { Draws verify_line result }
{
    let verify = draft(alloc, "verify", "Repeats a run and compares its outputs");
    takes_verify_options(takes_compared(takes_given(verify)))
}

/// A line with the forms of a report.
fn takes_forms<'a>(line: Draft<'a>) -> Draft<'a>
    ensures { (app : App) → Draws app line.entry → Draws (with_forms app) result }
{
    line.flag("tsv", "Print tab-separated values")
        .flag("json", "Print JSON")
        .flag("jsonl", "Print JSON, a line for each answer")
        .flag("html", "Print one HTML page")
        .optional("html-dir", "DIR", "Write an HTML page for each provider")
}

/// The subcommand `report`.
pub(crate) fn report<'a>(alloc: Global) -> Draft<'a>
    ensures { Draws report_line result }
{
    let report = draft(
        alloc,
        "report",
        "Prints the answers, a line each, by provider",
    );
    let inputs = takes_given(report);
    let portions = inputs
        .optional(
            "stamp",
            "STAMP",
            "Date and time of the run, CCYYMMDDHHMM, to print",
        )
        .optional("provider", "ID", "Only the lines of this provider")
        .optional("family", "ID", "Only the lines of this family");
    takes_forms(takes_reader(portions))
}

/// The subcommand `replies`.
fn replies<'a>(alloc: Global) -> Draft<'a>
    ensures { Draws replies_line result }
{
    draft(
        alloc,
        "replies",
        "Prints the replies of a response file, a line each",
    )
    .file("response", "Response file")
}

/// The line with the subcommands that adjudicate and show.
fn takes_adjudication<'a>(alloc: Global, line: Draft<'a>) -> Draft<'a>
    ensures { (app : App) → Draws app line.entry → Draws (with_adjudication app) result }
{
    line.subcommand(run(alloc))
        .subcommand(show(alloc))
        .subcommand(plan(alloc))
        .subcommand(draft(alloc, "sample", "Prints the reply to a fixed claim"))
}

/// The line with the subcommands that check a run's files and retrace it.
fn takes_retracing<'a>(alloc: Global, line: Draft<'a>) -> Draft<'a>
    ensures { (app : App) → Draws app line.entry → Draws (with_retracing app) result }
{
    line.subcommand(check(alloc))
        .subcommand(explain(alloc))
        .subcommand(verify(alloc))
        .subcommand(report(alloc))
        .subcommand(replies(alloc))
        .subcommand(settle_line(alloc))
        .subcommand(compare_line(alloc))
}

/// The command line of the program.
pub(crate) fn line<'a>(alloc: Global) -> Result<Box<Line<'a>>, AllocError>
    ensures { IfOk result (λ l. app_of l.value ≡ whole_line) }
{
    let top = named(alloc, "rxbatch", "Adjudicates pharmacy batch files")
        .subcommand_required(true)
        .version(VERSION);
    let adjudicates = takes_adjudication(alloc, Draft::of(alloc, top));
    let retraces = takes_retracing(alloc, adjudicates);
    let disputed = takes_disputes(alloc, retraces);
    let peopled = takes_people(alloc, disputed);
    let kept_up = takes_upkeep(alloc, peopled);
    takes_switch(alloc, kept_up).line()
}
