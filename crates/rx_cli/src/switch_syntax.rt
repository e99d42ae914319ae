//! The command lines of the commands for several plans.
ghost use Rattle.clap.specs.Words.{App};
ghost use Rattle.rx_cli.specs.Syntax.{Draws, join_line, route_line, with_route_options, with_switch, with_switch_inputs};
ghost use Rattle.rx_cli.specs.Syntax.{with_switch_outputs, with_switch_watch};

use crate::draft::Draft;
use crate::syntax::{WORKERS_OR_ALL, draft};
use std::alloc::Global;

const SAFE: &str = "Write to temporary files, renamed when all is done";

// A line with the plans file and the batch file.
fn takes_switch_inputs<'a>(line: Draft<'a>) -> Draft<'a>
    ensures { (app : App) → Draws app line.entry → Draws (with_switch_inputs app) result }
{
    line.file("plans", "Plans file").file("batch", "Batch file")
}

// A line with the outputs of all plans.
fn takes_switch_outputs<'a>(line: Draft<'a>) -> Draft<'a>
    ensures { (app : App) → Draws app line.entry → Draws (with_switch_outputs app) result }
{
    line.file("response", "Response file to write")
        .file("settlement", "Settlement to write")
}

// A line with the stamp and the workers.
fn takes_route_options<'a>(line: Draft<'a>) -> Draft<'a>
    ensures { (app : App) → Draws app line.entry → Draws (with_route_options app) result }
{
    line.option("stamp", "STAMP", "Date and time, CCYYMMDDHHMM")
        .workers(WORKERS_OR_ALL)
}

/// The subcommand `route`.
pub(crate) fn route<'a>(alloc: Global) -> Draft<'a>
    ensures { Draws route_line result }
{
    let route = draft(alloc, "route", "Adjudicates a batch file for several plans");
    let options = takes_route_options(takes_switch_inputs(route));
    takes_switch_watch(takes_switch_outputs(options).flag("safe", SAFE))
}

// A line with what a run of several plans says of itself.
fn takes_switch_watch<'a>(line: Draft<'a>) -> Draft<'a>
    ensures { (app : App) → Draws app line.entry → Draws (with_switch_watch app) result }
{
    line.verbose("Print what each plan came to")
        .optional("log", "FILE", "Log, a line of JSON for each plan")
}

/// The subcommand `join`.
fn join<'a>(alloc: Global) -> Draft<'a>
    ensures { Draws join_line result }
{
    let join = draft(
        alloc,
        "join",
        "Joins the response files of several plans' runs",
    );
    takes_switch_outputs(takes_switch_inputs(join)).flag("safe", SAFE)
}

/// A line with the subcommands for several plans.
pub(crate) fn takes_switch<'a>(alloc: Global, line: Draft<'a>) -> Draft<'a>
    ensures { (app : App) → Draws app line.entry → Draws (with_switch app) result }
{
    line.subcommand(route(alloc)).subcommand(join(alloc))
}
