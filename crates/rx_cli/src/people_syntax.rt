//! The commands that people need and no program, as `clap` reads them.
ghost use Rattle.clap.specs.Words.{App};
ghost use Rattle.rx_cli.specs.Syntax.{Draws, adjudicate_line, fault_line, with_people, with_wishes};

use crate::draft::Draft;
use crate::syntax::{STAMP_OR_NOW, WORKERS_OR_ALL, draft, takes_inputs};
use std::alloc::Global;

/// A line with what `adjudicate` may be asked for.
fn takes_wishes<'a>(line: Draft<'a>) -> Draft<'a>
    ensures { (app : App) → Draws app line.entry → Draws (with_wishes app) result }
{
    line.optional("stamp", "STAMP", STAMP_OR_NOW)
        .workers(WORKERS_OR_ALL)
        .flag("again", "Adjudicate despite a warning that stops")
        .flag("strict", "Let each warning stop")
        .flag("quiet", "Print no steps and no sums")
}

/// The subcommand `adjudicate`.
pub(crate) fn adjudicate<'a>(alloc: Global) -> Draft<'a>
    ensures { Draws adjudicate_line result }
{
    let adjudicate = draft(
        alloc,
        "adjudicate",
        "Checks a batch, adjudicates it and writes the outputs into a folder",
    );
    let inputs = takes_inputs(adjudicate);
    takes_wishes(inputs.option("out", "DIR", "Folder for the outputs and the log"))
}

/// The subcommand `fault`.
pub(crate) fn fault<'a>(alloc: Global) -> Draft<'a>
    ensures { Draws fault_line result }
{
    draft(alloc, "fault", "Prints the numbers of a refusal in words")
        .place("N", "Kind of refusal")
        .place("M", "Fault of the input")
        .place("P", "Place of the fault")
}

/// The line with these subcommands.
pub(crate) fn takes_people<'a>(alloc: Global, line: Draft<'a>) -> Draft<'a>
    ensures { (app : App) → Draws app line.entry → Draws (with_people app) result }
{
    line.subcommand(adjudicate(alloc)).subcommand(fault(alloc))
}
