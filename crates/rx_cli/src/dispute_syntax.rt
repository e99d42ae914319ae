//! The commands for disputes, as `clap` reads them.
ghost use Rattle.clap.specs.Words.{App};
ghost use Rattle.rx_cli.specs.Syntax.{Draws, excerpt_line, with_disputes};

use crate::draft::Draft;
use crate::syntax::{draft, takes_inputs};
use std::alloc::Global;

/// The subcommand `excerpt`.
pub(crate) fn excerpt<'a>(alloc: Global) -> Draft<'a>
    ensures { Draws excerpt_line result }
{
    let excerpt = draft(
        alloc,
        "excerpt",
        "Writes a record with what its answer hangs on into a folder",
    );
    takes_inputs(excerpt)
        .option("record", "PLACE", "Record")
        .option("out", "DIR", "New folder for the excerpt")
        .optional("response", "FILE", "Response file to compare")
}

/// The line with this subcommand.
pub(crate) fn takes_disputes<'a>(alloc: Global, line: Draft<'a>) -> Draft<'a>
    ensures { (app : App) → Draws app line.entry → Draws (with_disputes app) result }
{
    line.subcommand(excerpt(alloc))
}
