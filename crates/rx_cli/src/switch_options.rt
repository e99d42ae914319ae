//! The words of the commands for several plans, read.
ghost use Rattle.std.specs.Prelude.{IfNone, IfSome};
ghost use Rattle.clap.specs.Words.{found_of, rows_of};
ghost use Rattle.rx_cli.specs.Asked.{HoldsJoin, HoldsRoute, HoldsSwitchFiles, NoneHolds};

use crate::options::{flag, number_if_given, text};
use crate::switch::{JoinWords, RouteWords, SwitchFiles};
use clap::ArgMatches;

fn files<'a>(found: &ArgMatches<'a>) -> Option<SwitchFiles<'a>>
    ensures some { IfSome result (HoldsSwitchFiles (rows_of (found_of found.now))) }
    ensures none { IfNone result (NoneHolds (HoldsSwitchFiles (rows_of (found_of found.now)))) }
{
    let plans = text(found, "plans")?;
    let batch = text(found, "batch")?;
    let response = text(found, "response")?;
    let settlement = text(found, "settlement")?;
    Some(SwitchFiles {
        plans,
        batch,
        response,
        settlement,
    })
}

/// What `route` takes; None where the workers are no number.
pub(crate) fn route<'a>(found: &ArgMatches<'a>) -> Option<RouteWords<'a>>
    ensures some { IfSome result (HoldsRoute (rows_of (found_of found.now))) }
    ensures none { IfNone result (NoneHolds (HoldsRoute (rows_of (found_of found.now)))) }
{
    let files = files(found)?;
    let log = text(found, "log");
    let stamp = text(found, "stamp")?;
    let workers = number_if_given(found, "workers")?;
    Some(RouteWords {
        files,
        stamp,
        workers,
        safe: flag(found, "safe"),
        verbose: flag(found, "verbose"),
        log,
    })
}

/// What `join` takes.
pub(crate) fn join<'a>(found: &ArgMatches<'a>) -> Option<JoinWords<'a>>
    ensures some { IfSome result (HoldsJoin (rows_of (found_of found.now))) }
    ensures none { IfNone result (NoneHolds (HoldsJoin (rows_of (found_of found.now)))) }
{
    let files = files(found)?;
    let safe = flag(found, "safe");
    Some(JoinWords { files, safe })
}
