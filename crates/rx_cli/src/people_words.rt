//! The words of these commands, read.
ghost use Rattle.std.specs.Prelude.{IfNone, IfSome};
ghost use Rattle.clap.specs.Words.{found_of, rows_of};
ghost use Rattle.rx_cli.specs.Asked.{HoldsAdjudicate, HoldsFault, NoneHolds};

use crate::options::{flag, inputs, long_number, number_if_given, text};
use crate::people::{AdjudicateWords, FaultNumbers};
use clap::ArgMatches;

/// What `adjudicate` takes, with its workers in digits only.
pub(crate) fn adjudicate<'a>(found: &ArgMatches<'a>) -> Option<AdjudicateWords<'a>>
    ensures none { IfNone result (NoneHolds (HoldsAdjudicate (rows_of (found_of found.now)))) }
    ensures some { IfSome result (HoldsAdjudicate (rows_of (found_of found.now))) }
{
    let inputs = inputs(found)?;
    let out = text(found, "out")?;
    let workers = number_if_given(found, "workers")?;
    Some(AdjudicateWords {
        inputs,
        out,
        stamp: text(found, "stamp"),
        workers,
        again: flag(found, "again"),
        strict: flag(found, "strict"),
        quiet: flag(found, "quiet"),
    })
}

/// What `fault` takes: three numbers in digits only.
pub(crate) fn fault(found: &ArgMatches<'_>) -> Option<FaultNumbers>
    ensures some { IfSome result (HoldsFault (rows_of (found_of found.now))) }
    ensures none { IfNone result (NoneHolds (HoldsFault (rows_of (found_of found.now)))) }
{
    let kind = long_number(found, "N")?;
    let within = long_number(found, "M")?;
    let place = long_number(found, "P")?;
    Some(FaultNumbers {
        kind,
        within,
        place,
    })
}
