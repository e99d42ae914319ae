//! The words of these commands, read.
ghost use Rattle.std.specs.Prelude.{IfNone, IfSome};
ghost use Rattle.clap.specs.Words.{found_of, rows_of};
ghost use Rattle.rx_cli.specs.Asked.{HoldsExcerpt, NoneHolds};

use crate::dispute::ExcerptWords;
use crate::options::{inputs, long_number, text};
use clap::ArgMatches;

/// What `excerpt` takes, with its record in digits only.
pub(crate) fn excerpt<'a>(found: &ArgMatches<'a>) -> Option<ExcerptWords<'a>>
    ensures some { IfSome result (HoldsExcerpt (rows_of (found_of found.now))) }
    ensures none { IfNone result (NoneHolds (HoldsExcerpt (rows_of (found_of found.now)))) }
{
    let inputs = inputs(found)?;
    let place = long_number(found, "record")?;
    let out = text(found, "out")?;
    Some(ExcerptWords {
        inputs,
        place,
        out,
        response: text(found, "response"),
    })
}
