//! The options read, one at a time.
ghost use Rattle.std.specs.Prelude.{◌≡◌, IfNone, IfSome, option_map};
ghost use Rattle.clap.specs.Words.{first_of, found_of, rows_of};
ghost use Rattle.rx_cli.specs.Asked.{HasLongNumber, HasNumber, HasNumberOr, HoldsInputs, HoldsOutputs, MayHaveNumber, NoneHolds};
ghost use Rattle.rx_cli.specs.Asked.{is_set};

use clap::ArgMatches;
use rx_io::{Inputs, Outputs};

/// The text of an option.
pub(crate) fn text<'a>(found: &ArgMatches<'a>, name: &str) -> Option<&'a str>
    ensures { option_map (λ t. t.now) result ≡ first_of name.now (rows_of (found_of found.now)) }
{
    found.get_str(name)
}

/// Whether a flag stands.
pub(crate) fn flag(found: &ArgMatches<'_>, name: &str) -> bool
    ensures { result ≡ is_set name.now (rows_of (found_of found.now)) }
{
    matches!(text(found, name), Some("true"))
}

/// The number of an option, 0 to 65535, that is written in digits only.
pub(crate) fn number(found: &ArgMatches<'_>, name: &str) -> Option<u16>
    ensures some { IfSome result (HasNumber (rows_of (found_of found.now)) name.now) }
    ensures none { IfNone result (NoneHolds (HasNumber (rows_of (found_of found.now)) name.now)) }
{
    let written = text(found, name)?;
    if matches!(written.as_bytes(), [b'+', ..]) {
        return None;
    }
    written.parse().ok()
}

/// The number of an option, if it stands; None where what stands is no such number.
pub(crate) fn number_if_given(found: &ArgMatches<'_>, name: &str) -> Option<Option<u16>>
    ensures some { IfSome result (MayHaveNumber (rows_of (found_of found.now)) name.now) }
    ensures none { IfNone result (NoneHolds (MayHaveNumber (rows_of (found_of found.now)) name.now)) }
{
    match text(found, name) {
        None => Some(None),
        Some(_) => Some(Some(number(found, name)?)),
    }
}

/// A value that is a number below 2 ^ 64, written in digits only.
pub(crate) fn long_number(found: &ArgMatches<'_>, name: &str) -> Option<u64>
    ensures some { IfSome result (HasLongNumber (rows_of (found_of found.now)) name.now) }
    ensures none { IfNone result (NoneHolds (HasLongNumber (rows_of (found_of found.now)) name.now)) }
{
    let written = text(found, name)?;
    match written.as_bytes() {
        [b'+', ..] => None,
        _ => written.parse().ok(),
    }
}

/// The number of an option, or the other where the option doesn't stand.
pub(crate) fn number_or(found: &ArgMatches<'_>, name: &str, other: u16) -> Option<u16>
    ensures some { IfSome result (HasNumberOr (rows_of (found_of found.now)) name.now other) }
    ensures none { IfNone result (NoneHolds (HasNumberOr (rows_of (found_of found.now)) name.now other)) }
{
    match text(found, name) {
        None => Some(other),
        Some(_) => number(found, name),
    }
}

/// The input files.
pub(crate) fn inputs<'a>(found: &ArgMatches<'a>) -> Option<Inputs<&'a str>>
    ensures some { IfSome result (HoldsInputs (rows_of (found_of found.now))) }
    ensures none { IfNone result (NoneHolds (HoldsInputs (rows_of (found_of found.now)))) }
{
    Some(Inputs {
        sheet: text(found, "sheet")?,
        books: text(found, "books")?,
        batch: text(found, "batch")?,
    })
}

/// The output files.
pub(crate) fn outputs<'a>(found: &ArgMatches<'a>) -> Option<Outputs<&'a str>>
    ensures some { IfSome result (HoldsOutputs (rows_of (found_of found.now))) }
    ensures none { IfNone result (NoneHolds (HoldsOutputs (rows_of (found_of found.now)))) }
{
    Some(Outputs {
        response: text(found, "response")?,
        books: text(found, "books-out")?,
        settlement: text(found, "settlement")?,
    })
}
