//! The faults that are found after `clap`'s, in its form: a text, and the usage of the subcommand.
ghost use Rattle.std.specs.Prelude.{◌≡◌, IfOk};
ghost use Rattle.clap.specs.Words.{kind_of};
ghost use Rattle.rx_cli.specs.Faults.{IsMisuse, IsMisuseOfOne, misuse_of};

use crate::compare_options::compare_conflict;
use crate::dispute_syntax::excerpt;
use crate::draft::Draft;
use crate::fault::WordsFault;
use crate::given::{compared, given};
use crate::options::{number_if_given, text};
use crate::people_syntax::{adjudicate, fault as fault_line};
use crate::switch_syntax::route;
use crate::syntax::{check, explain, report, run, verify};
use crate::upkeep_syntax::{age, family, members};
use clap::ArgMatches;
use clap::error::ErrorKind;
use std::alloc::{AllocError, Global};

/// Why there is no command of this name: its options aren't what it takes. Without a text where `run` names one path twice.
pub(crate) fn misuse(alloc: Global, name: &str, found: &ArgMatches<'_>) -> WordsFault {
    match name {
        "run" if number_if_given(found, "workers").is_none() => run_miscounted(alloc, found),
        "excerpt" => excerpt_no_number(alloc),
        "check" => check_conflict(alloc),
        "explain" => explain_misuse(alloc, found),
        "verify" => verify_misuse(alloc, found),
        "route" => route_miscounted(alloc, found),
        "report" => report_conflict(alloc, found),
        "adjudicate" => adjudicate_miscounted(alloc, found),
        "fault" => fault_no_number(alloc),
        "members" => members_conflict(alloc),
        "age" => age_conflict(alloc),
        "family" => family_conflict(alloc),
        "compare" => compare_conflict(alloc),
        _ => WordsFault::Words(None),
    }
}

// The fault of `run` with workers that are no number.
fn run_miscounted(alloc: Global, found: &ArgMatches<'_>) -> WordsFault
    ensures { IsMisuse ErrorKind.ValueValidation result }
{
    miscounted(alloc, run(alloc), "rxbatch run", found)
}

// What a command takes that is about one plan or several.
const ONE_PLAN_OR_SEVERAL: &str =
    "expected '--sheet <FILE>' and '--books <FILE>', or '--plans <FILE>'";

// The fault of `verify`: of the files of a run and of a plans file, or with such workers.
fn verify_misuse(alloc: Global, found: &ArgMatches<'_>) -> WordsFault
    ensures { IsMisuseOfOne ErrorKind.ArgumentConflict ErrorKind.ValueValidation result }
{
    if compared(found).is_none() {
        verify_conflict(alloc)
    } else {
        miscounted(alloc, verify(alloc), "rxbatch verify", found)
    }
}

fn verify_conflict(alloc: Global) -> WordsFault
    ensures { IsMisuse ErrorKind.ArgumentConflict result }
{
    let text =
        "expected '--sheet <FILE>', '--books <FILE>' and '--books-out <FILE>', or '--plans <FILE>'";
    conflict(verify(alloc), "rxbatch verify", text)
}

// The fault of `check` of no sheet and no plans file, or of both.
fn check_conflict(alloc: Global) -> WordsFault
    ensures { IsMisuse ErrorKind.ArgumentConflict result }
{
    let text =
        "expected one of '--sheet <FILE>' and '--plans <FILE>', and '--books <FILE>' only with '--sheet'";
    conflict(check(alloc), "rxbatch check", text)
}

// The fault of `adjudicate` with such workers.
fn adjudicate_miscounted(alloc: Global, found: &ArgMatches<'_>) -> WordsFault
    ensures { IsMisuse ErrorKind.ValueValidation result }
{
    miscounted(alloc, adjudicate(alloc), "rxbatch adjudicate", found)
}

// The fault of `fault` with a value that is not a number.
fn fault_no_number(alloc: Global) -> WordsFault
    ensures { IsMisuse ErrorKind.ValueValidation result }
{
    let text = "expected the three numbers of a line 'refused N M P'";
    invalid(fault_line(alloc), "rxbatch fault", text)
}

// The fault of `route` with such workers.
fn route_miscounted(alloc: Global, found: &ArgMatches<'_>) -> WordsFault
    ensures { IsMisuse ErrorKind.ValueValidation result }
{
    miscounted(alloc, route(alloc), "rxbatch route", found)
}

// The fault of `explain`: not one plan or a plans file; asked after no thing or more than one, or after what isn't a number.
fn explain_misuse(alloc: Global, found: &ArgMatches<'_>) -> WordsFault
    ensures { IsMisuseOfOne ErrorKind.ArgumentConflict ErrorKind.ValueValidation result }
{
    if given(found).is_none() {
        conflict(explain(alloc), "rxbatch explain", ONE_PLAN_OR_SEVERAL)
    } else if is_asked_once(found) {
        explain_no_number(alloc)
    } else {
        explain_conflict(alloc)
    }
}

// Whether one thing is asked after, and nothing with it that excludes it.
fn is_asked_once(found: &ArgMatches<'_>) -> bool {
    let record = text(found, "record").is_some();
    let number = text(found, "number").is_some();
    let rx = text(found, "rx").is_some();
    let provider = text(found, "provider").is_some();
    match (record, number, rx) {
        (true, false, false) | (false, true, false) => !provider,
        (false, false, true) => true,
        _ => false,
    }
}

fn explain_no_number(alloc: Global) -> WordsFault
    ensures { IsMisuse ErrorKind.ValueValidation result }
{
    let text =
        "expected only digits after '--record', '--number' and '--rx', or after '--record' two numbers \
                with a point between them, as 5.3";
    invalid(explain(alloc), "rxbatch explain", text)
}

// The fault of `excerpt` with a record that isn't a number.
fn excerpt_no_number(alloc: Global) -> WordsFault
    ensures { IsMisuse ErrorKind.ValueValidation result }
{
    let text = "expected only digits after '--record': an excerpt is of a whole record, as 5";
    invalid(excerpt(alloc), "rxbatch excerpt", text)
}

fn explain_conflict(alloc: Global) -> WordsFault
    ensures { IsMisuse ErrorKind.ArgumentConflict result }
{
    let text =
        "expected one of '--record <PLACE>', '--number <AUTHORIZATION>' and '--rx <REFERENCE>', \
                and '--provider <ID>' only with '--rx'";
    conflict(explain(alloc), "rxbatch explain", text)
}

// The fault of `report`: not one plan or a plans file; of more than one portion, or in more than one form.
fn report_conflict(alloc: Global, found: &ArgMatches<'_>) -> WordsFault
    ensures { IsMisuse ErrorKind.ArgumentConflict result }
{
    let text = if given(found).is_none() {
        ONE_PLAN_OR_SEVERAL
    } else {
        "at most one of '--provider <ID>', '--family <ID>' and '--for-provider <ID>' is taken, and of '--tsv', '--json', '--jsonl', '--html' and '--html-dir <DIR>'"
    };
    conflict(report(alloc), "rxbatch report", text)
}

// The fault of `members` of no books and no period, or of both.
fn members_conflict(alloc: Global) -> WordsFault
    ensures { IsMisuse ErrorKind.ArgumentConflict result }
{
    let text = "expected one of '--books <FILE>' and '--period <FIRST-LAST>'";
    conflict(members(alloc), "rxbatch members", text)
}

// The fault of `age` with no sheet and no percentage, or with both.
fn age_conflict(alloc: Global) -> WordsFault
    ensures { IsMisuse ErrorKind.ArgumentConflict result }
{
    let text = "expected one of '--sheet <FILE>' and '--refill-percent <N>'";
    conflict(age(alloc), "rxbatch age", text)
}

// The fault of `family` in more than one form.
fn family_conflict(alloc: Global) -> WordsFault
    ensures { IsMisuse ErrorKind.ArgumentConflict result }
{
    let text = "at most one of '--tsv', '--json' and '--html' is taken";
    conflict(family(alloc), "rxbatch family", text)
}

fn miscounted(alloc: Global, draft: Draft<'_>, program: &str, found: &ArgMatches<'_>) -> WordsFault
    ensures { IsMisuse ErrorKind.ValueValidation result }
{
    let number = text(found, "workers").unwrap_or("");
    fault(miscount_error(alloc, draft, program, number))
}

// Of options that exclude or require each other.
pub(crate) fn conflict(draft: Draft<'_>, program: &str, text: &str) -> WordsFault
    ensures { IsMisuse ErrorKind.ArgumentConflict result }
{
    fault(error_of(draft, program, ErrorKind::ArgumentConflict, text))
}

// Of a value that isn't understood.
fn invalid(draft: Draft<'_>, program: &str, text: &str) -> WordsFault
    ensures { IsMisuse ErrorKind.ValueValidation result }
{
    fault(error_of(draft, program, ErrorKind::ValueValidation, text))
}

fn fault(error: Result<clap::Error, AllocError>) -> WordsFault
    ensures { result ≡ misuse_of error }
{
    match error {
        Ok(error) => WordsFault::Words(Some(error)),
        Err(_) => WordsFault::Memory,
    }
}

fn miscount_error(
    alloc: Global,
    draft: Draft<'_>,
    program: &str,
    number: &str,
) -> Result<clap::Error, AllocError>
    ensures { IfOk result (λ error. kind_of error ≡ ErrorKind.ValueValidation) }
{
    let text = format!(in alloc;
        "invalid value '{number}' for '--workers <N>': expected a number from 1 to 64"
    )?;
    error_of(draft, program, ErrorKind::ValueValidation, text.as_str())
}

fn error_of(
    draft: Draft<'_>,
    program: &str,
    kind: ErrorKind,
    text: &str,
) -> Result<clap::Error, AllocError>
    ensures { IfOk result (λ error. kind_of error ≡ kind) }
{
    let mut line = Box::into_inner(draft.line()?).bin_name(program)?;
    line.error(kind, text)
}
