//! The plans that a command is about: one, by its files, or those of a plans file.
ghost use Rattle.std.specs.Prelude.{IfNone, IfSome};
ghost use Rattle.clap.specs.Words.{found_of, rows_of};
ghost use Rattle.rx_cli.specs.Asked.{HoldsCheck, HoldsCompared, HoldsGiven, NoneHolds};

use crate::options::text;
use clap::ArgMatches;
use rx_io::{Inputs, Outputs};

/// The inputs of a command.
#[derive(Clone, Copy)]
pub enum GivenInputs<'a> {
    /// `--sheet`, `--books` and `--batch`.
    OnePlan(Inputs<&'a str>),
    /// `--plans` and `--batch`.
    Plans { plans: &'a str, batch: &'a str },
}

/// The inputs of `verify`, and the outputs that it compares.
#[derive(Clone, Copy)]
pub enum ComparedFiles<'a> {
    /// Those of a run.
    OnePlan {
        inputs: Inputs<&'a str>,
        outputs: Outputs<&'a str>,
    },
    /// Those of `route`: the plans file names the other outputs.
    Plans {
        plans: &'a str,
        batch: &'a str,
        response: &'a str,
        settlement: &'a str,
    },
}

/// The words of `check`: what stands of a plan's inputs, or of those of a plans file.
#[derive(Clone, Copy)]
pub enum CheckWords<'a> {
    /// `--sheet`, and `--books` and `--batch` where they are to be checked too.
    OnePlan(Inputs<&'a str, Option<&'a str>, Option<&'a str>>),
    /// `--plans`, and `--batch` where it is to be checked too.
    Plans {
        plans: &'a str,
        batch: Option<&'a str>,
    },
}

/// The inputs, of one plan or of a plans file.
pub(crate) fn given<'a>(found: &ArgMatches<'a>) -> Option<GivenInputs<'a>>
    ensures some { IfSome result (HoldsGiven (rows_of (found_of found.now))) }
    ensures none { IfNone result (NoneHolds (HoldsGiven (rows_of (found_of found.now)))) }
{
    let batch = text(found, "batch")?;
    match (
        text(found, "sheet"),
        text(found, "books"),
        text(found, "plans"),
    ) {
        (Some(sheet), Some(books), None) => Some(GivenInputs::OnePlan(Inputs {
            sheet,
            books,
            batch,
        })),
        (None, None, Some(plans)) => Some(GivenInputs::Plans { plans, batch }),
        _ => None,
    }
}

/// The inputs and the outputs, of one plan or of a plans file.
pub(crate) fn compared<'a>(found: &ArgMatches<'a>) -> Option<ComparedFiles<'a>>
    ensures some { IfSome result (HoldsCompared (rows_of (found_of found.now))) }
    ensures none { IfNone result (NoneHolds (HoldsCompared (rows_of (found_of found.now)))) }
{
    let response = text(found, "response")?;
    let settlement = text(found, "settlement")?;
    match (given(found)?, text(found, "books-out")) {
        (GivenInputs::OnePlan(inputs), Some(books)) => Some(ComparedFiles::OnePlan {
            inputs,
            outputs: Outputs {
                response,
                books,
                settlement,
            },
        }),
        (GivenInputs::Plans { plans, batch }, None) => Some(ComparedFiles::Plans {
            plans,
            batch,
            response,
            settlement,
        }),
        _ => None,
    }
}

/// What `check` takes.
pub(crate) fn check<'a>(found: &ArgMatches<'a>) -> Option<CheckWords<'a>>
    ensures some { IfSome result (HoldsCheck (rows_of (found_of found.now))) }
    ensures none { IfNone result (NoneHolds (HoldsCheck (rows_of (found_of found.now)))) }
{
    let books = text(found, "books");
    let batch = text(found, "batch");
    match (text(found, "sheet"), books, text(found, "plans")) {
        (Some(sheet), _, None) => Some(CheckWords::OnePlan(Inputs {
            sheet,
            books,
            batch,
        })),
        (None, None, Some(plans)) => Some(CheckWords::Plans { plans, batch }),
        _ => None,
    }
}
