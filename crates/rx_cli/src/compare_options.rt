//! The words of `compare`.
ghost use Rattle.std.specs.Prelude.{◌≡◌, IfNone, IfSome};
ghost use Rattle.clap.specs.Words.{found_of, rows_of};
ghost use Rattle.rx_cli.specs.Asked.{HoldsCompare, NoneHolds, compare_form_in};
ghost use Rattle.rx_cli.specs.Faults.{IsMisuse};
ghost use Rattle.rx_cli.specs.Syntax.{Draws, compare_line};

use crate::draft::Draft;
use crate::fault::WordsFault;
use crate::misuse::conflict;
use crate::options::{flag, inputs, text};
use crate::syntax::{draft, takes_inputs};
use clap::ArgMatches;
use clap::error::ErrorKind;
use rx_io::Inputs;
use std::alloc::Global;

/// What `compare` prints its answers as.
#[derive(Clone, Copy)]
pub enum CompareForm {
    /// Lines for people.
    Words,
    /// `--tsv`: a table, with a tab between cells.
    Tsv,
    /// `--json`.
    Json,
}

/// The words of `compare`.
#[derive(Clone, Copy)]
pub struct CompareWords<'a> {
    pub inputs: Inputs<&'a str>,
    /// `--with-sheet`: the other plan sheet, if there is one.
    pub with_sheet: Option<&'a str>,
    /// `--with-books`: the other opening books, if there are any.
    pub with_books: Option<&'a str>,
    pub form: CompareForm,
}

/// The subcommand `compare`.
pub(crate) fn compare_line<'a>(alloc: Global) -> Draft<'a>
    ensures { Draws compare_line result }
{
    let compare = draft(
        alloc,
        "compare",
        "Prints which answers another sheet or other books would change",
    );
    takes_inputs(compare)
        .optional("with-sheet", "FILE", "Other plan sheet")
        .optional("with-books", "FILE", "Other opening books")
        .flag("tsv", "Print tab-separated values")
        .flag("json", "Print JSON")
}

fn compare_form(found: &ArgMatches<'_>) -> Option<CompareForm>
    ensures { result ≡ compare_form_in (rows_of (found_of found.now)) }
{
    match (flag(found, "tsv"), flag(found, "json")) {
        (false, false) => Some(CompareForm::Words),
        (true, false) => Some(CompareForm::Tsv),
        (false, true) => Some(CompareForm::Json),
        (true, true) => None,
    }
}

/// What `compare` takes: both sides in one form.
pub(crate) fn compare<'a>(found: &ArgMatches<'a>) -> Option<CompareWords<'a>>
    ensures some { IfSome result (HoldsCompare (rows_of (found_of found.now))) }
    ensures none { IfNone result (NoneHolds (HoldsCompare (rows_of (found_of found.now)))) }
{
    let inputs = inputs(found)?;
    let form = compare_form(found)?;
    Some(CompareWords {
        inputs,
        with_sheet: text(found, "with-sheet"),
        with_books: text(found, "with-books"),
        form,
    })
}

/// The fault of `compare` in more than one form.
pub(crate) fn compare_conflict(alloc: Global) -> WordsFault
    ensures { IsMisuse ErrorKind.ArgumentConflict result }
{
    let text = "at most one of '--tsv' and '--json' is taken";
    conflict(compare_line(alloc), "rxbatch compare", text)
}
