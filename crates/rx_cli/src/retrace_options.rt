//! The words of the commands that retrace a run, read.
ghost use Rattle.std.specs.Prelude.{◌≡◌, IfNone, IfSome, length};
ghost use Rattle.std.specs.List.{list_all};
ghost use Rattle.rx_text.specs.Bytes.{cut};
ghost use Rattle.clap.specs.Words.{found_of, rows_of};
ghost use Rattle.rx_cli.specs.Asked.{HoldsAsked, HoldsExplain, HoldsForm, HoldsPortion, HoldsReport, HoldsVerify};
ghost use Rattle.rx_cli.specs.Asked.{NoneHolds, form_in, is_number, is_record};

use crate::given::{compared, given};
use crate::options::{flag, number_or, text};
use crate::retrace::{Asked, ExplainWords, Form, Portion, ReportWords, VerifyWords};
use clap::ArgMatches;
use rx_text::all_digits;

fn asked<'a>(found: &ArgMatches<'a>) -> Option<Asked<'a>>
    ensures some { IfSome result (HoldsAsked (rows_of (found_of found.now))) }
    ensures none { IfNone result (NoneHolds (HoldsAsked (rows_of (found_of found.now)))) }
{
    let record = text(found, "record");
    let number = text(found, "number");
    let rx = text(found, "rx");
    let provider = text(found, "provider");
    match (record, number, rx, provider) {
        (Some(place), None, None, None) if is_record(place) => Some(Asked::Record(place)),
        (None, Some(number), None, None) if is_number(number) => Some(Asked::Number(number)),
        (None, None, Some(reference), provider) if is_number(reference) => Some(Asked::Rx {
            reference,
            provider,
        }),
        _ => None,
    }
}

// Whether a text is a number.
fn is_number(text: &str) -> bool
    ensures { result ≡ is_number text.now }
{
    is_number_in(text.as_bytes())
}

fn is_number_in(bytes: &[u8]) -> bool
    ensures { result ≡ is_number bytes.now }
{
    !bytes.is_empty() && all_digits(bytes)
}

// Whether a text is a number, or two with a point between them.
fn is_record(text: &str) -> bool
    ensures { result ≡ is_record text.now }
{
    let bytes = text.as_bytes();
    pieces_in(bytes) <= 2 && are_numbers(bytes)
}

fn pieces_in(bytes: &[u8]) -> usize
    ensures { result ≡ length (cut 46 bytes.now) }
{
    bytes.split(|byte| *byte == b'.').count()
}

fn are_numbers(bytes: &[u8]) -> bool
    ensures { result ≡ list_all is_number (cut 46 bytes.now) }
{
    bytes
        .split(|byte| *byte == b'.')
        .all(|piece| is_number_in(piece))
}

/// What `explain` is asked after, which is one thing.
pub(crate) fn explain<'a>(found: &ArgMatches<'a>) -> Option<ExplainWords<'a>>
    ensures some { IfSome result (HoldsExplain (rows_of (found_of found.now))) }
    ensures none { IfNone result (NoneHolds (HoldsExplain (rows_of (found_of found.now)))) }
{
    let inputs = given(found)?;
    let asked = asked(found)?;
    Some(ExplainWords {
        inputs,
        asked,
        response: text(found, "response"),
        json: flag(found, "json"),
        all: flag(found, "all"),
        for_provider: text(found, "for-provider"),
    })
}

/// What `verify` takes, with its workers in digits only.
pub(crate) fn verify<'a>(found: &ArgMatches<'a>) -> Option<VerifyWords<'a>>
    ensures some { IfSome result (HoldsVerify (rows_of (found_of found.now))) }
    ensures none { IfNone result (NoneHolds (HoldsVerify (rows_of (found_of found.now)))) }
{
    let files = compared(found)?;
    let stamp = text(found, "stamp")?;
    let workers = number_or(found, "workers", 1)?;
    Some(VerifyWords {
        files,
        stamp,
        workers,
        plain: flag(found, "plain"),
        desk: flag(found, "desk"),
    })
}

fn portion<'a>(found: &ArgMatches<'a>) -> Option<Portion<'a>>
    ensures some { IfSome result (HoldsPortion (rows_of (found_of found.now))) }
    ensures none { IfNone result (NoneHolds (HoldsPortion (rows_of (found_of found.now)))) }
{
    let provider = text(found, "provider");
    let family = text(found, "family");
    let reader = text(found, "for-provider");
    match (provider, family, reader) {
        (None, None, None) => Some(Portion::Whole),
        (Some(id), None, None) => Some(Portion::Provider(id)),
        (None, Some(id), None) => Some(Portion::Family(id)),
        (None, None, Some(id)) => Some(Portion::ForProvider(id)),
        _ => None,
    }
}

// The form that flags ask for.
fn flagged_form<'a>(found: &ArgMatches<'a>) -> Option<Form<'a>>
    ensures { result ≡ form_in (rows_of (found_of found.now)) }
{
    let (tsv, json) = (flag(found, "tsv"), flag(found, "json"));
    match (tsv, json, flag(found, "jsonl"), flag(found, "html")) {
        (false, false, false, false) => Some(Form::Columns),
        (true, false, false, false) => Some(Form::Tsv),
        (false, true, false, false) => Some(Form::Json),
        (false, false, true, false) => Some(Form::Jsonl),
        (false, false, false, true) => Some(Form::Html),
        _ => None,
    }
}

fn form<'a>(found: &ArgMatches<'a>) -> Option<Form<'a>>
    ensures some { IfSome result (HoldsForm (rows_of (found_of found.now))) }
    ensures none { IfNone result (NoneHolds (HoldsForm (rows_of (found_of found.now)))) }
{
    match (text(found, "html-dir"), flagged_form(found)) {
        (None, Some(Form::Columns)) => Some(Form::Columns),
        (None, Some(Form::Tsv)) => Some(Form::Tsv),
        (None, Some(Form::Json)) => Some(Form::Json),
        (None, Some(Form::Jsonl)) => Some(Form::Jsonl),
        (None, Some(Form::Html)) => Some(Form::Html),
        (Some(folder), Some(Form::Columns)) => Some(Form::HtmlDir(folder)),
        _ => None,
    }
}

/// What `report` takes: one portion in one form.
pub(crate) fn report<'a>(found: &ArgMatches<'a>) -> Option<ReportWords<'a>>
    ensures some { IfSome result (HoldsReport (rows_of (found_of found.now))) }
    ensures none { IfNone result (NoneHolds (HoldsReport (rows_of (found_of found.now)))) }
{
    let inputs = given(found)?;
    let portion = portion(found)?;
    let form = form(found)?;
    Some(ReportWords {
        inputs,
        portion,
        form,
        stamp: text(found, "stamp"),
    })
}
