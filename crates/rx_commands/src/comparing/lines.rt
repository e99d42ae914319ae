//! The answers that differ, written one after another in a form.
ghost use Rattle.std.specs.Prelude.{◌≡◌, ◌≤◌, ◌<◌, ◌^◌, ◌+◌};
ghost use Rattle.rx_commands.specs.Changes.{after, no_change, weight};
ghost use Rattle.rx_commands.specs.ComparedText.{end_text, front_text, line_after, lines_after, separator};
ghost use Rattle.rx_commands.specs.Changes.{cents_of};
ghost use Rattle.rx_commands.specs.Differing.{both, differing_by, differing_of, entries_of};
ghost use Rattle.rx_print.specs.Page.{Writes};

use super::change::Change;
use super::differing::are_one;
use super::form::CompareForm;
use super::table::{put_heading, put_row};
use super::{objects, words};
use rx_d0_values::Reply;
use rx_fields::Lot;
use rx_print::Page;
use rx_report::Line;
use rx_settle::Tally;

/// Puts what stands before all lines.
pub(crate) fn put_front(page: &mut Page, form: CompareForm)
    ensures { Writes page.old page.new (front_text form) }
{
    match form {
        CompareForm::Words => {}
        CompareForm::Tsv => put_heading(page),
        CompareForm::Json => page.put(b"{\"lines\":["),
    }
}

/// Puts a line for each answer that differs, of the lines of two adjudications with these replies, and says what they come to.
pub(crate) fn put_lines(
    page: &mut Page,
    form: CompareForm,
    replies: &[Reply],
    lines: &[Line],
    with_replies: &[Reply],
    with_lines: &[Line],
) -> Change
    ensures lines { Writes page.old page.new (lines_after form 0
        (differing_of (entries_of replies.now lines.now) (entries_of with_replies.now with_lines.now))) }
    ensures change { result ≡ after no_change
        (differing_of (entries_of replies.now lines.now) (entries_of with_replies.now with_lines.now)) }
    ensures within { weight result < 2 ^ 127 }
{
    let mut change = Change {
        count: 0,
        more: 0,
        less: 0,
    };
    for at in 0..lines.len().min(with_lines.len()) {
        let given = &lines[at];
        let changed = &with_lines[at];
        let is_one = are_one(replies, given, with_replies, changed);
        put_unless(page, form, &mut change, is_one, given, changed);
    }
    change
}

// Puts the line of two answers, unless they are one, and counts it.
fn put_unless(
    page: &mut Page,
    form: CompareForm,
    change: &mut Change,
    is_one: bool,
    given: &Line,
    changed: &Line,
)
    requires { weight change.old + 400_000_001 < 2 ^ 127 }
    ensures lines { Writes page.old page.new (lines_after form change.old.count (differing_by is_one given.now changed.now)) }
    ensures change { change.new ≡ after change.old (differing_by is_one given.now changed.now) }
    ensures within { weight change.new ≤ weight change.old + 400_000_001 }
{
    if is_one {
        return;
    }
    put_line(page, form, change.count, given, changed);
    change.add(given, changed);
}

// Puts the line of an answer that differs, after this many.
fn put_line(page: &mut Page, form: CompareForm, before: u128, given: &Line, changed: &Line)
    ensures { Writes page.old page.new (line_after form before (both given.now changed.now)) }
{
    match form {
        CompareForm::Words => words::put_words(page, given, changed),
        CompareForm::Tsv => put_row(page, given, changed),
        CompareForm::Json => {
            put_separator(page, before);
            objects::put_object(page, given, changed)
        }
    }
}

// What parts an object from those before it.
fn put_separator(page: &mut Page, before: u128)
    ensures { Writes page.old page.new (separator before) }
{
    if before == 0 {
        return;
    }
    page.put(b",\n");
}

/// Puts what stands after all lines.
pub(crate) fn put_end(
    page: &mut Page,
    form: CompareForm,
    lot: Lot,
    given: &Tally,
    changed: &Tally,
    change: &Change,
)
    requires { weight change.now < 2 ^ 127 }
    ensures { Writes page.old page.new (end_text form lot given.now changed.now change.now.count (cents_of change.now)) }
{
    match form {
        CompareForm::Words => words::put_end(page, given, changed, change),
        CompareForm::Tsv => {}
        CompareForm::Json => objects::put_end(page, lot, given, changed, change),
    }
}
