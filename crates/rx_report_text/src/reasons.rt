ghost use Rattle.std.specs.Prelude.{◌≡◌, ◌≤◌, length};
ghost use Rattle.rx_print.specs.Page.{Writes};
ghost use Rattle.rx_report_text.specs.Reasons.{command_text, cut_row, figure_row, has_amount, label_cell, line_row, parts_row};
ghost use Rattle.rx_report_text.specs.Reasons.{framed, reason_text, reasons_text, rows_text, until};
ghost use Rattle.rx_report_text.specs.Reasons.{without_front, words_row};

use crate::columns::without_end;
use crate::html::put_cell;
use crate::shown::Shown;
use crate::why::{Whys, why_of};
use rx_print::{Page, Style};
use rx_report::Line;

/// Writes why a line's answer was given, as a table; where that isn't among these, the command that says it.
pub(crate) fn put_reason(page: &mut Page, whys: &Whys, line: &Line)
    ensures { Writes page.old page.new (reason_text whys.now line.now) }
{
    match why_of(whys, line) {
        Some(text) => put_reasons(page, text),
        None => put_explain_command(page, line),
    }
}

// Writes the command that explains a line's answer.
fn put_explain_command(page: &mut Page, line: &Line)
    ensures { Writes page.old page.new (command_text line.now) }
{
    page.markup("<p><code>rxbatch explain --sheet F --books F --batch F --record ");
    put_cell(page, Shown::Record, line);
    page.markup("</code></p>");
}

// Writes an explanation as a table: a label, an amount and the words after it, or words only.
fn put_reasons(page: &mut Page, text: &[u8])
    ensures { Writes page.old page.new (reasons_text text.now) }
{
    page.markup(
        "<table class=\"reasons\">\n<thead><tr><th scope=\"col\">Figure</th><th scope=\"col\">Amount</th><th scope=\"col\">Reason</th>",
    );
    page.markup("</tr></thead>\n<tbody>\n");
    put_rows(page, text);
    page.markup("</tbody>\n</table>");
}

// A row for each line.
fn put_rows(page: &mut Page, text: &[u8])
    ensures { Writes page.old page.new (rows_text text.now) }
{
    for line in text.split(|b| *b == b'\n') {
        put_line_row(page, line);
    }
}

#[tactic(auto, unfolding(crate::specs::Reasons::line_row))]
fn put_line_row(page: &mut Page, line: &[u8])
    ensures { Writes page.old page.new (line_row line.now) }
{
    let at = until(line, b'$');
    put_cut_row(page, line, &line[..at], &line[at..]);
}

// The row of a line, which is cut at its first dollar sign.
fn put_cut_row(page: &mut Page, line: &[u8], front: &[u8], rest: &[u8])
    ensures { Writes page.old page.new (cut_row line.now front.now rest.now) }
{
    if has_amount(front, rest) {
        put_parts(page, front, rest);
    } else {
        put_words(page, line);
    }
}

fn has_amount(front: &[u8], rest: &[u8]) -> bool
    ensures { result ≡ has_amount front.now rest.now }
{
    front.ends_with(b"  ") && !rest.is_empty()
}

fn put_parts(page: &mut Page, front: &[u8], rest: &[u8])
    ensures { Writes page.old page.new (parts_row front.now rest.now) }
{
    let at = until(rest, b' ');
    let label = without_end(without_front(front));
    put_figure_row(page, label, &rest[..at], without_front(&rest[at..]));
}

fn put_figure_row(page: &mut Page, label: &[u8], amount: &[u8], reason: &[u8])
    ensures { Writes page.old page.new (figure_row label.now amount.now reason.now) }
{
    put_label(page, label);
    page.markup("<td class=\"amount\">");
    page.escaped(Style::Html, amount);
    page.markup("</td><td>");
    page.escaped(Style::Html, reason);
    page.markup("</td></tr>\n");
}

// Begins a row; one without a label belongs to the one above it.
fn put_label(page: &mut Page, label: &[u8])
    ensures { Writes page.old page.new (label_cell label.now) }
{
    if label.is_empty() {
        page.markup("<tr class=\"part\"><td></td>");
    } else {
        put_framed(page, "<tr><th scope=\"row\">", label, "</th>");
    }
}

fn put_words(page: &mut Page, line: &[u8])
    ensures { Writes page.old page.new (words_row line.now) }
{
    if !line.is_empty() {
        let words = without_front(line);
        put_framed(page, "<tr><td colspan=\"3\">", words, "</td></tr>\n");
    }
}

// A text between two pieces of markup.
fn put_framed(page: &mut Page, front: &'static str, text: &[u8], end: &'static str)
    ensures { Writes page.old page.new (framed front.now text.now end.now) }
{
    page.markup(front);
    page.escaped(Style::Html, text);
    page.markup(end);
}

// How many bytes stand before the first of this kind.
fn until(text: &[u8], mark: u8) -> usize
    ensures value { result ≡ until mark text.now }
    ensures within { result ≤ length text.now }
{
    let mut count = 0;
    while count < text.len() && text[count] != mark {
        count += 1;
    }
    count
}

// A text without the blanks that it begins with.
fn without_front(text: &[u8]) -> &[u8]
    ensures { result.now ≡ without_front text.now }
{
    let mut rest = text;
    while let [b' ', more @ ..] = rest {
        rest = more;
    }
    rest
}
