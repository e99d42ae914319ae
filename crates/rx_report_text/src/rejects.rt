ghost use Rattle.std.specs.Prelude.{◌≡◌, ◌++◌, IfOk, OnOk};
ghost use Rattle.std.specs.List.{filter, flat_map, list_any};
ghost use Rattle.rx_fields.specs.Codes.{code_text};
ghost use Rattle.rx_print.specs.Page.{Writes};
ghost use Rattle.rx_report_text.specs.RejectCounts.{has_code, lines_with};
ghost use Rattle.rx_report_text.specs.Rejects.{claim_link, code_cells, code_row, given_row, links_text, reject_row};
ghost use Rattle.rx_report_text.specs.Rejects.{rejects_front, rejects_text};
ghost use Rattle.rx_settle.specs.Providers.{is_same};

use crate::html::put_cell;
use crate::row::put_code_within;
use crate::shown::Shown;
use rx_d0_values::Answer;
use rx_explain_text::all_codes;
use rx_fields::Code;
use rx_print::Page;
use rx_report::{Line, Section};
use std::alloc::{AllocError, Global};

/// Why answers were rejected: each code that one has, with its words and with how many have it, and where the page has the
/// claims, with links to them.
pub(crate) fn put_rejects(page: &mut Page, sections: &[Section<'_>], unfolds: bool)
    ensures { Writes page.old page.new (rejects_text unfolds sections.now) }
{
    put_headings(page);
    put_each_code(page, sections, unfolds, &all_codes());
    page.markup("</tbody>\n</table>\n");
}

fn put_headings(page: &mut Page)
    ensures { Writes page.old page.new rejects_front }
{
    page.markup(
        "<table class=\"rejects\">\n<caption>Why rejected: the answers with each reject code; an answer can have several</caption>\n",
    );
    page.markup(
        "<thead><tr><th scope=\"col\">Code</th><th scope=\"col\">Meaning</th><th scope=\"col\">Answers</th>",
    );
    page.markup("<th scope=\"col\">Records</th></tr></thead>\n<tbody>\n");
}

fn put_each_code(page: &mut Page, sections: &[Section<'_>], unfolds: bool, listed: &[Code])
    ensures { Writes page.old page.new (flat_map (code_row unfolds sections.now) listed.now) }
{
    for code in listed {
        put_code(page, sections, unfolds, *code);
    }
}

fn put_code(page: &mut Page, sections: &[Section<'_>], unfolds: bool, code: Code)
    ensures { Writes page.old page.new (code_row unfolds sections.now code) }
{
    match lines_with(page.alloc(), code, sections) {
        Ok(lines) => put_given(page, unfolds, code, &lines),
        Err(_) => page.lacks = true,
    }
}

// None for a code that no answer has.
fn put_given(page: &mut Page, unfolds: bool, code: Code, lines: &[Line])
    ensures { Writes page.old page.new (given_row unfolds code lines.now) }
{
    if !lines.is_empty() {
        put_row(page, unfolds, code, lines);
    }
}

fn put_row(page: &mut Page, unfolds: bool, code: Code, lines: &[Line])
    ensures { Writes page.old page.new (reject_row unfolds code lines.now) }
{
    put_code_cells(page, code);
    page.number(lines.len() as u128);
    page.markup("</td><td>");
    put_links(page, unfolds, lines);
    page.markup("</td></tr>\n");
}

fn put_code_cells(page: &mut Page, code: Code)
    ensures { Writes page.old page.new (code_cells code) }
{
    put_code_within(
        page,
        "<tr><th scope=\"row\">",
        "</th><td>",
        "</td><td class=\"count\">",
        code,
    );
}

// None where the page has no claims.
fn put_links(page: &mut Page, unfolds: bool, lines: &[Line])
    ensures { Writes page.old page.new (links_text unfolds lines.now) }
{
    if unfolds {
        put_each_link(page, lines);
    }
}

fn put_each_link(page: &mut Page, lines: &[Line])
    ensures { Writes page.old page.new (flat_map claim_link lines.now) }
{
    for line in lines {
        put_link(page, line);
    }
}

// A claim's record, which leads to its row.
fn put_link(page: &mut Page, line: &Line)
    ensures { Writes page.old page.new (claim_link line.now) }
{
    page.markup("<a href=\"#r");
    put_cell(page, Shown::Record, line);
    page.markup("\">");
    put_cell(page, Shown::Record, line);
    page.markup("</a> ");
}

// The lines of an account that are rejected with a code.
fn lines_with(alloc: Global, code: Code, sections: &[Section<'_>]) -> Result<Vec<Line>, AllocError>
    ensures { IfOk result (λ lines. lines.items ≡ lines_with code sections.now) }
{
    let mut found = Vec::new(alloc);
    for section in sections {
        put_lines_with(&mut found, code, section.lines)?;
    }
    Ok(found)
}

fn put_lines_with(found: &mut Vec<Line>, code: Code, lines: &[Line]) -> Result<(), AllocError>
    ensures { OnOk result (found.new.items ≡ found.old.items ++ filter (has_code code) lines.now) }
{
    for line in lines {
        if has_code(code, line) {
            found.push(*line)?;
        }
    }
    Ok(())
}

fn has_code(code: Code, line: &Line) -> bool
    ensures { result ≡ has_code code line.now }
{
    match &line.answer {
        Answer::Paid(_) | Answer::Twice(_) | Answer::Approved(_) => false,
        Answer::Refused(refused) => is_among(code, refused.codes.as_slice()),
    }
}

fn is_among(code: Code, listed: &[Code]) -> bool
    ensures { result ≡ list_any (λ d. is_same (code_text d) (code_text code)) listed.now }
{
    listed.iter().any(|listed| is_same(*listed, code))
}

fn is_same(a: Code, b: Code) -> bool
    ensures { result ≡ is_same (code_text a) (code_text b) }
{
    a.text() == b.text()
}
