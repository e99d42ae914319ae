ghost use Rattle.std.specs.List.{flat_map};
ghost use Rattle.rx_print.specs.Page.{Writes};
ghost use Rattle.rx_report_text.specs.Claims.{amounts_text, claim_text, figure_text, figures_of, section_text};

use crate::html::{put_cell, put_provider_text};
use crate::reasons::put_reason;
use crate::row::{put_row, put_titles};
use crate::shown::Shown;
use crate::why::Whys;
use rx_d0_values::Answer;
use rx_print::Page;
use rx_report::{Line, Section};

/// A provider's claims: a table with a row for each, which unfolds to its figures and to why they are so.
pub(crate) fn put_claims(page: &mut Page, before: usize, section: &Section<'_>, whys: &Whys)
    ensures { Writes page.old page.new (section_text whys.now before section.now) }
{
    page.markup("<section id=\"p");
    page.number(before as u128);
    page.markup("\">\n<h2>Provider ");
    put_provider_text(page, &section.provider);
    page.markup("</h2>\n");
    put_titles(page);
    put_each(page, section.lines, whys);
    page.markup("</table>\n</section>\n");
}

fn put_each(page: &mut Page, lines: &[Line], whys: &Whys)
    ensures { Writes page.old page.new (flat_map (claim_text whys.now) lines.now) }
{
    for line in lines {
        put_claim(page, line, whys);
    }
}

fn put_claim(page: &mut Page, line: &Line, whys: &Whys)
    ensures { Writes page.old page.new (claim_text whys.now line.now) }
{
    put_row(page, line);
    page.markup("<tr class=\"why\"><td colspan=\"11\"><details><summary>Why</summary>\n<dl>");
    put_figures(page, line);
    page.markup("</dl>\n");
    put_reason(page, whys, line);
    page.markup("</details></td></tr>\n</tbody>\n");
}

// What is known of its figures.
fn put_figures(page: &mut Page, line: &Line)
    ensures { Writes page.old page.new (figures_of line.now.answer line.now) }
{
    match &line.answer {
        Answer::Paid(_) => put_amounts(page, line, "Plan pays"),
        Answer::Twice(_) => put_amounts(page, line, "Plan paid before"),
        Answer::Approved(_) => put_figure(page, "Given back", Shown::PlanPays, line),
        Answer::Refused(_) => put_figure(page, "Reject codes", Shown::Codes, line),
    }
}

fn put_amounts(page: &mut Page, line: &Line, paid: &'static str)
    ensures { Writes page.old page.new (amounts_text paid.now line.now) }
{
    put_figure(page, "Allowed", Shown::Allowed, line);
    put_figure(page, "Deductible", Shown::Deductible, line);
    put_figure(page, "Copay", Shown::Copay, line);
    put_figure(page, "Coinsurance", Shown::Coinsurance, line);
    put_figure(page, "Member pays", Shown::MemberPays, line);
    put_figure(page, paid, Shown::PlanPays, line);
}

#[tactic(auto, using(std::proofs::Common::append_assoc))]
fn put_figure(page: &mut Page, name: &'static str, shown: Shown, line: &Line)
    ensures { Writes page.old page.new (figure_text name.now shown line.now) }
{
    page.markup("<dt>");
    page.markup(name);
    page.markup("</dt><dd>");
    put_cell(page, shown, line);
    page.markup("</dd>");
}
