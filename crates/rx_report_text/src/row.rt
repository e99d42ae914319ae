ghost use Rattle.std.specs.Prelude.{◌≡◌, ◌++◌, codes};
ghost use Rattle.std.specs.List.{flat_map};
ghost use Rattle.rx_print.specs.Page.{Writes};
ghost use Rattle.rx_report_text.specs.Rows.{answer_cell, answer_words, class_of, classed_cell, code_words, data_cell};
ghost use Rattle.rx_report_text.specs.Rows.{code_within, group_front, heading_text, record_text, row_text, title_cell};
ghost use Rattle.rx_report_text.specs.Rows.{title_of, titles_text};

use crate::html::put_cell;
use crate::shown::Shown;
use rx_d0_values::Answer;
use rx_explain_text::name;
use rx_fields::Code;
use rx_print::Page;
use rx_report::Line;

// The columns of a claim's row after its record and its answer.
const ROW: [Shown; 9] = [
    Shown::Authorization,
    Shown::Prescription,
    Shown::Date,
    Shown::Member,
    Shown::Product,
    Shown::Quantity,
    Shown::Days,
    Shown::MemberPays,
    Shown::PlanPays,
];

/// Begins a table of claims, with its caption and headings.
pub(crate) fn put_titles(page: &mut Page)
    ensures { Writes page.old page.new titles_text }
{
    page.markup(
        "<table class=\"claims\">\n<caption>Claims in file order; amounts in dollars</caption>\n<thead><tr>",
    );
    page.markup("<th scope=\"col\">Record</th><th scope=\"col\">Answer</th>");
    put_each_title(page, &ROW);
    page.markup("</tr></thead>\n");
}

fn put_each_title(page: &mut Page, columns: &[Shown])
    ensures { Writes page.old page.new (flat_map title_cell columns.now) }
{
    for shown in columns {
        put_title(page, *shown);
    }
}

#[tactic(auto, unfolding(crate::specs::Rows::title_cell))]
fn put_title(page: &mut Page, shown: Shown)
    ensures { Writes page.old page.new (title_cell shown) }
{
    put_heading(page, class_of(shown), title_of(shown));
}

fn put_heading(page: &mut Page, class: &'static str, title: &'static str)
    ensures { Writes page.old page.new (heading_text class.now title.now) }
{
    page.markup("<th scope=\"col\" class=\"");
    page.markup(class);
    page.markup("\">");
    page.markup(title);
    page.markup("</th>");
}

fn title_of(shown: Shown) -> &'static str
    ensures { result.now ≡ title_of shown }
{
    match shown {
        Shown::Record => "Record",
        Shown::Answer => "Answer",
        Shown::Codes => "Codes",
        Shown::Prescription => "Rx",
        Shown::Date => "Date",
        Shown::Member => "Member",
        Shown::Allowed => "Allowed",
        Shown::Deductible => "Deductible",
        Shown::Copay => "Copay",
        Shown::Coinsurance => "Coinsurance",
        Shown::MemberPays => "Member pays",
        Shown::PlanPays => "Plan pays",
        Shown::Product => "Product",
        Shown::Quantity => "Quantity",
        Shown::Days => "Days",
        Shown::Authorization => "Authorization",
    }
}

// The class of a column's cells, by which the page's style places them.
fn class_of(shown: Shown) -> &'static str
    ensures { result.now ≡ class_of shown }
{
    match shown {
        Shown::Prescription => "rx",
        Shown::Date => "date",
        Shown::Member => "member",
        Shown::Product => "product",
        Shown::Quantity => "quantity",
        Shown::Days => "days",
        Shown::Authorization => "number",
        Shown::MemberPays => "pays",
        Shown::PlanPays => "plan",
        _ => "other",
    }
}

/// Begins a claim's row group, and writes its row: the record, which leads to the row itself, the answer in words, and a
/// cell for each column.
pub(crate) fn put_row(page: &mut Page, line: &Line)
    ensures { Writes page.old page.new (row_text line.now) }
{
    put_record(page, line);
    put_answer(page, &line.answer);
    put_cells(page, line, &ROW);
    page.markup("</tr>\n");
}

fn put_record(page: &mut Page, line: &Line)
    ensures { Writes page.old page.new (record_text line.now) }
{
    put_group(page, &line.answer);
    put_cell(page, Shown::Record, line);
    page.markup("\">\n<tr><th scope=\"row\"><a href=\"#r");
    put_cell(page, Shown::Record, line);
    page.markup("\">");
    put_cell(page, Shown::Record, line);
    page.markup("</a></th>");
}

fn put_group(page: &mut Page, answer: &Answer)
    ensures { Writes page.old page.new (group_front answer.now) }
{
    page.markup(group_front(answer));
}

fn group_front(answer: &Answer) -> &'static str
    ensures { result.now ≡ group_front answer.now }
{
    match answer {
        Answer::Paid(_) => "<tbody class=\"paid\" id=\"r",
        Answer::Twice(_) => "<tbody class=\"duplicate\" id=\"r",
        Answer::Approved(_) => "<tbody class=\"reversed\" id=\"r",
        Answer::Refused(_) => "<tbody class=\"rejected\" id=\"r",
    }
}

fn put_answer(page: &mut Page, answer: &Answer)
    ensures { Writes page.old page.new (answer_cell answer.now) }
{
    page.markup("<td class=\"answer\">");
    put_answer_words(page, answer);
    page.markup("</td>");
}

fn put_answer_words(page: &mut Page, answer: &Answer)
    ensures { Writes page.old page.new (answer_words answer.now) }
{
    match answer {
        Answer::Paid(_) => page.markup("paid"),
        Answer::Twice(_) => page.markup("duplicate"),
        Answer::Approved(_) => page.markup("reversed"),
        Answer::Refused(refused) => put_rejected(page, refused.codes.as_slice()),
    }
}

fn put_rejected(page: &mut Page, listed: &[Code])
    ensures { Writes page.old page.new (codes "rejected" ++ flat_map code_words listed.now) }
{
    page.markup("rejected");
    put_codes(page, listed);
}

// Reject codes, each with its words.
fn put_codes(page: &mut Page, listed: &[Code])
    ensures { Writes page.old page.new (flat_map code_words listed.now) }
{
    for code in listed {
        put_code_within(page, " <span><b>", "</b> ", "</span>", *code);
    }
}

/// Writes a reject code and its words, with markup before, between and after the two.
pub(crate) fn put_code_within(
    page: &mut Page,
    front: &'static str,
    between: &'static str,
    end: &'static str,
    code: Code,
)
    ensures { Writes page.old page.new (code_within front.now between.now end.now code) }
{
    let text = code.text();
    page.markup(front);
    page.put(&text);
    page.markup(between);
    page.markup(name(code));
    page.markup(end);
}

fn put_cells(page: &mut Page, line: &Line, columns: &[Shown])
    ensures { Writes page.old page.new (flat_map (data_cell line.now) columns.now) }
{
    for shown in columns {
        put_data(page, line, *shown);
    }
}

#[tactic(auto, unfolding(crate::specs::Rows::data_cell))]
fn put_data(page: &mut Page, line: &Line, shown: Shown)
    ensures { Writes page.old page.new (data_cell line.now shown) }
{
    put_classed(page, class_of(shown), line, shown);
}

fn put_classed(page: &mut Page, class: &'static str, line: &Line, shown: Shown)
    ensures { Writes page.old page.new (classed_cell class.now line.now shown) }
{
    page.markup("<td class=\"");
    page.markup(class);
    page.markup("\">");
    put_cell(page, shown, line);
    page.markup("</td>");
}
