//! The answers that differ as lines for people.
ghost use Rattle.std.specs.Prelude.{◌≡◌, ◌<◌, ◌^◌};
ghost use Rattle.rx_print.specs.Money.{signed_dollars};
ghost use Rattle.rx_commands.specs.Changes.{cents_of, weight};
ghost use Rattle.rx_commands.specs.ComparedText.{front, matter_of, nets_words, shown_text, side_words, sides_words, words_end, words_line};
ghost use Rattle.rx_commands.specs.Differing.{both};
ghost use Rattle.rx_print.specs.Page.{Writes};

use super::change::{Change, gain_of};
use super::known::known;
use rx_d0_values::Answer;
use rx_fields::Memory;
use rx_print::{Page, Style};
use rx_report::Line;
use rx_report_text::{Shown, put_net, shown_cell};
use rx_settle::Tally;

/// Puts the line of an answer that differs: which it is, what is answered, what would be, and by how much the net would differ.
#[tactic(auto, using(std::proofs::Common::append_assoc), unfolding(crate::specs::ComparedText::words_line))]
pub(crate) fn put_words(page: &mut Page, given: &Line, changed: &Line)
    ensures { Writes page.old page.new (words_line (both given.now changed.now)) }
{
    put_front(page, &known(given, changed));
    put_sides(page, given, changed);
    page.put(b"  net ");
    page.signed_dollars(gain_of(given, changed));
    page.put(b"\n");
}

// Which answer it is.
#[tactic(auto, using(std::proofs::Common::append_assoc), unfolding(crate::specs::ComparedText::front))]
fn put_front(page: &mut Page, line: &Line)
    ensures { Writes page.old page.new (front line.now) }
{
    put_shown(page, Shown::Record, line);
    page.put(b"  rx ");
    put_shown(page, Shown::Prescription, line);
    page.put(b"  ");
    put_shown(page, Shown::Date, line);
    page.put(b"  ");
}

#[tactic(auto, using(std::proofs::Common::append_assoc), unfolding(crate::specs::ComparedText::sides_words))]
fn put_sides(page: &mut Page, given: &Line, changed: &Line)
    ensures { Writes page.old page.new (sides_words (both given.now changed.now)) }
{
    put_side(page, given);
    page.put(b" -> ");
    put_side(page, changed);
}

// An answer's status, and what it comes to.
#[tactic(auto, using(std::proofs::Common::append_assoc), unfolding(crate::specs::ComparedText::side_words))]
fn put_side(page: &mut Page, line: &Line)
    ensures { Writes page.old page.new (side_words line.now) }
{
    put_shown(page, Shown::Answer, line);
    page.put(b" ");
    put_shown(page, matter_of(&line.answer), line);
}

// Of a refusal its codes, of a claim what the plan pays for it.
fn matter_of(answer: &Answer) -> Shown
    ensures { result ≡ matter_of answer.now }
{
    match answer {
        Answer::Refused(_) => Shown::Codes,
        Answer::Paid(_) | Answer::Twice(_) | Answer::Approved(_) => Shown::PlanPays,
    }
}

// A column's cell as a terminal shows it.
fn put_shown(page: &mut Page, shown: Shown, line: &Line)
    ensures { Writes page.old page.new (shown_text shown line.now) }
{
    match shown_cell(page.alloc(), shown, line) {
        Ok(cell) => page.escaped(Style::Terminal, &cell),
        Err(Memory) => page.lacks = true,
    }
}

/// Puts how many answers differ, the nets, and their difference.
#[tactic(auto, using(std::proofs::Common::append_assoc), unfolding(crate::specs::ComparedText::words_end))]
pub(crate) fn put_end(page: &mut Page, given: &Tally, changed: &Tally, change: &Change)
    requires { weight change.now < 2 ^ 127 }
    ensures { Writes page.old page.new (words_end given.now changed.now change.now.count (cents_of change.now)) }
{
    page.number(change.count);
    page.put(b" differ; net ");
    put_nets(page, given, changed);
    page.put(b", difference ");
    put_difference(page, change);
    page.put(b"\n");
}

fn put_difference(page: &mut Page, change: &Change)
    requires { weight change.now < 2 ^ 127 }
    ensures { Writes page.old page.new (signed_dollars (cents_of change.now)) }
{
    page.signed_dollars(change.cents());
}

#[tactic(auto, using(std::proofs::Common::append_assoc), unfolding(crate::specs::ComparedText::nets_words))]
fn put_nets(page: &mut Page, given: &Tally, changed: &Tally)
    ensures { Writes page.old page.new (nets_words given.now changed.now) }
{
    put_net(page, given);
    page.put(b" -> ");
    put_net(page, changed);
}
