//! The answers that differ as JSON.
ghost use Rattle.std.specs.Fmt.{signed_decimal};
ghost use Rattle.std.specs.List.{flat_map};
ghost use Rattle.std.specs.Prelude.{◌<◌, ◌^◌, ◌∷◌, ◌++◌};
ghost use Rattle.rx_commands.specs.Changes.{cents_of, weight};
ghost use Rattle.rx_commands.specs.ComparedText.{json_end, known_json, nets_json, object, side_json, sides_json};
ghost use Rattle.rx_commands.specs.Differing.{both};
ghost use Rattle.rx_print.specs.Page.{Writes};
ghost use Rattle.rx_report.specs.Texts.{comma_member, json_member};

use super::change::{Change, put_gain};
use super::known::{FIGURES, KEYS, known};
use rx_fields::Lot;
use rx_print::Page;
use rx_report::{Column, Line, put_lot, put_member, put_members};
use rx_report_text::put_net_cents;
use rx_settle::Tally;

/// Puts the object of an answer that differs; amounts are in cents.
#[tactic(auto, using(std::proofs::Common::append_assoc), unfolding(crate::specs::ComparedText::object))]
pub(crate) fn put_object(page: &mut Page, given: &Line, changed: &Line)
    ensures { Writes page.old page.new (object (both given.now changed.now)) }
{
    put_known(page, &known(given, changed));
    put_sides(page, given, changed);
    put_gain(page, b",\"difference\":", given, changed, b"}");
}

// Which answer it is.
#[tactic(auto, using(std::proofs::Common::append_assoc), unfolding(crate::specs::ComparedText::known_json))]
fn put_known(page: &mut Page, line: &Line)
    ensures { Writes page.old page.new (known_json line.now) }
{
    put_open(page, line, Column::Place, &KEYS);
}

// An object of these columns, still open.
#[tactic(auto, using(std::proofs::Common::append_assoc))]
fn put_open(page: &mut Page, line: &Line, first: Column, others: &[Column])
    ensures { Writes page.old page.new (123 ∷ (json_member line.now first ++ flat_map (comma_member line.now) others.now)) }
{
    page.put(b"{");
    put_member(page, line, first);
    put_members(page, line, others);
}

#[tactic(auto, using(std::proofs::Common::append_assoc), unfolding(crate::specs::ComparedText::sides_json))]
fn put_sides(page: &mut Page, given: &Line, changed: &Line)
    ensures { Writes page.old page.new (sides_json (both given.now changed.now)) }
{
    page.put(b",\"given\":");
    put_side(page, given);
    page.put(b",\"with\":");
    put_side(page, changed);
}

// A side's status and figures.
#[tactic(auto, using(std::proofs::Common::append_assoc), unfolding(crate::specs::ComparedText::side_json))]
fn put_side(page: &mut Page, line: &Line)
    ensures { Writes page.old page.new (side_json line.now) }
{
    put_open(page, line, Column::Status, &FIGURES);
    page.put(b"}");
}

/// Puts the nets and their difference, the batch, and the end of the text.
pub(crate) fn put_end(page: &mut Page, lot: Lot, given: &Tally, changed: &Tally, change: &Change)
    requires { weight change.now < 2 ^ 127 }
    ensures { Writes page.old page.new (json_end lot given.now changed.now (cents_of change.now)) }
{
    put_nets(page, given, changed);
    page.put(b",\"difference\":");
    put_difference(page, change);
    page.put(b",");
    put_lot(page, lot);
    page.put(b"}\n");
}

#[tactic(auto, using(std::proofs::Common::append_assoc), unfolding(crate::specs::ComparedText::nets_json))]
fn put_nets(page: &mut Page, given: &Tally, changed: &Tally)
    ensures { Writes page.old page.new (nets_json given.now changed.now) }
{
    page.put(b"],\n\"net\":");
    put_net_cents(page, given);
    page.put(b",\"with_net\":");
    put_net_cents(page, changed);
}

fn put_difference(page: &mut Page, change: &Change)
    requires { weight change.now < 2 ^ 127 }
    ensures { Writes page.old page.new (signed_decimal (cents_of change.now)) }
{
    page.signed(change.cents());
}
