ghost use Rattle.std.specs.Prelude.{◌≡◌, ◌≤◌, IfOk, length, true};
ghost use Rattle.std.specs.List.{AllZip};
ghost use Rattle.std.specs.Option.{option_copied};
ghost use Rattle.rx_commands.specs.Adjudicated.{IsAdjudicated};
ghost use Rattle.rx_commands.specs.Records.{IsPass};
ghost use Rattle.rx_fields.specs.declared.limits.TheConstants.{MOST_DETAILS};
ghost use Rattle.rx_sorted.specs.Ascending.{is_ascending};
ghost use Rattle.rx_report_text.specs.Whys.{spot_cmp, spot_of};
ghost use Rattle.rx_commands.specs.Tiers.{table_of};
ghost use Rattle.rx_commands.specs.Lines.{at_of};
ghost use Rattle.rx_commands.specs.Whys.{AreWhys, IsWhyAmong, words_at};

use crate::record_words::{Quoted, words_of};
use crate::replay::{Adjudicated, Batch, Pass};
use crate::tiers::Tiers;
use rx_explain::{At, Events, Explanation};
use rx_fields::Memory;
use rx_report::Line;
use rx_report_text::{AnswerSpot, Why, Whys};
use rx_sorted::Ascending;
use std::alloc::Global;

/// Why the answers of these lines of a batch were given, in the words of `explain`, each by the explanation of its own
/// transaction. Lines that aren't in the order of the batch have none. One explanation is held at a time.
#[tactic(auto, using(crate::proofs::Replied::one_each))]
pub(crate) fn whys_of(
    alloc: Global,
    batch: &Adjudicated,
    tiers: &Tiers,
    lines: &[Line],
) -> Result<Whys, Memory>
    requires { IsAdjudicated batch.now }
    ensures { is_ascending spot_cmp spot_of lines.now ≡ true
        → IfOk result (λ whys. AreWhys (table_of tiers.now) batch.now lines.now whys) }
{
    let events = Events::of(alloc, &batch.asked, &batch.replies)?;
    let whys = whys_each(alloc, batch, tiers, &events, lines)?;
    Ok(in_order(alloc, whys))
}

// The texts by where their answers stand; where they aren't in order, none.
fn in_order(alloc: Global, whys: Vec<Why>) -> Whys
    ensures { is_ascending spot_cmp (λ w. w.spot) whys.items ≡ true → result ≡ whys.items }
{
    match Ascending::from_vec(whys) {
        Ok(whys) => whys,
        Err(_) => Ascending::new(alloc),
    }
}

// Each line's explanation in words, among these events.
fn whys_each(
    alloc: Global,
    batch: &Adjudicated,
    tiers: &Tiers,
    events: &Events,
    lines: &[Line],
) -> Result<Vec<Why>, Memory>
    requires { length batch.now.asked.items ≤ MOST_DETAILS }
    ensures { let b = batch.now in IfOk result (λ whys. AllZip
        (IsWhyAmong b.lot b.sheet (table_of tiers.now) b.asked.items b.opening.ledger b.details events.now)
        lines.now whys.items) }
{
    let quoted = Quoted {
        tiers,
        details: &batch.details,
    };
    let batch = Batch {
        lot: batch.lot,
        sheet: &batch.sheet,
        opening: &batch.opening,
        asked: &batch.asked,
    };
    let mut pass = Pass::begun(alloc, &batch)?;
    let whys = whys_on(alloc, &batch, quoted, events, &mut pass, lines);
    drop(pass);
    whys
}

// The same as a pass over the batch comes to them.
fn whys_on(
    alloc: Global,
    batch: &Batch<'_>,
    quoted: Quoted<'_>,
    events: &Events,
    pass: &mut Pass,
    lines: &[Line],
) -> Result<Vec<Why>, Memory>
    requires { IsPass batch.now pass.old }
    ensures { let b = batch.now in let q = quoted.entry in IfOk result (λ whys. AllZip
        (IsWhyAmong b.lot b.sheet.now (table_of q.tiers.now) b.asked.now b.opening.now.ledger q.details.now events.now)
        lines.now whys.items) }
{
    let mut whys = Vec::with_capacity(alloc, lines.len())?;
    for line in lines {
        let explanation = pass.explain(alloc, batch, events, at_of(line))?;
        let why = why_of(alloc, batch, quoted, line, &explanation)?;
        whys.push(why)?;
    }
    Ok(whys)
}

fn at_of(line: &Line) -> At
    ensures { result ≡ at_of line.now }
{
    At {
        place: line.place,
        nth: line.nth,
    }
}

fn why_of(
    alloc: Global,
    batch: &Batch<'_>,
    quoted: Quoted<'_>,
    line: &Line,
    explanation: &Option<Explanation>,
) -> Result<Why, Memory>
    ensures spot { IfOk result (λ why. why.spot ≡ spot_of line.now) }
    ensures text { let b = batch.now in let q = quoted.entry in IfOk result (λ why. why.text.items
        ≡ words_at b.lot b.sheet.now (table_of q.tiers.now) b.asked.now q.details.now (at_of line.now) explanation.now) }
{
    let text = words_of(alloc, batch, quoted, at_of(line), explanation.as_ref())?;
    let spot = AnswerSpot {
        place: line.place,
        nth: line.nth,
    };
    Ok(Why { spot, text })
}
