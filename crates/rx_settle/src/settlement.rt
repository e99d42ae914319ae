ghost use Rattle.std.specs.Prelude.{◌≡◌, ◌+◌, ◌<◌, ◌^◌, ◌++◌, codes};
ghost use Rattle.std.specs.List.{flat_map};
ghost use Rattle.std.specs.Result.{IfOk, OnOk};
ghost use Rattle.rx_settle.specs.Answers.{answers_of, tally, weight};
ghost use Rattle.rx_settle.specs.Counting.{counted, line, tallies_of, tally_at};
ghost use Rattle.rx_settle.specs.Settlement.{counts_text, settlement_text};
ghost use Rattle.rx_settle.specs.Together.{head_lines, together_text};

use crate::batch_run::BatchRun;
use crate::lines::{put_heads, put_line, put_total};
use crate::provider::{Field, provider_field};
use crate::tally::Tally;
use indexmap::IndexMap;
use rx_d0_values::Reply;
use rx_fields::{Lot, Memory, Stamp};
use std::alloc::{AllocError, Global};

// Room for a pharmacy's line, and for the head and the total; where a line is longer, the text grows.
const LINE: usize = 48;

const ENDS: usize = 96;

/// A tally for each provider, in order of first appearance.
pub type ByProvider = IndexMap<Field, Tally>;

/// The tallies of a batch's replies.
pub struct Settled {
    /// By provider.
    pub providers: ByProvider,
    /// Over all replies.
    pub total: Tally,
}

// Written out, so that freeing one is one call wherever a function ends early, not one for each of its fields.
impl Drop for Settled {
    fn drop(self) {
        let Settled {
            providers: _,
            total: _,
        } = self;
    }
}

/// The settlement of a batch's replies: counts of their answers and the net in cents, per provider in order of first
/// appearance and over all (docs/FORMATS.md, "Settlement file").
#[tactic(auto, using(crate::proofs::Tallied::one_run))]
pub fn settle(alloc: Global, lot: Lot, stamp: Stamp, replies: &[Reply]) -> Result<Vec<u8>, Memory>
    ensures { IfOk result (λ text. text.items ≡ settlement_text lot stamp replies.now) }
{
    settle_together(alloc, &[BatchRun { lot, stamp }], replies)
}

/// The settlement of several batches together: the head line of each, and below them what the replies to all of them come
/// to, as one settlement.
#[tactic(auto, using(crate::proofs::Tallied::lines))]
pub fn settle_together(
    alloc: Global,
    runs: &[BatchRun],
    replies: &[Reply],
) -> Result<Vec<u8>, Memory>
    ensures { IfOk result (λ text. text.items ≡ together_text runs.now replies.now) }
{
    let tallied = tally_replies(alloc, replies)?;
    settled_text(alloc, runs, &tallied)
}

// The settlement that has these tallies.
#[tactic(auto, using(std::proofs::Common::append_assoc))]
fn settled_text(alloc: Global, runs: &[BatchRun], settled: &Settled) -> Result<Vec<u8>, Memory>
    ensures { IfOk result (λ text. text.items ≡ head_lines runs.now
        ++ (flat_map line settled.now.providers.entries ++ (codes "TOTAL" ++ counts_text settled.now.total))) }
{
    let lines = settled.providers.len().saturating_mul(LINE);
    let mut text = Vec::with_capacity(alloc, lines.saturating_add(ENDS))?;
    put_heads(&mut text, runs)?;
    put_lines(alloc, &mut text, &settled.providers)?;
    put_total(alloc, &mut text, &settled.total)?;
    Ok(text)
}

/// Counts each reply's answers once, for its provider and in all: what the lines of the settlement say.
pub fn tally_replies(alloc: Global, replies: &[Reply]) -> Result<Settled, Memory>
    ensures providers { IfOk result (λ t. t.providers.entries ≡ tallies_of replies.now) }
    ensures total { IfOk result (λ t. t.total ≡ tally (answers_of replies.now)) }
{
    let mut providers = IndexMap::new(alloc);
    let mut total = Tally::default();
    for reply in replies {
        let more = Tally::of(&reply.outcome);
        count(&mut providers, provider_field(reply), more)?;
        total = total.plus(more);
    }
    Ok(Settled { providers, total })
}

// Adds a reply's counts to its provider's.
fn count(providers: &mut ByProvider, field: Field, more: Tally) -> Result<(), Memory>
    requires { weight (tally_at field providers.old.entries) + weight more < 2 ^ 128 }
    ensures { OnOk result (providers.new.entries ≡ counted field more providers.old.entries) }
{
    match providers.get_index_of(&field) {
        Some(at) => providers[at] = providers[at].plus(more),
        None => {
            providers.insert(field, more)?;
        }
    }
    Ok(())
}

// The providers' lines.
fn put_lines(alloc: Global, text: &mut Vec<u8>, providers: &ByProvider) -> Result<(), AllocError>
    ensures { OnOk result (text.new.items ≡ text.old.items ++ flat_map line providers.now.entries) }
{
    for (field, tally) in providers {
        put_line(alloc, text, field, tally)?;
    }
    Ok(())
}
