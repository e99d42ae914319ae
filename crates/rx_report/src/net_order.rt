ghost use Rattle.std.specs.Prelude.{◌≡◌, ◌-◌, IfOk, OnOk};
ghost use Rattle.std.specs.List.Sorted.{IsPermutation};
ghost use Rattle.rx_report.specs.ByNet.{NetsFall};

use crate::section::{Account, Section};
use rx_fields::Memory;
use rx_settle::Tally;
use std::alloc::AllocError;

/// The same account with its sections in the order of their nets, the greatest first.
pub fn by_net<'a>(account: Account<'a>) -> Result<Account<'a>, Memory>
    ensures moved { IfOk result (λ sorted. IsPermutation account.entry.sections.items sorted.sections.items) }
    ensures order { IfOk result (λ sorted. NetsFall sorted.sections.items) }
    ensures total { IfOk result (λ sorted. sorted.total ≡ account.entry.total) }
{
    let Account {
        mut sections,
        total,
    } = account;
    sort_by_net(&mut sections)?;
    Ok(Account { sections, total })
}

// Of equal nets the one that stood first comes first.
fn sort_by_net(sections: &mut Vec<Section<'_>>) -> Result<(), AllocError>
    ensures moved { IsPermutation sections.old.items sections.new.items }
    ensures order { OnOk result (NetsFall sections.new.items) }
{
    sections.sort_by(|one, other| gained(&other.tally).cmp(&gained(&one.tally)))?;
    sections.sort_by_key(|section| owed(&section.tally))?;
    Ok(())
}

// How far a net is above zero.
fn gained(tally: &Tally) -> u128
    ensures { result ≡ tally.now.paid_out - tally.now.taken_back }
{
    tally.paid_out.saturating_sub(tally.taken_back)
}

// How far a net is below zero.
fn owed(tally: &Tally) -> u128
    ensures { result ≡ tally.now.taken_back - tally.now.paid_out }
{
    tally.taken_back.saturating_sub(tally.paid_out)
}
