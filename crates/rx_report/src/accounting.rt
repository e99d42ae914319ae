ghost use Rattle.std.specs.Prelude.{◌≡◌, IfOk, map};
ghost use Rattle.std.specs.List.{filter};
ghost use Rattle.rx_report.specs.Accounts.{IsAccount, first_tally, is_of, parts_of, with_lines, with_tally};

use crate::groups::Groups;
use crate::line::Line;
use crate::portion::Portion;
use crate::section::{Account, Section};
use crate::tallying::tally_lines;
use rx_fields::Memory;
use rx_settle::{ByProvider, Settled, Tally, names_provider};
use std::alloc::Global;

/// The account of a portion of a batch whose settlement has these tallies; `kept` are the portion's lines, `groups` the
/// same by provider.
pub fn account_of<'a>(
    alloc: Global,
    portion: Portion<'_>,
    settled: &Settled,
    kept: &[Line],
    groups: &'a Groups,
) -> Result<Account<'a>, Memory>
    ensures { IfOk result (λ account.
        IsAccount portion.entry settled.now kept.now groups.now (map parts_of account.sections.items) account.total) }
{
    match portion {
        Portion::Whole => Ok(Account {
            sections: each_settled(alloc, &settled.providers, groups)?,
            total: settled.total,
        }),
        Portion::Provider(id) => {
            let sections = one_settled(alloc, id, &settled.providers, groups)?;
            let total = first_tally(&sections);
            Ok(Account { sections, total })
        }
        Portion::Family(_) => Ok(Account {
            sections: sections_of(alloc, groups)?,
            total: tally_lines(kept),
        }),
    }
}

// A section for each provider of a settlement.
fn each_settled<'a>(
    alloc: Global,
    tallies: &ByProvider,
    groups: &'a Groups,
) -> Result<Vec<Section<'a>>, Memory>
    ensures { IfOk result (λ sections. map parts_of sections.items ≡ map (with_lines groups.now) tallies.now.entries) }
{
    let mut sections = Vec::new(alloc);
    for (provider, tally) in tallies {
        sections.push(Section {
            provider: *provider,
            tally: *tally,
            lines: groups.lines_of(provider),
        })?;
    }
    Ok(sections)
}

// The section of the provider with this id, where a settlement has a line of it.
fn one_settled<'a>(
    alloc: Global,
    id: &[u8],
    tallies: &ByProvider,
    groups: &'a Groups,
) -> Result<Vec<Section<'a>>, Memory>
    ensures { IfOk result (λ sections.
        map parts_of sections.items ≡ map (with_lines groups.now) (filter (is_of id.now) tallies.now.entries)) }
{
    let mut sections = Vec::new(alloc);
    for (provider, tally) in tallies {
        if names_provider(id, provider) {
            sections.push(Section {
                provider: *provider,
                tally: *tally,
                lines: groups.lines_of(provider),
            })?;
        }
    }
    Ok(sections)
}

fn first_tally(sections: &[Section<'_>]) -> Tally
    ensures { result ≡ first_tally (map parts_of sections.now) }
{
    match sections {
        [first, ..] => first.tally,
        [] => Tally::default(),
    }
}

// A section for each provider of some lines, with what those come to.
fn sections_of<'a>(alloc: Global, groups: &'a Groups) -> Result<Vec<Section<'a>>, Memory>
    ensures { IfOk result (λ sections. map parts_of sections.items ≡ map with_tally groups.now) }
{
    let mut sections = Vec::new(alloc);
    for (provider, lines) in groups.by_provider() {
        sections.push(Section {
            provider: *provider,
            tally: tally_lines(lines),
            lines: lines.as_slice(),
        })?;
    }
    Ok(sections)
}
