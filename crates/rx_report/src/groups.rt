ghost use Rattle.std.specs.Prelude.{◌≡◌, IfOk, OnOk};
ghost use Rattle.rx_report.specs.Adding.{added, groups_in};
ghost use Rattle.rx_report.specs.Groups.{grouped, lines_at};

use crate::line::Line;
use indexmap::IndexMap;
use rx_fields::Memory;
use rx_settle::{Field, known_or_blank};
use std::alloc::Global;
use std::marker::Model;

// The lines of each provider, in file order; the providers in order of first appearance.
type ByProvider = IndexMap<Field, Vec<Line>>;

/// Lines by provider, in order of first appearance.
pub struct Groups {
    by_provider: ByProvider,
}

// Written out, so that freeing one is one call wherever a function ends early, not one for each of its fields.
impl Drop for Groups {
    fn drop(self) {
        let Groups { by_provider: _ } = self;
    }
}

impl Model for Groups {
    ghost use Rattle.std.specs.Prelude.{ℕ, List};
    ghost use Rattle.rx_report.specs.Adding.{groups_in};
    ghost use Rattle.rx_report.specs.declared.line.Line.{Line};

    ghost Value = { List (List ℕ × List Line) };

    ghost view = { λ g. groups_in g.by_provider.entries };
}

impl Groups {
    /// Each provider with its lines, in file order.
    pub fn new(alloc: Global, lines: &[Line]) -> Result<Groups, Memory>
        ensures { IfOk result (λ groups. groups ≡ grouped lines.now) }
    {
        let mut by_provider = IndexMap::new(alloc);
        for line in lines {
            let provider = known_or_blank(line.provider);
            put_after(alloc, &mut by_provider, provider, *line)?;
        }
        Ok(Groups { by_provider })
    }

    /// The lines of a provider, whose field is filled with blanks.
    pub fn lines_of(&self, provider: &Field) -> &[Line]
        ensures { result.now ≡ lines_at provider.now self.now }
    {
        match self.by_provider.get(provider) {
            Some(lines) => lines.as_slice(),
            None => &[],
        }
    }

    // The providers with their lines.
    pub(crate) fn by_provider(&self) -> &ByProvider
        ensures { groups_in result.now.entries ≡ self.now }
    {
        &self.by_provider
    }
}

// Puts an item after those of its provider.
fn put_after<T: Copy + Drop>(
    alloc: Global,
    groups: &mut IndexMap<Field, Vec<T>>,
    provider: Field,
    item: T,
) -> Result<(), Memory>
    ensures { OnOk result (groups_in groups.new.entries ≡ added provider item (groups_in groups.old.entries)) }
{
    match groups.get_index_of(&provider) {
        Some(at) => groups[at].push(item)?,
        None => {
            let mut items = Vec::new(alloc);
            items.push(item)?;
            groups.insert(provider, items)?;
        }
    }
    Ok(())
}
