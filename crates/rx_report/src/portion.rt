ghost use Rattle.std.specs.Prelude.{◌≡◌, IfOk};
ghost use Rattle.std.specs.List.{filter};
ghost use Rattle.rx_report.specs.Accounts.{is_in, names_family};

use crate::line::Line;
use rx_fields::Memory;
use rx_settle::names_provider;
use std::alloc::Global;

/// Which lines of a batch to report.
#[derive(Clone, Copy)]
pub enum Portion<'a> {
    /// All of them.
    Whole,
    /// Those of this provider; the empty text stands for all that name none.
    Provider(&'a [u8]),
    /// Those of this family.
    Family(&'a [u8]),
}

/// The lines of a portion, in the order in which they stood.
pub fn kept_lines(alloc: Global, portion: Portion<'_>, lines: &[Line]) -> Result<Vec<Line>, Memory>
    ensures { IfOk result (λ kept. kept.items ≡ filter (is_in portion.entry) lines.now) }
{
    let mut kept = Vec::new(alloc);
    for line in lines {
        if is_in(portion, line) {
            kept.push(*line)?;
        }
    }
    Ok(kept)
}

fn is_in(portion: Portion<'_>, line: &Line) -> bool
    ensures { result ≡ is_in portion.entry line.now }
{
    match portion {
        Portion::Whole => true,
        Portion::Provider(id) => names_provider(id, &line.provider),
        Portion::Family(id) => names_family(id, line),
    }
}

fn names_family(id: &[u8], line: &Line) -> bool
    ensures { result ≡ names_family id.now line.now }
{
    match &line.member {
        Some((family, _)) => id == family.bytes(),
        None => false,
    }
}
