ghost use Rattle.std.specs.Prelude.{◌≡◌};
ghost use Rattle.rx_books_text.specs.LineReading.{short_total_in, total_in, whole_total_in};

use crate::cut::split;
use crate::field::{family_in, wide_number_in};
use crate::line::TotalLine;
use crate::version::Version;

/// The total line of these bytes after its kind.
pub(crate) fn total_line(version: Version, bytes: &[u8]) -> Option<TotalLine>
    ensures { result ≡ total_in version bytes.now }
{
    match version {
        Version::One => short_total_line(bytes),
        Version::Two => short_total_line(bytes),
        Version::Three => whole_total_line(bytes),
    }
}

// A total line with the family's deductible.
#[tactic(auto, unfolding(crate::specs::LineReading::whole_total_in))]
fn whole_total_line(bytes: &[u8]) -> Option<TotalLine>
    ensures { result ≡ whole_total_in bytes.now }
{
    let (family, rest) = split(bytes)?;
    let (out_of_pocket, deductible) = split(rest)?;
    let family = family_in(family)?;
    let out_of_pocket = wide_number_in(out_of_pocket)?;
    let deductible = wide_number_in(deductible)?;
    Some(TotalLine {
        family,
        out_of_pocket,
        deductible: Some(deductible),
    })
}

// A total line without it.
#[tactic(auto, unfolding(crate::specs::LineReading::short_total_in))]
fn short_total_line(bytes: &[u8]) -> Option<TotalLine>
    ensures { result ≡ short_total_in bytes.now }
{
    let (family, out_of_pocket) = split(bytes)?;
    let family = family_in(family)?;
    let out_of_pocket = wide_number_in(out_of_pocket)?;
    Some(TotalLine {
        family,
        out_of_pocket,
        deductible: None,
    })
}
