ghost use Rattle.std.specs.Prelude.{◌≡◌, Some, IfSome};
ghost use Rattle.rx_books_text.specs.declared.line.Line.{Line};
ghost use Rattle.rx_books_text.specs.LineFits.{IsLine};
ghost use Rattle.rx_books_text.specs.LineReading.{line_of};
ghost use Rattle.rx_books_text.specs.LineText.{line_text};

use crate::claim_line::claim_line;
use crate::member_line::member_line;
use crate::total_line::total_line;
use crate::version::Version;
use rx_fields::Id;
use rx_ledger::{Member, Row};

/// A member line: who is covered, and what was paid so far.
#[derive(Clone, Copy)]
pub struct MemberLine {
    /// The member and the coverage.
    pub member: Member,
    /// The member's deductible in the head's period, in cents: below 10^20.
    pub deductible: u128,
}

/// A total line: what a family paid so far.
#[derive(Clone, Copy, PartialEq, Eq)]
pub struct TotalLine {
    /// The cardholder id.
    pub family: Id,
    /// The family's out of pocket in the head's period, in cents: below 10^20.
    pub out_of_pocket: u128,
    /// The family's deductible in the head's period, in cents: below 10^20. Only version 3 prints it.
    pub deductible: Option<u128>,
}

/// A line of a books file after the head line.
#[derive(Clone, Copy)]
pub enum Line {
    /// A member, `M|`.
    Member(MemberLine),
    /// A standing claim, `C|`.
    Claim(Row),
    /// A family's totals, `T|`.
    Total(TotalLine),
}

/// The line that a text is in this version, without its line feed (docs/FORMATS.md, "Books file").
pub fn read_line(version: Version, text: &[u8]) -> Option<Line>
    ensures value { result ≡ line_of version text.now }
    ensures found { IfSome result (λ line. IsLine version line × (text.now ≡ line_text version line)) }
    ensures only { (line : Line) → IsLine version line → text.now ≡ line_text version line → result ≡ Some line }
{
    line_of(version, text)
}

// The line that a text is read as.
#[tactic(auto, unfolding(crate::specs::LineReading::line_of))]
fn line_of(version: Version, text: &[u8]) -> Option<Line>
    ensures { result ≡ line_of version text.now }
{
    let [kind, b'|', fields @ ..] = text else {
        return None;
    };
    match *kind {
        b'M' => Some(Line::Member(member_line(fields)?)),
        b'C' => Some(Line::Claim(claim_line(version, fields)?)),
        b'T' => Some(Line::Total(total_line(version, fields)?)),
        _ => None,
    }
}
