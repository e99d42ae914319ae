ghost use Rattle.std.specs.Prelude.{◌≡◌, ◌∷◌, [], IfSome};
ghost use Rattle.rx_books_text.specs.declared.line.Line.{Line};
ghost use Rattle.rx_books_text.specs.declared.line.Line.TheVariants as lines;
ghost use Rattle.rx_books_text.specs.declared.version.Version.TheVariants as versions;
ghost use Rattle.rx_books_scan.specs.Lists.{BeginWith};

use crate::cut::first_line;
use crate::quick::{quick_claim, quick_member, quick_total};
use rx_books_text::{Line, MemberLine, TotalLine, Version, read_line};
use rx_ledger::Row;

/// What the lines of one kind hold: those of members, of claims or of totals.
pub(crate) trait Kind: Copy {
    /// The line that holds it.
    ghost held_by: { Self → Line };

    /// What the line of version 3 holds that the bytes begin with, and what follows its line feed. None, too, where the line
    /// has another form than most have.
    fn quick(bytes: &[u8]) -> Option<(Self, &[u8])>
        ensures { IfSome result (λ x. BeginWith versions.Three bytes.now (held_by x.0 ∷ []) x.1.now) };

    /// What the line holds, where it is of this kind.
    fn in_line(line: Line) -> Option<Self>
        ensures { IfSome result (λ x. held_by x ≡ line) };
}

impl Kind for MemberLine {
    ghost held_by = { λ line. lines.Member line };

    fn quick(bytes: &[u8]) -> Option<(MemberLine, &[u8])> {
        quick_member(bytes)
    }

    fn in_line(line: Line) -> Option<MemberLine> {
        let Line::Member(line) = line else {
            return None;
        };
        Some(line)
    }
}

impl Kind for Row {
    ghost held_by = { λ row. lines.Claim row };

    fn quick(bytes: &[u8]) -> Option<(Row, &[u8])> {
        quick_claim(bytes)
    }

    fn in_line(line: Line) -> Option<Row> {
        let Line::Claim(row) = line else {
            return None;
        };
        Some(row)
    }
}

impl Kind for TotalLine {
    ghost held_by = { λ line. lines.Total line };

    fn quick(bytes: &[u8]) -> Option<(TotalLine, &[u8])> {
        quick_total(bytes)
    }

    fn in_line(line: Line) -> Option<TotalLine> {
        let Line::Total(line) = line else {
            return None;
        };
        Some(line)
    }
}

/// What the line of this kind holds that the bytes begin with, and what follows its line feed.
pub(crate) fn line_at<K: Kind>(version: Version, bytes: &[u8]) -> Option<(K, &[u8])>
    ensures { IfSome result (λ x. BeginWith version bytes.now (K.held_by x.0 ∷ []) x.1.now) }
{
    match version {
        Version::Three => match K::quick(bytes) {
            Some((held, rest)) => Some((held, rest)),
            None => exact_line(Version::Three, bytes),
        },
        _ => exact_line(version, bytes),
    }
}

// The same, by the reader of every line.
fn exact_line<K: Kind>(version: Version, bytes: &[u8]) -> Option<(K, &[u8])>
    ensures { IfSome result (λ x. BeginWith version bytes.now (K.held_by x.0 ∷ []) x.1.now) }
{
    let (text, rest) = first_line(bytes)?;
    let line = read_line(version, text)?;
    let held = K::in_line(line)?;
    Some((held, rest))
}
