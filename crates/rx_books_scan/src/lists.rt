use rx_books_text::{Head, TotalLine};
use rx_ledger::{Member, Row};
use rx_sorted::{Ascending, Runs};

/// The lists that a books text prints, before anything is looked up in them.
#[derive(Drop)]
pub struct Lists {
    /// The version and the period.
    pub head: Head,
    /// The members.
    pub members: Ascending<Member>,
    /// The deductible that each member line prints, in the members' order, in cents.
    pub deductibles: Vec<u128>,
    /// The claims.
    pub rows: Runs<Row>,
    /// How many bytes stand above the first claim line: those of the head and of the member lines.
    pub above: usize,
    /// For each claim how many bytes its line has, with the line feed.
    pub lengths: Vec<u8>,
    /// The totals.
    pub totals: Ascending<TotalLine>,
}

ghost use Rattle.std.specs.Prelude.{◌≡◌, IfSome, length};
ghost use Rattle.std.specs.List.{All};
ghost use Rattle.rx_books_text.specs.LineText.{ended, head_text};
ghost use Rattle.rx_books_scan.specs.Lists.{AreMeasured};
ghost use Rattle.rx_books_scan.specs.Parts.{IsMadeOf, IsPartMeasured, printed_lists};

use crate::members::Members;
use crate::part::Part;
use crate::whole::{Whole, join_parts};
use rx_fields::MOST_LINES;
use std::alloc::Global;

/// The lists of the parts of a text, under its head, whose line has this many bytes; None where they don't ascend, or are
/// no lines in order, or are too many, or where memory runs out.
pub(crate) fn lists_of(
    alloc: Global,
    head: Head,
    head_bytes: usize,
    parts: Vec<Part>,
) -> Option<Lists>
    requires head { head_bytes ≡ length (ended (head_text head)) }
    requires parts { All (IsPartMeasured head.version) parts.items }
    ensures made { IfSome result (IsMadeOf head parts.items) }
    ensures measured { IfSome result (λ lists. AreMeasured (printed_lists lists) lists.above lists.lengths.items) }
{
    let Whole {
        members,
        runs,
        lengths,
        totals,
    } = join_parts(alloc, parts)?;
    let Members {
        members,
        deductibles,
        bytes,
    } = members;
    let above = head_bytes.checked_add(bytes)?;
    let Ok(members) = Ascending::from_vec(members) else {
        return None;
    };
    let Ok(rows) = Runs::from_runs(runs) else {
        return None;
    };
    let Ok(totals) = Ascending::from_vec(totals) else {
        return None;
    };
    let others = members.len() + totals.len();
    if others >= MOST_LINES || rows.len() >= MOST_LINES - others {
        return None;
    }
    Some(Lists {
        head,
        members,
        deductibles,
        rows,
        above,
        lengths,
        totals,
    })
}
