use crate::members::Members;
use crate::part::Part;
use rx_books_text::TotalLine;
use rx_ledger::Row;
use std::alloc::Global;

/// What parts print that were put one after another: their claims stay apart, as runs.
#[derive(Drop)]
pub(crate) struct Whole {
    pub(crate) members: Members,
    pub(crate) runs: Vec<Vec<Row>>,
    // For each claim how many bytes its line has, with the line feed.
    pub(crate) lengths: Vec<u8>,
    pub(crate) totals: Vec<TotalLine>,
}

ghost use Rattle.std.specs.Prelude.{◌≡◌, ◌+◌, ◌++◌, [], IfSome};
ghost use Rattle.std.specs.List.{All, flat_map};
ghost use Rattle.std.specs.Vec.{vec_items};
ghost use Rattle.rx_books_text.specs.declared.version.Version.{Version};
ghost use Rattle.rx_books_scan.specs.Parts.{IsPartMeasured, IsWholeMeasured, may_follow, part_lines, whole_lines};

/// The parts, put one after another; None where a kind of line stands before that of a line above, or where memory runs
/// out. Keys aren't compared.
pub(crate) fn join_parts(alloc: Global, parts: Vec<Part>) -> Option<Whole>
    ensures lines { IfSome result (λ whole. whole_lines whole ≡ flat_map part_lines parts.items) }
    ensures measured { (v : Version) → All (IsPartMeasured v) parts.items → IfSome result (IsWholeMeasured v) }
{
    let mut whole = Whole {
        members: Members {
            members: Vec::new(alloc),
            deductibles: Vec::new(alloc),
            bytes: 0,
        },
        runs: Vec::new(alloc),
        lengths: Vec::new(alloc),
        totals: Vec::new(alloc),
    };
    for part in parts {
        whole = followed(whole, part)?;
    }
    Some(whole)
}

// The part after the others.
fn followed(whole: Whole, part: Part) -> Option<Whole>
    ensures lines { IfSome result (λ all. whole_lines all ≡ whole_lines whole ++ part_lines part) }
    ensures measured { (v : Version) → IsWholeMeasured v whole → IsPartMeasured v part
        → IfSome result (IsWholeMeasured v) }
{
    if !may_follow(&whole, &part) {
        return None;
    }
    let Whole {
        members,
        runs,
        lengths,
        totals,
    } = whole;
    let Part {
        members: more_members,
        rows,
        lengths: more_lengths,
        totals: more_totals,
    } = part;
    let members = all_members(members, more_members)?;
    let runs = all_runs(runs, rows)?;
    let lengths = all_items(lengths, more_lengths)?;
    let totals = all_items(totals, more_totals)?;
    Some(Whole {
        members,
        runs,
        lengths,
        totals,
    })
}

// Whether no kind of line of the part stands before that of a line above.
fn may_follow(whole: &Whole, part: &Part) -> bool
    ensures { result ≡ may_follow whole.now part.now }
{
    (part.members.members.is_empty() || (whole.runs.is_empty() && whole.totals.is_empty()))
        && (part.rows.is_empty() || whole.totals.is_empty())
}

// Members after others.
fn all_members(first: Members, more: Members) -> Option<Members>
    ensures members { IfSome result (λ all. all.members.items ≡ first.members.items ++ more.members.items) }
    ensures deductibles { IfSome result (λ all. all.deductibles.items ≡ first.deductibles.items ++ more.deductibles.items) }
    ensures bytes { IfSome result (λ all. all.bytes ≡ first.bytes + more.bytes) }
{
    let Members {
        members: first_members,
        deductibles: first_deductibles,
        bytes: first_bytes,
    } = first;
    let Members {
        members: more_members,
        deductibles: more_deductibles,
        bytes: more_bytes,
    } = more;
    let members = all_items(first_members, more_members)?;
    let deductibles = all_items(first_deductibles, more_deductibles)?;
    let bytes = first_bytes.checked_add(more_bytes)?;
    Some(Members {
        members,
        deductibles,
        bytes,
    })
}

// A run after others, where it has claims.
fn all_runs(mut runs: Vec<Vec<Row>>, run: Vec<Row>) -> Option<Vec<Vec<Row>>>
    ensures { IfSome result (λ all. flat_map vec_items all.items ≡ flat_map vec_items runs.items ++ run.items) }
{
    if run.is_empty() {
        return Some(runs);
    }
    let Ok(()) = runs.push(run) else {
        return None;
    };
    Some(runs)
}

// Items after others; if there are no others, none is copied.
fn all_items<T: Copy + Drop>(mut first: Vec<T>, more: Vec<T>) -> Option<Vec<T>>
    ensures { IfSome result (λ all. all.items ≡ first.items ++ more.items) }
{
    if first.is_empty() {
        return Some(more);
    }
    first.extend_from_slice(&more).ok()?;
    Some(first)
}
