//! The members and the standing claims of a family, found without a copy of all others.
ghost use Rattle.std.specs.Prelude.{◌≡◌, ◌<◌, ◌∷◌, [], ℕ, List, filter, IfNone, IfOk, IfSome, length, map};
ghost use Rattle.rx_ledger.specs.Ledger.{members_of, rows_of};
ghost use Rattle.rx_ledger.specs.Members.{of_family};
ghost use Rattle.rx_ledger.specs.Rows.{claimed_by};

use rx_books_store::{OpenBooks, Standing};
use rx_fields::{Id, Memory};
use rx_ledger::{Member, Row};
use std::alloc::Global;

/// The members of a family, ascending by person.
pub fn members_of(alloc: Global, books: &OpenBooks, id: &Id) -> Result<Vec<Member>, Memory>
    ensures { IfOk result (λ list. list.items ≡ members_of books.now.books.ledger id.now) }
{
    let members = books
        .members()
        .iter()
        .filter(|member| of_family(id, member));
    Ok(members.copied().collect(alloc)?)
}

/// The standing claims of a family, ascending by fill key.
pub fn rows_of(alloc: Global, books: &OpenBooks, id: &Id) -> Result<Vec<Row>, Memory>
    ensures { IfOk result (λ list. list.items ≡ rows_of books.now.books.ledger id.now) }
{
    let marks = marks_of(alloc, books.members(), id)?;
    let mut rows = Vec::new(alloc);
    let mut standing = books.standing();
    while let Some((row, _)) = next_marked(&mut standing, &marks) {
        if claimed_by(id, row) {
            rows.push(*row)?;
        }
    }
    Ok(rows)
}

// For each member whether it is of the family.
fn marks_of(alloc: Global, members: &[Member], id: &Id) -> Result<Vec<bool>, Memory>
    ensures { IfOk result (λ marks. marks.items ≡ map (of_family id.now) members.now) }
{
    let marks = members.iter().map(|member| of_family(id, member));
    Ok(marks.collect(alloc)?)
}

// The next row that stands, with the place of its member. Rows of members without a mark, as most are, are passed at once:
// where the marks are a family's, none of its claims.
fn next_marked<'a>(standing: &mut Standing<'a>, marks: &[bool]) -> Option<(&'a Row, usize)>
    ensures none { IfNone result ((family : List ℕ) → marks.now ≡ map (of_family family) standing.old.members
        → filter (claimed_by family) standing.old.rows ≡ []) }
    ensures row { IfSome result (λ r. (family : List ℕ) → marks.now ≡ map (of_family family) standing.old.members
        → filter (claimed_by family) standing.old.rows ≡ filter (claimed_by family) (r.0.now ∷ standing.new.rows)) }
    ensures members { standing.new.members ≡ standing.old.members }
    ensures fewer { IfSome result (λ r. length standing.new.rows < length standing.old.rows) }
{
    standing.pass_unmarked(marks);
    standing.next_row()
}

#[tactic(auto, using(rx_ledger::proofs::SameText::same_text))]
fn of_family(id: &Id, member: &Member) -> bool
    ensures { result ≡ of_family id.now member.now }
{
    member.key.family == *id
}

#[tactic(auto, using(rx_ledger::proofs::SameText::same_text))]
fn claimed_by(id: &Id, row: &Row) -> bool
    ensures { result ≡ claimed_by id.now row.now }
{
    row.family == *id
}
