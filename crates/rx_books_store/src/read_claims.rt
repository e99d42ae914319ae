use rx_ledger::Row;
use std::marker::Model;

/// Claims as they were read, each with its line in the text that the books keep. Contracts see the claims that are still to
/// come.
#[derive(Drop)]
pub struct ReadClaims<'a> {
    rows: &'a [Row],
    lines: &'a [u8],
    lengths: &'a [u8],
}

impl<'a> Model for ReadClaims<'a> {
    ghost use Rattle.std.specs.Prelude.{List};
    ghost use Rattle.rx_ledger.specs.declared.row.Row.{Row};

    ghost Value = { List Row };

    ghost use Rattle.rx_books_store.specs.ReadClaims.{AreRead};

    ghost view = { λ c. c.rows.now };

    ghost invariant = { λ c. AreRead c.rows.now c.lines.now c.lengths.now };
}

ghost use Rattle.std.specs.Prelude.{◌≡◌, ◌∷◌, [], IfNone, IfOk, IfSome};
ghost use Rattle.std.specs.List.{flat_map};
ghost use Rattle.rx_books_store.specs.BooksText.{claims_text};
ghost use Rattle.rx_books_store.specs.Kept.{IsKept};

use crate::kept::{Kept, bytes_of};
use crate::open_books::OpenBooks;
use crate::opening::Opening;
use rx_fields::Memory;
use std::alloc::Global;

impl<'a> ReadClaims<'a> {
    /// The same claims, from here on.
    pub fn again(&self) -> ReadClaims<'a>
        ensures { result ≡ self.now }
    {
        ReadClaims {
            rows: self.rows,
            lines: self.lines,
            lengths: self.lengths,
        }
    }

    /// The lines of the claims that are still to come.
    pub fn lines(&self) -> &'a [u8]
        ensures { result.now ≡ claims_text self.now }
    {
        self.lines
    }

    /// The next claim, with its line; None where no claim is left.
    pub fn next_claim(&mut self) -> Option<(&'a Row, &'a [u8])>
        ensures none { IfNone result (self.old ≡ []) }
        ensures claim { IfSome result (λ claim. self.old ≡ claim.0.now ∷ self.new) }
        ensures line { IfSome result (λ claim. claim.1.now ≡ claims_text (claim.0.now ∷ [])) }
    {
        let (row, rows) = self.rows.split_first()?;
        let Some((length, lengths)) = self.lengths.split_first() else {
            unreachable!();
        };
        let (line, lines) = self.lines.split_at(usize::from(*length));
        *self = ReadClaims {
            rows,
            lines,
            lengths,
        };
        Some((row, line))
    }
}

impl OpenBooks {
    /// The claims in parts, one after another, each claim with its line in the text that the books were read from. None where
    /// they don't keep it, or a slot is open.
    pub fn read_claims(&self, alloc: Global) -> Result<Option<Vec<ReadClaims<'_>>>, Memory>
        ensures { IfOk result (λ found. IfSome found (λ parts. flat_map (λ part. part) parts.items ≡ self.now.books.ledger.rows)) }
    {
        if !self.has_no_slot() {
            return Ok(None);
        }
        match self.opening.kept() {
            Some(kept) => Ok(Some(read_claims_of(alloc, &self.opening, kept)?)),
            None => Ok(None),
        }
    }
}

// The claims of each run, with their lines.
fn read_claims_of<'a>(
    alloc: Global,
    opening: &'a Opening,
    kept: &'a Kept,
) -> Result<Vec<ReadClaims<'a>>, Memory>
    requires { IsKept kept.now opening.now.rows }
    ensures { IfOk result (λ parts. flat_map (λ part. part) parts.items ≡ opening.now.rows) }
{
    let runs = opening.rows().runs();
    let mut parts = Vec::with_capacity(alloc, runs.len())?;
    let (mut lines, mut lengths) = kept.lines();
    for run in runs {
        let (own_lengths, other_lengths) = lengths.split_at(run.len());
        let (own_lines, other_lines) = lines.split_at(bytes_of(own_lengths));
        parts.push(ReadClaims {
            rows: run,
            lines: own_lines,
            lengths: own_lengths,
        })?;
        lines = other_lines;
        lengths = other_lengths;
    }
    Ok(parts)
}
