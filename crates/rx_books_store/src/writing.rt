ghost use Rattle.std.specs.Prelude.{◌≡◌, ◌<◌, ◌≤◌, ◌++◌, IfOk, IfSome, OnOk};
ghost use Rattle.std.specs.List.{All, flat_map};
ghost use Rattle.std.specs.Vec.{vec_items};
ghost use Rattle.rx_io.specs.Pieces.{text_of};
ghost use Rattle.rx_fields.specs.Order.{key_cmp};
ghost use Rattle.rx_sorted.specs.Ascending.{IsAscending};
ghost use Rattle.rx_books_store.specs.BooksText.{above_text, below_text, books_text, claims_text};
ghost use Rattle.rx_books_store.specs.Kept.{IsKept};
ghost use Rattle.rx_books_store.specs.Store.{IsSlot, slot_key, standing_rows};

use crate::kept::Kept;
use crate::open_books::OpenBooks;
use crate::opening::Opening;
use crate::patching::{lent_between, standing_in_parts};
use crate::slot::KeySlot;
use crate::writer::{CLAIM, claims_in_parts, put_members, put_totals};
use rx_books_text::{Version, put_claim, put_head};
use rx_fields::Memory;
use rx_io::{Patched, Pieces};
use std::alloc::Global;
use std::thread;
use std::thread::Threads;

// About the bytes of a member line and a total line.
const OTHER: usize = 64;

// Where one claim of this many has a slot, several threads write the claims as fast as one lends their lines.
const MOST_CHANGED: usize = 3;

// What stands above the claims of a text, and below them.
#[derive(Drop)]
struct Ends {
    above: Vec<u8>,
    below: Vec<u8>,
}

impl OpenBooks {
    /// The text of the books, in version 3 (docs/FORMATS.md, "Books file").
    pub(crate) fn write(&self, alloc: Global) -> Result<Vec<u8>, Memory>
        ensures { IfOk result (λ text. text.items ≡ books_text Version.Three self.now.books.period self.now.books.ledger) }
    {
        match self.patched(alloc)? {
            Some(text) => text.joined(alloc),
            None => self.rendered(alloc),
        }
    }

    /// The same in pieces, one after another. Where the text is kept that the claims were read from, the lines of those that
    /// stand unchanged are lent from it. Else this many parts of the claims are written by threads of their own, between
    /// what stands above and below them; one part is written on the calling thread, and is one piece.
    pub(crate) fn write_pieces<R: Threads + Sync>(
        &self,
        rt: &R,
        alloc: Global,
        parts: usize,
    ) -> Result<Pieces, Memory>
        ensures { IfOk result (λ pieces. text_of pieces
            ≡ books_text Version.Three self.now.books.period self.now.books.ledger) }
    {
        if parts < 2 || self.are_few_changed() {
            if let Some(text) = self.patched(alloc)? {
                return Ok(Pieces::Patched(text));
            }
        }
        if parts < 2 {
            return in_one_piece(alloc, self.rendered(alloc)?);
        }
        self.rendered_in_parts(rt, alloc, parts)
    }

    // Whether few of the claims can have changed.
    fn are_few_changed(&self) -> bool {
        self.changed.len() < self.opening.rows().len() / MOST_CHANGED
    }

    /// The same in pieces of pieces: where the text is kept that the claims were read from, and several parts are asked for, what
    /// stands above the claims, as many parts of them, each made by a thread of its own, and what stands below them.
    pub(crate) fn write_parts<R: Threads + Sync>(
        &self,
        rt: &R,
        alloc: Global,
        parts: usize,
    ) -> Result<Vec<Pieces>, Memory>
        ensures { IfOk result (λ list. flat_map text_of list.items
            ≡ books_text Version.Three self.now.books.period self.now.books.ledger) }
    {
        if parts < 2 {
            return only_piece(alloc, self.write_pieces(rt, alloc, parts)?);
        }
        match self.patched_in_parts(rt, parts, alloc)? {
            Some(texts) => all_pieces(alloc, texts),
            None => only_piece(alloc, self.rendered_in_parts(rt, alloc, parts)?),
        }
    }

    // The text, made of parts of the one that the claims were read from; None where that isn't kept.
    fn patched(&self, alloc: Global) -> Result<Option<Patched>, Memory>
        ensures { IfOk result (λ patched. IfSome patched (λ text.
            text.text ≡ books_text Version.Three self.now.books.period self.now.books.ledger)) }
    {
        let Some(kept) = self.opening.kept() else {
            return Ok(None);
        };
        let mut above = Vec::with_capacity(alloc, self.room_above())?;
        self.put_above(&mut above)?;
        let mut below = Vec::new(alloc);
        self.put_below(&mut below)?;
        let slots = self.changed.as_slice();
        let text = lent_between(alloc, kept, &self.opening, slots, above, &below)?;
        Ok(Some(text))
    }

    /// The lines of the claims that stand, after what is above them and before what is below. Where the text is kept that
    /// the claims were read from, the lines of those that stand unchanged are lent from it.
    pub fn claims_between(
        &self,
        alloc: Global,
        above: Vec<u8>,
        below: &[u8],
    ) -> Result<Pieces, Memory>
        ensures { IfOk result (λ pieces. text_of pieces ≡ above.items ++ (claims_text self.now.books.ledger.rows ++ below.now)) }
    {
        let Some(kept) = self.opening.kept() else {
            let mut text = above;
            self.put_claims(&mut text)?;
            text.extend_from_slice(below)?;
            let pieces = in_one_piece(alloc, text)?;
            return Ok(pieces);
        };
        let slots = self.changed.as_slice();
        let text = lent_between(alloc, kept, &self.opening, slots, above, below)?;
        Ok(Pieces::Patched(text))
    }

    // The same text in parts: what stands above the claims, this many parts of the claims, and what stands below them.
    fn patched_in_parts<R: Threads + Sync>(
        &self,
        rt: &R,
        parts: usize,
        alloc: Global,
    ) -> Result<Option<Vec<Patched>>, Memory>
        requires { 2 ≤ parts }
        ensures { IfOk result (λ patched. IfSome patched (λ texts. flat_map (λ t. t.text) texts.items
            ≡ books_text Version.Three self.now.books.period self.now.books.ledger)) }
    {
        let Some(kept) = self.opening.kept() else {
            return Ok(None);
        };
        let (opening, slots) = (&self.opening, self.changed.as_slice());
        let (claims, ends) = claims_and_ends(rt, alloc, parts, self, kept, opening, slots);
        let mut texts = claims?;
        let Ends { above, below } = ends?;
        let first = kept.patch(alloc, above)?;
        let last = kept.patch(alloc, below)?;
        texts.insert(0, first)?;
        texts.push(last)?;
        Ok(Some(texts))
    }

    // What stands above the claims and below them.
    fn ends(&self, alloc: Global) -> Result<Ends, Memory>
        ensures above { IfOk result (λ ends. ends.above.items ≡ above_text self.now.books.period self.now.books.ledger) }
        ensures below { IfOk result (λ ends. ends.below.items ≡ below_text self.now.books.period self.now.books.ledger) }
    {
        let mut above = Vec::with_capacity(alloc, self.room_above())?;
        self.put_above(&mut above)?;
        let mut below = Vec::new(alloc);
        self.put_below(&mut below)?;
        Ok(Ends { above, below })
    }

    // The text, in which each line is written anew.
    fn rendered(&self, alloc: Global) -> Result<Vec<u8>, Memory>
        ensures { IfOk result (λ text. text.items ≡ books_text Version.Three self.now.books.period self.now.books.ledger) }
    {
        let claims = self.opening.rows().len().saturating_mul(CLAIM);
        let mut text = Vec::with_capacity(alloc, claims.saturating_add(self.room_above()))?;
        self.put_above(&mut text)?;
        self.put_claims(&mut text)?;
        self.put_below(&mut text)?;
        Ok(text)
    }

    // The same, where this many parts of the claims are written by threads of their own.
    fn rendered_in_parts<R: Threads + Sync>(
        &self,
        rt: &R,
        alloc: Global,
        parts: usize,
    ) -> Result<Pieces, Memory>
        requires { 2 ≤ parts }
        ensures { IfOk result (λ pieces. text_of pieces
            ≡ books_text Version.Three self.now.books.period self.now.books.ledger) }
    {
        let mut texts = self.claims_in_parts(rt, alloc, parts)?;
        let Ends { above, below } = self.ends(alloc)?;
        texts.insert(0, above)?;
        texts.push(below)?;
        Ok(Pieces::Texts(texts))
    }

    // The lines of the rows that stand, in this many texts.
    fn claims_in_parts<R: Threads + Sync>(
        &self,
        rt: &R,
        alloc: Global,
        parts: usize,
    ) -> Result<Vec<Vec<u8>>, Memory>
        requires { 2 ≤ parts }
        ensures { IfOk result (λ texts. flat_map vec_items texts.items ≡ claims_text self.now.books.ledger.rows) }
    {
        let mut rows = Vec::with_capacity(alloc, self.opening.rows().len())?;
        let mut standing = self.standing();
        'rows: while let Some((row, _)) = standing.next_row() {
            rows.push(row)?;
        }
        claims_in_parts(rt, alloc, &rows, rows.len() / parts + 1)
    }

    // About the bytes above the claims.
    fn room_above(&self) -> usize {
        self.opening.members().len().saturating_mul(OTHER)
    }

    // Puts what stands above the claims: the head line and the member lines.
    fn put_above(&self, text: &mut Vec<u8>) -> Result<(), Memory>
        ensures { OnOk result (text.new.items ≡ text.old.items ++ above_text self.now.books.period self.now.books.ledger) }
    {
        put_head(text, self.period)?;
        put_members(text, self.opening.members().as_slice(), &self.deductibles)?;
        Ok(())
    }

    // Puts the lines of the rows that stand.
    fn put_claims(&self, text: &mut Vec<u8>) -> Result<(), Memory>
        ensures { OnOk result (text.new.items ≡ text.old.items ++ claims_text self.now.books.ledger.rows) }
    {
        let mut standing = self.standing();
        'rows: while let Some((row, _)) = standing.next_row() {
            put_claim(text, row)?;
        }
        Ok(())
    }

    // Puts what stands below the claims: the total lines.
    fn put_below(&self, text: &mut Vec<u8>) -> Result<(), Memory>
        ensures { OnOk result (text.new.items ≡ text.old.items ++ below_text self.now.books.period self.now.books.ledger) }
    {
        put_totals(
            text,
            self.opening.families(),
            &self.out_of_pockets,
            &self.family_deductibles,
        )?;
        Ok(())
    }
}

// The texts of the rows that stand, in parts, and what stands above and below the claims: made side by side.
fn claims_and_ends<R: Threads + Sync>(
    rt: &R,
    alloc: Global,
    parts: usize,
    books: &OpenBooks,
    kept: &Kept,
    opening: &Opening,
    slots: &[KeySlot],
) -> (Result<Vec<Patched>, Memory>, Result<Ends, Memory>)
    requires some { 0 < parts }
    requires kept { IsKept kept.now opening.now.rows }
    requires rise { IsAscending key_cmp slot_key slots.now }
    requires own { All (IsSlot opening.now.members) slots.now }
    ensures claims { IfOk result.0 (λ texts. flat_map (λ t. t.text) texts.items ≡ claims_text (standing_rows opening.now.rows slots.now)) }
    ensures above { IfOk result.1 (λ ends. ends.above.items ≡ above_text books.now.books.period books.now.books.ledger) }
    ensures below { IfOk result.1 (λ ends. ends.below.items ≡ below_text books.now.books.period books.now.books.ledger) }
{
    thread::join(
        rt,
        || -> Result<Vec<Patched>, Memory>
            requires some { 0 < parts }
            requires kept { IsKept kept.now opening.now.rows }
            requires rise { IsAscending key_cmp slot_key slots.now }
            requires own { All (IsSlot opening.now.members) slots.now }
            ensures { IfOk result (λ texts. flat_map (λ t. t.text) texts.items
                ≡ claims_text (standing_rows opening.entry.now.rows slots.entry.now)) }
        { standing_in_parts(rt, alloc, parts, kept, opening, slots) },
        || -> Result<Ends, Memory>
            ensures above { IfOk result (λ ends. ends.above.items
                ≡ above_text books.entry.now.books.period books.entry.now.books.ledger) }
            ensures below { IfOk result (λ ends. ends.below.items
                ≡ below_text books.entry.now.books.period books.entry.now.books.ledger) }
        { books.ends(alloc) },
    )
}

/// A text as its one piece.
pub(crate) fn in_one_piece(alloc: Global, text: Vec<u8>) -> Result<Pieces, Memory>
    ensures { IfOk result (λ pieces. text_of pieces ≡ text.items) }
{
    let mut texts = Vec::new(alloc);
    texts.push(text)?;
    Ok(Pieces::Texts(texts))
}

/// Only these pieces.
pub(crate) fn only_piece(alloc: Global, pieces: Pieces) -> Result<Vec<Pieces>, Memory>
    ensures { IfOk result (λ list. flat_map text_of list.items ≡ text_of pieces) }
{
    let mut list = Vec::new(alloc);
    list.push(pieces)?;
    Ok(list)
}

// These texts, each as pieces.
fn all_pieces(alloc: Global, texts: Vec<Patched>) -> Result<Vec<Pieces>, Memory>
    ensures { IfOk result (λ list. flat_map text_of list.items ≡ flat_map (λ t. t.text) texts.items) }
{
    let mut list = Vec::with_capacity(alloc, texts.len())?;
    for text in texts {
        list.push(Pieces::Patched(text))?;
    }
    Ok(list)
}
