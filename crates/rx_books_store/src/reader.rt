use crate::open_books::OpenBooks;
use rx_books_text::{Head, TotalLine, Version};
use rx_sorted::Ascending;

/// Books that were read quickly, and where the lines of their claims are in the text that they were read from: below this
/// many bytes of it, and each has this many.
#[derive(Drop)]
pub(crate) struct Quick {
    books: OpenBooks,
    version: Version,
    above: usize,
    lengths: Vec<u8>,
}

/// What a text has besides its head, its members and its claims, and where the lines of its claims are.
#[derive(Drop)]
pub(crate) struct Rest {
    deductibles: Vec<u128>,
    above: usize,
    lengths: Vec<u8>,
    totals: Ascending<TotalLine>,
}

ghost use Rattle.std.specs.Prelude.{◌≡◌, ◌<◌, ◌^◌, [], IfOk, IfSome, IsTrue, length, map};
ghost use Rattle.std.specs.Arc.{arc_value};
ghost use Rattle.rx_books_text.specs.Fault.{Gives};
ghost use Rattle.rx_ledger.specs.Ledger.{IsLedger};
ghost use Rattle.rx_books_store.specs.BooksText.{deductibles_of, families_of, from_three, total_of};
ghost use Rattle.rx_books_store.specs.Figures.{books_of};
ghost use Rattle.rx_books_store.specs.Held.{AreHeld};
ghost use Rattle.rx_books_store.specs.Kept.{IsKept};
ghost use Rattle.rx_books_store.specs.Lists.{AreSummed, totals_in};
ghost use Rattle.rx_books_store.specs.Quick.{IsQuick, printed_with, rest_of};

use crate::books::Books;
use crate::hints::Places;
use crate::holders::{holders_in_parts, holders_of};
use crate::kept::Kept;
use crate::opening::{FamilyName, Opening};
use rx_books_scan::{Lists, read_lists, read_lists_in_parts};
use rx_books_text::BooksFault;
use rx_fields::Memory;
use std::alloc::Global;
use std::sync::Arc;
use std::thread::Threads;

impl Quick {
    /// The books of a text, read quickly on the calling thread. None says nothing: memory ran out, or it isn't text of
    /// books.
    pub(crate) fn read(alloc: Global, text: &[u8]) -> Option<Quick>
        ensures { IfSome result (IsQuick text.now) }
    {
        let lists = read_lists(alloc, text)?;
        let (places, holders) = placed(alloc, &lists)?;
        let (opening, head, rest) = opened(alloc, lists, holders, places)?;
        let slots = Ascending::new(alloc);
        let books = OpenBooks::added_up(alloc, head.period, opening, slots).ok()?;
        Quick::of_books(books, head.version, rest)
    }

    /// The same, by a thread for each of this many parts of the lines; one part is read on the calling thread.
    pub(crate) fn read_in_parts<R: Threads + Sync>(
        rt: &R,
        alloc: Global,
        parts: usize,
        text: &[u8],
    ) -> Option<Quick>
        ensures { IfSome result (IsQuick text.now) }
    {
        if parts < 2 {
            return Quick::read(alloc, text);
        }
        let lists = read_lists_in_parts(rt, alloc, parts, text)?;
        let (places, holders) = placed_in_parts(rt, alloc, &lists)?;
        let (opening, head, rest) = opened(alloc, lists, holders, places)?;
        let books = OpenBooks::added_up_in_parts(rt, alloc, head.period, opening).ok()?;
        Quick::of_books(books, head.version, rest)
    }

    // These books, where each figure of the text is the sum. None where one isn't, or a family has no total line, or where
    // memory runs out.
    fn of_books(books: OpenBooks, version: Version, rest: Rest) -> Option<Quick>
        requires { IsLedger books.books.ledger }
        ensures made { IfSome result (λ quick. quick ≡ record {
          books = books;
          version = version;
          above = rest.above;
          lengths = rest.lengths;
        }) }
        ensures sums { IfSome result (λ _. AreSummed (printed_with version books.books rest)) }
    {
        let Rest {
            deductibles,
            above,
            lengths,
            totals,
        } = rest;
        if !books.prints(version, &deductibles, totals.as_slice()) {
            return None;
        }
        Some(Quick {
            books,
            version,
            above,
            lengths,
        })
    }

    // The books, which keep the text if it is one of version 3, and there is memory for that.
    fn keep(self, alloc: Global, text: &Arc<Vec<u8>, Global>) -> Books
        requires { IsQuick (arc_value text.now).items self }
        ensures { result ≡ self.books.books }
    {
        let Quick {
            books,
            version,
            above,
            lengths,
        } = self;
        match version {
            Version::Three => match Kept::of(alloc, text, above, lengths) {
                Ok(kept) => books.keeping(kept).close(),
                Err(_) => books.close(),
            },
            Version::One | Version::Two => books.close(),
        }
    }
}

// Where the members of these lists are, and for each row the place of its member.
fn placed(alloc: Global, lists: &Lists) -> Option<(Places, Vec<u32>)>
    ensures few { IfSome result (λ _. length lists.now.members < 2 ^ 32) }
    ensures held { IfSome result (λ found. AreHeld lists.now.members lists.now.rows found.1.items) }
{
    let places = Places::of(alloc, lists.members.as_slice())?;
    let holders = holders_of(alloc, &places, &lists.members, &lists.rows)?;
    Some((places, holders))
}

// The same, where the rows of each run are looked at by a thread of its own.
fn placed_in_parts<R: Threads + Sync>(
    rt: &R,
    alloc: Global,
    lists: &Lists,
) -> Option<(Places, Vec<u32>)>
    ensures few { IfSome result (λ _. length lists.now.members < 2 ^ 32) }
    ensures held { IfSome result (λ found. AreHeld lists.now.members lists.now.rows found.1.items) }
{
    let places = Places::of(alloc, lists.members.as_slice())?;
    let holders = holders_in_parts(rt, alloc, &places, &lists.members, &lists.rows)?;
    Some((places, holders))
}

// The opening lists of these lists, with the head and the rest of these.
fn opened(
    alloc: Global,
    lists: Lists,
    holders: Vec<u32>,
    places: Places,
) -> Option<(Opening, Head, Rest)>
    requires few { length lists.members < 2 ^ 32 }
    requires held { AreHeld lists.members lists.rows holders.items }
    ensures opening { IfSome result (λ parts. parts.0 ≡ record { members = lists.members; rows = lists.rows }) }
    ensures in_order { IfSome result (λ parts. IsLedger parts.0) }
    ensures few { IfSome result (λ parts. length parts.0.rows < 2 ^ 63) }
    ensures head { IfSome result (λ parts. parts.1 ≡ lists.head) }
    ensures rest { IfSome result (λ parts. parts.2 ≡ rest_of lists) }
{
    let Lists {
        head,
        members,
        deductibles,
        rows,
        above,
        lengths,
        totals,
    } = lists;
    let opening = Opening::of(alloc, members, rows, holders, places).ok()?;
    let rest = Rest {
        deductibles,
        above,
        lengths,
        totals,
    };
    Some((opening, head, rest))
}

impl Books {
    /// The books that were read quickly, or else what the exact reader finds.
    pub(crate) fn or_summed(
        alloc: Global,
        text: &[u8],
        quick: Option<Quick>,
    ) -> Result<Books, BooksFault>
        requires { IfSome quick (IsQuick text.now) }
        ensures { Gives result (books_of text.now) }
    {
        match quick {
            Some(quick) => Ok(quick.books.close()),
            None => Books::read_summed(alloc, text),
        }
    }

    /// The same, of a text that the books keep.
    pub(crate) fn kept_or_summed(
        alloc: Global,
        text: Vec<u8>,
        quick: Option<Quick>,
    ) -> Result<Books, BooksFault>
        requires { IfSome quick (IsQuick text.items) }
        ensures { Gives result (books_of text.items) }
    {
        let text = shared(alloc, text)?;
        Books::shared_or_summed(alloc, &text, quick)
    }

    /// The same, of a text that is shared.
    pub(crate) fn shared_or_summed(
        alloc: Global,
        text: &Arc<Vec<u8>, Global>,
        quick: Option<Quick>,
    ) -> Result<Books, BooksFault>
        requires { IfSome quick (IsQuick (arc_value text.now).items) }
        ensures { Gives result (books_of (arc_value text.now).items) }
    {
        match quick {
            Some(quick) => Ok(quick.keep(alloc, text)),
            None => Books::read_summed(alloc, text.as_slice()),
        }
    }
}

// The text, to be shared.
fn shared(alloc: Global, text: Vec<u8>) -> Result<Arc<Vec<u8>, Global>, Memory>
    ensures { IfOk result (λ arc. (arc_value arc).items ≡ text.items) }
{
    Ok(Arc::new(alloc, text)?)
}

impl OpenBooks {
    // The same books, which keep the text that they were read from.
    fn keeping(mut self, kept: Arc<Kept, Global>) -> OpenBooks
        requires none_open { self.slots ≡ [] }
        requires kept { IsKept (arc_value kept) self.books.ledger.rows }
        ensures { result ≡ self }
    {
        self.opening.keep(kept);
        self
    }

    // Whether these are the figures of the members and the total lines of the families in a version.
    fn prints(&self, version: Version, deductibles: &[u128], totals: &[TotalLine]) -> bool
        ensures members { IsTrue result → deductibles.now ≡ deductibles_of self.now.books.period self.now.books.ledger }
        ensures families { IsTrue result → totals.now
            ≡ map (total_of version self.now.books.period self.now.books.ledger) (families_of self.now.books.ledger.members) }
    {
        self.deductibles.as_slice() == deductibles
            && are_totals(
                version,
                self.opening.families(),
                &self.out_of_pockets,
                &self.family_deductibles,
                totals,
            )
    }
}

// Whether these are the total lines of the families in a version.
fn are_totals(
    version: Version,
    families: &[FamilyName],
    out_of_pockets: &[u128],
    deductibles: &[u128],
    totals: &[TotalLine],
) -> bool
    requires pockets { length out_of_pockets.now ≡ length families.now }
    requires deductibles { length deductibles.now ≡ length families.now }
    ensures { IsTrue result → totals.now ≡ totals_in version families.now out_of_pockets.now deductibles.now }
{
    if totals.len() != families.len() {
        return false;
    }
    for (at, name) in families.iter().enumerate() {
        let line = TotalLine {
            family: name.family,
            out_of_pocket: out_of_pockets[at],
            deductible: printed_in(version, deductibles[at]),
        };
        let is_printed = totals[at] == line;
        if !is_printed {
            return false;
        }
    }
    true
}

// The deductible of a family, in the version that prints it.
fn printed_in(version: Version, deductible: u128) -> Option<u128>
    ensures { result ≡ from_three version deductible }
{
    match version {
        Version::Three => Some(deductible),
        Version::One | Version::Two => None,
    }
}
