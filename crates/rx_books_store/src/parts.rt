ghost use Rattle.std.specs.Prelude.{◌≡◌, IfOk};
ghost use Rattle.std.specs.Arc.{arc_value};
ghost use Rattle.std.specs.List.{flat_map};
ghost use Rattle.rx_io.specs.Pieces.{text_of};
ghost use Rattle.rx_books_store.specs.BooksFile.{NamesFirstFault, ReadsAllBooks, ReadsBooksAlone, ReadsWhatIsWritten};
ghost use Rattle.rx_books_store.specs.BooksText.{books_text};
ghost use Rattle.rx_books_store.specs.Figures.{books_of};
ghost use Rattle.rx_books_text.specs.Fault.{Gives};

use crate::books::Books;
use crate::reader::Quick;
use crate::writing::{in_one_piece, only_piece};
use rx_books_text::{BooksFault, Version};
use rx_fields::Memory;
use rx_io::Pieces;
use std::alloc::Global;
use std::sync::Arc;
use std::thread::Threads;

impl Books {
    /// The same as `read`, where the lines after the head line are cut into this many parts, and each is read by a
    /// thread of its own; one part is read on the calling thread.
    pub fn read_in_parts<R: Threads + Sync>(
        rt: &R,
        alloc: Global,
        parts: usize,
        text: &[u8],
    ) -> Result<Books, BooksFault>
        ensures ok { ReadsBooksAlone text.now result }
        // The text of books is read as those books, unless memory ran out.
        ensures reads { ReadsAllBooks text.now result }
        // What was read, written in version 3, is a text of the same books.
        ensures again { ReadsWhatIsWritten result }
        ensures refuses { NamesFirstFault text.now result }
        // The same, computed.
        ensures value { Gives result (books_of text.now) }
    {
        let quick = Quick::read_in_parts(rt, alloc, parts, text);
        Books::or_summed(alloc, text, quick)
    }

    /// The same of a text that the books keep, if it is one of version 3: `write_pieces` and `write` take the lines of
    /// claims that stand unchanged from it.
    pub fn read_kept<R: Threads + Sync>(
        rt: &R,
        alloc: Global,
        parts: usize,
        text: Vec<u8>,
    ) -> Result<Books, BooksFault>
        ensures ok { ReadsBooksAlone text.items result }
        // The text of books is read as those books, unless memory ran out.
        ensures reads { ReadsAllBooks text.items result }
        // What was read, written in version 3, is a text of the same books.
        ensures again { ReadsWhatIsWritten result }
        ensures refuses { NamesFirstFault text.items result }
        // The same, computed.
        ensures value { Gives result (books_of text.items) }
    {
        let quick = Quick::read_in_parts(rt, alloc, parts, &text);
        Books::kept_or_summed(alloc, text, quick)
    }

    /// The same of a text that is shared.
    pub fn read_shared<R: Threads + Sync>(
        rt: &R,
        alloc: Global,
        parts: usize,
        text: &Arc<Vec<u8>, Global>,
    ) -> Result<Books, BooksFault>
        ensures ok { ReadsBooksAlone (arc_value text.now).items result }
        // The text of books is read as those books, unless memory ran out.
        ensures reads { ReadsAllBooks (arc_value text.now).items result }
        // What was read, written in version 3, is a text of the same books.
        ensures again { ReadsWhatIsWritten result }
        ensures refuses { NamesFirstFault (arc_value text.now).items result }
        // The same, computed.
        ensures value { Gives result (books_of (arc_value text.now).items) }
    {
        let quick = Quick::read_in_parts(rt, alloc, parts, text.as_slice());
        Books::shared_or_summed(alloc, text, quick)
    }

    /// The text of `write` in pieces, one after another, which no copy joins. Lines of claims that stand unchanged are lent from
    /// the text that they were read from, where the books keep it. Otherwise the claims are written in `parts` parts, each by a
    /// thread of its own; one part is written on the calling thread, and is one piece.
    pub fn write_pieces<R: Threads + Sync>(
        &self,
        rt: &R,
        alloc: Global,
        parts: usize,
    ) -> Result<Pieces, Memory>
        ensures { IfOk result (λ pieces.
            text_of pieces ≡ books_text Version.Three self.now.period self.now.ledger) }
    {
        let Some(books) = self.plain() else {
            return in_one_piece(alloc, self.write(alloc)?);
        };
        match books.write_pieces(rt, alloc, parts) {
            Ok(pieces) => Ok(pieces),
            // Where threads or memory for parts run out, one part may do.
            Err(Memory) => books.write_pieces(rt, alloc, 1),
        }
    }

    /// The same in pieces of pieces: where the books keep the text that they were read from, and several parts are asked for, each
    /// part of the claims is pieces of its own, which a thread of its own makes.
    pub fn write_parts<R: Threads + Sync>(
        &self,
        rt: &R,
        alloc: Global,
        parts: usize,
    ) -> Result<Vec<Pieces>, Memory>
        ensures { IfOk result (λ list.
            flat_map text_of list.items ≡ books_text Version.Three self.now.period self.now.ledger) }
    {
        if let Some(books) = self.plain()
            && let Ok(list) = books.write_parts(rt, alloc, parts)
        {
            return Ok(list);
        }
        // Where threads or memory for parts run out, one part may do.
        only_piece(alloc, self.write_pieces(rt, alloc, 1)?)
    }
}
