ghost use Rattle.std.specs.Prelude.{◌≡◌, ℕ, ◌<◌, ◌≤◌, ◌++◌, [], List, Ok, Some, None, length, IfOk, IfErr};
ghost use Rattle.rx_batch.specs.Fault.{Gives};
ghost use Rattle.rx_batch.specs.Grammar.{no_front};
ghost use Rattle.rx_batch.specs.Reading.{batch_of};
ghost use Rattle.rx_batch.specs.Pieces.{IsRead, IsReadUpTo, IsFaultOf};

use crate::batch::Batch;
use crate::detail::Text;
use crate::fault::BatchFault;
use crate::front::Front;
use crate::layout::{ETX, STX};
use memchr::memchr2;
use rx_text::line_ends;
use std::alloc::Global;

/// A good front of a text, and the bytes after the STX of a record that was begun.
#[derive(Drop)]
pub struct Reader {
    pub front: Front,
    pub begun: Option<Text>,
}

impl Reader {
    pub(crate) fn new(alloc: Global) -> Reader
        ensures { result ≡ record { front = no_front; begun = None } }
    {
        Reader {
            front: Front::new(alloc),
            begun: None,
        }
    }

    // Reads the bytes that come next.
    pub(crate) fn read(&mut self, alloc: Global, piece: &[u8]) -> Result<(), BatchFault>
        ensures ok { (text : List ℕ) → IsRead self.old text
            → IfOk result (λ _. IsRead self.new (text ++ piece.now)) }
        ensures err { (text : List ℕ) → IsRead self.old text
            → IfErr result (λ f. IsFaultOf f (text ++ piece.now)) }
    {
        let mut rest = piece;
        while !rest.is_empty() {
            rest = self.advance(alloc, rest)?;
        }
        Ok(())
    }

    // Reads some of the bytes that come next, and answers the others.
    fn advance<'a>(&mut self, alloc: Global, bytes: &'a [u8]) -> Result<&'a [u8], BatchFault>
        requires { 0 < length bytes.now }
        ensures ok { (text : List ℕ) → IsReadUpTo self.old text bytes.now
            → IfOk result (λ rest. IsReadUpTo self.new text rest.now) }
        ensures within { IfOk result (λ rest. length rest.now < length bytes.now) }
        ensures err { (text : List ℕ) → IsReadUpTo self.old text bytes.now
            → IfErr result (λ f. IsFaultOf f text) }
    {
        match self.begun.take() {
            None => self.between(alloc, bytes),
            Some(body) => self.within(alloc, body, bytes),
        }
    }

    // Reads the skipped bytes, and the STX of the next record.
    fn between<'a>(&mut self, alloc: Global, bytes: &'a [u8]) -> Result<&'a [u8], BatchFault>
        requires none { self.old.begun ≡ None }
        requires some { 0 < length bytes.now }
        ensures ok { (text : List ℕ) → IsReadUpTo self.old text bytes.now
            → IfOk result (λ rest. IsReadUpTo self.new text rest.now) }
        ensures within { IfOk result (λ rest. length rest.now < length bytes.now) }
        ensures err { (text : List ℕ) → IsReadUpTo self.old text bytes.now
            → IfErr result (λ f. IsFaultOf f text) }
    {
        let gap = line_ends(bytes);
        self.front.pass(gap)?;
        let (_, rest) = bytes.split_at(gap);
        if rest.is_empty() {
            return Ok(rest);
        }
        if self.front.is_whole() || rest[0] != STX {
            return Err(self.front.stray());
        }
        self.begun = Some(Text::new(Vec::new(alloc)));
        Ok(&rest[1..])
    }

    // Reads on in a record of which these bytes are known, up to its ETX.
    fn within<'a>(
        &mut self,
        alloc: Global,
        body: Text,
        bytes: &'a [u8],
    ) -> Result<&'a [u8], BatchFault>
        requires none { self.old.begun ≡ None }
        requires some { 0 < length bytes.now }
        ensures ok { (text : List ℕ) → IsReadUpTo (record self.old { begun = Some body }) text bytes.now
            → IfOk result (λ rest. IsReadUpTo self.new text rest.now) }
        ensures within { IfOk result (λ rest. length rest.now < length bytes.now) }
        ensures err { (text : List ℕ) → IsReadUpTo (record self.old { begun = Some body }) text bytes.now
            → IfErr result (λ f. IsFaultOf f text) }
    {
        let Some(end) = memchr2(STX, ETX, bytes) else {
            let mut body = body;
            body.extend(bytes)?;
            self.begun = Some(body);
            return Ok(&[]);
        };
        let (last, rest) = bytes.split_at(end);
        if rest[0] == STX {
            return Err(BatchFault::Unclosed {
                at: self.front.length,
            });
        }
        self.front.joined_record(alloc, body, last)?;
        Ok(&rest[1..])
    }

    // The batch, where the text ends here.
    pub(crate) fn end(self) -> Result<Batch, BatchFault>
        ensures { (text : List ℕ) → IsRead self text → Gives result (batch_of text) }
    {
        let Reader { front, begun } = self;
        match begun {
            None => front.end(),
            Some(_) => Err(BatchFault::Unclosed { at: front.length }),
        }
    }
}
