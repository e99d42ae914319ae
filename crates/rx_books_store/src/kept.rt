use std::alloc::Global;
use std::sync::Arc;

/// The text that claims were read from, in which their lines stand one after another, and how many bytes each has.
#[derive(Drop)]
pub(crate) struct Kept {
    text: Arc<Vec<u8>, Global>,
    // How many bytes stand above the first line.
    above: usize,
    lengths: Vec<u8>,
}

ghost use Rattle.std.specs.Prelude.{◌≡◌, ◌+◌, ◌<◌, ◌≤◌, ◌^◌, IfOk, List, length, sum};
ghost use Rattle.std.specs.Arc.{arc_value};
ghost use Rattle.std.specs.List.{slice_range};
ghost use Rattle.rx_ledger.specs.declared.row.Row.{Row};
ghost use Rattle.rx_books_store.specs.Kept.{HoldsLines, IsKept, kept_text};

use rx_fields::Memory;
use rx_io::Patched;

impl Kept {
    /// The text, shared.
    pub(crate) fn of(
        alloc: Global,
        text: &Arc<Vec<u8>, Global>,
        above: usize,
        lengths: Vec<u8>,
    ) -> Result<Arc<Kept, Global>, Memory>
        ensures { (rows : List Row) → HoldsLines (arc_value text.now).items above lengths.items rows
            → IfOk result (λ kept. IsKept (arc_value kept) rows) }
    {
        let text = Arc::try_clone(text)?;
        let kept = Kept {
            text,
            above,
            lengths,
        };
        Ok(Arc::new(alloc, kept)?)
    }

    /// These bytes, over the text, of which no line is lent yet.
    pub(crate) fn patch(&self, alloc: Global, own: Vec<u8>) -> Result<Patched, Memory>
        ensures { IfOk result (λ text. text ≡ record { lender = kept_text self.now; text = own.items }) }
    {
        let text = Arc::try_clone(&self.text)?;
        Ok(Patched::over(alloc, text, own))
    }

    /// How many bytes stand above the first line.
    pub(crate) fn above(&self) -> usize
        ensures { result ≡ self.now.above }
    {
        self.above
    }

    /// Where the lines of the claims from one place to another end, of which the first begins there.
    pub(crate) fn end_of(&self, begin: usize, first: usize, last: usize) -> usize
        requires order { first ≤ last }
        requires within { last ≤ length self.now.lengths.items }
        requires room { begin + sum (slice_range self.now.lengths.items first last) ≤ length (kept_text self.now) }
        ensures { result ≡ begin + sum (slice_range self.now.lengths.items first last) }
    {
        begin + bytes_of(&self.lengths[first..last])
    }

    /// The lines of the claims, one after another, and how many bytes each has.
    pub(crate) fn lines(&self) -> (&[u8], &[u8])
        requires { self.now.above + sum self.now.lengths.items ≤ length (kept_text self.now) }
        ensures lines { result.0.now
            ≡ slice_range (kept_text self.now) self.now.above (self.now.above + sum self.now.lengths.items) }
        ensures lengths { result.1.now ≡ self.now.lengths.items }
        ensures few { length result.0.now < 2 ^ 64 }
    {
        let lengths = self.lengths.as_slice();
        let end = self.above + bytes_of(lengths);
        (&self.text.as_slice()[self.above..end], lengths)
    }
}

/// How many bytes lines of these lengths have.
pub(crate) fn bytes_of(lengths: &[u8]) -> usize
    requires { sum lengths.now < 2 ^ 64 }
    ensures { result ≡ sum lengths.now }
{
    let mut bytes: usize = 0;
    for length in lengths {
        bytes += usize::from(*length);
    }
    bytes
}
