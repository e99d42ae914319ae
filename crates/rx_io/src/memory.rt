ghost use Rattle.std.specs.Prelude.{◌≡◌, ◌≤◌, ◌||◌, Some, None, [], false, true, is_err, IfOk};
ghost use Rattle.std.specs.Io.{ReadsAtMost, WritesAtMost};
ghost use Rattle.std.specs.Io.KnownBytes.{ReadConsumes, WriteAppends};
ghost use Rattle.rx_io.specs.Calls.{ComesNext, fails_at};
ghost use Rattle.rx_io.specs.Writing.{is_failed_write};

use crate::fault::Failed;
use crate::sink::Sink;
use crate::source::Source;
use std::alloc::Global;

// How a device in memory takes its calls: at most this many bytes a call, and a failure at one call where it is to
// fail.
#[derive(Clone, Copy)]
struct Calls {
    // The most bytes of a call.
    most: usize,
    // The calls until the one that fails, if one does.
    good: Option<usize>,
    failed: bool,
}

impl Calls {
    fn new(most: usize) -> Calls
        ensures { result ≡ record { most = most; good = None; failed = false } }
    {
        Calls {
            most,
            good: None,
            failed: false,
        }
    }

    // The same, with a failure after this many calls more.
    fn failing_after(self, calls: usize) -> Calls
        ensures { result ≡ record self { good = Some calls } }
    {
        Calls {
            good: Some(calls),
            ..self
        }
    }

    // The next call, unless it fails.
    #[tactic(auto, unfolding(crate::specs::Calls::fails_at))]
    fn next(&mut self) -> Result<(), Failed>
        ensures most { self.new.most ≡ self.old.most }
        ensures failed { self.new.failed ≡ (self.old.failed || is_err result) }
        ensures due { is_err result ≡ fails_at self.old.good 0 }
        ensures later { ComesNext self.old.good self.new.good }
    {
        match self.good {
            None => Ok(()),
            Some(0) => {
                self.failed = true;
                Err(Failed)
            }
            Some(good) => {
                self.good = Some(good - 1);
                Ok(())
            }
        }
    }
}

/// A source over bytes in memory, which reports them. As a test needs it, it gives few bytes a call, or fails.
#[derive(Clone, Copy)]
pub struct SliceSource<'a> {
    left: &'a [u8],
    calls: Calls,
    ghost gives_some: { 1 ≤ calls.most },
}

impl<'a> SliceSource<'a> {
    /// A source of these bytes, which gives at most that many of them a call, and doesn't fail.
    pub fn new(bytes: &'a [u8], most: usize) -> SliceSource<'a>
        requires { 1 ≤ most }
        ensures bytes { ⟦<SliceSource<'a> as Source>⟧.left result ≡ Some bytes.now }
        ensures failed { ⟦<SliceSource<'a> as Source>⟧.failed result ≡ false }
        ensures most { result.calls.most ≡ most }
        ensures never { result.calls.good ≡ None }
    {
        SliceSource {
            left: bytes,
            calls: Calls::new(most),
        }
    }

    /// The source, which fails after this many calls more.
    pub fn failing_after(self, calls: usize) -> SliceSource<'a>
        ensures bytes { ⟦<SliceSource<'a> as Source>⟧.left result ≡ ⟦<SliceSource<'a> as Source>⟧.left self.entry }
        ensures failed { ⟦<SliceSource<'a> as Source>⟧.failed result ≡ ⟦<SliceSource<'a> as Source>⟧.failed self.entry }
        ensures calls { result.calls ≡ record self.entry.calls { good = Some calls } }
    {
        SliceSource {
            left: self.left,
            calls: self.calls.failing_after(calls),
        }
    }
}

impl<'a> Source for SliceSource<'a> {
    ghost left = { λ s. Some s.left.now };

    ghost failed = { λ s. s.calls.failed };

    ghost reads = { λ _. 0 };

    ghost cramped = { λ _. false };

    /// It fails exactly where it is due to, and gives as many bytes as are there, fit and may be given in a call.
    fn read(&mut self, buffer: &mut [u8]) -> Result<usize, Failed>
        ensures bound { ReadsAtMost result buffer.new }
        ensures bytes { ReadConsumes (Some self.old.left.now) (Some self.new.left.now) result buffer.new }
        ensures failed { self.new.calls.failed ≡ (self.old.calls.failed || is_err result) }
        ensures due { is_err result ≡ fails_at self.old.calls.good 0 }
        ensures later { ComesNext self.old.calls.good self.new.calls.good }
        ensures most { IfOk result (λ count. count ≤ self.old.calls.most) }
    {
        self.calls.next()?;
        let count = self.calls.most.min(buffer.len()).min(self.left.len());
        buffer[..count].copy_from_slice(&self.left[..count]);
        self.left = &self.left[count..];
        Ok(count)
    }
}

/// A sink that keeps its bytes in memory, and reports them. As a test needs it, it takes few bytes a call or none, or
/// fails.
#[derive(Drop)]
pub struct VecSink {
    written: Vec<u8>,
    calls: Calls,
}

impl VecSink {
    /// An empty sink, which takes at most that many bytes a call, and doesn't fail.
    pub fn new(alloc: Global, most: usize) -> VecSink
        ensures bytes { ⟦<VecSink as Sink>⟧.written result ≡ Some [] }
        ensures failed { ⟦<VecSink as Sink>⟧.failed result ≡ false }
        ensures most { result.calls.most ≡ most }
        ensures never { result.calls.good ≡ None }
    {
        VecSink {
            written: Vec::new(alloc),
            calls: Calls::new(most),
        }
    }

    /// The sink, which fails after this many calls more.
    pub fn failing_after(self, calls: usize) -> VecSink
        ensures bytes { ⟦<VecSink as Sink>⟧.written result ≡ ⟦<VecSink as Sink>⟧.written self }
        ensures failed { ⟦<VecSink as Sink>⟧.failed result ≡ ⟦<VecSink as Sink>⟧.failed self }
        ensures calls { result.calls ≡ record self.calls { good = Some calls } }
    {
        VecSink {
            written: self.written,
            calls: self.calls.failing_after(calls),
        }
    }

    /// The bytes that were written.
    pub fn bytes(&self) -> &[u8]
        ensures { ⟦<VecSink as Sink>⟧.written self.now ≡ Some result.now }
    {
        self.written.as_slice()
    }
}

impl Sink for VecSink {
    ghost written = { λ s. Some s.written.items };

    ghost failed = { λ s. s.calls.failed };

    /// It fails where it is due to, where it may take no byte, and where memory ran out.
    fn write(&mut self, piece: &[u8]) -> Result<usize, Failed>
        ensures bound { WritesAtMost result piece.now }
        ensures bytes { WriteAppends (Some self.old.written.items) (Some self.new.written.items) result piece.now }
        ensures failed { self.new.calls.failed ≡ (self.old.calls.failed || is_failed_write result piece.now) }
        ensures due { fails_at self.old.calls.good 0 ≡ true → is_err result ≡ true }
        ensures later { ComesNext self.old.calls.good self.new.calls.good }
        ensures most { IfOk result (λ count. count ≤ self.old.calls.most) }
    {
        self.calls.next()?;
        let count = self.calls.most.min(piece.len());
        if count == 0 && !piece.is_empty() {
            self.calls.failed = true;
            return Ok(0);
        }
        if self.written.extend_from_slice(&piece[..count]).is_err() {
            self.calls.failed = true;
            return Err(Failed);
        }
        Ok(count)
    }
}
