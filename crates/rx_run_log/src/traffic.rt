ghost use Rattle.std.specs.Prelude.{◌≡◌, ◌+◌, ◌-◌, ◌^◌, ◌≤◌, ◌++◌, [], ℕ, IfOk, IfSome, List, None};
ghost use Rattle.std.specs.Prelude.{false, if◌then◌else◌, is_some, length, min, take, true};
ghost use Rattle.std.specs.Option.{option_or};
ghost use Rattle.rx_batch.specs.declared.layout.TheConstants.{STX};
ghost use Rattle.sha2.specs.Sha256.{sha256};
ghost use Rattle.rx_run_log.specs.Sums.{IsSumOf};
ghost use Rattle.rx_run_log.specs.Traffic.{Adds, IsTrafficOf, count_of, in_64_bits, last_of};

use crate::marks::Marks;
use crate::sum::Sum;
use arrayvec::ArrayVec;
use std::alloc::{AllocError, Global};
use std::time::Duration;

// How many bytes are kept of the front and of the end.
const KEPT: usize = 256;

/// What passed through a device so far.
#[derive(Drop)]
pub struct Traffic {
    bytes: u64,
    line_feeds: u64,
    starts: u64,
    // The sum of the bytes, where one is made.
    sum: Option<Sum>,
    front: ArrayVec<u8, KEPT>,
    end: ArrayVec<u8, KEPT>,
    called: bool,
    first: Option<Duration>,
    last: Option<Duration>,
}

impl Traffic {
    /// Nothing passed yet. A sum of what passes is made where `sums` says so.
    pub fn new(sums: bool) -> Traffic
        ensures traffic { IsTrafficOf result [] }
        ensures sum { is_some result.sum ≡ sums }
        ensures bytes { result.bytes ≡ 0 }
        ensures line_feeds { result.line_feeds ≡ 0 }
        ensures starts { result.starts ≡ 0 }
        ensures front { result.front.items ≡ [] }
        ensures end { result.end.items ≡ [] }
        ensures called { result.called ≡ false }
        ensures first { result.first ≡ None }
        ensures last { result.last ≡ None }
    {
        let sum = if sums { Some(Sum::new()) } else { None };
        Traffic::with_sum(sum)
    }

    /// The same with a sum that is made later: what passes is kept, in room for this many bytes.
    pub fn keeping(alloc: Global, room: usize) -> Traffic
        ensures traffic { IsTrafficOf result [] }
        ensures sum { is_some result.sum ≡ true }
        ensures called { result.called ≡ false }
    {
        Traffic::with_sum(Some(Sum::keeping(alloc, room)))
    }

    // Nothing passed yet, with what the sum is made of, if there is one.
    fn with_sum(sum: Option<Sum>) -> Traffic
        requires { IfSome sum (λ s. IsSumOf s []) }
        ensures traffic { IsTrafficOf result [] }
        ensures sum { result.sum ≡ sum }
        ensures bytes { result.bytes ≡ 0 }
        ensures line_feeds { result.line_feeds ≡ 0 }
        ensures starts { result.starts ≡ 0 }
        ensures front { result.front.items ≡ [] }
        ensures end { result.end.items ≡ [] }
        ensures called { result.called ≡ false }
        ensures first { result.first ≡ None }
        ensures last { result.last ≡ None }
    {
        Traffic {
            bytes: 0,
            line_feeds: 0,
            starts: 0,
            sum,
            front: ArrayVec::new(),
            end: ArrayVec::new(),
            called: false,
            first: None,
            last: None,
        }
    }

    /// Adds a piece that passed.
    pub fn add(&mut self, piece: &[u8])
        ensures traffic { Adds self.old self.new piece.now }
        ensures sum { is_some self.new.sum ≡ is_some self.old.sum }
        ensures bytes { self.new.bytes ≡ in_64_bits (self.old.bytes + length piece.now) }
        ensures line_feeds { self.new.line_feeds ≡ in_64_bits (self.old.line_feeds + count_of 10 piece.now) }
        ensures starts { self.new.starts ≡ in_64_bits (self.old.starts + count_of STX piece.now) }
        ensures called { self.new.called ≡ self.old.called }
        ensures first { self.new.first ≡ self.old.first }
        ensures last { self.new.last ≡ self.old.last }
    {
        update(&mut self.sum, piece);
        self.bytes = self.bytes.saturating_add(piece.len() as u64);
        let marks = Marks::of(piece);
        self.line_feeds = self.line_feeds.saturating_add(marks.line_feeds);
        self.starts = self.starts.saturating_add(marks.starts);
        keep_front(&mut self.front, piece);
        keep_end(&mut self.end, piece);
    }

    /// Notes a call, with the times at which it began and ended.
    pub fn at(&mut self, begin: Option<Duration>, end: Option<Duration>)
        ensures sum { self.new.sum ≡ self.old.sum }
        ensures bytes { self.new.bytes ≡ self.old.bytes }
        ensures line_feeds { self.new.line_feeds ≡ self.old.line_feeds }
        ensures starts { self.new.starts ≡ self.old.starts }
        ensures front { self.new.front ≡ self.old.front }
        ensures end { self.new.end ≡ self.old.end }
        ensures called { self.new.called ≡ true }
        ensures first { self.new.first ≡ option_or self.old.first begin }
        ensures last { self.new.last ≡ end }
    {
        self.called = true;
        if self.first.is_none() {
            self.first = begin;
        }
        self.last = end;
    }

    /// How many bytes passed, 2^64 - 1 where there are more.
    pub fn bytes(&self) -> u64
        ensures field { result ≡ self.now.bytes }
        ensures count { (bytes : List ℕ) → IsTrafficOf self.now bytes → result ≡ in_64_bits (length bytes) }
    {
        self.bytes
    }

    /// How many of them are line feeds, 2^64 - 1 where there are more.
    pub fn line_feeds(&self) -> u64
        ensures field { result ≡ self.now.line_feeds }
        ensures count { (bytes : List ℕ) → IsTrafficOf self.now bytes → result ≡ in_64_bits (count_of 10 bytes) }
    {
        self.line_feeds
    }

    /// How many of them are STX, which begins each record of a batch, 2^64 - 1 where there are more.
    pub fn starts(&self) -> u64
        ensures field { result ≡ self.now.starts }
        ensures count { (bytes : List ℕ) → IsTrafficOf self.now bytes → result ≡ in_64_bits (count_of STX bytes) }
    {
        self.starts
    }

    /// The first 256 bytes that passed, or all of fewer.
    pub fn front(&self) -> &[u8]
        ensures { (bytes : List ℕ) → IsTrafficOf self.now bytes → result.now ≡ take KEPT bytes }
    {
        self.front.as_slice()
    }

    /// The last 256 bytes that passed, or all of fewer.
    pub fn end(&self) -> &[u8]
        ensures { (bytes : List ℕ) → IsTrafficOf self.now bytes → result.now ≡ last_of KEPT bytes }
    {
        self.end.as_slice()
    }

    /// Whether a call was noted: the device was read or written.
    pub fn is_called(&self) -> bool
        ensures { result ≡ self.now.called }
    {
        self.called
    }

    /// When the first call began, by the clock of the device, where that answers.
    pub fn first(&self) -> Option<Duration>
        ensures { result ≡ self.now.first }
    {
        self.first
    }

    /// When the last call ended, by the clock of the device, where that answers.
    pub fn last(&self) -> Option<Duration>
        ensures { result ≡ self.now.last }
    {
        self.last
    }

    /// The SHA-256 of the bytes that passed; none where no sum is made.
    ///
    /// # Errors
    ///
    /// Out of memory.
    pub fn digest(&self) -> Result<Option<[u8; 32]>, AllocError>
        ensures made { IfOk result (λ digest. is_some digest ≡ is_some self.now.sum) }
        ensures value { (bytes : List ℕ) → IsTrafficOf self.now bytes
            → IfOk result (λ digest. IfSome digest (λ d. d ≡ sha256 bytes)) }
    {
        match &self.sum {
            Some(sum) => Ok(Some(sum.digest()?)),
            None => Ok(None),
        }
    }

    /// What passed, where it is kept. From then on no sum is made here.
    pub fn take_kept(&mut self) -> Option<Vec<u8>>
        ensures kept { (bytes : List ℕ) → IsTrafficOf self.old bytes → IfSome result (λ text. text.items ≡ bytes) }
        ensures traffic { (bytes : List ℕ) → IsTrafficOf self.old bytes → IsTrafficOf self.new bytes }
        ensures sum { self.new.sum ≡ (if is_some result then None else self.old.sum) }
        ensures called { self.new.called ≡ self.old.called }
        ensures first { self.new.first ≡ self.old.first }
        ensures last { self.new.last ≡ self.old.last }
    {
        match self.sum.take() {
            Some(Sum::Kept(text)) => Some(text),
            other => {
                self.sum = other;
                None
            }
        }
    }
}

// Adds a piece to a sum, where one is made.
fn update(sum: &mut Option<Sum>, piece: &[u8])
    ensures made { is_some sum.new ≡ is_some sum.old }
    ensures holds { (bytes : List ℕ) → IfSome sum.old (λ s. IsSumOf s bytes)
        → IfSome sum.new (λ s. IsSumOf s (bytes ++ piece.now)) }
{
    if let Some(made) = sum.take() {
        *sum = Some(made.with(piece));
    }
}

// Keeps what a piece adds to the front.
fn keep_front(front: &mut ArrayVec<u8, KEPT>, piece: &[u8])
    ensures { front.new.items ≡ take KEPT (front.old.items ++ piece.now) }
{
    let count = front.remaining_capacity().min(piece.len());
    let _ = front.try_extend_from_slice(&piece[..count]);
}

// Keeps the end of what was kept and of the piece.
fn keep_end(end: &mut ArrayVec<u8, KEPT>, piece: &[u8])
    ensures { end.new.items ≡ last_of KEPT (end.old.items ++ piece.now) }
{
    let added = last_of(piece, KEPT);
    let kept = last_of(end.as_slice(), KEPT - added.len());
    let mut joined = ArrayVec::new();
    let _ = joined.try_extend_from_slice(kept);
    let _ = joined.try_extend_from_slice(added);
    *end = joined;
}

// The last `count` bytes, or all of fewer.
fn last_of(bytes: &[u8], count: usize) -> &[u8]
    ensures value { result.now ≡ last_of count bytes.now }
    ensures fits { length result.now ≤ count }
{
    let passed = bytes.len().saturating_sub(count);
    &bytes[passed..]
}
