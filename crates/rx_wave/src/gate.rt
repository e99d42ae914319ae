ghost use Rattle.std.specs.Prelude.{◌≡◌, ℕ, Bool, true};

/// How a batch was dealt out in shards, which share no book.
#[derive(Clone, Copy)]
pub struct Deal {
    /// How many shards there are; a batch of one goes on the calling thread.
    pub shards: usize,
    /// How many transactions the largest has.
    pub largest: u64,
    /// How many all have together.
    pub transactions: u64,
}

/// What a run passes on its way. Several threads use it at once, and no lock is held while they do.
pub trait Gate {
    /// Whether each worker may start; workers are numbered from 1.
    ghost starts: { Self → ℕ → Bool };

    /// Whether the worker may start. It is asked before its thread is started; false refuses the thread.
    fn start(&self, worker: usize) -> bool
        ensures { result ≡ starts self.now worker };

    /// Passed after a record's parcel was taken, and before its adjudication; places are counted from 1.
    fn enter(&self, place: usize);

    /// Passed after a record's adjudication, and before its parcel is given.
    fn leave(&self, place: usize);

    /// Passed once where several workers adjudicate shards of the batch, before any does.
    fn deal(&self, _deal: &Deal) {}

    /// Whether records may take their time here, because `enter` or `leave` waits, for another record perhaps. Then workers
    /// share the records one by one, at a desk; where it is false each worker adjudicates a shard, as a record takes less
    /// time than handing it out does (some 10 us; bench/README.md, "Workers at a gate"). No answer of a run rests on it.
    fn holds_up(&self) -> bool {
        true
    }
}

/// The gate that starts every worker, does nothing, and holds no record up.
#[derive(Clone, Copy)]
pub struct NoGate;

impl Gate for NoGate {
    ghost starts = { λ _ _. true };

    fn start(&self, _worker: usize) -> bool {
        true
    }

    fn enter(&self, _place: usize) {}

    fn leave(&self, _place: usize) {}

    fn holds_up(&self) -> bool {
        false
    }
}
