//! The gate of a run that nobody watches.
use rx_wave::{Gate, NoGate};

/// It starts every worker and does nothing. At a desk the records are issued one by one, else they go in shards.
#[derive(Clone, Copy)]
pub struct RunGate {
    pub at_desk: bool,
}

impl Gate for RunGate {
    ghost use Rattle.std.specs.Prelude.{true};

    ghost starts = { λ _ _. true };

    fn start(&self, worker: usize) -> bool {
        NoGate.start(worker)
    }

    fn enter(&self, place: usize) {
        NoGate.enter(place);
    }

    fn leave(&self, place: usize) {
        NoGate.leave(place);
    }

    fn holds_up(&self) -> bool {
        self.at_desk
    }
}
