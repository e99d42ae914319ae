use rx_adjudicate::{Done, Order};
use rx_desk::{Desk, Next, Remains};
use rx_fields::Memory;

/// What a worker does next.
#[derive(Drop)]
pub(crate) enum Turn {
    /// It adjudicates the order; `wakes` says that another record can go in parallel with it.
    Go { order: Order, wakes: bool },
    /// It waits: no record can go before one that is out has come back.
    Wait,
    /// It ends.
    End,
}

/// What workers share under one lock: orders go out, and come back finished. Nothing is promised of it, for the answer of
/// a run rests on the desk only.
pub(crate) trait Counter {
    /// The next turn of a worker.
    fn turn(&mut self) -> Turn;

    /// A record comes back. What is left of it may be dropped once the lock is open.
    fn take_back(&mut self, made: Result<Done, (Order, Memory)>) -> Option<Remains>;

    /// From now on every turn is the end.
    fn stop(&mut self);
}

/// A desk that orders go out from until all are given, or the work is stopped.
#[derive(Drop)]
pub(crate) struct DeskCounter {
    pub(crate) desk: Desk,
    pub(crate) stopped: bool,
    /// It was stopped since memory ran out.
    pub(crate) lacks_memory: bool,
}

impl DeskCounter {
    /// The desk at the end of the work; Memory where that stopped since memory ran out.
    pub(crate) fn into_desk(self) -> Result<Desk, Memory> {
        let DeskCounter {
            desk,
            stopped: _,
            lacks_memory,
        } = self;
        if lacks_memory {
            drop(desk);
            return Err(Memory);
        }
        Ok(desk)
    }

    fn stop_for_memory(&mut self) {
        self.stopped = true;
        self.lacks_memory = true;
    }
}

impl Counter for DeskCounter {
    fn turn(&mut self) -> Turn {
        if self.stopped {
            return Turn::End;
        }
        match self.desk.next() {
            Next::Order(order) => Turn::Go {
                order,
                wakes: self.desk.is_ready(),
            },
            Next::Later => Turn::Wait,
            Next::Over => Turn::End,
            Next::Memory => {
                self.stop_for_memory();
                Turn::End
            }
        }
    }

    fn take_back(&mut self, made: Result<Done, (Order, Memory)>) -> Option<Remains> {
        let Ok(done) = made else {
            self.stop_for_memory();
            return None;
        };
        let remains = self.desk.give_apart(done).ok();
        self.stopped |= remains.is_none();
        remains
    }

    fn stop(&mut self) {
        self.stopped = true;
    }
}
