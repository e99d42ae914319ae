ghost use Rattle.std.specs.Prelude.{◌≡◌};
ghost use Rattle.rx_commands.specs.CycleSteps.{of_response};

use rx_batch::BatchFault;
use rx_d0_reply::ReplyFault;
use rx_fields::Memory;
use std::alloc::AllocFailed;

/// Why `settle` prints nothing. Files are counted from 0, in the order in which they are given.
#[derive(Clone, Copy, Debug, PartialEq, Eq)]
pub enum CycleFault {
    /// A file isn't a response file.
    NoResponse {
        /// Which file.
        file: usize,
        /// Its first fault, as of a batch file.
        fault: BatchFault,
    },
    /// A response file has a detail that holds no reply.
    NoReply {
        /// Which file.
        file: usize,
        /// The place of the first such detail, from 1.
        place: usize,
        /// Why it holds none.
        fault: ReplyFault,
    },
    /// Out of memory.
    Memory,
}

impl CycleFault {
    /// The fault of a file, which isn't a response file by this fault.
    pub(crate) fn of_response(file: usize, fault: BatchFault) -> CycleFault
        ensures { result ≡ of_response file fault }
    {
        match fault {
            BatchFault::Memory => CycleFault::Memory,
            other => CycleFault::NoResponse { file, fault: other },
        }
    }
}

impl<T: Drop> From<AllocFailed<T>> for CycleFault {
    ghost use Rattle.std.specs.Prelude.{◌≡◌};
    ghost use Rattle.rx_commands.specs.declared.cycle.fault.CycleFault.TheVariants as fault;

    ghost from_gives = { λ _ given. given ≡ fault.Memory };

    fn from(_refused: AllocFailed<T>) -> CycleFault {
        CycleFault::Memory
    }
}

impl From<Memory> for CycleFault {
    ghost use Rattle.std.specs.Prelude.{◌≡◌};
    ghost use Rattle.rx_commands.specs.declared.cycle.fault.CycleFault.TheVariants as fault;

    ghost from_gives = { λ _ given. given ≡ fault.Memory };

    fn from(_refused: Memory) -> CycleFault {
        CycleFault::Memory
    }
}
