ghost use Rattle.std.specs.Prelude.{◌≡◌};
ghost use Rattle.rx_wave.specs.Workers.{run_fault_number};

use rx_fields::Memory;

/// Why several workers gave no answer (docs/ARCHITECTURE.md, "Several workers").
#[derive(Clone, Copy, Debug, PartialEq, Eq)]
pub enum RunFault {
    /// Their number isn't 1 to 64.
    Workers,
    /// Out of memory.
    Memory,
    /// The gate refused to start one of two or more workers.
    Thread,
}

impl RunFault {
    /// The number of the fault.
    pub fn code(self) -> u32
        ensures { result ≡ run_fault_number self }
    {
        match self {
            RunFault::Workers => 1,
            RunFault::Memory => 2,
            RunFault::Thread => 3,
        }
    }
}

impl From<Memory> for RunFault {
    ghost use Rattle.std.specs.Prelude.{◌≡◌};
    ghost use Rattle.rx_wave.specs.declared.run_fault.RunFault.TheVariants as fault;

    ghost from_gives = { λ refused given. given ≡ fault.Memory };

    fn from(_refused: Memory) -> RunFault {
        RunFault::Memory
    }
}
