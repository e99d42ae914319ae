ghost use Rattle.std.specs.Prelude.{◌≡◌};
ghost use Rattle.rx_switch.specs.Fault.{io_number, number_of};

use rx_batch::BatchFault;
use rx_books_text::BooksFault;
use rx_fields::Memory;
use rx_io::Device;
use rx_sheet::SheetFault;
use rx_wave::RunFault;

/// Why a run is refused: the first of these that holds (docs/CLI.md, "Refusals").
#[derive(Clone, Copy, Debug, PartialEq, Eq)]
pub enum SwitchFault {
    /// The number of workers isn't 1 to 64.
    Workers,
    /// The stamp isn't twelve digits of a date and a time.
    Stamp,
    /// The plan sheet is refused.
    Sheet(SheetFault),
    /// The opening books are refused.
    Books(BooksFault),
    /// The batch file is refused.
    Batch(BatchFault),
    /// Out of memory.
    Memory,
    /// The gate refused to start a thread.
    Thread,
}

impl SwitchFault {
    /// The fault's number.
    pub fn code(self) -> u32
        ensures { result ≡ number_of self }
    {
        match self {
            SwitchFault::Workers => 1,
            SwitchFault::Stamp => 2,
            SwitchFault::Sheet(_) => 3,
            SwitchFault::Books(_) => 4,
            SwitchFault::Batch(_) => 5,
            SwitchFault::Memory => 6,
            SwitchFault::Thread => 7,
        }
    }
}

impl From<SheetFault> for SwitchFault {
    ghost use Rattle.std.specs.Prelude.{◌≡◌};
    ghost use Rattle.rx_switch.specs.Fault.{of_sheet};

    ghost from_gives = { λ fault given. given ≡ of_sheet fault };

    fn from(fault: SheetFault) -> SwitchFault {
        match fault {
            SheetFault::Memory => SwitchFault::Memory,
            other => SwitchFault::Sheet(other),
        }
    }
}

impl From<BooksFault> for SwitchFault {
    ghost use Rattle.std.specs.Prelude.{◌≡◌};
    ghost use Rattle.rx_switch.specs.Fault.{of_books};

    ghost from_gives = { λ fault given. given ≡ of_books fault };

    fn from(fault: BooksFault) -> SwitchFault {
        match fault {
            BooksFault::Memory => SwitchFault::Memory,
            other => SwitchFault::Books(other),
        }
    }
}

impl From<BatchFault> for SwitchFault {
    ghost use Rattle.std.specs.Prelude.{◌≡◌};
    ghost use Rattle.rx_switch.specs.Fault.{of_batch};

    ghost from_gives = { λ fault given. given ≡ of_batch fault };

    fn from(fault: BatchFault) -> SwitchFault {
        match fault {
            BatchFault::Memory => SwitchFault::Memory,
            other => SwitchFault::Batch(other),
        }
    }
}

impl From<Memory> for SwitchFault {
    ghost use Rattle.std.specs.Prelude.{◌≡◌};
    ghost use Rattle.rx_switch.specs.declared.fault.SwitchFault.TheVariants as fault;

    ghost from_gives = { λ refused given. given ≡ fault.Memory };

    fn from(_refused: Memory) -> SwitchFault {
        SwitchFault::Memory
    }
}

impl From<RunFault> for SwitchFault {
    ghost use Rattle.std.specs.Prelude.{◌≡◌};
    ghost use Rattle.rx_switch.specs.Fault.{of_run};

    ghost from_gives = { λ fault given. given ≡ of_run fault };

    fn from(fault: RunFault) -> SwitchFault {
        match fault {
            RunFault::Workers => SwitchFault::Workers,
            RunFault::Memory => SwitchFault::Memory,
            RunFault::Thread => SwitchFault::Thread,
        }
    }
}

/// Why a run on devices was refused or broke off (docs/CLI.md, "Refusals").
#[derive(Clone, Copy, Debug, PartialEq, Eq)]
pub enum IoFault {
    /// The run is refused.
    Switch(SwitchFault),
    /// A read of the device failed.
    Read(Device),
    /// The device has more than 268,435,456 bytes, or takes more than 4,194,304 reads.
    Long(Device),
    /// A write to the device failed, or took no byte.
    Write(Device),
}

impl IoFault {
    /// The fault's number.
    pub fn code(self) -> u32
        ensures { result ≡ io_number self }
    {
        match self {
            IoFault::Switch(_) => 1,
            IoFault::Read(_) => 2,
            IoFault::Long(_) => 3,
            IoFault::Write(_) => 4,
        }
    }
}

impl From<SwitchFault> for IoFault {
    ghost use Rattle.std.specs.Prelude.{◌≡◌};
    ghost use Rattle.rx_switch.specs.declared.fault.IoFault.TheVariants as fault;

    ghost from_gives = { λ refused given. given ≡ fault.Switch refused };

    fn from(fault: SwitchFault) -> IoFault {
        IoFault::Switch(fault)
    }
}

/// What a fault is reported as: an exit status, and the numbers of the line on standard error (docs/CLI.md,
/// "Refusals").
#[derive(Clone, Copy)]
pub struct Told {
    /// 1 for a refused run, whose line is `refused N M P`; 3 for a file fault, whose line is `file K`.
    pub status: u8,
    /// N, M and P, or K and two zeros.
    pub numbers: [u64; 3],
}
