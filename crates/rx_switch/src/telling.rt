ghost use Rattle.std.specs.Prelude.{◌≡◌};
ghost use Rattle.rx_switch.specs.Told.{fault_within, place_within, told_of};

use crate::fault::{IoFault, SwitchFault, Told};

/// The exit status and the numbers of a fault, without memory.
pub fn told(fault: &IoFault) -> Told
    ensures { result ≡ told_of fault.now }
{
    match *fault {
        IoFault::Switch(refused) => Told {
            status: 1,
            numbers: [
                u64::from(refused.code()),
                fault_within(refused),
                place_within(refused),
            ],
        },
        IoFault::Read(device) | IoFault::Long(device) | IoFault::Write(device) => Told {
            status: 3,
            numbers: [u64::from(device.number()), 0, 0],
        },
    }
}

// The number of the fault inside a refusal, 0 if there is none.
fn fault_within(refused: SwitchFault) -> u64
    ensures { result ≡ fault_within refused }
{
    match refused {
        SwitchFault::Sheet(fault) => u64::from(fault.code()),
        SwitchFault::Books(fault) => u64::from(fault.code()),
        SwitchFault::Batch(fault) => u64::from(fault.code()),
        SwitchFault::Workers | SwitchFault::Stamp | SwitchFault::Memory | SwitchFault::Thread => 0,
    }
}

// The number of the key, the line or the place in bytes of the fault inside a refusal, 0 if there is none.
fn place_within(refused: SwitchFault) -> u64
    ensures { result ≡ place_within refused }
{
    match refused {
        SwitchFault::Sheet(fault) => match fault.key() {
            Some(key) => u64::from(key.code()),
            None => 0,
        },
        SwitchFault::Books(fault) => fault.line().unwrap_or(0),
        SwitchFault::Batch(fault) => fault.place().unwrap_or(0),
        SwitchFault::Workers | SwitchFault::Stamp | SwitchFault::Memory | SwitchFault::Thread => 0,
    }
}
