use crate::fault::SwitchFault;
use rx_fields::Memory;
use std::alloc::AllocFailed;

/// Why a switch is refused (docs/FORMATS.md, "Several plans"). Plans are counted from 0.
#[derive(Clone, Copy, Debug)]
pub enum RouteFault {
    /// No plan is to blame: Workers, Stamp, Batch or Memory.
    Switch(SwitchFault),
    /// The sheet or the books of this plan.
    Plan(usize, SwitchFault),
    /// A plan has the BIN and the processor control number of an earlier one.
    SameDoor {
        /// The plan.
        plan: usize,
        /// The earlier one.
        earlier: usize,
    },
}

impl From<SwitchFault> for RouteFault {
    ghost use Rattle.std.specs.Prelude.{◌≡◌};
    ghost use Rattle.rx_switch.specs.declared.route_fault.RouteFault.TheVariants as fault;

    ghost from_gives = { λ refused given. given ≡ fault.Switch refused };

    fn from(fault: SwitchFault) -> RouteFault {
        RouteFault::Switch(fault)
    }
}

impl From<Memory> for RouteFault {
    ghost use Rattle.std.specs.Prelude.{◌≡◌};
    ghost use Rattle.rx_switch.specs.declared.fault.SwitchFault.TheVariants as switch;
    ghost use Rattle.rx_switch.specs.declared.route_fault.RouteFault.TheVariants as fault;

    ghost from_gives = { λ refused given. given ≡ fault.Switch switch.Memory };

    fn from(_refused: Memory) -> RouteFault {
        RouteFault::Switch(SwitchFault::Memory)
    }
}

impl<T: Drop> From<AllocFailed<T>> for RouteFault {
    ghost use Rattle.std.specs.Prelude.{◌≡◌};
    ghost use Rattle.rx_switch.specs.declared.fault.SwitchFault.TheVariants as switch;
    ghost use Rattle.rx_switch.specs.declared.route_fault.RouteFault.TheVariants as fault;

    ghost from_gives = { λ _ given. given ≡ fault.Switch switch.Memory };

    fn from(_refused: AllocFailed<T>) -> RouteFault {
        RouteFault::Switch(SwitchFault::Memory)
    }
}
