use rx_fields::Memory;
use rx_switch::SwitchFault;

/// Why `compare` prints nothing.
#[derive(Clone, Copy, Debug, PartialEq, Eq)]
pub enum CompareFault {
    /// With the sheet and the books that are given an input is refused, or memory ran out.
    Given(SwitchFault),
    /// With the others one is.
    Changed(SwitchFault),
}

impl From<Memory> for CompareFault {
    ghost use Rattle.std.specs.Prelude.{◌≡◌};
    ghost use Rattle.rx_switch.specs.declared.fault.SwitchFault.TheVariants as fault;
    ghost use Rattle.rx_commands.specs.declared.comparing.fault.CompareFault.TheVariants.{Given};

    ghost from_gives = { λ refused given. given ≡ Given fault.Memory };

    fn from(_refused: Memory) -> CompareFault {
        CompareFault::Given(SwitchFault::Memory)
    }
}
