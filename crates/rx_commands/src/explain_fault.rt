use rx_batch::BatchFault;
use rx_fields::Memory;
use rx_switch::SwitchFault;

/// Why `explain` prints nothing.
#[derive(Clone, Copy, Debug, PartialEq, Eq)]
pub enum ExplainFault {
    /// An input is refused, or memory ran out.
    Refused(SwitchFault),
    /// The response file is refused.
    Response(BatchFault),
}

impl From<SwitchFault> for ExplainFault {
    ghost use Rattle.std.specs.Prelude.{◌≡◌};
    ghost use Rattle.rx_commands.specs.declared.explain_fault.ExplainFault.TheVariants.{Refused};

    ghost from_gives = { λ fault given. given ≡ Refused fault };

    fn from(fault: SwitchFault) -> ExplainFault {
        ExplainFault::Refused(fault)
    }
}

impl From<Memory> for ExplainFault {
    ghost use Rattle.std.specs.Prelude.{◌≡◌};
    ghost use Rattle.rx_switch.specs.declared.fault.SwitchFault.TheVariants as fault;
    ghost use Rattle.rx_commands.specs.declared.explain_fault.ExplainFault.TheVariants.{Refused};

    ghost from_gives = { λ refused given. given ≡ Refused fault.Memory };

    fn from(_refused: Memory) -> ExplainFault {
        ExplainFault::Refused(SwitchFault::Memory)
    }
}

impl From<BatchFault> for ExplainFault {
    ghost use Rattle.std.specs.Prelude.{◌≡◌};
    ghost use Rattle.rx_commands.specs.ExplainFault.{of_response};

    ghost from_gives = { λ fault given. given ≡ of_response fault };

    fn from(fault: BatchFault) -> ExplainFault {
        match fault {
            BatchFault::Memory => ExplainFault::Refused(SwitchFault::Memory),
            other => ExplainFault::Response(other),
        }
    }
}
