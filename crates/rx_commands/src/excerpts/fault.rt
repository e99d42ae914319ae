use crate::explain_fault::ExplainFault;
use rx_fields::Memory;

/// Why there is no excerpt.
#[derive(Clone, Copy, Debug, PartialEq, Eq)]
pub enum ExcerptFault {
    /// An input or the response file is refused, or memory ran out: as `explain` says it.
    Input(ExplainFault),
    /// The batch has no record at the place.
    NoRecord,
    /// The header of the record is rejected: it has no transaction.
    NoTransaction,
    /// The text of the record's families isn't a books file: it has too many lines.
    TooLong,
    /// The sheet's text, written anew, isn't read as the plan that it was written of.
    Unwritten,
}

impl From<ExplainFault> for ExcerptFault {
    ghost use Rattle.std.specs.Prelude.{◌≡◌};
    ghost use Rattle.rx_commands.specs.declared.excerpts.fault.ExcerptFault.TheVariants.{Input};

    ghost from_gives = { λ fault given. given ≡ Input fault };

    fn from(fault: ExplainFault) -> ExcerptFault {
        ExcerptFault::Input(fault)
    }
}

impl From<Memory> for ExcerptFault {
    ghost use Rattle.std.specs.Prelude.{◌≡◌};
    ghost use Rattle.rx_commands.specs.Excerpts.{no_memory};

    ghost from_gives = { λ _ given. given ≡ no_memory };

    fn from(refused: Memory) -> ExcerptFault {
        ExcerptFault::Input(ExplainFault::from(refused))
    }
}
