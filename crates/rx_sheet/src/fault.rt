ghost use Rattle.std.specs.Prelude.{◌≡◌};
ghost use Rattle.rx_sheet.specs.Fault.{code_of, key_of};

use rx_ledger::{SheetKey, Wrong};
use std::alloc::{AllocError, AllocFailed};

/// Why a text is no plan sheet: the first fault by the keys' numbers (docs/FORMATS.md, "Plan sheet").
#[derive(Clone, Copy, Debug, PartialEq, Eq)]
pub enum SheetFault {
    /// The bytes aren't UTF-8, or the text is no TOML document.
    NotToml,
    /// The key isn't there.
    Missing(SheetKey),
    /// The key's value is of another kind, or outside its range.
    Wrong(SheetKey),
    /// Out of memory. No key is to blame.
    Memory,
}

impl SheetFault {
    /// The fault's number.
    pub fn code(self) -> u32
        ensures { result ≡ code_of self }
    {
        match self {
            SheetFault::NotToml => 1,
            SheetFault::Missing(_) => 2,
            SheetFault::Wrong(_) => 3,
            SheetFault::Memory => 4,
        }
    }

    /// The key that is missing or wrong; None for NotToml and Memory.
    pub fn key(self) -> Option<SheetKey>
        ensures { result ≡ key_of self }
    {
        match self {
            SheetFault::Missing(key) | SheetFault::Wrong(key) => Some(key),
            SheetFault::NotToml | SheetFault::Memory => None,
        }
    }
}

impl From<AllocError> for SheetFault {
    ghost use Rattle.rx_sheet.specs.declared.fault.SheetFault.TheVariants.{Memory};

    ghost from_gives = { λ _ fault. fault ≡ Memory };

    fn from(_refused: AllocError) -> SheetFault {
        SheetFault::Memory
    }
}

impl<T: Drop> From<AllocFailed<T>> for SheetFault {
    ghost use Rattle.rx_sheet.specs.declared.fault.SheetFault.TheVariants.{Memory};

    ghost from_gives = { λ _ fault. fault ≡ Memory };

    fn from(_refused: AllocFailed<T>) -> SheetFault {
        SheetFault::Memory
    }
}

impl From<Wrong> for SheetFault {
    ghost use Rattle.rx_sheet.specs.declared.fault.SheetFault.TheVariants as fault;

    ghost from_gives = { λ wrong told. told ≡ fault.Wrong wrong.0 };

    fn from(wrong: Wrong) -> SheetFault {
        SheetFault::Wrong(wrong.0)
    }
}
