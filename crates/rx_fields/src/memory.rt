ghost use Rattle.std.specs.Prelude.{◌≡◌};

use std::alloc::{AllocError, AllocFailed};

/// Out of memory: an allocation was refused. No input is to blame.
#[derive(Clone, Copy, Debug, PartialEq, Eq)]
pub struct Memory;

impl From<AllocError> for Memory {
    ghost from_gives = { λ _ memory. memory ≡ record {} };

    fn from(_refused: AllocError) -> Memory {
        Memory
    }
}

impl<T: Drop> From<AllocFailed<T>> for Memory {
    ghost from_gives = { λ _ memory. memory ≡ record {} };

    fn from(_refused: AllocFailed<T>) -> Memory {
        Memory
    }
}
