ghost use Rattle.std.specs.Prelude.{◌≡◌};
ghost use Rattle.rx_sheet.specs.PlansFault.{plan_key_of, plan_of, plans_code};

use crate::plan_key::PlanKey;
use std::alloc::{AllocError, AllocFailed};

/// Why a text is no plans file: the first fault, plan by plan in the file's order, and in each key by key (docs/FORMATS.md,
/// "Plans file"). Plans are counted from 1.
#[derive(Clone, Copy, Debug, PartialEq, Eq)]
pub enum PlansFault {
    /// The bytes aren't UTF-8, or the text is no TOML document.
    NotToml,
    /// There is no array `plan`, or nothing is in it.
    NoPlans,
    /// This plan is no table.
    NoTable(usize),
    /// This plan's key isn't there.
    Missing(usize, PlanKey),
    /// The value of this plan's key isn't a text, or is an empty one.
    Wrong(usize, PlanKey),
    /// Out of memory. No plan is to blame.
    Memory,
}

impl PlansFault {
    /// The fault's number.
    pub fn code(self) -> u32
        ensures { result ≡ plans_code self }
    {
        match self {
            PlansFault::NotToml => 1,
            PlansFault::NoPlans => 2,
            PlansFault::NoTable(_) => 3,
            PlansFault::Missing(_, _) => 4,
            PlansFault::Wrong(_, _) => 5,
            PlansFault::Memory => 6,
        }
    }

    /// The plan that is to blame, counted from 1; None for NotToml, NoPlans and Memory.
    pub fn plan(self) -> Option<usize>
        ensures { result ≡ plan_of self }
    {
        match self {
            PlansFault::NoTable(plan) | PlansFault::Missing(plan, _) | PlansFault::Wrong(plan, _) =>
                Some(plan),
            PlansFault::NotToml | PlansFault::NoPlans | PlansFault::Memory => None,
        }
    }

    /// The key that is missing or wrong; None for the other faults.
    pub fn key(self) -> Option<PlanKey>
        ensures { result ≡ plan_key_of self }
    {
        match self {
            PlansFault::Missing(_, key) | PlansFault::Wrong(_, key) => Some(key),
            PlansFault::NotToml
            | PlansFault::NoPlans
            | PlansFault::NoTable(_)
            | PlansFault::Memory => None,
        }
    }
}

impl From<AllocError> for PlansFault {
    ghost use Rattle.rx_sheet.specs.declared.plans_fault.PlansFault.TheVariants.{Memory};

    ghost from_gives = { λ _ fault. fault ≡ Memory };

    fn from(_refused: AllocError) -> PlansFault {
        PlansFault::Memory
    }
}

impl<T: Drop> From<AllocFailed<T>> for PlansFault {
    ghost use Rattle.rx_sheet.specs.declared.plans_fault.PlansFault.TheVariants.{Memory};

    ghost from_gives = { λ _ fault. fault ≡ Memory };

    fn from(_refused: AllocFailed<T>) -> PlansFault {
        PlansFault::Memory
    }
}
