ghost use Rattle.std.specs.Prelude.{◌≡◌};
ghost use Rattle.rx_books_shelf.specs.Faults.{give_number, take_number};

use rx_books_parcel::Parcel;
use rx_fields::Memory;

/// Why no parcel was taken: the first that holds.
#[derive(Clone, Copy, Debug, PartialEq, Eq)]
pub enum TakeFault {
    /// A book of the footprint has no place on the shelf, or is out.
    Absent,
    /// There is no memory for the parcel.
    Memory,
}

impl TakeFault {
    /// The fault's number, from 1, in the order in which they are looked for.
    pub fn code(self) -> u32
        ensures { result ≡ take_number self }
    {
        match self {
            TakeFault::Absent => 1,
            TakeFault::Memory => 2,
        }
    }
}

impl From<Memory> for TakeFault {
    ghost use Rattle.std.specs.Prelude.{◌≡◌};
    ghost use Rattle.rx_books_shelf.specs.declared.fault.TakeFault.{TakeFault};
    ghost use Rattle.rx_books_shelf.specs.declared.fault.TakeFault.TheVariants as faults;

    ghost from_gives = { λ refused fault. fault ≡ faults.Memory };

    fn from(_refused: Memory) -> TakeFault {
        TakeFault::Memory
    }
}

/// Why a parcel was not given back, with the parcel: it is a stranger, for its totals are of another period than the
/// shelf's, or one of its books has no place on the shelf, or is not out.
#[derive(Drop)]
pub struct GiveFault {
    /// The parcel that was given.
    pub parcel: Parcel,
}

impl GiveFault {
    /// The fault's number: 1, Stranger.
    pub fn code(&self) -> u32
        ensures { result ≡ give_number }
    {
        1
    }
}
