ghost use Rattle.std.specs.Prelude.{◌≡◌, IfOk};

use crate::transmission::Transmission;
use rx_fields::Memory;
use std::alloc::Global;

/// A value of which an equal one can be made, where there is memory for it.
pub trait TryCopy: Sized {
    /// An equal value.
    fn try_copy(&self, alloc: Global) -> Result<Self, Memory>
        ensures { IfOk result (λ copy. copy ≡ self.now) };
}

impl TryCopy for Transmission {
    fn try_copy(&self, alloc: Global) -> Result<Transmission, Memory> {
        self.copy(alloc)
    }
}

/// Equal values, in the same order.
pub fn copies<T: TryCopy + Drop>(alloc: Global, items: &[T]) -> Result<Vec<T>, Memory>
    ensures { IfOk result (λ copies. copies.items ≡ items.now) }
{
    let mut copies = Vec::with_capacity(alloc, items.len())?;
    for item in items {
        copies.push(item.try_copy(alloc)?)?;
    }
    Ok(copies)
}
