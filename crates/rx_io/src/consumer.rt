ghost use Rattle.std.specs.Prelude.{◌≡◌, ◌++◌, ℕ, List, OnErr, OnOk};
ghost use Rattle.rx_io.specs.Reading.{TakesNothing, TakesOn};

use rx_fields::Memory;

/// What takes the pieces of an input, one after another.
pub trait Consumer {
    /// The texts that may have been taken so far.
    ghost stands_for: { Self → List ℕ → Type 0 };

    /// Takes the next piece, or nothing of it.
    fn take(&mut self, piece: &[u8]) -> Result<(), Memory>
        ensures taken { OnOk result (TakesOn (stands_for self.old) (stands_for self.new) piece.now) }
        ensures refused { OnErr result (TakesNothing (stands_for self.old) (stands_for self.new)) };
}

/// It keeps the whole text.
impl Consumer for Vec<u8> {
    ghost stands_for = { λ v text. v.items ≡ text };

    fn take(&mut self, piece: &[u8]) -> Result<(), Memory> {
        self.extend_from_slice(piece)?;
        Ok(())
    }
}
