ghost use Rattle.std.specs.Prelude.{◌≡◌, ◌++◌, [], IfOk, List, ℕ};
ghost use Rattle.sha2.specs.Hashers.{Holds256};
ghost use Rattle.sha2.specs.Sha256.{sha256};
ghost use Rattle.rx_run_log.specs.Sums.{IsSumOf};

use sha2::{Digest, Sha256};
use std::alloc::{AllocError, Global};

/// What the sum of the bytes that pass is made of.
#[derive(Drop)]
pub(crate) enum Sum {
    /// They are summed as they pass.
    Made(Sha256),
    /// They are kept, and summed later.
    Kept(Vec<u8>),
}

impl Sum {
    // Of no byte yet.
    pub(crate) fn new() -> Sum
        ensures { IsSumOf result [] }
    {
        Sum::Made(Sha256::new())
    }

    // The same, where bytes are kept in room for this many.
    pub(crate) fn keeping(alloc: Global, room: usize) -> Sum
        ensures { IsSumOf result [] }
    {
        match Vec::with_capacity(alloc, room) {
            Ok(room) => Sum::Kept(room),
            Err(_) => Sum::new(),
        }
    }

    // The same with a piece more.
    pub(crate) fn with(self, piece: &[u8]) -> Sum
        ensures { (bytes : List ℕ) → IsSumOf self bytes → IsSumOf result (bytes ++ piece.now) }
    {
        match self {
            Sum::Made(sum) => Sum::Made(sum.chain_update(piece)),
            Sum::Kept(text) => kept_with(text, piece),
        }
    }

    // The digest of what passed.
    pub(crate) fn digest(&self) -> Result<[u8; 32], AllocError>
        ensures { (bytes : List ℕ) → IsSumOf self.now bytes → IfOk result (λ digest. digest ≡ sha256 bytes) }
    {
        match self {
            Sum::Made(sum) => Ok(sum.clone()?.finalize()),
            Sum::Kept(text) => Ok(Sha256::digest(text.as_slice())),
        }
    }
}

// What is kept, with a piece more. Without memory for it all is summed now.
fn kept_with(text: Vec<u8>, piece: &[u8]) -> Sum
    ensures { IsSumOf result (text.items ++ piece.now) }
{
    let mut text = text;
    match text.extend_from_slice(piece) {
        Ok(()) => Sum::Kept(text),
        Err(_) => Sum::Made(summed(text.as_slice(), piece)),
    }
}

// The sum of a text and of a piece after it.
fn summed(text: &[u8], piece: &[u8]) -> Sha256
    ensures { Holds256 result (text.now ++ piece.now) }
{
    let mut sum = Sha256::new();
    sum.update(text);
    sum.update(piece);
    sum
}
