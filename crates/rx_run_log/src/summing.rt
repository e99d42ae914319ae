ghost use Rattle.std.specs.Prelude.{◌≡◌, List, ℕ};
ghost use Rattle.sha2.specs.Sha256.{sha256};
ghost use Rattle.rx_run_log.specs.Sums.{IsSumming};

use sha2::{Digest, Sha256};
use std::snapshot::Snapshot;
use std::thread;
use std::thread::{Promise, PromisedHandle, Threads};

/// The SHA-256 of a text, which a thread of its own makes.
#[derive(Drop)]
pub enum Summing {
    /// It is being made.
    Apart(PromisedHandle<[u8; 32], OfText>),
    /// No thread could be made, and it was made at once.
    Done([u8; 32]),
}

/// That a digest is that of a text.
#[derive(Drop)]
pub struct OfText(Snapshot<Vec<u8>>);

impl Promise<[u8; 32]> for OfText {
    ghost use Rattle.std.specs.Prelude.{◌≡◌};
    ghost use Rattle.sha2.specs.Sha256.{sha256};

    ghost kept_by = { λ text digest. digest ≡ sha256 text.0.value.items };
}

impl Summing {
    /// Begins to sum a text, which is freed once that is done.
    pub fn begin<R: Threads>(rt: &R, text: Vec<u8>) -> Summing
        ensures { IsSumming result text.items }
    {
        let promise = OfText(Snapshot::of(&text));
        let digest = move || -> [u8; 32]
            ensures { result ≡ sha256 text.items }
        { digest_of(text) };
        match thread::spawn_with(rt, promise, digest) {
            Ok(thread) => Summing::Apart(thread),
            Err(refused) => Summing::Done((refused.value)()),
        }
    }

    /// The digest, once it is made.
    pub fn end<R: Threads>(self, rt: &R) -> [u8; 32]
        ensures { (text : List ℕ) → IsSumming self text → result ≡ sha256 text }
    {
        match self {
            Summing::Apart(thread) => thread.join(rt),
            Summing::Done(digest) => digest,
        }
    }
}

// The digest of a text.
fn digest_of(text: Vec<u8>) -> [u8; 32]
    ensures { result ≡ sha256 text.items }
{
    Sha256::digest(text.as_slice())
}
