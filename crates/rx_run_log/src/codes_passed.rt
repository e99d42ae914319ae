ghost use Rattle.std.specs.Prelude.{◌≡◌, ◌++◌, [], ℕ, List, IsTrue, OnOk, slice_index};
ghost use Rattle.rx_run_log.specs.CodesPassed.{AddsCodes, AreCodesOf, IsPlain, code_in, codes_in, ends_before_code, last_five, next, times};
ghost use Rattle.rx_run_log.specs.CodesPassed.{two_bytes};

use memchr::memchr;
use std::alloc::{AllocError, Global};

// FS, F and B, which stand in front of a code.
const FIELD_FRONT: u64 = 0x1C_46_42;

// How many bytes a B and the code after it have.
const MARKED: usize = 3;

/// The reject codes in the bytes of a response file that passed: the two bytes after each FS, F and B.
#[derive(Drop)]
pub struct CodesPassed {
    // The last five bytes, as a number.
    five: u64,
    codes: Vec<u16>,
}

impl CodesPassed {
    /// Nothing passed yet.
    pub fn new(alloc: Global) -> CodesPassed
        ensures { AreCodesOf result [] }
    {
        CodesPassed {
            five: 0,
            codes: Vec::new(alloc),
        }
    }

    /// Adds a piece that passed. A field may begin in one piece and end in another.
    ///
    /// # Errors
    ///
    /// Out of memory; the codes are no longer those of the bytes.
    pub fn add(&mut self, piece: &[u8]) -> Result<(), AllocError>
        ensures { OnOk result (AddsCodes self.old self.new piece.now) }
    {
        self.pass(piece)
    }

    // Adds what a piece ends and has. Most bytes are in front of the next B, and have no code.
    fn pass(&mut self, piece: &[u8]) -> Result<(), AllocError>
        ensures { OnOk result ((self.new.five ≡ last_five self.old.five piece.now)
            × (self.new.codes.items ≡ self.old.codes.items ++ codes_in self.old.five piece.now)) }
    {
        let mut rest = piece;
        while let Some(at) = memchr(b'B', rest) {
            let (plain, marked) = rest.split_at(at);
            self.pass_plain(plain)?;
            let (front, after) = marked.split_at(marked.len().min(MARKED));
            self.pass_each(front)?;
            rest = after;
        }
        self.pass_plain(rest)
    }

    // The same of bytes without a B.
    fn pass_plain(&mut self, plain: &[u8]) -> Result<(), AllocError>
        requires { IsPlain plain.now }
        ensures { OnOk result ((self.new.five ≡ last_five self.old.five plain.now)
            × (self.new.codes.items ≡ self.old.codes.items ++ codes_in self.old.five plain.now)) }
    {
        if ends_before_code(self.five) {
            return self.pass_each(plain);
        }
        let Some((_front, last)) = plain.split_last_chunk::<5>() else {
            return self.pass_each(plain);
        };
        self.five = five_of(last);
        Ok(())
    }

    // The same, byte by byte.
    fn pass_each(&mut self, piece: &[u8]) -> Result<(), AllocError>
        ensures { OnOk result ((self.new.five ≡ last_five self.old.five piece.now)
            × (self.new.codes.items ≡ self.old.codes.items ++ codes_in self.old.five piece.now)) }
    {
        let mut at = 0;
        while at < piece.len() {
            self.note(piece[at])?;
            at += 1;
        }
        Ok(())
    }

    // Adds a byte.
    fn note(&mut self, byte: u8) -> Result<(), AllocError>
        ensures five { self.new.five ≡ next self.old.five byte }
        ensures codes { OnOk result (self.new.codes.items ≡ self.old.codes.items ++ code_in (next self.old.five byte)) }
    {
        self.five = next(self.five, byte);
        if self.five / 65_536 == FIELD_FRONT {
            self.codes.push((self.five % 65_536) as u16)?;
        }
        Ok(())
    }

    /// How often a code of these two bytes passed.
    pub fn times(&self, code: [u8; 2]) -> usize
        ensures { (bytes : List ℕ) → AreCodesOf self.now bytes
            → result ≡ times (codes_in 0 bytes) (two_bytes (slice_index code 0) (slice_index code 1)) }
    {
        times(&self.codes, u16::from(code[0]) * 256 + u16::from(code[1]))
    }
}

fn times(codes: &[u16], code: u16) -> usize
    ensures { result ≡ times codes.now code }
{
    codes.iter().filter(|passed| **passed == code).count()
}

// The last five bytes as a number, after one more.
fn next(five: u64, byte: u8) -> u64
    ensures { result ≡ next five byte }
{
    (five % (1 << 32)) * 256 + u64::from(byte)
}

// Whether the last two of five bytes have a B, so that a code may end in the next two.
fn ends_before_code(five: u64) -> bool
    ensures { result ≡ ends_before_code five }
{
    five % 256 == u64::from(b'B') || five / 256 % 256 == u64::from(b'B')
}

// Five bytes as a number.
fn five_of(bytes: &[u8; 5]) -> u64
    ensures { (five : ℕ) → result ≡ last_five five bytes.now }
{
    let four = next(next(next(next(0, bytes[0]), bytes[1]), bytes[2]), bytes[3]);
    next(four, bytes[4])
}
