ghost use Rattle.std.specs.Prelude.{◌≡◌, IfSome, List, Some, length, option_map, string_bytes, ℕ};
ghost use Rattle.hex.specs.Hex.{encode_lower};
ghost use Rattle.sha2.specs.Sha256.{sha256};
ghost use Rattle.rx_run_log.specs.RunTraffic.{bytes_passed};
ghost use Rattle.rx_run_log.specs.Traffic.{IsTrafficOf, in_64_bits};

use crate::log::FileLog;
use crate::traffic::Traffic;
use std::alloc::Global;

/// The size and the sum of what passed through a file of a run, where it was read or written.
#[derive(Drop)]
pub struct FileSum {
    bytes: Option<u64>,
    sha256: Option<String>,
}

impl FileSum {
    /// Of a file through which this passed. There is no sum where none was made, and where memory ran out for it.
    pub fn of(alloc: Global, traffic: &Traffic) -> FileSum
        ensures bytes { result.bytes ≡ bytes_passed traffic.now }
        ensures sha256 { (bytes : List ℕ) → IsTrafficOf traffic.now bytes
            → IfSome result.sha256 (λ text. string_bytes text ≡ encode_lower (sha256 bytes)) }
    {
        if !traffic.is_called() {
            return FileSum {
                bytes: None,
                sha256: None,
            };
        }
        FileSum {
            bytes: Some(traffic.bytes()),
            sha256: sum_of(alloc, traffic),
        }
    }

    /// Of a file through which this passed, with a digest that was made of it.
    pub fn of_digest(alloc: Global, traffic: &Traffic, digest: [u8; 32]) -> FileSum
        ensures bytes { result.bytes ≡ bytes_passed traffic.now }
        ensures sha256 { IfSome result.sha256 (λ text. string_bytes text ≡ encode_lower digest) }
    {
        FileSum {
            bytes: bytes_of(traffic),
            sha256: in_digits(alloc, digest),
        }
    }

    /// Of a file that holds these bytes. There is no sum where memory ran out for it.
    pub fn of_bytes(alloc: Global, bytes: &[u8]) -> FileSum
        ensures bytes { result.bytes ≡ Some (in_64_bits (length bytes.now)) }
        ensures sha256 { IfSome result.sha256 (λ text. string_bytes text ≡ encode_lower (sha256 bytes.now)) }
    {
        let mut traffic = Traffic::new(true);
        traffic.add(bytes);
        FileSum {
            bytes: Some(traffic.bytes()),
            sha256: sum_of(alloc, &traffic),
        }
    }

    /// The sum, in 64 hexadecimal digits, if there is one.
    pub fn sha256(&self) -> Option<&str>
        ensures { option_map (λ t. t.now) result ≡ option_map string_bytes self.now.sha256 }
    {
        match &self.sha256 {
            Some(text) => Some(text.as_str()),
            None => None,
        }
    }

    /// The same in a log, of the file at this path.
    pub fn log<'a>(&'a self, path: &'a str) -> FileLog<'a>
        ensures path { result.path ≡ path.entry }
        ensures bytes { result.bytes ≡ self.entry.now.bytes }
        ensures sha256 { option_map (λ t. t.now) result.sha256 ≡ option_map string_bytes self.entry.now.sha256 }
    {
        FileLog {
            path,
            bytes: self.bytes,
            sha256: self.sha256(),
        }
    }
}

// How many bytes passed, where the file was read or written.
fn bytes_of(traffic: &Traffic) -> Option<u64>
    ensures { result ≡ bytes_passed traffic.now }
{
    if traffic.is_called() {
        Some(traffic.bytes())
    } else {
        None
    }
}

// The sum of what passed, in 64 hexadecimal digits.
fn sum_of(alloc: Global, traffic: &Traffic) -> Option<String>
    ensures { (bytes : List ℕ) → IsTrafficOf traffic.now bytes
        → IfSome result (λ text. string_bytes text ≡ encode_lower (sha256 bytes)) }
{
    let Ok(Some(digest)) = traffic.digest() else {
        return None;
    };
    in_digits(alloc, digest)
}

// A digest in hexadecimal digits.
fn in_digits(alloc: Global, digest: [u8; 32]) -> Option<String>
    ensures { IfSome result (λ text. string_bytes text ≡ encode_lower digest) }
{
    hex::encode(alloc, digest.as_slice()).ok()
}
