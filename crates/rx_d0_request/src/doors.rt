ghost use Rattle.std.specs.Prelude.{◌≡◌, ◌≤◌, ℕ, List, IfOk, false, nat_eq};
ghost use Rattle.std.specs.List.{list_any};
ghost use Rattle.rx_d0_request.specs.Cut.{same};
ghost use Rattle.rx_d0_request.specs.Doors.{door_in, has_bin, names_plan, plan_at, plan_named, routed};
ghost use Rattle.rx_d0_request.specs.Request.{transmission_of};

use crate::header::{Header, header_bytes};
use crate::request::decode;
use rx_d0_values::Transmission;
use rx_fields::{Door, Memory};
use std::alloc::Global;

/// The BIN and the processor control number that a request's header has, whose missing bytes are blanks.
#[tactic(auto, unfolding(crate::specs::Doors::door_in))]
pub fn door_in(bytes: &[u8]) -> Door
    ensures { result ≡ door_in bytes.now }
{
    let front = header_bytes(bytes);
    let header = Header::new(&front);
    let bin = header.bin;
    let pcn = header.pcn;
    Door { bin, pcn }
}

/// The number of the plan that a request names, of plans with these doors, counted from 0: the first whose BIN and
/// processor control number its header has; as many as there are doors where it names none (docs/FORMATS.md, "Several
/// plans").
pub fn plan_named(doors: &[Door], bytes: &[u8]) -> usize
    ensures { result ≡ plan_named doors.now bytes.now }
{
    plan_at(&door_in(bytes), doors)
}

// The number of the first door that is asked for, or how many doors there are.
fn plan_at(asked: &Door, doors: &[Door]) -> usize
    ensures { result ≡ plan_at asked.now doors.now }
{
    let mut number = 0;
    for door in doors {
        if names_plan(asked, door) {
            return number;
        }
        number += 1;
    }
    number
}

// Whether this is the door that is asked for.
fn names_plan(asked: &Door, door: &Door) -> bool
    ensures { result ≡ names_plan asked.now door.now }
{
    asked.bin == door.bin && asked.pcn == door.pcn
}

/// The transmission of any byte string, at the doors of several plans: as the plan reads it that it names; where it names
/// none, its header is rejected (docs/FORMATS.md, "Several plans").
///
/// # Errors
///
/// `Memory` where a growth was refused.
pub fn decode_routed(alloc: Global, doors: &[Door], bytes: &[u8]) -> Result<Transmission, Memory>
    ensures { IfOk result (λ t. t ≡ routed doors.now bytes.now) }
{
    let door = door_for(doors, &door_in(bytes));
    decode(alloc, &door, bytes)
}

// The door at which a request that asks for this one is read: that of the plan that it names. Where it names none, a door
// that it misses by just one thing: by the processor control number where a plan has its BIN, else by the BIN.
fn door_for(doors: &[Door], asked: &Door) -> Door
    ensures { (bytes : List ℕ) → door_in bytes ≡ asked.now → transmission_of result bytes ≡ routed doors.now bytes }
{
    let number = plan_at(asked, doors);
    if number < doors.len() {
        return doors[number];
    }
    if has_bin(doors, asked) {
        let bin = asked.bin;
        let pcn = other(&asked.pcn);
        return Door { bin, pcn };
    }
    let bin = other(&asked.bin);
    let pcn = asked.pcn;
    Door { bin, pcn }
}

// Whether one of the doors has the BIN that is asked for.
fn has_bin(doors: &[Door], asked: &Door) -> bool
    ensures { result ≡ list_any (has_bin asked.now) doors.now }
{
    for door in doors {
        if asked.bin == door.bin {
            return true;
        }
    }
    false
}

// Bytes that differ from these.
#[tactic(auto, using(crate::proofs::Strays::differs))]
fn other<const N: usize>(bytes: &[u8; N]) -> [u8; N]
    requires { 1 ≤ N }
    ensures { same bytes.now result ≡ false }
{
    let mut changed = *bytes;
    changed[0] = other_byte(bytes[0]);
    changed
}

// A byte that differs from this one.
fn other_byte(byte: u8) -> u8
    ensures { nat_eq byte result ≡ false }
{
    if byte == b'0' { b'1' } else { b'0' }
}
