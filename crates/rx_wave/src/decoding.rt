ghost use Rattle.std.specs.Prelude.{◌≡◌, IfOk};
ghost use Rattle.rx_wave.specs.AtDoors.{transmission_at, transmissions_at, transmissions_routed};
ghost use Rattle.rx_wave.specs.Decoding.{transmissions_of};

use rayon::prelude::*;
use rx_batch::Detail;
use rx_d0_request::{decode, decode_routed};
use rx_d0_values::Transmission;
use rx_fields::{Door, Memory};
use std::alloc::Global;
use std::thread::Threads;

// The fewest details that are worth a thread.
const FEWEST_DETAILS: usize = 16;

// At what door a request is read: at a plan's, or at those of several plans.
#[derive(Clone, Copy)]
enum At<'a> {
    Door(&'a Door),
    Doors(&'a [Door]),
}

// The transmission of a detail.
fn decode_at(alloc: Global, at: At<'_>, detail: &Detail) -> Result<Transmission, Memory>
    ensures { IfOk result (λ t. t ≡ transmission_at at.entry detail.now) }
{
    match at {
        At::Door(door) => decode(alloc, door, detail.text.bytes()),
        At::Doors(doors) => decode_routed(alloc, doors, detail.text.bytes()),
    }
}

/// The transmission of each detail, in order, at a plan's door, decoded by as many threads as there are processors
/// (docs/FORMATS.md, "Request transmission").
///
/// Where `rayon` gives up, they are decoded without it.
///
/// # Errors
///
/// `Memory` where a growth was refused.
pub fn decode_all<R: Threads + Sync>(
    rt: &R,
    alloc: Global,
    door: &Door,
    details: &[Detail],
) -> Result<Vec<Transmission>, Memory>
    ensures { IfOk result (λ transmissions. transmissions.items ≡ transmissions_of door.now details.now) }
{
    decode_beside(rt, alloc, FEWEST_DETAILS, At::Door(door), details)
}

/// The same transmissions, decoded in at most this many parts in parallel; one part is decoded by the calling thread,
/// and none starts one.
///
/// Where `rayon` gives up, they are decoded without it.
///
/// # Errors
///
/// `Memory` where a growth was refused.
pub fn decode_in_parts<R: Threads + Sync>(
    rt: &R,
    alloc: Global,
    parts: usize,
    door: &Door,
    details: &[Detail],
) -> Result<Vec<Transmission>, Memory>
    ensures { IfOk result (λ transmissions. transmissions.items ≡ transmissions_of door.now details.now) }
{
    decode_parts(rt, alloc, parts, At::Door(door), details)
}

/// The transmission of each detail, in order, at the doors of several plans: as the plan reads it that it names, or with a
/// rejected header where it names none (docs/FORMATS.md, "Several plans"). In parts and without `rayon` as above.
///
/// # Errors
///
/// `Memory` where a growth was refused.
pub fn decode_for_plans<R: Threads + Sync>(
    rt: &R,
    alloc: Global,
    parts: usize,
    doors: &[Door],
    details: &[Detail],
) -> Result<Vec<Transmission>, Memory>
    ensures { IfOk result (λ transmissions. transmissions.items ≡ transmissions_routed doors.now details.now) }
{
    decode_parts(rt, alloc, parts, At::Doors(doors), details)
}

// The transmissions, decoded in at most this many parts.
fn decode_parts<R: Threads + Sync>(
    rt: &R,
    alloc: Global,
    parts: usize,
    at: At<'_>,
    details: &[Detail],
) -> Result<Vec<Transmission>, Memory>
    ensures { IfOk result (λ transmissions. transmissions.items ≡ transmissions_at at.entry details.now) }
{
    if parts <= 1 {
        return decode_in_one(alloc, at, details);
    }
    decode_beside(rt, alloc, details.len() / parts, at, details)
}

// The transmissions of pieces of at least this many details, in parallel; one after another, where threads or memory for
// that run out.
fn decode_beside<R: Threads + Sync>(
    rt: &R,
    alloc: Global,
    least: usize,
    at: At<'_>,
    details: &[Detail],
) -> Result<Vec<Transmission>, Memory>
    ensures { IfOk result (λ transmissions. transmissions.items ≡ transmissions_at at.entry details.now) }
{
    match decode_in_pieces(rt, alloc, least, at, details) {
        Ok(transmissions) => Ok(transmissions),
        Err(Memory) => decode_in_one(alloc, at, details),
    }
}

// The transmissions of pieces of at least this many details.
fn decode_in_pieces<R: Threads + Sync>(
    rt: &R,
    alloc: Global,
    least: usize,
    at: At<'_>,
    details: &[Detail],
) -> Result<Vec<Transmission>, Memory>
    ensures { IfOk result (λ transmissions. transmissions.items ≡ transmissions_at at.entry details.now) }
{
    details
        .par_iter()
        .with_min_len(least.max(1))
        .map(
            move |detail: &Detail| -> Result<Transmission, Memory>
                ensures { IfOk result (λ t. t ≡ transmission_at at.entry detail.now) }
            { decode_at(alloc, at, detail) },
        )
        .collect::<Result<Vec<Transmission>, Memory>>(rt, alloc)?
}

// The transmissions, one after another.
fn decode_in_one(alloc: Global, at: At<'_>, details: &[Detail]) -> Result<Vec<Transmission>, Memory>
    ensures { IfOk result (λ transmissions. transmissions.items ≡ transmissions_at at.entry details.now) }
{
    let mut transmissions = Vec::with_capacity(alloc, details.len())?;
    for detail in details {
        transmissions.push(decode_at(alloc, at, detail)?)?;
    }
    Ok(transmissions)
}
