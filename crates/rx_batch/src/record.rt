ghost use Rattle.std.specs.Prelude.{◌≡◌, length};
ghost use Rattle.rx_batch.specs.Fault.{Gives};
ghost use Rattle.rx_batch.specs.Grammar.{agreeing, detail, header, trailer};
ghost use Rattle.rx_batch.specs.Header.{head_of, lot_in};

use crate::detail::{Detail, Text};
use crate::fault::BatchFault;
use crate::head::{FileType, Head, Kind};
use crate::layout::{BATCH_NUMBER_AT, CREATION_DATE_AT, CREATION_TIME_AT};
use crate::trailer::Trailer;
use rx_fields::{Lot, MOST_DETAILS, Time, date_read, number_read};
use std::alloc::Global;

// The header that stands at this place, of its bytes between STX and ETX.
pub(crate) fn header(at: u64, body: &[u8]) -> Result<Head, BatchFault>
    ensures { result ≡ header at body.now }
{
    if !body.starts_with(b"00") {
        return Err(BatchFault::NoHeader { at });
    }
    head_of(body).ok_or(BatchFault::HeaderShape { at })
}

// The head of a header's bytes between STX and ETX.
fn head_of(body: &[u8]) -> Option<Head>
    ensures { result ≡ head_of body.now }
{
    if body.len() != 73 || body[2] != b'T' || !body[47..49].starts_with(b"12") {
        return None;
    }
    let number = &body[BATCH_NUMBER_AT..CREATION_DATE_AT];
    let created = &body[CREATION_DATE_AT..CREATION_TIME_AT];
    let lot = lot(number, created)?;
    let time = Time::new(&body[CREATION_TIME_AT..46])?;
    let file = FileType::of(body[46])?;
    Some(Head {
        kind: Kind::Transmission,
        sender: array(&body[3..27]),
        lot,
        time,
        file,
        receiver: array(&body[49..73]),
    })
}

// The batch number and the creation date of their digits.
fn lot(number: &[u8], created: &[u8]) -> Option<Lot>
    ensures { result ≡ lot_in number.now created.now }
{
    let number = number_read(number, 7).ok()?;
    let created = date_read(created).ok()?;
    Lot::new(number as u32, created)
}

// The detail that stands at this place after the details so far.
pub(crate) fn detail(
    alloc: Global,
    at: u64,
    details: &[Detail],
    body: &[u8],
) -> Result<Detail, BatchFault>
    ensures { Gives result (detail at details.now body.now) }
{
    if body.len() < 12 {
        return Err(BatchFault::DetailShape { at });
    }
    if details.len() >= MOST_DETAILS {
        return Err(BatchFault::TooMuch { at });
    }
    let text = Vec::from_slice(alloc, &body[12..])?;
    Ok(Detail {
        reference: array(&body[2..12]),
        text: Text::new(text),
    })
}

// The trailer that stands at this place after the head and all details.
pub(crate) fn trailer(
    at: u64,
    head: &Head,
    details: &[Detail],
    body: &[u8],
) -> Result<Trailer, BatchFault>
    ensures { result ≡ trailer at head.now details.now body.now }
{
    let trailer = Trailer::of(body).ok_or(BatchFault::TrailerShape { at })?;
    if trailer.number != u64::from(head.lot.number()) {
        return Err(BatchFault::NumberDiffers { at });
    }
    let details = details.len() as u64;
    if trailer.count != details && trailer.count != details + 2 {
        return Err(BatchFault::CountDiffers { at });
    }
    Ok(trailer)
}

// The bytes as an array of their length.
pub(crate) fn array<const N: usize>(bytes: &[u8]) -> [u8; N]
    requires { length bytes.now ≡ N }
    ensures { result ≡ bytes.now }
{
    let mut array = [0; N];
    array.copy_from_slice(bytes);
    array
}
