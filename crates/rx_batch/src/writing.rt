ghost use Rattle.std.specs.Prelude.{◌≡◌, ◌≤◌, ◌+◌, ◌<◌, ◌^◌, ◌++◌, length, vec_capacity, vec_len, Some, IfOk, OnErr, OnOk};
ghost use Rattle.rx_fields.specs.declared.limits.TheConstants.{MOST_DETAILS};
ghost use Rattle.rx_batch.specs.Grammar.{IsDetail, IsFile, IsHeader, record_text};
ghost use Rattle.rx_batch.specs.Header.{trailer_of};
ghost use Rattle.rx_batch.specs.Writing.{IsLotSpelled, IsPlain, detail_front, detail_text, file_text, header_text, lot_text, trailer_text};

use crate::detail::Detail;
use crate::head::{Head, Kind};
use crate::layout::{ETX, HEADER_LENGTH, STX, TRAILER_LENGTH};
use rx_fields::{Memory, date_write, digits_write};
use rx_text::put;
use std::alloc::{AllocError, Global};

// The bytes of a detail besides its text: STX, `G1`, the reference and ETX.
const FRONT: usize = 14;

/// The one text of a batch file: nothing between records, the number of details plus two as the count, a blank
/// message (docs/FORMATS.md, "Batch file").
pub fn write_batch(alloc: Global, head: &Head, details: &[Detail]) -> Result<Vec<u8>, Memory>
    requires { length details.now ≤ MOST_DETAILS }
    ensures text { IfOk result (λ text. text.items ≡ file_text head.now details.now) }
    // What is written is read again.
    ensures again { IsPlain head.now details.now → IfOk result (λ text. IsFile text.items head.now details.now) }
{
    let mut text = Vec::with_capacity(alloc, file_len(details))?;
    put_header(&mut text, head)?;
    for detail in details {
        put_detail(&mut text, detail)?;
    }
    put_trailer(&mut text, head.lot.number(), details.len() as u64 + 2)?;
    Ok(text)
}

// How many bytes the file of these details has, so that its text grows once.
fn file_len(details: &[Detail]) -> usize {
    let mut len = HEADER_LENGTH + TRAILER_LENGTH;
    for detail in details {
        let record = detail.text.bytes().len().saturating_add(FRONT);
        len = len.saturating_add(record);
    }
    len
}

/// Puts a header at the end of a text, which stays as it is where a growth is refused.
#[tactic(auto, using(std::proofs::Common::append_assoc))]
pub fn put_header(text: &mut Vec<u8>, head: &Head) -> Result<(), AllocError>
    ensures text { OnOk result (text.new.items ≡ text.old.items ++ record_text (header_text head.now)) }
    ensures again { head.now.kind ≡ Kind.Transmission → OnOk result (IsHeader (header_text head.now) head.now) }
    ensures err { OnErr result (text.new.items ≡ text.old.items) }
{
    text.reserve(HEADER_LENGTH)?;
    put(text, &[STX, b'0', b'0', head.kind.byte()]);
    put(text, &head.sender);
    put_lot(text, head);
    put(text, &head.receiver);
    put(text, &[ETX]);
    Ok(())
}

// The fields between sender and receiver, for which there is room.
#[tactic(auto, using(std::proofs::Common::append_assoc))]
fn put_lot(text: &mut Vec<u8>, head: &Head)
    requires { vec_len text.old + 22 ≤ vec_capacity text.old }
    ensures text { text.new.items ≡ text.old.items ++ lot_text head.now }
    ensures again { IsLotSpelled head.now }
    ensures len { vec_len text.new ≡ vec_len text.old + 22 }
    ensures capacity { vec_capacity text.old ≤ vec_capacity text.new }
{
    let number: [u8; 7] = digits_write(u64::from(head.lot.number()));
    put(text, &number);
    put(text, &date_write(head.lot.created()));
    put(text, &head.time.digits());
    put(text, &[head.file.byte(), b'1', b'2']);
}

/// Puts what stands before a detail's text at the end of a text: STX, `G1` and the reference. The text stays as it is
/// where a growth is refused.
pub fn begin_detail(text: &mut Vec<u8>, reference: &[u8; 10]) -> Result<(), AllocError>
    ensures text { OnOk result (text.new.items ≡ text.old.items ++ detail_front reference.now) }
    ensures err { OnErr result (text.new.items ≡ text.old.items) }
{
    text.reserve(FRONT)?;
    put_front(text, reference);
    Ok(())
}

// The bytes before a detail's text, for which there is room.
#[tactic(auto, using(std::proofs::Common::append_assoc))]
fn put_front(text: &mut Vec<u8>, reference: &[u8; 10])
    requires { vec_len text.old + 13 ≤ vec_capacity text.old }
    ensures text { text.new.items ≡ text.old.items ++ detail_front reference.now }
    ensures len { vec_len text.new ≡ vec_len text.old + 13 }
    ensures capacity { vec_capacity text.old ≤ vec_capacity text.new }
{
    put(text, &[STX, b'G', b'1']);
    put(text, reference);
}

// Puts a detail at the end of a text, which stays as it is where a growth is refused.
#[tactic(auto, using(std::proofs::Common::append_assoc))]
fn put_detail(text: &mut Vec<u8>, detail: &Detail) -> Result<(), AllocError>
    ensures text { OnOk result (text.new.items ≡ text.old.items ++ record_text (detail_text detail.now)) }
    ensures again { OnOk result (IsDetail (detail_text detail.now) detail.now) }
    ensures err { OnErr result (text.new.items ≡ text.old.items) }
{
    let bytes = detail.text.bytes();
    text.reserve(bytes.len() + FRONT)?;
    put_front(text, &detail.reference);
    put(text, bytes);
    put(text, &[ETX]);
    Ok(())
}

/// Puts a trailer at the end of a text, with a blank message: the batch number, and the number of details plus two. The
/// text stays as it is where a growth is refused.
#[tactic(auto, using(std::proofs::Common::append_assoc))]
pub fn put_trailer(text: &mut Vec<u8>, number: u32, count: u64) -> Result<(), AllocError>
    requires number { number < 10_000_000 }
    requires count { count < 10 ^ 10 }
    ensures text { OnOk result (text.new.items ≡ text.old.items ++ record_text (trailer_text number count)) }
    ensures again { OnOk result (trailer_of (trailer_text number count) ≡ Some (record { number = number; count = count })) }
    ensures err { OnErr result (text.new.items ≡ text.old.items) }
{
    let number: [u8; 7] = digits_write(u64::from(number));
    let count: [u8; 10] = digits_write(count);
    text.reserve(TRAILER_LENGTH)?;
    put(text, &[STX, b'9', b'9']);
    put(text, &number);
    put(text, &count);
    put(text, &[b' '; 35]);
    put(text, &[ETX]);
    Ok(())
}
