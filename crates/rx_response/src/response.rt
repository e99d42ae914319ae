ghost use Rattle.std.specs.Prelude.{◌≡◌, ◌+◌, ◌≤◌, ◌<◌, ◌++◌, [], length, IfOk, IsOkAnd, OnOk};
ghost use Rattle.std.specs.List.{flat_map};
ghost use Rattle.std.specs.Vec.{vec_items};
ghost use Rattle.rx_fields.specs.declared.limits.TheConstants.{MOST_DETAILS};
ghost use Rattle.rx_batch.specs.Grammar.{record_text};
ghost use Rattle.rx_batch.specs.Writing.{trailer_text};
ghost use Rattle.rx_response.specs.Pieces.{answer_text, records_text};
ghost use Rattle.rx_response.specs.Response.{response_head, response_details, response_text};

use rayon::current_num_threads;
use rayon::prelude::*;
use rx_batch::{
    Detail, ETX, HEADER_LENGTH, Head, Kind, TRAILER_LENGTH, begin_detail, put_header, put_trailer,
};
use rx_d0_reply::put_reply;
use rx_d0_values::Reply;
use rx_fields::{Lot, Memory, Stamp};
use rx_io::one_text;
use std::alloc::{AllocError, Global};
use std::thread::Threads;

// The bytes of the header and of the trailer.
const ENDS: usize = HEADER_LENGTH + TRAILER_LENGTH;

// Room for the record of a reply with one answer; where records are longer, the text grows.
const RECORD: usize = 192;

/// The text of the response file: the batch's header with sender and receiver exchanged and the run's stamp as date and
/// time, and each detail's reference with the reply at its place (docs/FORMATS.md, "Response file"). The batch is within
/// the limits of docs/RULES.md. Any number of processors gives the same bytes. Err only where memory ran out.
pub fn response_file<R: Threads + Sync>(
    rt: &R,
    alloc: Global,
    head: &Head,
    stamp: Stamp,
    details: &[Detail],
    replies: &[Reply],
) -> Result<Vec<u8>, Memory>
    requires equally_many { length details.now ≡ length replies.now }
    requires within { length details.now ≤ MOST_DETAILS }
    ensures { IfOk result (λ text. text.items ≡ response_text head.now stamp details.now replies.now) }
{
    let parts = current_num_threads(rt);
    let pieces = response_pieces(rt, alloc, parts, head, stamp, details, replies)?;
    one_text(alloc, pieces)
}

/// The same text in pieces, one after the other, which no copy joins. It is rendered in at most `parts` parts side by side,
/// each of which is one piece; one part is rendered by the calling thread, which starts none.
pub fn response_pieces<R: Threads + Sync>(
    rt: &R,
    alloc: Global,
    parts: usize,
    head: &Head,
    stamp: Stamp,
    details: &[Detail],
    replies: &[Reply],
) -> Result<Vec<Vec<u8>>, Memory>
    requires equally_many { length details.now ≡ length replies.now }
    requires within { length details.now ≤ MOST_DETAILS }
    ensures { IfOk result (λ pieces.
        flat_map vec_items pieces.items ≡ response_text head.now stamp details.now replies.now) }
{
    if parts > 1 {
        // Where threads or memory for pieces run out, one part may do.
        if let Ok(pieces) = in_pieces(rt, alloc, parts, head, &stamp, details, replies) {
            return Ok(pieces);
        }
    }
    let mut pieces = Vec::new(alloc);
    pieces.push(in_one_part(alloc, head, &stamp, details, replies)?)?;
    Ok(pieces)
}

#[tactic(auto, using(crate::proofs::Joined::as_many, std::proofs::Common::append_assoc))]
fn in_one_part(
    alloc: Global,
    head: &Head,
    stamp: &Stamp,
    details: &[Detail],
    replies: &[Reply],
) -> Result<Vec<u8>, Memory>
    requires equally_many { length details.now ≡ length replies.now }
    requires within { length details.now ≤ MOST_DETAILS }
    ensures { IfOk result (λ text. text.items ≡ response_text head.now stamp.now details.now replies.now) }
{
    let mut text = Vec::with_capacity(alloc, room(details.len()).saturating_add(ENDS))?;
    put_header(&mut text, &sent_back(head, *stamp))?;
    put_answers(&mut text, details, replies)?;
    put_end(&mut text, head, details)?;
    Ok(text)
}

// The header, the records in pieces, and the trailer.
fn in_pieces<R: Threads + Sync>(
    rt: &R,
    alloc: Global,
    parts: usize,
    head: &Head,
    stamp: &Stamp,
    details: &[Detail],
    replies: &[Reply],
) -> Result<Vec<Vec<u8>>, Memory>
    requires some { 0 < parts }
    requires equally_many { length details.now ≡ length replies.now }
    requires within { length details.now ≤ MOST_DETAILS }
    ensures { IfOk result (λ pieces.
        flat_map vec_items pieces.items ≡ response_text head.now stamp.now details.now replies.now) }
{
    let mut header = Vec::new(alloc);
    put_header(&mut header, &sent_back(head, *stamp))?;
    let mut trailer = Vec::new(alloc);
    put_end(&mut trailer, head, details)?;
    let mut pieces = render(rt, alloc, details.len() / parts, details, replies)?;
    pieces.insert(0, header)?;
    pieces.push(trailer)?;
    Ok(pieces)
}

// The trailer of the response.
fn put_end(text: &mut Vec<u8>, head: &Head, details: &[Detail]) -> Result<(), AllocError>
    requires { length details.now ≤ MOST_DETAILS }
    ensures { OnOk result (text.new.items ≡ text.old.items ++ record_text (trailer_text head.now.lot.number (length details.now + 2))) }
{
    put_trailer(text, head.lot.number(), details.len() as u64 + 2)
}

// Room for this many records.
fn room(records: usize) -> usize {
    records.saturating_mul(RECORD)
}

// The header of the response.
fn sent_back(head: &Head, stamp: Stamp) -> Head
    ensures { result ≡ response_head head.now stamp }
{
    Head {
        kind: Kind::Response,
        sender: head.receiver,
        lot: Lot::new(head.lot.number(), stamp.date).unwrap(),
        time: stamp.time,
        file: head.file,
        receiver: head.sender,
    }
}

// The records of the answers, in order, in pieces of at least `least`.
fn render<R: Threads + Sync>(
    rt: &R,
    alloc: Global,
    least: usize,
    details: &[Detail],
    replies: &[Reply],
) -> Result<Vec<Vec<u8>>, Memory>
    ensures { IfOk result (λ pieces. flat_map vec_items pieces.items ≡ records_text (response_details details.now replies.now)) }
{
    let room = room(least.saturating_add(1));
    details
        .par_iter()
        .zip(replies)
        .with_min_len(least.max(1))
        .fold(
            move || -> Result<Vec<u8>, Memory>
                ensures { IfOk result (λ text. text.items ≡ []) }
            { Ok(Vec::with_capacity(alloc, room)?) },
            move |text: Result<Vec<u8>, Memory>, p: (&Detail, &Reply)| -> Result<Vec<u8>, Memory>
                ensures { IfOk result (λ new. IsOkAnd text (λ old. new.items ≡ old.items ++ answer_text p.entry.0.now p.entry.1.now)) }
            { with_answer(text, p.0, p.1) },
        )
        .collect::<Result<Vec<Vec<u8>>, Memory>>(rt, alloc)?
}

// The text with one more record.
fn with_answer(
    text: Result<Vec<u8>, Memory>,
    detail: &Detail,
    reply: &Reply,
) -> Result<Vec<u8>, Memory>
    ensures { IfOk result (λ new. IsOkAnd text (λ old. new.items ≡ old.items ++ answer_text detail.now reply.now)) }
{
    let mut text = text?;
    put_answer(&mut text, detail, reply)?;
    Ok(text)
}

// Puts the record of a detail's answer: the detail's reference with the text of the reply to it.
#[tactic(auto, using(std::proofs::Common::append_assoc))]
fn put_answer(text: &mut Vec<u8>, detail: &Detail, reply: &Reply) -> Result<(), AllocError>
    ensures { OnOk result (text.new.items ≡ text.old.items ++ answer_text detail.now reply.now) }
{
    begin_detail(text, &detail.reference)?;
    put_reply(text, reply)?;
    text.push(ETX)?;
    Ok(())
}

// Puts the records of the answers, in order.
fn put_answers(text: &mut Vec<u8>, details: &[Detail], replies: &[Reply]) -> Result<(), AllocError>
    requires { length details.now ≡ length replies.now }
    ensures { OnOk result (text.new.items ≡ text.old.items ++ records_text (response_details details.now replies.now)) }
{
    for at in 0..details.len() {
        put_answer(text, &details[at], &replies[at])?;
    }
    Ok(())
}
