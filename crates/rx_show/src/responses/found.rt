ghost use Rattle.std.specs.Prelude.{◌≡◌, IfOk};
ghost use Rattle.std.specs.List.{AllZip};
ghost use Rattle.rx_show.specs.Found.{IsFound};

use rx_batch::Detail;
use rx_d0_reply::{ReplyFault, decode_reply};
use rx_d0_values::Reply;
use rx_fields::Memory;
use std::alloc::Global;

/// What a detail of a response file holds.
#[derive(Drop)]
pub enum Found {
    /// The text of this reply.
    Reply(Reply),
    /// No reply, and why.
    Unreadable(ReplyFault),
}

/// What each detail of a response file holds, in file order.
pub fn find_replies(alloc: Global, details: &[Detail]) -> Result<Vec<Found>, Memory>
    ensures { IfOk result (λ found. AllZip (λ d f. IsFound d.text f) details.now found.items) }
{
    let mut found = Vec::with_capacity(alloc, details.len())?;
    for detail in details {
        found.push(find_reply(alloc, detail.text.bytes())?)?;
    }
    Ok(found)
}

// What a detail's text holds.
fn find_reply(alloc: Global, text: &[u8]) -> Result<Found, Memory>
    ensures { IfOk result (λ found. IsFound text.now found) }
{
    match decode_reply(alloc, text) {
        Ok(reply) => Ok(Found::Reply(reply)),
        Err(ReplyFault::Memory) => Err(Memory),
        Err(fault) => Ok(Found::Unreadable(fault)),
    }
}
