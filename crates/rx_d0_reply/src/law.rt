//! A reply that is written is read back.

ghost use Rattle.std.specs.Prelude.{◌≡◌, IfOk, IfErr};

use crate::fault::ReplyFault;
use crate::reading::decode_reply;
use crate::writing::encode;
use rx_d0_values::Reply;
use std::alloc::Global;

/// The law of the two calls: what `decode_reply` makes of the text that `encode` makes of a reply is that reply, unless
/// memory runs out.
pub fn read_back(alloc: Global, reply: &Reply) -> Result<Reply, ReplyFault>
    ensures ok { IfOk result (λ read. read ≡ reply.now) }
    ensures err { IfErr result (λ fault. fault ≡ ReplyFault.Memory) }
{
    let text = encode(alloc, reply)?;
    decode_reply(alloc, &text)
}
