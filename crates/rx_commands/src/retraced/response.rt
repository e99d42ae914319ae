ghost use Rattle.std.specs.Prelude.{◌≡◌, ◌&&◌, IfOk};
ghost use Rattle.rx_d0_reply.specs.Text.{reply_text};
ghost use Rattle.rx_commands.specs.Compared.{compared_at, compared_of, is_detail};

use super::Retraced;
use rx_batch::{Batch, Detail};
use rx_d0_reply::encode;
use rx_d0_values::Reply;
use rx_explain::item;
use rx_explain_text::Compared;
use rx_fields::Memory;
use std::alloc::Global;

impl Retraced {
    /// What a response file has at a place, against the request and the reply there.
    pub(crate) fn compare(
        &self,
        alloc: Global,
        file: &Batch,
        place: u64,
    ) -> Result<Compared, Memory>
        ensures { IfOk result (λ compared.
            compared ≡ compared_of self.now.lot self.now.details self.now.replies.items file.now place) }
    {
        let lot = file.head.lot();
        if lot.number() != self.lot.number() {
            return Ok(Compared::OtherBatch(lot));
        }
        let (details, found) = (self.details.as_slice(), file.details.as_slice());
        compare_at(alloc, details, &self.replies, found, place)
    }
}

fn compare_at(
    alloc: Global,
    details: &[Detail],
    replies: &[Reply],
    found: &[Detail],
    place: u64,
) -> Result<Compared, Memory>
    ensures { IfOk result (λ compared. compared ≡ compared_at details.now replies.now found.now place) }
{
    let Some(asked) = item(details, place) else {
        return Ok(Compared::Absent);
    };
    let Some(reply) = item(replies, place) else {
        return Ok(Compared::Absent);
    };
    let Some(detail) = item(found, place) else {
        return Ok(Compared::Absent);
    };
    if is_reply(alloc, asked, reply, detail)? {
        Ok(Compared::Same)
    } else {
        Ok(Compared::Differs)
    }
}

// Whether the detail is the reply to the request, with its reference.
fn is_reply(alloc: Global, asked: &Detail, reply: &Reply, detail: &Detail) -> Result<bool, Memory>
    ensures { IfOk result (λ is. is ≡ is_detail asked.now.reference (reply_text reply.now) detail.now) }
{
    let text = encode(alloc, reply)?;
    Ok(detail.reference == asked.reference && detail.text.bytes() == text.as_slice())
}
