ghost use Rattle.std.specs.Prelude.{◌≡◌, ◌≤◌, IfOk, length};
ghost use Rattle.rx_fields.specs.declared.limits.TheConstants.{MOST_DETAILS};
ghost use Rattle.rx_ledger.specs.Fold.{fold_replies};
ghost use Rattle.rx_d0_reply.specs.Text.{reply_text};
ghost use Rattle.rx_show.specs.Sample.{base_claim, opening, sample_lot, sample_reply, sample_text};

use crate::bytes::shown;
use crate::sample_inputs::{lot, opening_books, plain_sheet};
use rx_d0_reply::encode;
use rx_d0_request::decode;
use rx_d0_values::{Reply, Transmission};
use rx_fields::Memory;
use rx_ledger::{Sheet, plain_run};
use std::alloc::Global;

// The base claim (docs/FORMATS.md, "Fixed inputs").
const BASE_CLAIM: &[u8] =
    b"900001D0B1RXDEMO    1011234567893     20260228          \x1e\x1cAM04\x1cC2C100\x1cC301\
      \x1d\x1e\x1cAM07\x1cEM1\x1cD2000000000123\x1cE103\x1cD700002000202\x1cE70000030000\x1cD5030\x1cD61\
      \x1e\x1cAM11\x1cD90003000{\x1cDC0000017E\x1cDQ0004000{";

/// The reply to the base claim in batch 0000042, under the plain sheet and the opening books, on one line: each byte
/// below X'20' as two hexadecimal digits in angle brackets (docs/FORMATS.md, "Fixed inputs").
pub fn sample_line(alloc: Global) -> Result<Vec<u8>, Memory>
    ensures { IfOk result (λ line. line.items ≡ sample_text) }
{
    let text = reply_text(alloc)?;
    shown(alloc, text.as_slice())
}

// The text of the reply to the base claim, the one record of its batch.
fn reply_text(alloc: Global) -> Result<Vec<u8>, Memory>
    ensures { IfOk result (λ text. text.items ≡ reply_text sample_reply) }
{
    let sheet = plain_sheet(alloc)?;
    let asked = [decode(alloc, sheet.door(), base_claim())?];
    let replies = replies_to(alloc, &sheet, &asked)?;
    encode(alloc, &replies[0])
}

// The replies to a batch under the opening books.
fn replies_to(alloc: Global, sheet: &Sheet, asked: &[Transmission]) -> Result<Vec<Reply>, Memory>
    requires { length asked.now ≤ MOST_DETAILS }
    ensures { IfOk result (λ replies. replies.items ≡ fold_replies sample_lot sheet.now 1 asked.now opening) }
{
    let before = opening_books(alloc)?;
    let (_after, replies) = plain_run(alloc, lot(), sheet, &before, asked)?;
    Ok(replies)
}

// The bytes of the base claim.
#[tactic(auto, unfolding(crate::specs::Sample::base_claim))]
fn base_claim() -> &'static [u8]
    ensures { result.now ≡ base_claim }
{
    BASE_CLAIM
}
