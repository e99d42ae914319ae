ghost use Rattle.std.specs.Prelude.{◌≡◌, ◌++◌, IfOk, List, OnOk, ℕ};
ghost use Rattle.std.specs.List.{filter, flat_map};
ghost use Rattle.rx_d0_values.specs.declared.reply.Reply.{Reply};
ghost use Rattle.rx_settle.specs.Answers.{answers_of, plus, tally};
ghost use Rattle.rx_settle.specs.Counting.{line};
ghost use Rattle.rx_settle.specs.Providers.{is_same, named, replies_to};
ghost use Rattle.rx_settle.specs.Together.{line_alone};

use crate::lines::put_line;
use crate::provider::names_provider;
use crate::settlement::{ByProvider, tally_replies};
use rx_d0_values::Reply;
use rx_fields::Memory;
use std::alloc::{AllocError, Global};

/// Only the line of one provider of a settlement; nothing where no reply is to it. The empty id stands for all that are no
/// id (docs/FORMATS.md, "Settlement file").
pub fn settle_provider(alloc: Global, id: &[u8], replies: &[Reply]) -> Result<Vec<u8>, Memory>
    ensures { IfOk result (λ text. text.items ≡ line_alone id.now replies.now) }
{
    let tallied = tally_replies(alloc, replies)?;
    let mut text = Vec::new(alloc);
    put_line_of(alloc, &mut text, id, &tallied.providers)?;
    Ok(text)
}

// The line of the provider with an id, if any.
fn put_line_of(
    alloc: Global,
    text: &mut Vec<u8>,
    id: &[u8],
    providers: &ByProvider,
) -> Result<(), AllocError>
    ensures { OnOk result (text.new.items
        ≡ text.old.items ++ flat_map line (filter (λ e. is_same id.now (named e.0)) providers.now.entries)) }
{
    for (field, tally) in providers {
        if names_provider(id, field) {
            put_line(alloc, text, field, tally)?;
        }
    }
    Ok(())
}

/// The law of several batches: what all their replies come to, for a provider and in all, is the sum of what each batch's
/// come to.
pub fn batches_add_up()
    ensures provider { (id : List ℕ) (some more : List Reply) → tally (answers_of (replies_to id (some ++ more)))
        ≡ plus (tally (answers_of (replies_to id some))) (tally (answers_of (replies_to id more))) }
    ensures total { (some more : List Reply) → tally (answers_of (some ++ more))
        ≡ plus (tally (answers_of some)) (tally (answers_of more)) }
{}
