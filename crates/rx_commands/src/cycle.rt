ghost use Rattle.std.specs.Prelude.{◌≡◌, IfErr, IfOk, List, map};
ghost use Rattle.std.specs.List.{AllZip};
ghost use Rattle.std.specs.Option.{option_copied};
ghost use Rattle.std.specs.Vec.{vec_items};
ghost use Rattle.rx_commands.specs.Cycle.{Answered, IsAnswered, IsCycleText, IsNotSettled, IsSettledAs, cycle_text, text_by};

mod fault;
mod law;
mod reading;

pub use fault::CycleFault;
pub use law::{run_settled_back, settled_back};
use reading::{Cycle, read_cycle};
use rx_fields::Memory;
use rx_settle::{settle_provider, settle_together};
use std::alloc::Global;

/// What `settle` prints of response files: the settlement of the batches that they answer, all together, or only the line
/// of one provider. Of one file it is the settlement of its replies (docs/CLI.md, "settle"). The empty id stands for all that
/// are no id.
///
/// # Errors
///
/// The first file that isn't a response file with a reply in each detail; Memory may stand in place of any other answer.
pub fn settle_cycle(
    alloc: Global,
    files: &[Vec<u8>],
    provider: Option<&[u8]>,
) -> Result<Vec<u8>, CycleFault>
    ensures settled { IfOk result (λ text.
        IsCycleText (map vec_items files.now) (option_copied provider.entry) text.items) }
    // Files that answer batches are settled, unless memory runs out.
    ensures reads { (batches : List Answered) → AllZip IsAnswered (map vec_items files.now) batches
        → IsSettledAs result (cycle_text (option_copied provider.entry) batches) }
    ensures refused { IfErr result (IsNotSettled (map vec_items files.now)) }
{
    let cycle = read_cycle(alloc, files)?;
    let printed = text_of(alloc, provider, &cycle);
    drop(cycle);
    let text = printed?;
    Ok(text)
}

// What is printed of the batches of a pay cycle.
fn text_of(alloc: Global, provider: Option<&[u8]>, cycle: &Cycle) -> Result<Vec<u8>, Memory>
    ensures { IfOk result (λ text.
        text.items ≡ text_by (option_copied provider.entry) cycle.now.runs.items cycle.now.replies.items) }
{
    match provider {
        None => settle_together(alloc, &cycle.runs, &cycle.replies),
        Some(id) => settle_provider(alloc, id, &cycle.replies),
    }
}
