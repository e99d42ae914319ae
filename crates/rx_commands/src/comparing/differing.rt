//! Which answers of a batch differ between two adjudications of it.
ghost use Rattle.std.specs.Prelude.{◌≡◌};
ghost use Rattle.rx_explain.specs.Spots.{item};
ghost use Rattle.rx_commands.specs.Differing.{accepted_in, are_one, entry_in, is_accepted, same_status};

use rx_d0_values::{Outcome, Reply};
use rx_explain::item;
use rx_report::Line;

/// Whether both lines, each of the batch with these replies, have the same answer, under headers that are both accepted or both
/// rejected.
pub(crate) fn are_one(
    replies: &[Reply],
    given: &Line,
    with_replies: &[Reply],
    changed: &Line,
) -> bool
    ensures { result ≡ are_one (entry_in replies.now given.now) (entry_in with_replies.now changed.now) }
{
    let accepted = accepted_at(replies, given.place);
    let with_accepted = accepted_at(with_replies, changed.place);
    same_status(accepted, with_accepted) && given.answer == changed.answer
}

// Whether the reply to the record at a place has an accepted header.
fn accepted_at(replies: &[Reply], place: u64) -> bool
    ensures { result ≡ accepted_in (item replies.now place) }
{
    match item(replies, place) {
        Some(reply) => is_accepted(&reply.outcome),
        None => false,
    }
}

fn is_accepted(outcome: &Outcome) -> bool
    ensures { result ≡ is_accepted outcome.now }
{
    match outcome {
        Outcome::Heard(_) => true,
        Outcome::Rejected(_) => false,
    }
}

fn same_status(accepted: bool, with_accepted: bool) -> bool
    ensures { result ≡ same_status accepted with_accepted }
{
    match (accepted, with_accepted) {
        (true, true) => true,
        (true, false) => false,
        (false, true) => false,
        (false, false) => true,
    }
}
