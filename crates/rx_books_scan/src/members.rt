ghost use Rattle.std.specs.Prelude.{◌≡◌, length};

use rx_ledger::Member;

/// Members, each with the deductible that its line prints, and how many bytes their lines have.
#[derive(Drop)]
pub(crate) struct Members {
    pub(crate) members: Vec<Member>,
    pub(crate) deductibles: Vec<u128>,
    pub(crate) bytes: usize,
    ghost one_each: { length deductibles.items ≡ length members.items },
}
