use std::alloc::Global;
use std::sync::Arc;

/// A plan of a switch (docs/FORMATS.md, "Several plans").
#[derive(Clone, Copy)]
pub struct PlanJob<'a> {
    /// The plan sheet's text.
    pub sheet: &'a [u8],
    /// The opening books' text, which the books keep.
    pub books: &'a Arc<Vec<u8>, Global>,
}

/// What a switch is given: one batch, several plans (docs/FORMATS.md, "Several plans").
#[derive(Clone, Copy)]
pub struct RouteJob<'a> {
    /// The plans, in the order of the plans file.
    pub plans: &'a [PlanJob<'a>],
    /// The batch file's bytes.
    pub batch: &'a [u8],
    /// Date and time of the run: twelve digits CCYYMMDDHHMM.
    pub stamp: &'a [u8],
    /// The number of workers, 1 to 64.
    pub workers: u16,
}

/// What a plan gives.
#[derive(Drop)]
pub struct PlanOutput {
    /// The end books' text.
    pub books: Vec<u8>,
    /// The text of the settlement over the replies to its records.
    pub settlement: Vec<u8>,
}

/// What a switch gives.
pub struct RouteOutput {
    /// The response file's bytes.
    pub response: Vec<u8>,
    /// The text of the settlement over all replies.
    pub settlement: Vec<u8>,
    /// What each plan gives, in their order.
    pub plans: Vec<PlanOutput>,
}

// Written out, so that freeing one is one call wherever a function ends early, not one for each of its fields.
impl Drop for RouteOutput {
    fn drop(self) {
        let RouteOutput {
            response: _,
            settlement: _,
            plans: _,
        } = self;
    }
}
