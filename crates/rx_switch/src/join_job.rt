/// A plan of a join (docs/FORMATS.md, "Several plans").
#[derive(Clone, Copy)]
pub struct PlanResponse<'a> {
    /// The plan sheet's text.
    pub sheet: &'a [u8],
    /// The bytes of a response file to the whole batch, of the plan's run.
    pub response: &'a [u8],
}

/// What is joined: one batch, and the response files of several plans' runs of it.
#[derive(Clone, Copy)]
pub struct JoinJob<'a> {
    /// The plans, in the order of the plans file.
    pub plans: &'a [PlanResponse<'a>],
    /// The batch file's bytes.
    pub batch: &'a [u8],
}

/// What a join gives.
pub struct JoinOutput {
    /// The response file's bytes.
    pub response: Vec<u8>,
    /// The text of the settlement over all replies.
    pub settlement: Vec<u8>,
    /// That over the replies to the records of each plan, in their order.
    pub settlements: Vec<Vec<u8>>,
}

// Written out, so that freeing one is one call wherever a function ends early, not one for each of its fields.
impl Drop for JoinOutput {
    fn drop(self) {
        let JoinOutput {
            response: _,
            settlement: _,
            settlements: _,
        } = self;
    }
}
