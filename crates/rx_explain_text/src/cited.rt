/// What an explanation cites of the inputs, as it stands there.
#[derive(Clone, Copy)]
pub struct Cited<'a> {
    /// The text of the record's transmission.
    pub request: &'a [u8],
    /// The name of the tier of the product that is billed, where the plan sheet has it in one.
    pub tier: Option<&'a str>,
}
