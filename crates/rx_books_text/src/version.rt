/// A version of the books file (docs/FORMATS.md, "Books file").
#[derive(Clone, Copy, PartialEq, Eq)]
pub enum Version {
    /// Claim lines have no coinsurance, and total lines no deductible.
    One,
    /// Total lines have no deductible.
    Two,
    /// The version that is written.
    Three,
}
