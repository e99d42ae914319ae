/// How `explain` prints an explanation.
#[derive(Clone, Copy)]
pub enum Manner {
    /// In words; of the claims of a sum the 20 that count most.
    Words,
    /// In words, with all claims of a sum.
    Full,
    /// As JSON, an object a line, with all claims of a sum.
    Json,
}
