/// What a comparison is written as.
#[derive(Clone, Copy)]
pub enum CompareForm {
    /// A line for each answer, for people.
    Words,
    /// A table, with a tab between cells.
    Tsv,
    /// JSON.
    Json,
}
