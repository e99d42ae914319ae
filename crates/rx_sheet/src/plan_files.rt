/// A plan as a plans file names it (docs/FORMATS.md, "Plans file"). No text is empty.
#[derive(Drop)]
pub struct PlanFiles {
    /// The name of the plan in reports and messages.
    pub name: String,
    /// The path of the plan sheet.
    pub sheet: String,
    /// The path of the opening books.
    pub books: String,
    /// The path of the end books to write.
    pub books_out: String,
    /// The path of the plan's own response file, where it has one.
    pub response: Option<String>,
    /// The path of the plan's own settlement, where it has one.
    pub settlement: Option<String>,
}
