//! What the commands that keep books up, and the one that shows a family of them, are asked to do.

/// Which books a members table is loaded into.
#[derive(Clone, Copy)]
pub enum Origin<'a> {
    /// `--books`: these opening books.
    Books(&'a str),
    /// `--period FIRST-LAST`, as it was written: the first books of a plan.
    Period(&'a str),
}

/// The words of `members`.
#[derive(Clone, Copy)]
pub struct MembersWords<'a> {
    pub origin: Origin<'a>,
    /// `--members`: the members table.
    pub members: &'a str,
    /// `--books-out`: the end books.
    pub books_out: &'a str,
    /// `--report`: what each member of the table came to.
    pub report: Option<&'a str>,
    /// `--safe`: the outputs take their paths only when all are written.
    pub safe: bool,
}

/// What says which refill percentage a plan has at most.
#[derive(Clone, Copy)]
pub enum Percent<'a> {
    /// `--sheet`: the plan sheet.
    Sheet(&'a str),
    /// `--refill-percent`, as it was written.
    Number(&'a str),
}

/// The words of `age`.
#[derive(Clone, Copy)]
pub struct AgeWords<'a> {
    /// `--books`: the opening books.
    pub books: &'a str,
    /// `--before`, as it was written.
    pub before: &'a str,
    /// `--period FIRST-LAST`, as it was written, where the totals are to be of another period.
    pub period: Option<&'a str>,
    /// `--sheet` or `--refill-percent`.
    pub percent: Percent<'a>,
    /// `--books-out`: the end books.
    pub books_out: &'a str,
    /// `--dropped`: the claims that left.
    pub dropped: &'a str,
    /// `--safe`: the outputs take their paths only when both are written.
    pub safe: bool,
}

/// What a family is written as.
#[derive(Clone, Copy)]
pub enum FamilyForm {
    /// Aligned columns.
    Columns,
    /// `--tsv`: its claims, a tab between fields.
    Tsv,
    /// `--json`.
    Json,
    /// `--html`: one page.
    Html,
}

/// The words of `family`.
#[derive(Clone, Copy)]
pub struct FamilyWords<'a> {
    /// `--books`: the books.
    pub books: &'a str,
    /// `--family`: its cardholder id, as it was written.
    pub family: &'a str,
    /// `--person`: the person whose claims are shown only, as it was written.
    pub person: Option<&'a str>,
    /// `--sheet`: the plan sheet with its limits.
    pub sheet: Option<&'a str>,
    pub form: FamilyForm,
}
