ghost use Rattle.std.specs.Prelude.{◌≡◌};
ghost use Rattle.rx_sheet.specs.Plans.{plan_key_name};

/// A key of a plan's table in a plans file, in the order in which they are looked at (docs/FORMATS.md, "Plans file").
#[derive(Clone, Copy, Debug, PartialEq, Eq)]
pub enum PlanKey {
    /// The plan's name in reports and messages.
    Name,
    /// The plan sheet.
    Sheet,
    /// The opening books.
    Books,
    /// The end books to write.
    BooksOut,
    /// The plan's own response file; it may be left out.
    Response,
    /// The plan's own settlement; it may be left out.
    Settlement,
}

impl PlanKey {
    /// How the key is written.
    #[tactic(auto, unfolding(crate::specs::Plans::plan_key_name))]
    pub fn name(self) -> &'static str
        ensures { result.now ≡ plan_key_name self }
    {
        match self {
            PlanKey::Name => "name",
            PlanKey::Sheet => "sheet",
            PlanKey::Books => "books",
            PlanKey::BooksOut => "books_out",
            PlanKey::Response => "response",
            PlanKey::Settlement => "settlement",
        }
    }
}
