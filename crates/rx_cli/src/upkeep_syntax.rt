//! The command lines of the commands that keep books up.
ghost use Rattle.clap.specs.Words.{App};
ghost use Rattle.rx_cli.specs.Syntax.{Draws, age_line, family_line, members_line, with_aged, with_upkeep};

use crate::draft::Draft;
use crate::syntax::draft;
use std::alloc::Global;

const SAFE: &str = "Write to temporary files, renamed when all is done";

/// The subcommand `members`.
pub(crate) fn members<'a>(alloc: Global) -> Draft<'a>
    ensures { Draws members_line result }
{
    draft(alloc, "members", "Loads a table of members into books")
        .optional("books", "FILE", "Opening books")
        .optional("period", "FIRST-LAST", "Period of a plan's first books")
        .file("members", "Table of members")
        .file("books-out", "End books to write")
        .optional(
            "report",
            "FILE",
            "Table to write of what each member came to",
        )
        .flag("safe", SAFE)
}

// A line with what `age` takes: the books, the day, the period and the refill percentage.
fn takes_aged<'a>(line: Draft<'a>) -> Draft<'a>
    ensures { (app : App) → Draws app line.entry → Draws (with_aged app) result }
{
    line.file("books", "Opening books")
        .option("before", "DAY", "First day whose claims stay, CCYYMMDD")
        .optional("period", "FIRST-LAST", "New period of the totals")
        .optional("sheet", "FILE", "Plan sheet, for its refill percentage")
        .optional(
            "refill-percent",
            "N",
            "Refill percentage, in place of a sheet",
        )
}

/// The subcommand `age`.
pub(crate) fn age<'a>(alloc: Global) -> Draft<'a>
    ensures { Draws age_line result }
{
    let age = draft(alloc, "age", "Takes claims before a day out of books");
    takes_aged(age)
        .file("books-out", "End books to write")
        .file("dropped", "Claims that leave, to write")
        .flag("safe", SAFE)
}

/// The subcommand `family`.
pub(crate) fn family<'a>(alloc: Global) -> Draft<'a>
    ensures { Draws family_line result }
{
    draft(alloc, "family", "Shows a family's members, claims and sums")
        .file("books", "Books")
        .option("family", "ID", "Cardholder ID of the family")
        .optional("person", "P", "Only this person's claims")
        .optional("sheet", "FILE", "Plan sheet, for its limits")
        .flag("tsv", "Its claims as a table of tabs")
        .flag("json", "JSON")
        .flag("html", "An HTML page")
}

/// A line with the subcommands that keep books up, and the one that shows a family of them.
pub(crate) fn takes_upkeep<'a>(alloc: Global, line: Draft<'a>) -> Draft<'a>
    ensures { (app : App) → Draws app line.entry → Draws (with_upkeep app) result }
{
    line.subcommand(members(alloc))
        .subcommand(age(alloc))
        .subcommand(family(alloc))
}
