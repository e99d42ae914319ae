//! The words of the commands that keep books up, read.
ghost use Rattle.std.specs.Prelude.{◌≡◌, IfNone, IfSome};
ghost use Rattle.clap.specs.Words.{found_of, rows_of};
ghost use Rattle.rx_cli.specs.Asked.{HoldsAge, HoldsFamily, HoldsMembers, HoldsOrigin, HoldsPercent};
ghost use Rattle.rx_cli.specs.Asked.{NoneHolds, family_form_in};

use crate::options::{flag, text};
use crate::upkeep::{AgeWords, FamilyForm, FamilyWords, MembersWords, Origin, Percent};
use clap::ArgMatches;

fn origin<'a>(found: &ArgMatches<'a>) -> Option<Origin<'a>>
    ensures some { IfSome result (HoldsOrigin (rows_of (found_of found.now))) }
    ensures none { IfNone result (NoneHolds (HoldsOrigin (rows_of (found_of found.now)))) }
{
    match (text(found, "books"), text(found, "period")) {
        (Some(books), None) => Some(Origin::Books(books)),
        (None, Some(period)) => Some(Origin::Period(period)),
        (Some(_), Some(_)) | (None, None) => None,
    }
}

/// What `members` takes: opening books or a period, and not both.
pub(crate) fn members<'a>(found: &ArgMatches<'a>) -> Option<MembersWords<'a>>
    ensures some { IfSome result (HoldsMembers (rows_of (found_of found.now))) }
    ensures none { IfNone result (NoneHolds (HoldsMembers (rows_of (found_of found.now)))) }
{
    let origin = origin(found)?;
    let members = text(found, "members")?;
    let books_out = text(found, "books-out")?;
    Some(MembersWords {
        origin,
        members,
        books_out,
        report: text(found, "report"),
        safe: flag(found, "safe"),
    })
}

fn percent<'a>(found: &ArgMatches<'a>) -> Option<Percent<'a>>
    ensures some { IfSome result (HoldsPercent (rows_of (found_of found.now))) }
    ensures none { IfNone result (NoneHolds (HoldsPercent (rows_of (found_of found.now)))) }
{
    let number = text(found, "refill-percent");
    match text(found, "sheet") {
        Some(_) if number.is_some() => None,
        Some(sheet) => Some(Percent::Sheet(sheet)),
        None => number.map(Percent::Number),
    }
}

/// What `age` takes: a sheet or a percentage, and not both.
pub(crate) fn age<'a>(found: &ArgMatches<'a>) -> Option<AgeWords<'a>>
    ensures some { IfSome result (HoldsAge (rows_of (found_of found.now))) }
    ensures none { IfNone result (NoneHolds (HoldsAge (rows_of (found_of found.now)))) }
{
    let books = text(found, "books")?;
    let before = text(found, "before")?;
    let percent = percent(found)?;
    let books_out = text(found, "books-out")?;
    let dropped = text(found, "dropped")?;
    Some(AgeWords {
        books,
        before,
        period: text(found, "period"),
        percent,
        books_out,
        dropped,
        safe: flag(found, "safe"),
    })
}

fn family_form(found: &ArgMatches<'_>) -> Option<FamilyForm>
    ensures { result ≡ family_form_in (rows_of (found_of found.now)) }
{
    match (flag(found, "tsv"), flag(found, "json"), flag(found, "html")) {
        (false, false, false) => Some(FamilyForm::Columns),
        (true, false, false) => Some(FamilyForm::Tsv),
        (false, true, false) => Some(FamilyForm::Json),
        (false, false, true) => Some(FamilyForm::Html),
        _ => None,
    }
}

/// What `family` takes: a family in one form.
pub(crate) fn family<'a>(found: &ArgMatches<'a>) -> Option<FamilyWords<'a>>
    ensures some { IfSome result (HoldsFamily (rows_of (found_of found.now))) }
    ensures none { IfNone result (NoneHolds (HoldsFamily (rows_of (found_of found.now)))) }
{
    let books = text(found, "books")?;
    let family = text(found, "family")?;
    let form = family_form(found)?;
    Some(FamilyWords {
        books,
        family,
        person: text(found, "person"),
        sheet: text(found, "sheet"),
        form,
    })
}
