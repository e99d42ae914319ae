//! A family from the texts of books and a plan sheet to a text.
ghost use Rattle.std.specs.Prelude.{◌≡◌, IfErr, IfOk, option_map};
ghost use Rattle.std.specs.Option.{option_copied};
ghost use Rattle.rx_fields.specs.Text.{id_of};
ghost use Rattle.rx_sheet.specs.Fault.{Gives};
ghost use Rattle.rx_commands.specs.Families.{summed_over};
ghost use Rattle.rx_commands.specs.FamilyShown.{IsAsked, IsFamilyShown, IsNoFamilyShown, IsPortion, IsPortionOf};
ghost use Rattle.rx_commands.specs.FamilyShown.{family_text, figures_of, limits_under, period_under};
ghost use Rattle.rx_print.specs.Page.{Writes};

use crate::family::columns::put_page;
use crate::family::families::{Family, family_of, part_of};
use crate::family::page::{FamilyOrigin, put_html};
use crate::family::sums::Limits;
use crate::family::tables::{put_family, put_tsv};
use rx_books_store::Books;
use rx_fields::{Id, Memory, Period, Person};
use rx_ledger::Figures;
use rx_print::Page;
use rx_sheet::{SheetFault, read_sheet};
use rx_switch::SwitchFault;
use std::alloc::Global;
use std::thread::Threads;

/// Which family is asked for. Blanks at the end of an id don't count.
#[derive(Clone, Copy)]
pub struct FamilyAsked<'a> {
    /// Its cardholder id.
    pub family: &'a [u8],
    /// The person code of the one whose claims are shown only.
    pub person: Option<&'a [u8]>,
}

/// What a family is written as.
#[derive(Clone, Copy)]
pub enum FamilyForm<'a> {
    /// Aligned columns, amounts in dollars.
    Columns,
    /// A table of tabs: its claims, amounts in cents.
    Tsv,
    /// One object of JSON, amounts in cents.
    Json,
    /// An HTML page, which says this origin at its head.
    Html(FamilyOrigin<'a>),
}

/// What `family` prints of books: a family, or one person of it, in a form; None where the books list no such member, or an id
/// is none. Under a plan sheet the sums are of its period, and what is left of its limits is shown. The books are read in this
/// many parts, each by a thread of its own.
///
/// # Errors
///
/// The first, in this order, of Sheet and Books; Memory may stand in place of any other answer.
pub fn show_family<R: Threads + Sync>(
    rt: &R,
    alloc: Global,
    parts: usize,
    sheet: Option<&[u8]>,
    books: &[u8],
    asked: &FamilyAsked<'_>,
    form: FamilyForm<'_>,
) -> Result<Option<Vec<u8>>, SwitchFault>
    ensures shown { IfOk result (λ text. IsFamilyShown (option_copied sheet.entry) books.now asked.now.family.now
        (option_copied asked.now.person) form.entry (option_map (λ t. t.items) text)) }
    ensures refused { IfErr result (IsNoFamilyShown (option_copied sheet.entry) books.now) }
{
    let figures = figures_of(alloc, sheet)?;
    let books = Books::read_in_parts(rt, alloc, parts, books)?;
    let portion = portion_of(alloc, books, figures, asked)?;
    let text = text_of(alloc, &portion, form);
    drop(portion);
    Ok(text?)
}

// The figures of a sheet, if one is given.
fn figures_of(alloc: Global, sheet: Option<&[u8]>) -> Result<Option<Figures>, SheetFault>
    ensures { Gives result (figures_of (option_copied sheet.entry)) }
{
    let Some(text) = sheet else {
        return Ok(None);
    };
    let sheet = read_sheet(alloc, text)?;
    Ok(Some(*sheet.figures()))
}

// The family that is asked for, under the limits of a plan.
fn portion_of(
    alloc: Global,
    books: Books,
    figures: Option<Figures>,
    asked: &FamilyAsked<'_>,
) -> Result<Option<Family>, Memory>
    ensures { IfOk result (IsAsked (limits_under figures) (summed_over (period_under figures) books)
        (id_of 20 asked.now.family.now) (option_copied asked.now.person)) }
{
    let Ok(id) = Id::new(asked.family, 20) else {
        return Ok(None);
    };
    let (limits, period) = (limits_under(&figures), period_under(&figures));
    let found = family_of(alloc, books, &id, &limits, period)?;
    portion_in(alloc, found, asked.person)
}

fn limits_under(figures: &Option<Figures>) -> Limits
    ensures { result ≡ limits_under figures.now }
{
    match figures {
        Some(figures) => Limits::of(figures),
        None => Limits::none(),
    }
}

fn period_under(figures: &Option<Figures>) -> Option<Period>
    ensures { result ≡ period_under figures.now }
{
    match figures {
        Some(figures) => Some(figures.period),
        None => None,
    }
}

// The part of a family, if one was found, that is asked for.
fn portion_in(
    alloc: Global,
    found: Option<Family>,
    person: Option<&[u8]>,
) -> Result<Option<Family>, Memory>
    ensures { IfOk result (IsPortionOf (option_copied person.entry) found) }
{
    match found {
        Some(family) => portion(alloc, family, person),
        None => Ok(None),
    }
}

fn portion(alloc: Global, family: Family, person: Option<&[u8]>) -> Result<Option<Family>, Memory>
    ensures { IfOk result (IsPortion (option_copied person.entry) family) }
{
    let Some(person) = person else {
        return Ok(Some(family));
    };
    match Person::new(person) {
        Ok(person) => part_of(alloc, family, &person),
        Err(_) => Ok(None),
    }
}

fn text_of(
    alloc: Global,
    portion: &Option<Family>,
    form: FamilyForm<'_>,
) -> Result<Option<Vec<u8>>, Memory>
    ensures { IfOk result (λ text. option_map (λ t. t.items) text ≡ option_map (family_text form.entry) portion.now) }
{
    match portion {
        Some(family) => Ok(Some(family_text(alloc, family, form)?)),
        None => Ok(None),
    }
}

/// The text of a family.
pub fn family_text(alloc: Global, family: &Family, form: FamilyForm<'_>) -> Result<Vec<u8>, Memory>
    ensures { IfOk result (λ text. text.items ≡ family_text form.entry family.now) }
{
    let mut page = Page::new(alloc);
    put_text(&mut page, family, form);
    page.into_bytes()
}

fn put_text(page: &mut Page, family: &Family, form: FamilyForm<'_>)
    ensures { Writes page.old page.new (family_text form.entry family.now) }
{
    match form {
        FamilyForm::Columns => put_page(page, family),
        FamilyForm::Tsv => put_tsv(page, &family.claims),
        FamilyForm::Json => put_family(page, family),
        FamilyForm::Html(origin) => put_html(page, &origin, family),
    }
}
