ghost use Rattle.std.specs.Prelude.{◌≡◌, ◌++◌, ◌∷◌, IfOk};
ghost use Rattle.rx_print.specs.Page.{Writes};
ghost use Rattle.rx_report.specs.Cells.{cell, cents_of};
ghost use Rattle.rx_report.specs.declared.column.Column.TheVariants.{Nth, Place};
ghost use Rattle.rx_report_text.specs.Shown.{amount_text, heading_of, is_amount, member_text, quantity_text, shown_cell};

use rx_fields::{Id, Memory, Person};
use rx_print::{Page, dashed_digits};
use rx_report::{Column, Dispensed, Line, cents_of, put_cell};
use std::alloc::Global;

/// A column of a report for people. The provider stands above its lines; the last four are on pages only.
#[derive(Clone, Copy)]
pub enum Shown {
    /// The record's place, and the answer's in its reply, as `4.1`.
    Record,
    /// The answer's status.
    Answer,
    /// The reject codes.
    Codes,
    /// The prescription reference number.
    Prescription,
    /// The date of service, as `2026-03-01`.
    Date,
    /// The family and the person, as `F1/02`.
    Member,
    /// Ingredient cost and dispensing fee.
    Allowed,
    /// What is applied to the deductible.
    Deductible,
    /// The copay.
    Copay,
    /// The coinsurance.
    Coinsurance,
    /// What the member pays.
    MemberPays,
    /// What the plan pays; below zero where it is given back.
    PlanPays,
    /// The product.
    Product,
    /// The quantity, as `30` or `0.500`.
    Quantity,
    /// The days supply.
    Days,
    /// The authorization number.
    Authorization,
}

/// The columns of aligned text, in order.
pub const COLUMNS: [Shown; 12] = [
    Shown::Record,
    Shown::Answer,
    Shown::Codes,
    Shown::Prescription,
    Shown::Date,
    Shown::Member,
    Shown::Allowed,
    Shown::Deductible,
    Shown::Copay,
    Shown::Coinsurance,
    Shown::MemberPays,
    Shown::PlanPays,
];

impl Shown {
    /// The column's heading.
    pub fn heading(self) -> &'static [u8]
        ensures { result.now ≡ heading_of self }
    {
        match self {
            Shown::Record => b"record",
            Shown::Answer => b"ans",
            Shown::Codes => b"codes",
            Shown::Prescription => b"rx",
            Shown::Date => b"date",
            Shown::Member => b"member",
            Shown::Allowed => b"allowed",
            Shown::Deductible => b"deduct.",
            Shown::Copay => b"copay",
            Shown::Coinsurance => b"coins.",
            Shown::MemberPays => b"member pays",
            Shown::PlanPays => b"plan pays",
            Shown::Product => b"product",
            Shown::Quantity => b"quantity",
            Shown::Days => b"days",
            Shown::Authorization => b"authorization",
        }
    }

    /// Whether its cells are amounts.
    pub fn is_amount(self) -> bool
        ensures { result ≡ is_amount self }
    {
        match self {
            Shown::Record
            | Shown::Answer
            | Shown::Codes
            | Shown::Prescription
            | Shown::Date
            | Shown::Member
            | Shown::Product
            | Shown::Quantity
            | Shown::Days
            | Shown::Authorization => false,
            _ => true,
        }
    }
}

/// What stands for an answer in a column, as its bytes are; blank where it isn't known. Amounts are in dollars and cents.
pub fn shown_cell(alloc: Global, shown: Shown, line: &Line) -> Result<Vec<u8>, Memory>
    ensures { IfOk result (λ text. text.items ≡ shown_cell shown line.now) }
{
    let mut page = Page::new(alloc);
    put_shown(&mut page, shown, line);
    page.into_bytes()
}

fn put_shown(page: &mut Page, shown: Shown, line: &Line)
    ensures { Writes page.old page.new (shown_cell shown line.now) }
{
    match shown {
        Shown::Record => put_record(page, line),
        Shown::Answer => put_cell(page, Column::Status, line),
        Shown::Codes => put_cell(page, Column::Codes, line),
        Shown::Prescription => put_cell(page, Column::Prescription, line),
        Shown::Date => page.put(&dashed_digits(line.date)),
        Shown::Member => put_member(page, &line.member),
        Shown::Allowed => put_amount(page, Column::Allowed, line),
        Shown::Deductible => put_amount(page, Column::Deductible, line),
        Shown::Copay => put_amount(page, Column::Copay, line),
        Shown::Coinsurance => put_amount(page, Column::Coinsurance, line),
        Shown::MemberPays => put_amount(page, Column::Member, line),
        Shown::PlanPays => put_amount(page, Column::Plan, line),
        Shown::Product => put_cell(page, Column::Product, line),
        Shown::Quantity => put_quantity(page, line.dispensed),
        Shown::Days => put_cell(page, Column::Days, line),
        Shown::Authorization => put_cell(page, Column::Authorization, line),
    }
}

fn put_record(page: &mut Page, line: &Line)
    ensures { Writes page.old page.new (cell Place line.now ++ 46 ∷ cell Nth line.now) }
{
    put_cell(page, Column::Place, line);
    page.put(b".");
    put_cell(page, Column::Nth, line);
}

fn put_member(page: &mut Page, member: &Option<(Id, Person)>)
    ensures { Writes page.old page.new (member_text member.now) }
{
    match member {
        Some((family, person)) => put_known_member(page, family, person),
        None => {}
    }
}

fn put_known_member(page: &mut Page, family: &Id, person: &Person)
    ensures { Writes page.old page.new (family.now ++ 47 ∷ person.now) }
{
    page.put(family.bytes());
    page.put(b"/");
    page.put(person.bytes());
}

fn put_quantity(page: &mut Page, dispensed: Option<Dispensed>)
    ensures { Writes page.old page.new (quantity_text dispensed) }
{
    match dispensed {
        Some(dispensed) => page.thousandths(dispensed.quantity.get()),
        None => {}
    }
}

fn put_amount(page: &mut Page, column: Column, line: &Line)
    ensures { Writes page.old page.new (amount_text (cents_of column line.now.answer)) }
{
    match cents_of(column, &line.answer) {
        Some(cents) => page.signed_dollars(cents),
        None => {}
    }
}
