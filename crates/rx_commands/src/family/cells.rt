ghost use Rattle.std.specs.Prelude.{◌≡◌};
ghost use Rattle.rx_commands.specs.FamilyCells.{cell, is_number, left_cell, name_of, names_of_reached, reached_cell};
ghost use Rattle.rx_print.specs.Page.{Writes};

use crate::family::sums::Claim;
use rx_fields::date_write;
use rx_print::Page;

/// What a table says of a family's claim.
#[derive(Clone, Copy)]
pub(crate) enum Column {
    Date,
    Person,
    Prescription,
    Provider,
    Product,
    Quantity,
    Days,
    Allowed,
    Deductible,
    Copay,
    Coinsurance,
    MemberPays,
    PlanPays,
    Authorization,
    DeductibleSum,
    FamilyDeductibleSum,
    OutOfPocketSum,
    DeductibleLeft,
    FamilyDeductibleLeft,
    OutOfPocketLeft,
    Reached,
}

/// The columns but the first, in order.
pub(crate) const OTHERS: [Column; 20] = [
    Column::Person,
    Column::Prescription,
    Column::Provider,
    Column::Product,
    Column::Quantity,
    Column::Days,
    Column::Allowed,
    Column::Deductible,
    Column::Copay,
    Column::Coinsurance,
    Column::MemberPays,
    Column::PlanPays,
    Column::Authorization,
    Column::DeductibleSum,
    Column::FamilyDeductibleSum,
    Column::OutOfPocketSum,
    Column::DeductibleLeft,
    Column::FamilyDeductibleLeft,
    Column::OutOfPocketLeft,
    Column::Reached,
];

impl Column {
    /// The column's name, in lower case.
    pub(crate) fn name(self) -> &'static [u8]
        ensures { result.now ≡ name_of self }
    {
        match self {
            Column::Date => b"date",
            Column::Person => b"person",
            Column::Prescription => b"prescription",
            Column::Provider => b"provider",
            Column::Product => b"product",
            Column::Quantity => b"quantity",
            Column::Days => b"days",
            Column::Allowed => b"allowed",
            Column::Deductible => b"deductible",
            Column::Copay => b"copay",
            Column::Coinsurance => b"coinsurance",
            Column::MemberPays => b"member_pays",
            Column::PlanPays => b"plan_pays",
            Column::Authorization => b"authorization",
            Column::DeductibleSum => b"deductible_sum",
            Column::FamilyDeductibleSum => b"family_deductible_sum",
            Column::OutOfPocketSum => b"out_of_pocket_sum",
            Column::DeductibleLeft => b"deductible_left",
            Column::FamilyDeductibleLeft => b"family_deductible_left",
            Column::OutOfPocketLeft => b"out_of_pocket_left",
            Column::Reached => b"reached",
        }
    }

    // Whether its cells are numbers.
    pub(crate) fn is_number(self) -> bool
        ensures { result ≡ is_number self }
    {
        !matches!(
            self,
            Column::Date
                | Column::Person
                | Column::Provider
                | Column::Product
                | Column::Authorization
                | Column::Reached
        )
    }
}

/// Writes a claim's cell of a column.
pub(crate) fn put_cell(page: &mut Page, column: Column, claim: &Claim)
    ensures { Writes page.old page.new (cell column claim.now) }
{
    let row = &claim.row;
    let amounts = row.pricing.amounts();
    match column {
        Column::Date => page.put(&date_write(row.key.date)),
        Column::Person => page.put(row.person.bytes()),
        Column::Prescription => page.number(u128::from(row.key.reference.get())),
        Column::Provider => page.put(row.key.provider.bytes()),
        Column::Product => page.put(&row.product.digits()),
        Column::Quantity => page.number(u128::from(row.quantity.get())),
        Column::Days => page.number(u128::from(row.days.get())),
        Column::Allowed => page.number(u128::from(
            amounts.ingredient_cost + amounts.dispensing_fee,
        )),
        Column::Deductible => page.number(u128::from(amounts.deductible)),
        Column::Copay => page.number(u128::from(amounts.copay)),
        Column::Coinsurance => page.number(u128::from(amounts.coinsurance)),
        Column::MemberPays => page.number(u128::from(row.pricing.patient_pay())),
        Column::PlanPays => page.number(u128::from(row.pricing.total_paid())),
        Column::Authorization => page.authorization(row.number),
        Column::DeductibleSum => page.number(claim.deductible.sum),
        Column::FamilyDeductibleSum => page.number(claim.family_deductible.sum),
        Column::OutOfPocketSum => page.number(claim.out_of_pocket.sum),
        Column::DeductibleLeft => put_left(page, claim.deductible.left),
        Column::FamilyDeductibleLeft => put_left(page, claim.family_deductible.left),
        Column::OutOfPocketLeft => put_left(page, claim.out_of_pocket.left),
        Column::Reached => page.put(reached_names(claim)),
    }
}

fn put_left(page: &mut Page, left: Option<u64>)
    ensures { Writes page.old page.new (left_cell left) }
{
    match left {
        Some(cents) => page.number(u128::from(cents)),
        None => {}
    }
}

/// The names of the limits that a claim reaches, with a comma between each two.
pub(crate) fn reached_names(claim: &Claim) -> &'static [u8]
    ensures { result.now ≡ reached_cell claim.now }
{
    names_of_reached(
        claim.deductible.reaches,
        claim.family_deductible.reaches,
        claim.out_of_pocket.reaches,
    )
}

fn names_of_reached(deductible: bool, family: bool, out_of_pocket: bool) -> &'static [u8]
    ensures { result.now ≡ names_of_reached deductible family out_of_pocket }
{
    match (deductible, family, out_of_pocket) {
        (false, false, false) => b"",
        (true, false, false) => b"deductible",
        (false, true, false) => b"family_deductible",
        (false, false, true) => b"out_of_pocket",
        (true, true, false) => b"deductible,family_deductible",
        (true, false, true) => b"deductible,out_of_pocket",
        (false, true, true) => b"family_deductible,out_of_pocket",
        (true, true, true) => b"deductible,family_deductible,out_of_pocket",
    }
}
