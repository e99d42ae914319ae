ghost use Rattle.std.specs.Prelude.{◌≡◌, ◌++◌, Some};
ghost use Rattle.std.specs.Fmt.{decimal};
ghost use Rattle.std.specs.List.{flat_map};
ghost use Rattle.rx_fields.specs.Digits.{digits_text};
ghost use Rattle.rx_print.specs.Page.{Writes};
ghost use Rattle.rx_show.specs.Table.{after_tab, asked_cells, bill_cells, cells_of, charge_cells, faulty_cells, key_cells, known};
ghost use Rattle.rx_show.specs.Table.{measure_cells, reversal_cells};

use rx_d0_values::{BillParts, Faulty, Heard, Reversal, Transaction};
use rx_fields::{Cents, Product, Reference, date_write};
use rx_print::Page;

/// Puts a transaction's cells, each after a tab.
pub(crate) fn put_transaction(page: &mut Page, heard: &Heard, transaction: &Transaction)
    ensures { Writes page.old page.new (flat_map after_tab (cells_of heard.now transaction.now)) }
{
    match transaction {
        Transaction::Bill(bill) => put_bill(page, heard, bill.parts()),
        Transaction::Reverse(reversal) => put_reversal(page, heard, reversal),
        Transaction::Faulty(faulty) => put_faulty(page, heard, faulty),
    }
}

#[tactic(auto, using(std::proofs::Common::append_assoc))]
fn put_bill(page: &mut Page, heard: &Heard, bill: &BillParts)
    ensures { Writes page.old page.new (flat_map after_tab (bill_cells heard.now bill.now)) }
{
    page.put(b"\tbill");
    put_key(page, heard, Some(bill.reference));
    put_cell(page, bill.family.bytes());
    put_cell(page, bill.person.bytes());
    put_asked(page, bill);
}

#[tactic(auto, using(std::proofs::Common::append_assoc))]
fn put_asked(page: &mut Page, bill: &BillParts)
    ensures { Writes page.old page.new (flat_map after_tab (asked_cells bill.now)) }
{
    put_measures(page, bill);
    put_charges(page, bill);
    page.put(b"\t");
}

#[tactic(auto, using(std::proofs::Common::append_assoc))]
fn put_measures(page: &mut Page, bill: &BillParts)
    ensures { Writes page.old page.new (flat_map after_tab (measure_cells bill.now)) }
{
    put_product(page, bill.product);
    put_number(page, bill.quantity.get());
    put_number(page, bill.days.get());
}

#[tactic(auto, using(std::proofs::Common::append_assoc))]
fn put_charges(page: &mut Page, bill: &BillParts)
    ensures { Writes page.old page.new (flat_map after_tab (charge_cells bill.now)) }
{
    put_number(page, bill.ingredient_cost.get());
    put_cents(page, bill.dispensing_fee);
    put_cents(page, bill.usual_charge);
    put_cents(page, bill.gross_amount);
}

#[tactic(auto, using(std::proofs::Common::append_assoc))]
fn put_reversal(page: &mut Page, heard: &Heard, reversal: &Reversal)
    ensures { Writes page.old page.new (flat_map after_tab (reversal_cells heard.now reversal.now)) }
{
    page.put(b"\treverse");
    put_key(page, heard, Some(reversal.reference));
    page.put(b"\t\t");
    put_product(page, reversal.product);
    page.put(b"\t\t\t\t\t\t\t");
}

#[tactic(auto, using(std::proofs::Common::append_assoc))]
fn put_faulty(page: &mut Page, heard: &Heard, faulty: &Faulty)
    ensures { Writes page.old page.new (flat_map after_tab (faulty_cells heard.now faulty.now)) }
{
    page.put(b"\tfaulty");
    put_key(page, heard, faulty.reference);
    page.put(b"\t\t\t\t\t\t\t\t\t\t");
    page.codes(&faulty.codes);
}

// Provider, prescription reference number and date of service.
#[tactic(auto, using(std::proofs::Common::append_assoc))]
fn put_key(page: &mut Page, heard: &Heard, reference: Option<Reference>)
    ensures { Writes page.old page.new (flat_map after_tab (key_cells heard.now reference)) }
{
    put_cell(page, heard.provider.bytes());
    put_reference(page, reference);
    put_cell(page, &date_write(heard.date));
}

fn put_reference(page: &mut Page, reference: Option<Reference>)
    ensures { Writes page.old page.new (after_tab (known reference)) }
{
    match reference {
        Some(reference) => put_number(page, reference.get()),
        None => page.put(b"\t"),
    }
}

fn put_cents(page: &mut Page, cents: Option<Cents>)
    ensures { Writes page.old page.new (after_tab (known cents)) }
{
    match cents {
        Some(cents) => put_number(page, cents.get()),
        None => page.put(b"\t"),
    }
}

fn put_product(page: &mut Page, product: Product)
    ensures { Writes page.old page.new (after_tab (digits_text 11 product)) }
{
    put_cell(page, &product.digits());
}

#[tactic(auto, using(std::proofs::Common::append_assoc))]
fn put_number(page: &mut Page, number: u64)
    ensures { Writes page.old page.new (after_tab (decimal number)) }
{
    page.put(b"\t");
    page.number(u128::from(number));
}

#[tactic(auto, using(std::proofs::Common::append_assoc))]
fn put_cell(page: &mut Page, cell: &[u8])
    ensures { Writes page.old page.new (after_tab cell.now) }
{
    page.put(b"\t");
    page.put(cell);
}
