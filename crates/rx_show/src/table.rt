ghost use Rattle.std.specs.Prelude.{◌≡◌, ◌++◌, ◌∷◌, [], IfOk};
ghost use Rattle.std.specs.Fmt.{decimal};
ghost use Rattle.std.specs.List.{join_with_byte};
ghost use Rattle.rx_print.specs.CodeList.{code_list};
ghost use Rattle.rx_print.specs.Page.{Writes};
ghost use Rattle.rx_show.specs.Table.{body_rows, cells_of, heading, rejected_cells, row, shown_table, transaction_rows};

mod cells;

use cells::put_transaction;
use rx_d0_values::{Body, Codes, Heard, Transaction, Transmission};
use rx_fields::Memory;
use rx_print::Page;
use std::alloc::Global;

/// A table of the transactions and rejected headers of transmissions in file order, with a tab between each two cells
/// (docs/CLI.md, "show"). Quantities are in thousandths, amounts in cents.
pub fn show_table(alloc: Global, transmissions: &[Transmission]) -> Result<Vec<u8>, Memory>
    ensures { IfOk result (λ text. text.items ≡ shown_table transmissions.now) }
{
    let mut page = Page::new(alloc);
    put_heading(&mut page);
    for (before, transmission) in transmissions.iter().enumerate() {
        put_body(&mut page, before + 1, &transmission.body);
    }
    page.into_bytes()
}

fn put_heading(page: &mut Page)
    ensures { Writes page.old page.new heading }
{
    page.put(
        b"record\tnth\tkind\tprovider\tprescription\tdate\tfamily\tperson\tproduct\tquantity\tdays\tD9\tDC\tDQ\tDU\tcodes\n",
    );
}

// The rows of the record at a place.
fn put_body(page: &mut Page, place: usize, body: &Body)
    ensures { Writes page.old page.new (body_rows place body.now) }
{
    match body {
        Body::Rejected(rejected) => put_rejected(page, place, &rejected.codes),
        Body::Heard(heard) => put_transactions(page, place, heard),
    }
}

#[tactic(auto, using(std::proofs::Common::append_assoc), unfolding(crate::specs::Table::row))]
fn put_rejected(page: &mut Page, place: usize, why: &Codes)
    ensures { Writes page.old page.new (row place 0 (rejected_cells (code_list why.now))) }
{
    put_place(page, place, 0);
    page.put(b"\trejected\t\t\t\t\t\t\t\t\t\t\t\t\t");
    page.codes(why);
    page.put(b"\n");
}

fn put_transactions(page: &mut Page, place: usize, heard: &Heard)
    ensures { Writes page.old page.new (transaction_rows place heard.now 1 heard.now.list) }
{
    for (before, transaction) in heard.list.as_slice().iter().enumerate() {
        put_row(page, place, before + 1, heard, transaction);
    }
}

// The row of the nth transaction of the record at a place.
#[tactic(auto, using(std::proofs::Common::append_assoc), unfolding(crate::specs::Table::row))]
fn put_row(page: &mut Page, place: usize, nth: usize, heard: &Heard, transaction: &Transaction)
    ensures { Writes page.old page.new (row place nth (cells_of heard.now transaction.now)) }
{
    put_place(page, place, nth);
    put_transaction(page, heard, transaction);
    page.put(b"\n");
}

// The record's place in the batch and the transaction's place in the record.
#[tactic(auto, using(std::proofs::Common::append_assoc))]
fn put_place(page: &mut Page, place: usize, nth: usize)
    ensures { Writes page.old page.new (join_with_byte 9 (decimal place ∷ decimal nth ∷ [])) }
{
    page.number(place as u128);
    page.put(b"\t");
    page.number(nth as u128);
}
