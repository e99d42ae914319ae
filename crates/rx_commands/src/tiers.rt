ghost use Rattle.std.specs.Prelude.{◌≡◌, IfOk};
ghost use Rattle.std.specs.Option.{option_copied, option_map};
ghost use Rattle.rx_fields.specs.Digits.{digits_text};
ghost use Rattle.rx_commands.specs.Tiers.{table_of, table_of_text, tier_among, tier_in, tier_name, tier_of, tier_text};
ghost use Rattle.toml.specs.Data.{get_member};
ghost use Rattle.toml.specs.View.{table_view, view};

use rx_d0_values::Transaction;
use rx_fields::{Memory, Product};
use std::alloc::Global;
use std::str;
use toml::{Table, Value};

/// The tiers in which a plan sheet's text has its products, by their names (docs/FORMATS.md, "Plan sheet").
#[derive(Drop)]
pub(crate) struct Tiers {
    sheet: Option<Table>,
}

impl Tiers {
    /// Those of a text. One that is no TOML document names none.
    pub(crate) fn read(alloc: Global, text: &[u8]) -> Result<Tiers, Memory>
        ensures { IfOk result (λ tiers. table_of tiers ≡ table_of_text text.now) }
    {
        match toml::table_from_slice(alloc, text) {
            Ok(sheet) => Ok(Tiers { sheet: Some(sheet) }),
            Err(error) => {
                if error.is_memory() {
                    Err(Memory)
                } else {
                    Ok(Tiers { sheet: None })
                }
            }
        }
    }

    /// The name of the tier of the product that is billed. Each product that an accepted sheet lists has one.
    pub(crate) fn of(&self, transaction: &Transaction) -> Option<&str>
        ensures { option_copied result ≡ tier_of (table_of self.now) transaction.now }
    {
        match transaction {
            Transaction::Bill(bill) => self.name(bill.parts().product),
            Transaction::Reverse(_) | Transaction::Faulty(_) => None,
        }
    }

    /// The name of a product's tier, as its entry has it.
    pub(crate) fn name(&self, product: Product) -> Option<&str>
        ensures { option_copied result ≡ tier_name (table_of self.now) product }
    {
        tier_in(self.sheet.as_ref()?, product)
    }
}

#[tactic(auto, unfolding(rx_sheet::specs::Names::name_of))]
fn tier_in(sheet: &Table, product: Product) -> Option<&str>
    ensures { option_copied result ≡ tier_in product (table_view sheet.now) }
{
    let drugs = look_up(sheet, "drugs")?;
    tier_among(drugs.as_table()?, product)
}

// In the entry of a product among these.
fn tier_among(drugs: &Table, product: Product) -> Option<&str>
    ensures { option_copied result ≡ tier_among product (table_view drugs.now) }
{
    let drug = entry_of(drugs, product)?;
    tier_text(drug.as_table()?)
}

#[tactic(auto, unfolding(rx_sheet::specs::Names::name_of))]
fn tier_text(drug: &Table) -> Option<&str>
    ensures { option_copied result ≡ tier_text (table_view drug.now) }
{
    look_up(drug, "tier")?.as_str()
}

// The entry of a product, under its digits.
fn entry_of(drugs: &Table, product: Product) -> Option<&Value>
    ensures { option_map (λ v. view v.now) result ≡ get_member (digits_text 11 product) (table_view drugs.now) }
{
    let digits = product.digits();
    match str::from_utf8(&digits) {
        Ok(name) => look_up(drugs, name),
        Err(_) => None,
    }
}

fn look_up<'t>(table: &'t Table, name: &str) -> Option<&'t Value>
    ensures { option_map (λ v. view v.now) result ≡ get_member name.now (table_view table.now) }
{
    table.get(name)
}
