ghost use Rattle.std.specs.Prelude.{◌≡◌, Ok};
ghost use Rattle.toml.specs.View.{table_view};
ghost use Rattle.rx_ledger.specs.Plan.{AreFigures};
ghost use Rattle.rx_sheet.specs.Drugs.{AreListed};
ghost use Rattle.rx_sheet.specs.Fault.{Gives, GivesAs};
ghost use Rattle.rx_sheet.specs.SheetText.{plan_of, sheet_of_text, tree_of};

use crate::drugs::drugs;
use crate::fault::SheetFault;
use crate::figures::{family_deductible, figures};
use rx_ledger::{AddFault, Figures, Listed, Sheet};
use std::alloc::Global;
use toml::Table;

/// The plan sheet of a text, or the first fault by the keys' numbers (docs/FORMATS.md, "Plan sheet"). Memory may
/// stand in the place of any answer.
#[tactic(auto, unfolding(crate::specs::SheetText::sheet_of_text, crate::specs::SheetText::sheet_in))]
pub fn read_sheet(alloc: Global, text: &[u8]) -> Result<Sheet, SheetFault>
    ensures { Gives result (sheet_of_text text.now) }
{
    let tree = tree_of(alloc, text)?;
    let figures = figures(&tree)?;
    let drugs = drugs(alloc, &tree)?;
    let family_deductible = family_deductible(&tree)?;
    let figures = Figures {
        family_deductible,
        ..figures
    };
    sheet_of(alloc, figures, drugs.as_slice())
}

/// The table of a TOML document.
#[tactic(auto, unfolding(crate::specs::SheetText::tree_of))]
pub(crate) fn tree_of(alloc: Global, text: &[u8]) -> Result<Table, SheetFault>
    ensures { GivesAs table_view result (tree_of text.now) }
{
    match toml::table_from_slice(alloc, text) {
        Ok(tree) => Ok(tree),
        Err(error) => {
            if error.is_memory() {
                Err(SheetFault::Memory)
            } else {
                Err(SheetFault::NotToml)
            }
        }
    }
}

// The sheet of figures and drugs that are within their ranges, the drugs ascending by product.
fn sheet_of(alloc: Global, figures: Figures, drugs: &[Listed]) -> Result<Sheet, SheetFault>
    requires figures { AreFigures figures }
    requires drugs { AreListed drugs.now }
    ensures { Gives result (Ok (plan_of figures drugs.now)) }
{
    let mut sheet = Sheet::new(alloc, figures)?;
    for listed in drugs {
        match sheet.add(listed.product, listed.drug) {
            Ok(()) => {}
            Err(AddFault::Memory) => return Err(SheetFault::Memory),
            Err(AddFault::Range) => unreachable!(),
            Err(AddFault::There) => unreachable!(),
        }
    }
    Ok(sheet)
}
