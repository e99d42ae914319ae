ghost use Rattle.std.specs.Prelude.{◌≡◌, map, string_bytes};
ghost use Rattle.std.specs.Option.{option_map};
ghost use Rattle.toml.specs.View.{items_view, table_view, view};
ghost use Rattle.rx_sheet.specs.Plans.{parts_of, path_at, path_if_there, path_of, plan_in, plan_of_value, plans_from};
ghost use Rattle.rx_sheet.specs.Plans.{plans_in, plans_of_text};
ghost use Rattle.rx_sheet.specs.PlansFault.{PlansGive};

use crate::fault::SheetFault;
use crate::plan_files::PlanFiles;
use crate::plan_key::PlanKey;
use crate::plans_fault::PlansFault;
use crate::sheet_text::tree_of;
use crate::values::look_up;
use std::alloc::Global;
use toml::{Table, Value};

/// The plans of a plans file, in its order, or the first fault (docs/FORMATS.md, "Plans file"). Memory may stand in the
/// place of any answer.
#[tactic(auto, unfolding(crate::specs::Plans::plans_of_text))]
pub fn read_plans(alloc: Global, text: &[u8]) -> Result<Vec<PlanFiles>, PlansFault>
    ensures { PlansGive (λ plans. map parts_of plans.items) result (plans_of_text text.now) }
{
    match tree_of(alloc, text) {
        Ok(tree) => plans(alloc, &tree),
        Err(SheetFault::Memory) => Err(PlansFault::Memory),
        Err(_) => Err(PlansFault::NotToml),
    }
}

// The plans of a table's array.
#[tactic(auto, unfolding(crate::specs::Plans::plans_in))]
fn plans(alloc: Global, tree: &Table) -> Result<Vec<PlanFiles>, PlansFault>
    ensures { PlansGive (λ plans. map parts_of plans.items) result (plans_in (table_view tree.now)) }
{
    let Some(value) = look_up(tree, "plan") else {
        return Err(PlansFault::NoPlans);
    };
    let Some(array) = value.as_array() else {
        return Err(PlansFault::NoPlans);
    };
    let values = array.as_slice();
    if values.len() < 1 {
        return Err(PlansFault::NoPlans);
    }
    plans_of(alloc, values)
}

// Each plan of an array.
fn plans_of(alloc: Global, array: &[Value]) -> Result<Vec<PlanFiles>, PlansFault>
    ensures { PlansGive (λ plans. map parts_of plans.items) result (plans_from 1 (items_view array.now)) }
{
    let mut plans = Vec::with_capacity(alloc, array.len())?;
    let mut nth = 0;
    for value in array {
        nth += 1;
        let plan = plan_of(alloc, nth, value)?;
        plans.push(plan)?;
    }
    Ok(plans)
}

// The nth plan.
#[tactic(auto, unfolding(crate::specs::Plans::plan_of_value))]
fn plan_of(alloc: Global, nth: usize, value: &Value) -> Result<PlanFiles, PlansFault>
    ensures { PlansGive parts_of result (plan_of_value nth (view value.now)) }
{
    match value.as_table() {
        Some(table) => plan_in(alloc, nth, table),
        None => Err(PlansFault::NoTable(nth)),
    }
}

// The nth plan, by its table.
#[tactic(auto, unfolding(crate::specs::Plans::plan_in))]
fn plan_in(alloc: Global, nth: usize, table: &Table) -> Result<PlanFiles, PlansFault>
    ensures { PlansGive parts_of result (plan_in nth (table_view table.now)) }
{
    let name = path_at(alloc, nth, PlanKey::Name, table)?;
    let sheet = path_at(alloc, nth, PlanKey::Sheet, table)?;
    let books = path_at(alloc, nth, PlanKey::Books, table)?;
    let books_out = path_at(alloc, nth, PlanKey::BooksOut, table)?;
    let response = path_if_there(alloc, nth, PlanKey::Response, table)?;
    let settlement = path_if_there(alloc, nth, PlanKey::Settlement, table)?;
    Ok(PlanFiles {
        name,
        sheet,
        books,
        books_out,
        response,
        settlement,
    })
}

// The text at a key of the nth plan, which has to be there.
fn path_at(alloc: Global, nth: usize, key: PlanKey, table: &Table) -> Result<String, PlansFault>
    ensures { PlansGive string_bytes result (path_at nth key (table_view table.now)) }
{
    match look_up(table, key.name()) {
        Some(value) => path_of(alloc, nth, key, value),
        None => Err(PlansFault::Missing(nth, key)),
    }
}

// The same, where the key may be absent.
fn path_if_there(
    alloc: Global,
    nth: usize,
    key: PlanKey,
    table: &Table,
) -> Result<Option<String>, PlansFault>
    ensures { PlansGive (λ path. option_map string_bytes path) result (path_if_there nth key (table_view table.now)) }
{
    match look_up(table, key.name()) {
        Some(value) => Ok(Some(path_of(alloc, nth, key, value)?)),
        None => Ok(None),
    }
}

// The text of a value, which isn't empty.
fn path_of(alloc: Global, nth: usize, key: PlanKey, value: &Value) -> Result<String, PlansFault>
    ensures { PlansGive string_bytes result (path_of nth key (view value.now)) }
{
    match value.as_str() {
        Some(text) if !text.is_empty() => Ok(String::from_str(alloc, text)?),
        _ => Err(PlansFault::Wrong(nth, key)),
    }
}
