//! What happened to a plan of a switch, with the plan's name.
use crate::ending::Ending;
use crate::shown_path::shown_path;
use rx_fields::Memory;
use std::alloc::Global;

/// A line about a plan: `plan NAME: LINE`.
pub fn plan_line(alloc: Global, name: &str, line: &str) -> Result<String, Memory> {
    let shown = shown_path(alloc, name)?;
    Ok(format!(in alloc; "plan {shown}: {line}")?)
}

/// The line above what is printed of a plan: `plan NAME`.
pub fn plan_head(alloc: Global, name: &str) -> Result<String, Memory> {
    let shown = shown_path(alloc, name)?;
    Ok(format!(in alloc; "plan {shown}\n")?)
}

/// The ending where the file at a key of a plan failed, with its words.
pub fn at_plan(rt: &HostRuntime, name: &str, key: &str, path: &str, ending: Ending) -> Ending {
    match plan_line(rt.alloc(), name, key) {
        Ok(label) => ending.at_label(rt, label.as_str(), path),
        Err(Memory) => ending,
    }
}
