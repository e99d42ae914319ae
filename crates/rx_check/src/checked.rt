ghost use Rattle.std.specs.Prelude.{IfOk};
ghost use Rattle.rx_check.specs.Checked.{IsChecked};

use crate::findings::{Files, find};
use crate::refusals::refusal;
use crate::report_lines::{Names, report};
use crate::warnings::Warnings;
use rx_fields::Memory;
use rx_switch::SwitchFault;
use std::alloc::Global;

/// What `check` prints, and how it ends.
#[derive(Drop)]
pub struct Checked {
    /// A line for the first fault of each file, and then one for each warning.
    pub text: String,
    /// The first fault, in the order in which a run looks at its inputs.
    pub refusal: Option<SwitchFault>,
    /// Whether there are warnings.
    pub has_warnings: bool,
    /// What is warned of.
    pub warnings: Warnings,
}

/// Looks at the inputs of a run: the first fault of each, and warnings of what a run would take and an operator would hardly
/// mean (docs/CLI.md, "check"). That the refusal is the one of a run on these inputs is the law
/// `first_fault_is_the_runs`.
///
/// # Errors
///
/// Only Memory, which may stand in the place of any answer.
pub fn check(alloc: Global, files: &Files<'_>, names: &Names<'_>) -> Result<Checked, Memory>
    ensures { IfOk result (IsChecked files.now names.now) }
{
    let found = find(alloc, files)?;
    let text = report(alloc, files, names, &found);
    let refusal = refusal(&found);
    let warnings = found.warnings;
    let has_warnings = !warnings.is_empty();
    Ok(Checked {
        text: text?,
        refusal,
        has_warnings,
        warnings,
    })
}
