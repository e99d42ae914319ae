//! The plans file of a switch, with the paths of its plans' files from here.
use crate::ending::{Ending, Numbers};
use crate::file_fault::ProgramFile;
use crate::files::{STREAM, open_input};
use crate::nodes::Node;
use crate::refused_text::{GivenTexts, inputs};
use crate::shown_path::shown_path;
use crate::texts::bytes_in;
use rx_fields::Memory;
use rx_io::Device;
use rx_sheet::{PlanFiles, PlansFault, SheetFault, read_plans};
use rx_switch::SwitchFault;
use std::alloc::Global;
use std::path::Path;

/// The first number of a refused plans file (docs/CLI.md, "Refusals").
pub const PLANS: u64 = 10;

/// The plans of a plans file. Their paths lead to their files from here.
#[derive(Drop)]
pub struct SwitchPlans {
    pub plans: Vec<PlanFiles>,
    pub node: Node,
}

impl SwitchPlans {
    /// Reads the plans file at a path, and none of the plans' files.
    pub fn read(rt: &HostRuntime, path: &str) -> Result<SwitchPlans, Ending> {
        let failed = |ending: Ending| ending.of_file(ProgramFile::Plans).at_path(rt, path);
        let file = open_input(rt, path, Device::Sheet).map_err(failed)?;
        let node = Node::of(&file);
        let text = bytes_in(rt, &file, Device::Sheet).map_err(failed)?;
        drop(file);
        match read_plans(rt.alloc(), &text) {
            Ok(plans) => Ok(SwitchPlans {
                plans: plans_beside(rt.alloc(), path, plans)?,
                node,
            }),
            Err(fault) => Err(refused_plans(rt, path, &text, fault)),
        }
    }
}

// The plans, with paths from the folder of the plans file.
fn plans_beside(
    alloc: Global,
    path: &str,
    mut plans: Vec<PlanFiles>,
) -> Result<Vec<PlanFiles>, Memory> {
    let folder = match Path::new(path).parent() {
        Some(folder) if path != STREAM => folder.as_str(),
        _ => "",
    };
    for plan in &mut plans {
        put_beside(alloc, folder, &mut plan.sheet)?;
        put_beside(alloc, folder, &mut plan.books)?;
        put_beside(alloc, folder, &mut plan.books_out)?;
        put_beside_if_named(alloc, folder, &mut plan.response)?;
        put_beside_if_named(alloc, folder, &mut plan.settlement)?;
    }
    Ok(plans)
}

// Makes a path that is read from a folder one from here. `-` is a file of that name.
fn put_beside(alloc: Global, folder: &str, path: &mut String) -> Result<(), Memory> {
    if path.as_str().starts_with('/') {
        return Ok(());
    }
    if !folder.is_empty() {
        *path = format!(in alloc; "{folder}/{path}")?;
    } else if path.as_str() == STREAM {
        *path = format!(in alloc; "./{path}")?;
    }
    Ok(())
}

// The same of a path that may be left out.
fn put_beside_if_named(
    alloc: Global,
    folder: &str,
    path: &mut Option<String>,
) -> Result<(), Memory> {
    match path {
        Some(path) => put_beside(alloc, folder, path),
        None => Ok(()),
    }
}

// The ending where a plans file is refused: its numbers, and then the words.
fn refused_plans<'x>(rt: &HostRuntime, path: &'x str, text: &'x [u8], fault: PlansFault) -> Ending {
    if fault == PlansFault::Memory {
        return Ending::from(Memory);
    }
    let plan = fault.plan().unwrap_or(0);
    let numbers = Numbers::Refused([PLANS, u64::from(fault.code()), plan as u64]);
    match plans_words(rt, path, text, fault) {
        Ok(line) => Ending::InWords(numbers, line),
        Err(Memory) => Ending::Bare(numbers),
    }
}

fn plans_words<'x>(
    rt: &HostRuntime,
    path: &'x str,
    text: &'x [u8],
    fault: PlansFault,
) -> Result<String, Memory> {
    let shown = shown_path(rt.alloc(), path)?;
    let line = match fault {
        PlansFault::NoPlans => {
            format!(in rt.alloc();
                "{shown}: no plan is listed: a table [[plan]] is expected for each"
            )?
        }
        PlansFault::NoTable(plan) => format!(in rt.alloc(); "{shown}: plan {plan} isn't a table")?,
        PlansFault::Missing(plan, key) => {
            let key = key.name();
            format!(in rt.alloc(); "{shown}: plan {plan}: {key} is missing")?
        }
        PlansFault::Wrong(plan, key) => {
            let key = key.name();
            format!(in rt.alloc();
                "{shown}: plan {plan}: {key}: a text is expected that isn't empty"
            )?
        }
        PlansFault::NotToml | PlansFault::Memory => return no_toml_words(rt, path, text),
    };
    Ok(line)
}

/// The words of the refusal of a plans file with these last two numbers; none where none has them.
pub fn numbered_plans(rt: &HostRuntime, within: u64, place: u64) -> Result<Option<String>, Memory> {
    let why = match (within, place) {
        (1, 0) => {
            let given = GivenTexts::of(inputs("plans", "", ""), inputs(None, None, None));
            return Ok(Some(given.words(rt, SwitchFault::Sheet(SheetFault::NotToml))?));
        }
        (2, 0) => return Ok(Some(plans_words(rt, "plans", &[], PlansFault::NoPlans)?)),
        (_, 0) => return Ok(None),
        (3, _) => "it isn't a table",
        (4, _) => "a key is missing",
        (5, _) => "a key's value isn't a text, or it is empty",
        (6, _) => "its BIN and processor control number are those of an earlier plan",
        _ => return Ok(None),
    };
    Ok(Some(format!(in rt.alloc(); "plans: plan {place}: {why}")?))
}

// Where the text stops being TOML.
fn no_toml_words<'x>(rt: &HostRuntime, path: &'x str, text: &'x [u8]) -> Result<String, Memory> {
    let paths = inputs(path, "", "");
    let texts = inputs(Some(text), None, None);
    GivenTexts::of(paths, texts).words(rt, SwitchFault::Sheet(SheetFault::NotToml))
}
