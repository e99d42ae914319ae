//! `check` for the plans of a plans file.
use crate::check_files::{CheckedPaths, check_texts, unread};
use crate::ending::Ending;
use crate::nodes::Node;
use crate::paths_apart::KnownFiles;
use crate::plan_words::plan_head;
use crate::plans_file::SwitchPlans;
use crate::standard_output::print;
use crate::switch_inputs::{PlanAt, PlanTexts, ReadPlan, read_batch, refused_batch, refused_door};
use rx_batch::read_batch as batch_of;
use rx_check::Files;
use rx_fields::Door;
use rx_io::Inputs;
use rx_sheet::{PlanFiles, read_sheet};
use rx_switch::SwitchFault;

// What is known once a plan was checked: the files, and the BIN and the processor control number of each plan whose sheet is
// accepted.
struct CheckedPlans {
    known: KnownFiles,
    doors: Vec<Option<Door>>,
}

impl CheckedPlans {
    // Before the first plan: the plans file is known, and there is room for this many plans.
    fn new(rt: &HostRuntime, plans_file: Node, plans: usize) -> Result<CheckedPlans, Ending> {
        let known = KnownFiles::of_plans_file(rt, plans_file)?;
        let doors = Vec::with_capacity(rt.alloc(), plans)?;
        Ok(CheckedPlans { known, doors })
    }
}

// Written out, so that freeing one is one call wherever a function ends early, not one for each of its fields.
impl Drop for CheckedPlans {
    fn drop(self) {
        let CheckedPlans { known: _, doors: _ } = self;
    }
}

/// Prints, below the name of each plan, the first fault of its sheet and of its books, and warnings, last the fault of the batch. It ends
/// with the first fault, as `route` would, and where there are only warnings with a status of its own.
pub fn check(rt: &HostRuntime, plans: &str, batch: Option<&str>) -> Result<(), Ending> {
    let SwitchPlans { plans, node } = match SwitchPlans::read(rt, plans) {
        Ok(plans) => plans,
        Err(ending) => return Err(unread(rt, ending)),
    };
    let mut checked = CheckedPlans::new(rt, node, plans.len())?;
    match batch {
        Some(path) => check_with_batch(rt, &plans, path, &mut checked),
        None => check_plans(rt, &plans, "", None, &mut checked),
    }
}

// The same with a batch. The fault of one that isn't accepted comes after those of the plans.
fn check_with_batch(
    rt: &HostRuntime,
    plans: &[PlanFiles],
    path: &str,
    checked: &mut CheckedPlans,
) -> Result<(), Ending> {
    let text = match read_batch(rt, path, &mut checked.known) {
        Ok(text) => text,
        Err(ending) => return Err(unread(rt, ending)),
    };
    match batch_of(rt.alloc(), &text).err() {
        None => check_plans(rt, plans, path, Some(&text), checked),
        Some(fault) => {
            let ended = check_plans(rt, plans, "", None, checked);
            let refused = refused_batch(rt, path, &text, "", 0, SwitchFault::from(fault));
            worse(ended, Err(unread(rt, refused)))
        }
    }
}

// The same of the plans, with the batch where it is given and accepted.
fn check_plans(
    rt: &HostRuntime,
    plans: &[PlanFiles],
    path: &str,
    batch: Option<&[u8]>,
    checked: &mut CheckedPlans,
) -> Result<(), Ending> {
    let mut first = Ok(());
    for plan in plans {
        let head = plan_head(rt.alloc(), plan.name.as_str())?;
        print(rt, head.as_str().as_bytes())?;
        let ended = check_plan(rt, plan, path, batch, checked);
        if is_conflict(&ended) {
            return ended;
        }
        first = worse(first, ended);
        first = worse(first, check_door(rt, plans, checked));
    }
    first
}

// Whether two files are one.
fn is_conflict(ended: &Result<(), Ending>) -> bool {
    matches!(ended, Err(Ending::Conflict(_)))
}

// The same of one plan.
fn check_plan(
    rt: &HostRuntime,
    plan: &PlanFiles,
    path: &str,
    batch: Option<&[u8]>,
    checked: &mut CheckedPlans,
) -> Result<(), Ending> {
    let number = checked.doors.len();
    match PlanTexts::read(rt, PlanAt { number, plan }, &mut checked.known) {
        Ok(texts) => {
            checked.doors.push(door_of(rt, &texts.sheet))?;
            check_read(
                rt,
                plan,
                (texts.sheet.as_slice(), texts.books.as_slice()),
                path,
                batch,
            )
        }
        Err(ending) => {
            checked.doors.push(None)?;
            Err(unread(rt, ending))
        }
    }
}

// The BIN and the processor control number of a sheet that is accepted.
fn door_of(rt: &HostRuntime, sheet: &[u8]) -> Option<Door> {
    match read_sheet(rt.alloc(), sheet) {
        Ok(read) => Some(*read.door()),
        Err(_) => None,
    }
}

// Prints what is found of a plan's sheet and books.
fn check_read<'x>(
    rt: &HostRuntime,
    plan: &'x PlanFiles,
    texts: (&'x [u8], &'x [u8]),
    path: &'x str,
    batch: Option<&'x [u8]>,
) -> Result<(), Ending> {
    let (sheet, books) = texts;
    let files = files_of(sheet, books, batch);
    let paths = paths_of(plan.sheet.as_str(), plan.books.as_str(), path);
    check_texts(rt, &paths, &files)
}

fn files_of<'x>(sheet: &'x [u8], books: &'x [u8], batch: Option<&'x [u8]>) -> Files<'x> {
    Inputs {
        sheet,
        books: Some(books),
        batch,
    }
}

fn paths_of<'x>(sheet: &'x str, books: &'x str, batch: &'x str) -> CheckedPaths<'x> {
    Inputs {
        sheet,
        books: Some(books),
        batch: Some(batch),
    }
}

// Prints where the last plan has the BIN and the processor control number of an earlier one.
fn check_door(rt: &HostRuntime, plans: &[PlanFiles], checked: &CheckedPlans) -> Result<(), Ending> {
    let last = checked.doors.len().saturating_sub(1);
    match earlier_door(&checked.doors, last) {
        Some(earlier) => Err(unread(rt, refused_door(rt, plans, last, earlier))),
        None => Ok(()),
    }
}

// The first place of the door at a place, where that is an earlier one.
fn earlier_door(doors: &[Option<Door>], place: usize) -> Option<usize> {
    let Some(Some(door)) = doors.get(place) else {
        return None;
    };
    for earlier in 0..place {
        if let Some(Some(other)) = doors.get(earlier) {
            if other == door {
                return Some(earlier);
            }
        }
    }
    None
}

// The first fault; else a warning, if there is one.
fn worse(first: Result<(), Ending>, next: Result<(), Ending>) -> Result<(), Ending> {
    match (first, next) {
        (Ok(()) | Err(Ending::Warned), Err(next)) => Err(next),
        (first, _) => first,
    }
}
