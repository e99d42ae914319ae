//! What the commands for several plans read.
use crate::ending::{Ending, Numbers};
use crate::files::open_input;
use crate::nodes::Node;
use crate::paths_apart::KnownFiles;
use crate::plan_words::{at_plan, plan_line};
use crate::plans_file::{PLANS, SwitchPlans};
use crate::refused_text::{GivenTexts, inputs};
use crate::shown_path::shown_path;
use crate::texts::{bytes_in, bytes_of, opened, shared, text_in};
use rx_fields::Memory;
use rx_io::Device;
use rx_sheet::PlanFiles;
use rx_switch::{PlanJob, RouteFault, RouteJob, RouteOutput, SwitchFault, route};
use std::alloc::Global;
use std::sync::Arc;
use std::thread::Threads;

/// A plan with its number, from 0.
#[derive(Clone, Copy)]
pub struct PlanAt<'a> {
    pub number: usize,
    pub plan: &'a PlanFiles,
}

/// What a command reads of a plan.
pub trait ReadPlan {
    /// The texts of a plan, whose files are known from then on.
    fn read(rt: &HostRuntime, at: PlanAt<'_>, known: &mut KnownFiles) -> Result<Self, Ending>;
}

/// The texts of a plan.
#[derive(Drop)]
pub struct PlanTexts {
    pub sheet: Vec<u8>,
    pub books: Arc<Vec<u8>, Global>,
}

impl ReadPlan for PlanTexts {
    fn read(rt: &HostRuntime, at: PlanAt<'_>, known: &mut KnownFiles) -> Result<Self, Ending> {
        let plan = at.plan;
        let name = plan.name.as_str();
        let sheet = text_at(rt, name, "sheet", plan.sheet.as_str(), Device::Sheet, known)?;
        let books = text_at(rt, name, "books", plan.books.as_str(), Device::Books, known)?;
        let books = shared(rt.alloc(), books)?;
        Ok(PlanTexts { sheet, books })
    }
}

/// The plans of a plans file, with what was read of each in the same order, and the batch. The files are known.
pub struct PlansInputs<T> {
    pub plans: Vec<PlanFiles>,
    pub texts: Vec<T>,
    pub batch: Vec<u8>,
    pub known: KnownFiles,
}

/// Those of a run of several plans.
pub type SwitchInputs = PlansInputs<PlanTexts>;

// Written out, so that freeing one is one call wherever a function ends early, not one for each of its fields.
impl<T: Drop> Drop for PlansInputs<T> {
    fn drop(self) {
        let PlansInputs {
            plans: _,
            texts: _,
            batch: _,
            known: _,
        } = self;
    }
}

impl<T: ReadPlan + Drop> PlansInputs<T> {
    /// Reads the plans file, plan by plan its files, and the batch file.
    pub fn read(rt: &HostRuntime, plans: &str, batch: &str) -> Result<PlansInputs<T>, Ending> {
        let SwitchPlans { plans, node } = SwitchPlans::read(rt, plans)?;
        let mut known = KnownFiles::of_plans_file(rt, node)?;
        let texts = read_texts(rt, &plans, &mut known)?;
        let batch = read_batch(rt, batch, &mut known)?;
        Ok(PlansInputs {
            plans,
            texts,
            batch,
            known,
        })
    }
}

impl PlansInputs<PlanTexts> {
    /// The texts of the outputs. The path is that of the batch.
    pub fn route<R: Threads + Sync>(
        &self,
        rt: &HostRuntime,
        threads: &R,
        path: &str,
        stamp: &str,
        workers: u16,
    ) -> Result<RouteOutput, Ending> {
        let jobs = jobs_of(rt.alloc(), &self.texts)?;
        match route_jobs(rt, threads, &jobs, &self.batch, stamp.as_bytes(), workers) {
            Ok(output) => Ok(output),
            Err(RouteFault::Switch(fault)) => {
                Err(refused_batch(rt, path, &self.batch, stamp, workers, fault))
            }
            Err(RouteFault::Plan(number, fault)) => Err(self.refused(rt, path, number, fault)),
            Err(RouteFault::SameDoor { plan, earlier }) => {
                Err(refused_door(rt, &self.plans, plan, earlier))
            }
        }
    }

    /// The sheet and the books of the plan with this number.
    pub fn texts_of(&self, number: usize) -> Result<(&[u8], &[u8]), Ending> {
        match self.texts.get(number) {
            Some(text) => Ok((text.sheet.as_slice(), text.books.as_slice())),
            None => Err(Ending::from(Memory)),
        }
    }

    /// The ending where the plan with this number, or the batch at this path, is refused.
    pub fn refused(
        &self,
        rt: &HostRuntime,
        path: &str,
        number: usize,
        fault: SwitchFault,
    ) -> Ending {
        match (fault, self.plans.get(number), self.texts.get(number)) {
            (SwitchFault::Sheet(_) | SwitchFault::Books(_), Some(plan), Some(text)) => {
                refused_plan(rt, plan, &text.sheet, text.books.as_slice(), fault)
            }
            _ => refused_batch(rt, path, &self.batch, "", 0, fault),
        }
    }
}

// Reads the files of each plan, which are known from then on.
fn read_texts<T: ReadPlan + Drop>(
    rt: &HostRuntime,
    plans: &[PlanFiles],
    known: &mut KnownFiles,
) -> Result<Vec<T>, Ending> {
    let mut texts = Vec::with_capacity(rt.alloc(), plans.len())?;
    for plan in plans {
        let number = texts.len();
        texts.push(T::read(rt, PlanAt { number, plan }, known)?)?;
    }
    Ok(texts)
}

/// The whole text of the file at a key of a plan.
pub fn plan_text(
    rt: &HostRuntime,
    name: &str,
    key: &str,
    path: &str,
    device: Device,
) -> Result<Vec<u8>, Ending> {
    match bytes_of(rt, path, device) {
        Ok(text) => Ok(text),
        Err(ending) => Err(at_plan(rt, name, key, path, ending)),
    }
}

/// The same of a file that is known from then on.
pub fn text_at(
    rt: &HostRuntime,
    name: &str,
    key: &str,
    path: &str,
    device: Device,
    known: &mut KnownFiles,
) -> Result<Vec<u8>, Ending> {
    let file = match open_input(rt, path, device) {
        Ok(file) => file,
        Err(ending) => return Err(at_plan(rt, name, key, path, ending)),
    };
    known.add_input(rt, plan_line(rt.alloc(), name, key)?, Node::of(&file))?;
    match bytes_in(rt, &file, device) {
        Ok(text) => Ok(text),
        Err(ending) => Err(at_plan(rt, name, key, path, ending)),
    }
}

/// Reads the batch file, which is known from then on.
pub fn read_batch(rt: &HostRuntime, path: &str, known: &mut KnownFiles) -> Result<Vec<u8>, Ending> {
    let file = opened(rt, path, Device::Batch)?;
    let label = String::from_str(rt.alloc(), "--batch")?;
    known.add_input(rt, label, Node::of(&file))?;
    text_in(rt, &file, path, Device::Batch)
}

// The plans with these texts.
fn jobs_of<'x>(alloc: Global, texts: &'x [PlanTexts]) -> Result<Vec<PlanJob<'x>>, Memory> {
    let mut jobs = Vec::with_capacity(alloc, texts.len())?;
    for text in texts {
        jobs.push(job_of(&text.sheet, &text.books))?;
    }
    Ok(jobs)
}

fn job_of<'x>(sheet: &'x [u8], books: &'x Arc<Vec<u8>, Global>) -> PlanJob<'x> {
    PlanJob { sheet, books }
}

// What these plans answer a batch.
fn route_jobs<'x, R: Threads + Sync>(
    rt: &HostRuntime,
    threads: &R,
    plans: &'x [PlanJob<'x>],
    batch: &'x [u8],
    stamp: &'x [u8],
    workers: u16,
) -> Result<RouteOutput, RouteFault> {
    let job = RouteJob {
        plans,
        batch,
        stamp,
        workers,
    };
    route(threads, rt.alloc(), &job)
}

/// The ending where the batch, the stamp or the workers are refused: the numbers, and then the words.
pub fn refused_batch<'x>(
    rt: &HostRuntime,
    path: &'x str,
    text: &'x [u8],
    stamp: &'x str,
    workers: u16,
    fault: SwitchFault,
) -> Ending {
    let paths = inputs("", "", path);
    let texts = inputs(None, None, Some(text));
    let given = GivenTexts {
        paths,
        texts,
        stamp,
        workers,
    };
    given.refused(rt, fault)
}

/// The ending where the sheet or the books of a plan are refused: the numbers, and then the words with the plan's name.
pub fn refused_plan<'x>(
    rt: &HostRuntime,
    plan: &'x PlanFiles,
    sheet: &'x [u8],
    books: &'x [u8],
    fault: SwitchFault,
) -> Ending {
    match plan_fault_words(rt, plan, sheet, books, fault) {
        Ok(line) => Ending::from(fault).in_words(line),
        Err(Memory) => Ending::from(fault),
    }
}

fn plan_fault_words<'x>(
    rt: &HostRuntime,
    plan: &'x PlanFiles,
    sheet: &'x [u8],
    books: &'x [u8],
    fault: SwitchFault,
) -> Result<String, Memory> {
    let paths = inputs(plan.sheet.as_str(), plan.books.as_str(), "");
    let texts = inputs(Some(sheet), Some(books), None);
    let line = GivenTexts::of(paths, texts).words(rt, fault)?;
    plan_line(rt.alloc(), plan.name.as_str(), line.as_str())
}

/// The ending where a plan has the BIN and the processor control number of an earlier one.
pub fn refused_door(rt: &HostRuntime, plans: &[PlanFiles], plan: usize, earlier: usize) -> Ending {
    let numbers = Numbers::Refused([PLANS, 6, (plan as u64).saturating_add(1)]);
    match door_words(rt.alloc(), plans, plan, earlier) {
        Ok(line) => Ending::InWords(numbers, line),
        Err(Memory) => Ending::Bare(numbers),
    }
}

fn door_words(
    alloc: Global,
    plans: &[PlanFiles],
    plan: usize,
    earlier: usize,
) -> Result<String, Memory> {
    let one = shown_path(alloc, name_of(plans, earlier))?;
    let line = format!(in alloc; "its BIN and processor control number are those of plan {one}")?;
    plan_line(alloc, name_of(plans, plan), line.as_str())
}

fn name_of(plans: &[PlanFiles], number: usize) -> &str {
    match plans.get(number) {
        Some(plan) => plan.name.as_str(),
        None => "",
    }
}
