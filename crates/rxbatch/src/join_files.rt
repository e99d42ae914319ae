//! The command that joins the response files of several plans' runs.
use crate::ending::{Ending, Numbers};
use crate::paths_apart::KnownFiles;
use crate::plan_words::plan_line;
use crate::plans_file::PLANS;
use crate::refused_text::response_words;
use crate::shown_path::shown_path;
use crate::switch_inputs::{
    PlanAt, PlansInputs, ReadPlan, refused_batch, refused_door, refused_plan, text_at,
};
use crate::switch_outputs::{add_common_outputs, add_settlement, write_common, write_settlement};
use rx_cli::JoinWords;
use rx_fields::Memory;
use rx_io::Device;
use rx_sheet::PlanFiles;
use rx_switch::{
    BatchFault, JoinFault, JoinJob, JoinOutput, PlanResponse, SwitchFault, join as join_texts,
};
use std::alloc::Global;
use std::thread::Threads;

// The first number of response files that aren't joined (docs/CLI.md, "Refusals").
const JOIN: u64 = 11;

// What was read of a plan.
#[derive(Drop)]
struct RunTexts {
    sheet: Vec<u8>,
    response: Vec<u8>,
}

impl ReadPlan for RunTexts {
    fn read(rt: &HostRuntime, at: PlanAt<'_>, known: &mut KnownFiles) -> Result<Self, Ending> {
        let PlanAt { number, plan } = at;
        let name = plan.name.as_str();
        let Some(path) = &plan.response else {
            return Err(no_response(rt, name, number));
        };
        let sheet = text_at(rt, name, "sheet", plan.sheet.as_str(), Device::Sheet, known)?;
        let response = text_at(rt, name, "response", path.as_str(), Device::Response, known)?;
        Ok(RunTexts { sheet, response })
    }
}

// The plans, each with its sheet and its response file, and the batch.
type JoinInputs = PlansInputs<RunTexts>;

/// Joins the response files of several plans' runs. Nothing is written where a file is refused. The outputs of all plans are
/// written first, and then the settlement of each.
pub fn join<R: Threads + Sync>(
    rt: &HostRuntime,
    threads: &R,
    words: &JoinWords<'_>,
) -> Result<(), Ending> {
    let inputs = JoinInputs::beside_outputs(rt, words)?;
    let output = inputs.join(rt, threads, words.files.batch)?;
    inputs.write(rt, words, &output)
}

impl PlansInputs<RunTexts> {
    // Those that are named, of which no output is one.
    fn beside_outputs(rt: &HostRuntime, words: &JoinWords<'_>) -> Result<JoinInputs, Ending> {
        let mut inputs = JoinInputs::read(rt, words.files.plans, words.files.batch)?;
        add_common_outputs(rt, &words.files, words.safe, &mut inputs.known)?;
        for plan in &inputs.plans {
            add_settlement(rt, plan, words.safe, &mut inputs.known)?;
        }
        Ok(inputs)
    }

    // Writes the outputs of all plans, and then the settlement of each.
    fn write(
        &self,
        rt: &HostRuntime,
        words: &JoinWords<'_>,
        output: &JoinOutput,
    ) -> Result<(), Ending> {
        let kept = self.known.nodes();
        let paths = (words.files.response, words.files.settlement);
        let texts = (output.response.as_slice(), output.settlement.as_slice());
        write_common(rt, paths, texts, words.safe, kept)?;
        for (plan, settlement) in self.plans.iter().zip(output.settlements.iter()) {
            write_settlement(rt, plan, settlement, words.safe, kept)?;
        }
        Ok(())
    }

    // The texts of the outputs. The path is that of the batch.
    fn join<R: Threads + Sync>(
        &self,
        rt: &HostRuntime,
        threads: &R,
        path: &str,
    ) -> Result<JoinOutput, Ending> {
        let mut plans = Vec::with_capacity(rt.alloc(), self.texts.len())?;
        for text in &self.texts {
            plans.push(response_of(&text.sheet, &text.response))?;
        }
        match join_responses(rt, threads, &plans, &self.batch) {
            Ok(output) => Ok(output),
            Err(JoinFault::Batch(fault)) => {
                let fault = SwitchFault::Batch(fault);
                Err(refused_batch(rt, path, &self.batch, "", 0, fault))
            }
            Err(JoinFault::SameDoor { plan, earlier }) => {
                Err(refused_door(rt, &self.plans, plan, earlier))
            }
            Err(fault) => Err(self.refused(rt, fault)),
        }
    }

    // The ending where a plan is refused.
    fn refused(&self, rt: &HostRuntime, fault: JoinFault) -> Ending {
        let number = match fault {
            JoinFault::Sheet(number, _)
            | JoinFault::Response(number, _)
            | JoinFault::OtherBatch(number)
            | JoinFault::OtherStamp(number)
            | JoinFault::OtherDetail(number, _)
            | JoinFault::OtherReply(number, _) => number,
            _ => return Ending::from(Memory),
        };
        match (self.plans.get(number), self.texts.get(number)) {
            (Some(plan), Some(text)) => refused_run(rt, plan, &text.sheet, &text.response, fault),
            _ => Ending::from(Memory),
        }
    }
}

// The ending where the plans file names no response file of a plan.
fn no_response(rt: &HostRuntime, name: &str, number: usize) -> Ending {
    let numbers = Numbers::Refused([PLANS, 4, (number as u64).saturating_add(1)]);
    let why = "response is missing: join takes the response file of each plan's own run";
    in_words(numbers, plan_line(rt.alloc(), name, why))
}

fn in_words(numbers: Numbers, line: Result<String, Memory>) -> Ending {
    match line {
        Ok(line) => Ending::InWords(numbers, line),
        Err(Memory) => Ending::Bare(numbers),
    }
}

fn response_of<'x>(sheet: &'x [u8], response: &'x [u8]) -> PlanResponse<'x> {
    PlanResponse { sheet, response }
}

fn join_responses<'x, R: Threads + Sync>(
    rt: &HostRuntime,
    threads: &R,
    plans: &'x [PlanResponse<'x>],
    batch: &'x [u8],
) -> Result<JoinOutput, JoinFault> {
    let job = JoinJob { plans, batch };
    join_texts(threads, rt.alloc(), &job)
}

// The ending where the sheet or the response file of a plan is refused.
fn refused_run<'x>(
    rt: &HostRuntime,
    plan: &'x PlanFiles,
    sheet: &'x [u8],
    response: &'x [u8],
    fault: JoinFault,
) -> Ending {
    match fault {
        JoinFault::Sheet(_, fault) => {
            refused_plan(rt, plan, sheet, &[], SwitchFault::Sheet(fault))
        }
        JoinFault::Response(_, fault) => no_response_file(rt, plan, response, fault),
        JoinFault::OtherBatch(_) => not_joined(rt, plan, 1, 0),
        JoinFault::OtherStamp(_) => not_joined(rt, plan, 2, 0),
        JoinFault::OtherDetail(_, place) => not_joined(rt, plan, 3, place),
        JoinFault::OtherReply(_, place) => not_joined(rt, plan, 4, place),
        _ => Ending::from(Memory),
    }
}

// The ending where the file isn't a response file.
fn no_response_file<'x>(
    rt: &HostRuntime,
    plan: &'x PlanFiles,
    response: &'x [u8],
    fault: BatchFault,
) -> Ending {
    let ending = Ending::of_response(fault);
    match response_words(rt, response_path(plan), response, fault) {
        Ok(line) => match plan_line(rt.alloc(), plan.name.as_str(), line.as_str()) {
            Ok(line) => ending.in_words(line),
            Err(Memory) => ending,
        },
        Err(Memory) => ending,
    }
}

fn response_path(plan: &PlanFiles) -> &str {
    match &plan.response {
        Some(path) => path.as_str(),
        None => "",
    }
}

// The ending where the response file of a plan isn't one to this batch: the number of the fault, the place of the record, 0
// where it is of none.
fn not_joined(rt: &HostRuntime, plan: &PlanFiles, fault: u64, place: usize) -> Ending {
    let numbers = Numbers::Refused([JOIN, fault, place as u64]);
    in_words(numbers, join_words(rt.alloc(), plan, fault, place as u64))
}

fn join_words(alloc: Global, plan: &PlanFiles, fault: u64, place: u64) -> Result<String, Memory> {
    let shown = shown_path(alloc, response_path(plan))?;
    let label = format!(in alloc; "response {shown}")?;
    let line = placed_words(alloc, label.as_str(), place, why_not_joined(fault))?;
    plan_line(alloc, plan.name.as_str(), line.as_str())
}

fn placed_words(alloc: Global, label: &str, place: u64, why: &str) -> Result<String, Memory> {
    let line = match place {
        0 => format!(in alloc; "{label}: {why}")?,
        record => format!(in alloc; "{label}: record {record}: {why}")?,
    };
    Ok(line)
}

// Why a response file isn't joined, by the number of the fault.
fn why_not_joined(fault: u64) -> &'static str {
    match fault {
        1 => "it answers another batch: its header isn't this batch's, sent back",
        2 => "its stamp isn't that of the first plan's response file",
        3 => "its reference isn't that of the batch's record, or one of the two isn't there",
        _ => "it holds no reply that this plan can give the batch's record",
    }
}

/// The words of the refusal of a response file that isn't joined with these last two numbers; none where none has them.
pub fn numbered_join(alloc: Global, within: u64, place: u64) -> Result<Option<String>, Memory> {
    let is_one = match within {
        1 | 2 => place == 0,
        3 | 4 => place > 0,
        _ => false,
    };
    if !is_one {
        return Ok(None);
    }
    Ok(Some(placed_words(alloc, "response", place, why_not_joined(within))?))
}
