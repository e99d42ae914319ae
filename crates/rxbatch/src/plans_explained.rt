//! `explain` for the plans of a plans file.
use crate::commands::{explained, reader_by, response_given};
use crate::ending::Ending;
use crate::plan_json::put_named_lines;
use crate::plan_words::plan_head;
use crate::refused_text::{inputs, refused_response};
use crate::standard_output::print_outcome;
use crate::switch_inputs::SwitchInputs;
use rx_batch::{BatchFault, read_batch};
use rx_cli::{Asked, ExplainWords};
use rx_commands::{ExplainFault, Outcome, Printed};
use rx_d0_request::{door_in, plan_named};
use rx_fields::{Door, Memory, Provider};
use rx_print::Page;
use rx_sheet::read_sheet;
use rx_switch::SwitchFault;
use std::thread::Threads;

/// Prints why transactions were answered as they were, below the plan's name: a record by the plan that it names, an authorization
/// number or a reference by each plan that has it.
pub fn explain<R: Threads + Sync>(
    rt: &HostRuntime,
    threads: &R,
    words: &ExplainWords<'_>,
    plans: &str,
    batch: &str,
) -> Result<(), Ending> {
    reader_by(words.for_provider)?;
    let given = SwitchInputs::read(rt, plans, batch)?;
    let response = response_given(rt, words.response)?;
    let response = response.as_deref();
    match place_asked(&words.asked) {
        Some(place) => explain_record(rt, threads, words, place, batch, &given, response),
        None => explain_each(rt, threads, words, batch, &given, response),
    }
}

// Prints why a record was answered so, by the plan that it names.
fn explain_record<R: Threads + Sync>(
    rt: &HostRuntime,
    threads: &R,
    words: &ExplainWords<'_>,
    place: usize,
    path: &str,
    given: &SwitchInputs,
    response: Option<&[u8]>,
) -> Result<(), Ending> {
    let number = plan_of_record(rt, path, given, place)?;
    let printed = explained_by(rt, threads, words, path, given, number, response)?;
    print_outcome(rt, with_plan(rt, words, given, number, printed)?)
}

// The record that is asked for, if one is.
fn place_asked(asked: &Asked<'_>) -> Option<usize> {
    match asked {
        Asked::Record(place) => {
            let digits = match place.split_once('.') {
                Some((digits, _)) => digits,
                None => *place,
            };
            digits.parse().ok()
        }
        Asked::Number(_) | Asked::Rx { .. } => None,
    }
}

// The number of the plan that a record names; 0 where the batch is refused or has no such record. A record that names none ends
// the command.
fn plan_of_record(
    rt: &HostRuntime,
    path: &str,
    given: &SwitchInputs,
    place: usize,
) -> Result<usize, Ending> {
    let doors = doors_of(rt, path, given)?;
    let Ok(batch) = read_batch(rt.alloc(), &given.batch) else {
        return Ok(0);
    };
    let Some(index) = place.checked_sub(1) else {
        return Ok(0);
    };
    match batch.details.as_slice().get(index) {
        Some(detail) => plan_at(rt, &doors, place, detail.text.bytes()),
        None => Ok(0),
    }
}

// The BIN and the processor control number of each plan.
fn doors_of(rt: &HostRuntime, path: &str, given: &SwitchInputs) -> Result<Vec<Door>, Ending> {
    let mut doors = Vec::with_capacity(rt.alloc(), given.texts.len())?;
    for texts in &given.texts {
        match read_sheet(rt.alloc(), &texts.sheet) {
            Ok(sheet) => doors.push(*sheet.door())?,
            Err(fault) => {
                return Err(given.refused(rt, path, doors.len(), SwitchFault::from(fault)));
            }
        }
    }
    Ok(doors)
}

// The number of the plan that the request of the record at a place names.
fn plan_at(
    rt: &HostRuntime,
    doors: &[Door],
    place: usize,
    request: &[u8],
) -> Result<usize, Ending> {
    let number = plan_named(doors, request);
    if number < doors.len() {
        return Ok(number);
    }
    let line = if has_bin(doors, &door_in(request)) {
        format!(in rt.alloc();
            "record {place} names no plan: it is rejected with 04, since its BIN is a plan's"
        )?
    } else {
        format!(in rt.alloc();
            "record {place} names no plan: it is rejected with 01, since its BIN is no plan's"
        )?
    };
    Err(Ending::Stopped(line))
}

fn has_bin(doors: &[Door], asked: &Door) -> bool {
    for door in doors {
        if door.bin == asked.bin {
            return true;
        }
    }
    false
}

// What the plan with this number explains.
fn explained_by<R: Threads + Sync>(
    rt: &HostRuntime,
    threads: &R,
    words: &ExplainWords<'_>,
    path: &str,
    given: &SwitchInputs,
    number: usize,
    response: Option<&[u8]>,
) -> Result<Printed, Ending> {
    let reader = reader_by(words.for_provider)?;
    let plan = given.texts_of(number)?;
    match explain_texts(rt, threads, words, plan, &given.batch, reader, response) {
        Ok(printed) => Ok(printed),
        Err(ExplainFault::Refused(fault)) => Err(given.refused(rt, path, number, fault)),
        Err(ExplainFault::Response(fault)) => Err(no_response(rt, words, response, fault)),
    }
}

// What is explained of a plan's sheet and books and the batch.
fn explain_texts<'x, R: Threads + Sync>(
    rt: &HostRuntime,
    threads: &R,
    words: &ExplainWords<'_>,
    plan: (&'x [u8], &'x [u8]),
    batch: &'x [u8],
    reader: Option<Provider>,
    response: Option<&[u8]>,
) -> Result<Printed, ExplainFault> {
    let (sheet, books) = plan;
    explained(
        rt,
        threads,
        words,
        &inputs(sheet, books, batch),
        reader,
        response,
    )
}

fn no_response(
    rt: &HostRuntime,
    words: &ExplainWords<'_>,
    response: Option<&[u8]>,
    fault: BatchFault,
) -> Ending {
    match (words.response, response) {
        (Some(path), Some(text)) => refused_response(rt, path, text, fault),
        _ => Ending::of_response(fault),
    }
}

// The same below the plan's name, as JSON with it.
fn with_plan(
    rt: &HostRuntime,
    words: &ExplainWords<'_>,
    given: &SwitchInputs,
    number: usize,
    printed: Printed,
) -> Result<Printed, Memory> {
    let Printed { text, outcome } = printed;
    let Some(plan) = given.plans.get(number) else {
        return Ok(Printed { text, outcome });
    };
    if outcome == Outcome::NotFound {
        return Ok(Printed { text, outcome });
    }
    let text = named_text(rt, words, plan.name.as_str(), &text)?;
    Ok(Printed { text, outcome })
}

fn named_text(
    rt: &HostRuntime,
    words: &ExplainWords<'_>,
    name: &str,
    text: &[u8],
) -> Result<Vec<u8>, Memory> {
    let mut page = Page::new(rt.alloc());
    if words.json {
        put_named_lines(&mut page, name, text)?;
    } else {
        let head = plan_head(rt.alloc(), name)?;
        page.say(head.as_str());
        page.put(text);
    }
    page.into_bytes()
}

// Prints what each plan explains that has what is asked for.
fn explain_each<R: Threads + Sync>(
    rt: &HostRuntime,
    threads: &R,
    words: &ExplainWords<'_>,
    path: &str,
    given: &SwitchInputs,
    response: Option<&[u8]>,
) -> Result<(), Ending> {
    let mut found = Found {
        page: Page::new(rt.alloc()),
        outcome: Outcome::NotFound,
        missed: Vec::new(rt.alloc()),
    };
    for number in 0..given.plans.len() {
        let printed = explained_by(rt, threads, words, path, given, number, response)?;
        found.add(with_plan(rt, words, given, number, printed)?);
    }
    found.print(rt)
}

// What the plans explain that have what is asked for; of the last that hasn't, the line that says so.
#[derive(Drop)]
struct Found {
    page: Page,
    outcome: Outcome,
    missed: Vec<u8>,
}

impl Found {
    fn add(&mut self, printed: Printed) {
        let Printed { text, outcome } = printed;
        if outcome == Outcome::NotFound {
            self.missed = text;
        } else {
            self.page.put(&text);
            self.outcome = later(self.outcome, outcome);
        }
    }

    fn print(self, rt: &HostRuntime) -> Result<(), Ending> {
        if self.outcome == Outcome::NotFound {
            return Err(Ending::NotFound(self.missed));
        }
        let Found { page, outcome, .. } = self;
        let text = page.into_bytes()?;
        print_outcome(rt, Printed { text, outcome })
    }
}

// How the command ends after one more plan that has what is asked for.
fn later(so_far: Outcome, next: Outcome) -> Outcome {
    match so_far {
        Outcome::Differs => Outcome::Differs,
        _ => next,
    }
}
