//! `report` for the plans of a plans file.
use crate::commands::{need_lines, portion_by, stamp_by};
use crate::ending::Ending;
use crate::named::WrongValue;
use crate::plan_json::{name_member, put_named_lines, put_object};
use crate::plan_words::plan_head;
use crate::refused_text::inputs;
use crate::standard_output::print;
use crate::switch_inputs::SwitchInputs;
use rx_cli::{Form as FormWords, Portion as PortionWords, ReportWords};
use rx_commands::{Form, PrintedReport, report_own};
use rx_fields::{Memory, Stamp};
use rx_print::{Page, Style};
use rx_switch::SwitchFault;
use std::thread::Threads;

// What a report of several plans is written as.
#[derive(Clone, Copy)]
enum PlansForm {
    Columns,
    Tsv,
    Json,
    Jsonl,
}

/// Prints a line for each answer to a plan's own records, below the plan's name or with it, in the form that is asked for. Of a
/// portion there are only the plans that have lines of it. `--html` and `--html-dir` are of one plan.
pub fn report<R: Threads + Sync>(
    rt: &HostRuntime,
    threads: &R,
    words: &ReportWords<'_>,
    plans: &str,
    batch: &str,
) -> Result<(), Ending> {
    let form = form_by(words.form)?;
    let given = SwitchInputs::read(rt, plans, batch)?;
    let reports = reports_of(rt, threads, words, batch, &given, form)?;
    need_lines(rt, words.portion, reports.count > 0)?;
    print(rt, &reports.into_bytes()?)
}

// The reports of all plans.
fn reports_of<R: Threads + Sync>(
    rt: &HostRuntime,
    threads: &R,
    words: &ReportWords<'_>,
    batch: &str,
    given: &SwitchInputs,
    form: PlansForm,
) -> Result<Reports, Ending> {
    let mut reports = Reports {
        page: Page::new(rt.alloc()),
        count: 0,
        form,
    };
    for number in 0..given.plans.len() {
        let printed = report_by(rt, threads, given, number, words, batch)?;
        if printed.has_lines || words.portion == PortionWords::Whole {
            reports.add(name_of(given, number), &printed.text)?;
        }
    }
    Ok(reports)
}

fn form_by(words: FormWords<'_>) -> Result<PlansForm, Ending> {
    match words {
        FormWords::Columns => Ok(PlansForm::Columns),
        FormWords::Tsv => Ok(PlansForm::Tsv),
        FormWords::Json => Ok(PlansForm::Json),
        FormWords::Jsonl => Ok(PlansForm::Jsonl),
        FormWords::Html | FormWords::HtmlDir(_) => Err(Ending::NoValue(WrongValue::PlansPage)),
    }
}

fn name_of(given: &SwitchInputs, number: usize) -> &str {
    match given.plans.get(number) {
        Some(plan) => plan.name.as_str(),
        None => "",
    }
}

// The report of the plan with this number.
fn report_by<R: Threads + Sync>(
    rt: &HostRuntime,
    threads: &R,
    given: &SwitchInputs,
    number: usize,
    words: &ReportWords<'_>,
    path: &str,
) -> Result<PrintedReport, Ending> {
    let stamp = stamp_by(rt, words)?;
    let plan = given.texts_of(number)?;
    match report_texts(rt, threads, plan, &given.batch, words, stamp) {
        Ok(printed) => Ok(printed),
        Err(fault) => Err(given.refused(rt, path, number, fault)),
    }
}

// That of a plan's sheet and books and the batch.
fn report_texts<'x, R: Threads + Sync>(
    rt: &HostRuntime,
    threads: &R,
    plan: (&'x [u8], &'x [u8]),
    batch: &'x [u8],
    words: &ReportWords<'_>,
    stamp: Option<Stamp>,
) -> Result<PrintedReport, SwitchFault> {
    let (sheet, books) = plan;
    let form = match words.form {
        FormWords::Tsv => Form::Tsv,
        FormWords::Json => Form::Json,
        FormWords::Jsonl => Form::Jsonl,
        _ => Form::Columns,
    };
    let portion = portion_by(words.portion);
    report_own(
        threads,
        rt.alloc(),
        &inputs(sheet, books, batch),
        portion,
        form,
        stamp,
    )
}

// What is printed, so far of this many plans.
#[derive(Drop)]
struct Reports {
    page: Page,
    count: usize,
    form: PlansForm,
}

impl Reports {
    // Adds the report of a plan.
    fn add(&mut self, name: &str, report: &[u8]) -> Result<(), Memory> {
        match self.form {
            PlansForm::Columns => self.add_columns(name, report)?,
            PlansForm::Tsv => self.add_rows(name, report),
            PlansForm::Json => self.add_object(name, report)?,
            PlansForm::Jsonl => put_named_lines(&mut self.page, name, report)?,
        }
        self.count = self.count.saturating_add(1);
        Ok(())
    }

    // Below the plan's name, after an empty line where an earlier plan's stands.
    fn add_columns(&mut self, name: &str, report: &[u8]) -> Result<(), Memory> {
        let head = plan_head(self.page.alloc(), name)?;
        if self.count > 0 {
            self.page.say("\n");
        }
        self.page.say(head.as_str());
        self.page.put(report);
        Ok(())
    }

    // Rows with the plan's name in the first column, the heading only once.
    fn add_rows(&mut self, name: &str, report: &[u8]) {
        let mut is_heading = true;
        for row in report.split(|byte| *byte == b'\n') {
            if is_heading {
                self.add_heading(row);
            } else if !row.is_empty() {
                self.page.escaped(Style::Terminal, name.as_bytes());
                self.add_cells(row);
            }
            is_heading = false;
        }
    }

    fn add_heading(&mut self, row: &[u8]) {
        if self.count == 0 {
            self.page.say("plan");
            self.add_cells(row);
        }
    }

    fn add_cells(&mut self, row: &[u8]) {
        self.page.say("\t");
        self.page.put(row);
        self.page.say("\n");
    }

    // An object of the list `plans`.
    fn add_object(&mut self, name: &str, report: &[u8]) -> Result<(), Memory> {
        let member = name_member(self.page.alloc(), name)?;
        self.page.say(if self.count == 0 {
            "{\"plans\":[\n"
        } else {
            ",\n"
        });
        if let [b'{', rest @ .., b'\n'] = report {
            put_object(&mut self.page, member.as_str(), rest);
        }
        Ok(())
    }

    // The whole text, with what stands after the last plan's.
    fn into_bytes(self) -> Result<Vec<u8>, Memory> {
        let Reports { mut page, form, .. } = self;
        if form == PlansForm::Json {
            page.say("]}\n");
        }
        page.into_bytes()
    }
}
