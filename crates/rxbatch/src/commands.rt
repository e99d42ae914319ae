//! The commands that print a text, each from the files that its words name.
use crate::ending::Ending;
use crate::join_files::numbered_join;
use crate::named::WrongValue;
use crate::nodes::Node;
use crate::origin::Noted;
use crate::page_folder::write_pages;
use crate::plans_file::numbered_plans;
use crate::refused_text::{GivenTexts, refused_response};
use crate::run_gate::RunGate;
use crate::shown_path::shown_path;
use crate::standard_output::{print, print_outcome};
use crate::switch_inputs::refused_batch;
use crate::texts::{
    open_and_read, open_each, opened, read_each, read_opened, slices, text_in, text_of,
};
use crate::upkeep_words::numbered_upkeep;
use crate::{plans_explained, plans_reported, plans_verified};
use rx_check::fault_numbered;
use rx_cli::{
    Asked, ComparedFiles, ExplainWords, FaultNumbers, Form as FormWords, GivenInputs,
    Portion as PortionWords, ReportWords, ShowWords, VerifyWords, WordsFault,
};
use rx_commands::{
    ExplainFault, Form, Manner, Printed, PrintedFolder, PrintedReport, explain_for, family_asked,
    number_asked, provider_asked, record_asked, reference_asked, report_folder, show_table,
    stamp_asked,
};
use rx_explain::Query;
use rx_fields::{Memory, Provider, Stamp};
use rx_io::{Device, Inputs, Outputs};
use rx_report::Portion;
use rx_show::replies_text;
use rx_switch::{Job, SwitchFault, plan_text, sample_line, show_text};
use std::sync::Wait;
use std::thread::Threads;

/// Prints a line for each transaction of a batch file, or a table of them. Both files are opened, and then read.
pub fn show<R: Threads + Sync>(
    rt: &HostRuntime,
    threads: &R,
    words: &ShowWords<'_>,
) -> Result<(), Ending> {
    let paths = Inputs {
        sheet: words.sheet,
        books: "",
        batch: words.batch,
    };
    let texts = read_two(rt, words)?;
    let shown = if words.tsv {
        show_table(threads, rt.alloc(), &texts.sheet, &texts.batch)
    } else {
        show_text(rt.alloc(), &texts.sheet, &texts.batch)
    };
    let shown = shown.map_err(|fault| refused(rt, &paths, &texts, fault));
    drop(texts);
    print(rt, &shown?)
}

// Opens sheet and batch file, and then reads them; there are no books.
fn read_two(rt: &HostRuntime, words: &ShowWords<'_>) -> Result<Inputs<Vec<u8>>, Ending> {
    let sheet = opened(rt, words.sheet, Device::Sheet)?;
    let batch = opened(rt, words.batch, Device::Batch)?;
    Ok(Inputs {
        sheet: text_in(rt, &sheet, words.sheet, Device::Sheet)?,
        books: Vec::new(rt.alloc()),
        batch: text_in(rt, &batch, words.batch, Device::Batch)?,
    })
}

/// The ending where one of three inputs is refused.
pub fn refused(
    rt: &HostRuntime,
    paths: &Inputs<&str>,
    texts: &Inputs<Vec<u8>>,
    fault: SwitchFault,
) -> Ending {
    GivenTexts::of(*paths, some_slices(texts)).refused(rt, fault)
}

fn some_slices(texts: &Inputs<Vec<u8>>) -> Inputs<Option<&[u8]>> {
    texts.as_ref().map(|text| Some(text.as_slice()))
}

/// Prints the waves of a batch file's records, and the chain.
pub fn plan(rt: &HostRuntime, paths: &Inputs<&str>) -> Result<(), Ending> {
    let texts = open_and_read(rt, paths)?;
    let planned = plan_text(rt.alloc(), &texts.sheet, &texts.books, &texts.batch);
    let planned = planned.map_err(|fault| refused(rt, paths, &texts, fault));
    drop(texts);
    print(rt, &planned?)
}

/// Prints the reply to the base claim, on one line.
pub fn sample(rt: &HostRuntime) -> Result<(), Ending> {
    let mut line = sample_line(rt.alloc())?;
    if line.push(b'\n').is_err() {
        return Err(Ending::from(Memory));
    }
    print(rt, &line)
}

/// Prints the version or the help, which the words ask for.
pub fn print_asked(rt: &HostRuntime, asked: &WordsFault) -> Result<(), Ending> {
    print!(rt; "{asked}").map_err(Ending::of_standard_output)
}

/// Prints the numbers of a refusal in words.
pub fn fault(rt: &HostRuntime, numbers: &FaultNumbers) -> Result<(), Ending> {
    let FaultNumbers {
        kind,
        within,
        place,
    } = *numbers;
    let alloc = rt.alloc();
    let line = match fault_numbered(kind, within, place) {
        Some(SwitchFault::Workers) => String::from_str(alloc, "the workers aren't 1 to 64"),
        Some(SwitchFault::Stamp) => String::from_str(alloc, "the stamp is no date and time"),
        Some(fault) => return fault_of_run(rt, fault),
        None => return other_fault(rt, kind, within, place),
    };
    print_line(rt, line?)
}

// Prints the numbers of a refusal of another command than a run.
fn other_fault(rt: &HostRuntime, kind: u64, within: u64, place: u64) -> Result<(), Ending> {
    let alloc = rt.alloc();
    let line = match kind {
        8 | 9 => numbered_upkeep(alloc, kind, within, place)?,
        10 => numbered_plans(rt, within, place)?,
        11 => numbered_join(alloc, within, place)?,
        _ => None,
    };
    match line {
        Some(line) => print_line(rt, line),
        None => {
            let line = String::from_str(alloc, "no refusal has these numbers")?;
            Err(Ending::Stopped(line))
        }
    }
}

fn fault_of_run(rt: &HostRuntime, fault: SwitchFault) -> Result<(), Ending> {
    let names = Inputs {
        sheet: "sheet",
        books: "books",
        batch: "batch",
    };
    let nothing = Inputs {
        sheet: None,
        books: None,
        batch: None,
    };
    print_line(rt, GivenTexts::of(names, nothing).words(rt, fault)?)
}

fn print_line(rt: &HostRuntime, mut line: String) -> Result<(), Ending> {
    line.push('\n')?;
    print(rt, line.as_str().as_bytes())
}

/// Prints a line for each answer of a response file.
pub fn replies(rt: &HostRuntime, path: &str) -> Result<(), Ending> {
    let bytes = text_of(rt, path, Device::Response)?;
    let text = replies_text(rt.alloc(), &bytes);
    let text = text.map_err(|fault| refused_response(rt, path, &bytes, fault));
    drop(bytes);
    print(rt, &text?)
}

/// Prints why the transactions that are asked for were answered as they were, and whether a response file has these
/// replies.
pub fn explain<R: Threads + Sync>(
    rt: &HostRuntime,
    threads: &R,
    words: &ExplainWords<'_>,
) -> Result<(), Ending> {
    let paths = match words.inputs {
        GivenInputs::OnePlan(paths) => paths,
        GivenInputs::Plans { plans, batch } => {
            return plans_explained::explain(rt, threads, words, plans, batch);
        }
    };
    let reader = reader_by(words.for_provider)?;
    let (texts, response) = read_explained(rt, &paths, words.response)?;
    let given = response.as_deref();
    let printed = match explained(rt, threads, words, &slices(&texts), reader, given) {
        Ok(printed) => Ok(printed),
        Err(fault) => {
            let path = words.response;
            Err(not_explained(rt, &paths, &texts, path, response.as_ref(), fault))
        }
    };
    drop((texts, response));
    print_outcome(rt, printed?)
}

/// What is printed of these inputs, for the pharmacy that is named, if one is.
pub fn explained<'x, R: Threads + Sync>(
    rt: &HostRuntime,
    threads: &R,
    words: &ExplainWords<'_>,
    inputs: &Inputs<&'x [u8]>,
    reader: Option<Provider>,
    response: Option<&[u8]>,
) -> Result<Printed, ExplainFault> {
    let query = query_of(&words.asked);
    let (alloc, manner) = (rt.alloc(), manner_by(words));
    match reader {
        None => rx_commands::explain(threads, alloc, inputs, &query, response, manner),
        Some(provider) => {
            explain_for(threads, alloc, inputs, &query, &provider, response, manner)
        }
    }
}

/// The pharmacy that a text is for, if one is named.
pub fn reader_by(id: Option<&str>) -> Result<Option<Provider>, Ending> {
    let Some(id) = id else {
        return Ok(None);
    };
    match Provider::new(id.as_bytes()) {
        Ok(provider) => Ok(Some(provider)),
        Err(_) => Err(Ending::NoValue(WrongValue::Provider)),
    }
}

/// Reads the inputs, and the response file, if there is one.
pub fn read_explained(
    rt: &HostRuntime,
    inputs: &Inputs<&str>,
    path: Option<&str>,
) -> Result<(Inputs<Vec<u8>>, Option<Vec<u8>>), Ending> {
    let texts = read_each(rt, inputs)?;
    let response = response_given(rt, path)?;
    Ok((texts, response))
}

/// The text of the response file, if there is one.
pub fn response_given(rt: &HostRuntime, path: Option<&str>) -> Result<Option<Vec<u8>>, Ending> {
    match path {
        None => Ok(None),
        Some(path) => Ok(Some(text_of(rt, path, Device::Response)?)),
    }
}

/// The ending where an input or the response file is refused.
pub fn not_explained(
    rt: &HostRuntime,
    inputs: &Inputs<&str>,
    texts: &Inputs<Vec<u8>>,
    path: Option<&str>,
    response: Option<&Vec<u8>>,
    fault: ExplainFault,
) -> Ending {
    match (fault, path, response) {
        (ExplainFault::Refused(fault), _, _) => refused(rt, inputs, texts, fault),
        (ExplainFault::Response(fault), Some(path), Some(text)) => {
            refused_response(rt, path, text, fault)
        }
        (ExplainFault::Response(fault), _, _) => Ending::of_response(fault),
    }
}

fn manner_by(words: &ExplainWords<'_>) -> Manner {
    match (words.json, words.all) {
        (true, _) => Manner::Json,
        (false, true) => Manner::Full,
        (false, false) => Manner::Words,
    }
}

fn query_of(asked: &Asked<'_>) -> Query {
    match asked {
        Asked::Record(place) => record_asked(place),
        Asked::Number(number) => number_asked(number),
        Asked::Rx {
            reference,
            provider,
        } => reference_asked(reference, *provider),
    }
}

/// Prints a line for each answer of a batch, by provider, in the form that is asked for, or writes it as pages into a folder.
pub fn report<R: Threads + Sync>(
    rt: &HostRuntime,
    threads: &R,
    words: &ReportWords<'_>,
) -> Result<(), Ending> {
    need_reader(words)?;
    let paths = match words.inputs {
        GivenInputs::OnePlan(paths) => paths,
        GivenInputs::Plans { plans, batch } => {
            return plans_reported::report(rt, threads, words, plans, batch);
        }
    };
    let (texts, nodes) = read_with_nodes(rt, &paths)?;
    if let FormWords::HtmlDir(folder) = words.form {
        return report_pages(rt, threads, words, &paths, texts, nodes, folder);
    }
    let printed = printed_report(rt, threads, words, &paths, &texts)?;
    drop(texts);
    need_lines(rt, words.portion, printed.has_lines)?;
    print(rt, &printed.text)
}

// Opens the inputs, and then reads them.
fn read_with_nodes(
    rt: &HostRuntime,
    paths: &Inputs<&str>,
) -> Result<(Inputs<Vec<u8>>, Inputs<Node>), Ending> {
    let files = open_each(rt, paths)?;
    let texts = read_opened(rt, &files, paths)?;
    Ok((texts, files.as_ref().map(|file| Node::of(file))))
}

// The report in the form that is asked for, but for a folder of pages; a page says its origin.
fn printed_report<R: Threads + Sync>(
    rt: &HostRuntime,
    threads: &R,
    words: &ReportWords<'_>,
    paths: &Inputs<&str>,
    texts: &Inputs<Vec<u8>>,
) -> Result<PrintedReport, Ending> {
    let form = match words.form {
        FormWords::Columns => Form::Columns,
        FormWords::Tsv => Form::Tsv,
        FormWords::Json => Form::Json,
        FormWords::Jsonl => Form::Jsonl,
        FormWords::Html | FormWords::HtmlDir(_) => {
            let noted = Noted::of(rt, paths, texts)?;
            let form = Form::Html(noted.origin(paths)?);
            return report_in(rt, threads, words, paths, texts, form);
        }
    };
    report_in(rt, threads, words, paths, texts, form)
}

// Ends where a report is for a pharmacy that no id names, or as a page: its head has checksums of the whole inputs.
fn need_reader(words: &ReportWords<'_>) -> Result<(), Ending> {
    let PortionWords::ForProvider(id) = words.portion else {
        return Ok(());
    };
    reader_by(Some(id))?;
    match words.form {
        FormWords::Html | FormWords::HtmlDir(_) => Err(Ending::NoValue(WrongValue::ProviderPage)),
        _ => Ok(()),
    }
}

/// The stamp that is given; a text that is none is refused as by a run.
pub fn stamp_by(rt: &HostRuntime, words: &ReportWords<'_>) -> Result<Option<Stamp>, Ending> {
    match stamp_asked(words.stamp) {
        Ok(stamp) => Ok(stamp),
        Err(fault) => {
            let stamp = words.stamp.unwrap_or("");
            Err(refused_batch(rt, "", &[], stamp, 0, fault))
        }
    }
}

/// Ends where a portion has no line.
pub fn need_lines(
    rt: &HostRuntime,
    portion: PortionWords<'_>,
    has_lines: bool,
) -> Result<(), Ending> {
    match asked_by(portion) {
        Some((option, id)) if !has_lines => Err(no_lines(rt, option, id)?),
        _ => Ok(()),
    }
}

// Writes the report as pages, and prints the path of the first.
fn report_pages<R: Threads + Sync>(
    rt: &HostRuntime,
    threads: &R,
    words: &ReportWords<'_>,
    paths: &Inputs<&str>,
    texts: Inputs<Vec<u8>>,
    nodes: Inputs<Node>,
    folder: &str,
) -> Result<(), Ending> {
    let noted = Noted::of(rt, paths, &texts)?;
    let printed = pages_of(rt, threads, words, paths, &texts, &noted);
    drop((noted, texts));
    let printed = printed?;
    need_lines(rt, words.portion, printed.has_lines)?;
    let first = write_pages(rt, folder, &printed.pages, nodes);
    drop(printed);
    match first? {
        Some(path) => print_line(rt, shown_path(rt.alloc(), path.as_str())?),
        None => Ok(()),
    }
}

fn pages_of<'x, R: Threads + Sync>(
    rt: &HostRuntime,
    threads: &R,
    words: &ReportWords<'_>,
    paths: &'x Inputs<&'x str>,
    texts: &Inputs<Vec<u8>>,
    noted: &'x Noted,
) -> Result<PrintedFolder, Ending> {
    let stamp = stamp_by(rt, words)?;
    let origin = noted.origin(paths)?;
    let portion = portion_by(words.portion);
    let printed = report_folder(threads, rt.alloc(), origin, &slices(texts), portion, stamp);
    printed.map_err(|fault| refused(rt, paths, texts, fault))
}

// The option that asks for a portion, and its ID.
fn asked_by<'a>(words: PortionWords<'a>) -> Option<(&'static str, &'a str)> {
    match words {
        PortionWords::Whole => None,
        PortionWords::Provider(id) => Some(("--provider", id)),
        PortionWords::Family(id) => Some(("--family", id)),
        PortionWords::ForProvider(id) => Some(("--for-provider", id)),
    }
}

// The ending where the batch has no answer to report.
fn no_lines(rt: &HostRuntime, option: &str, id: &str) -> Result<Ending, Memory> {
    let shown = shown_path(rt.alloc(), id)?;
    let line = format!(in rt.alloc(); "{option} {shown}: the batch has no answer of it")?;
    Ok(Ending::Stopped(line))
}

// The report in a form.
fn report_in<R: Threads + Sync>(
    rt: &HostRuntime,
    threads: &R,
    words: &ReportWords<'_>,
    paths: &Inputs<&str>,
    texts: &Inputs<Vec<u8>>,
    form: Form<'_>,
) -> Result<PrintedReport, Ending> {
    let stamp = stamp_by(rt, words)?;
    let portion = portion_by(words.portion);
    let printed = rx_commands::report(threads, rt.alloc(), &slices(texts), portion, form, stamp);
    printed.map_err(|fault| refused(rt, paths, texts, fault))
}

/// Which lines a report has.
pub fn portion_by(words: PortionWords<'_>) -> Portion<'_> {
    match words {
        PortionWords::Whole => Portion::Whole,
        PortionWords::Provider(id) | PortionWords::ForProvider(id) => provider_asked(id),
        PortionWords::Family(id) => family_asked(id),
    }
}

/// Does a run again, of one plan or of several, and prints whether the files of an earlier one are what it gives.
pub fn verify<R: Threads + Wait + Sync>(
    rt: &HostRuntime,
    threads: &R,
    words: &VerifyWords<'_>,
) -> Result<(), Ending> {
    match words.files {
        ComparedFiles::OnePlan { inputs, outputs } => {
            verify_run(rt, threads, words, inputs, outputs)
        }
        ComparedFiles::Plans {
            plans,
            batch,
            response,
            settlement,
        } => plans_verified::verify(rt, threads, words, (plans, batch), (response, settlement)),
    }
}

fn verify_run<'x, R: Threads + Wait + Sync>(
    rt: &HostRuntime,
    threads: &R,
    words: &'x VerifyWords<'x>,
    paths: Inputs<&'x str>,
    compared: Outputs<&'x str>,
) -> Result<(), Ending> {
    let inputs = read_each(rt, &paths)?;
    let outputs = compared.try_map(|device, path| text_of(rt, path, device))?;
    let job = Job {
        sheet: &inputs.sheet,
        books: &inputs.books,
        batch: &inputs.batch,
        stamp: words.stamp.as_bytes(),
        workers: words.workers,
        plain: words.plain,
    };
    let gate = RunGate {
        at_desk: words.desk,
    };
    let files = outputs.as_ref().map(|text| text.as_slice());
    let printed = rx_commands::verify(threads, rt.alloc(), &gate, &job, &files);
    let given = GivenTexts {
        paths,
        texts: some_slices(&inputs),
        stamp: words.stamp,
        workers: words.workers,
    };
    let printed = printed.map_err(|fault| given.refused(rt, fault));
    drop((inputs, outputs));
    print_outcome(rt, printed?)
}
