//! What the commands for several plans write.
use crate::ending::Ending;
use crate::file_fault::ProgramFile;
use crate::nodes::Node;
use crate::paths_apart::KnownFiles;
use crate::plan_words::plan_line;
use crate::written_texts::{OutputText, write_texts};
use rx_cli::SwitchFiles;
use rx_io::Device;
use rx_sheet::PlanFiles;

const RESPONSE: ProgramFile = ProgramFile::Of(Device::Response);

const END_BOOKS: ProgramFile = ProgramFile::Of(Device::EndBooks);

const SETTLEMENT: ProgramFile = ProgramFile::Of(Device::Settlement);

/// The outputs of all plans are known from then on.
pub fn add_common_outputs(
    rt: &HostRuntime,
    files: &SwitchFiles<'_>,
    safe: bool,
    known: &mut KnownFiles,
) -> Result<(), Ending> {
    let response = String::from_str(rt.alloc(), "--response")?;
    known.add_output(rt, response, files.response, RESPONSE, safe)?;
    let settlement = String::from_str(rt.alloc(), "--settlement")?;
    known.add_output(rt, settlement, files.settlement, SETTLEMENT, safe)
}

/// The outputs of the plans are known from then on.
pub fn add_plan_outputs(
    rt: &HostRuntime,
    plans: &[PlanFiles],
    safe: bool,
    known: &mut KnownFiles,
) -> Result<(), Ending> {
    for plan in plans {
        let name = plan.name.as_str();
        let books = plan_line(rt.alloc(), name, "books_out")?;
        known.add_output(rt, books, plan.books_out.as_str(), END_BOOKS, safe)?;
        add_settlement(rt, plan, safe, known)?;
    }
    Ok(())
}

/// The settlement of a plan is known from then on, where it is named.
pub fn add_settlement(
    rt: &HostRuntime,
    plan: &PlanFiles,
    safe: bool,
    known: &mut KnownFiles,
) -> Result<(), Ending> {
    match &plan.settlement {
        Some(path) => {
            let settlement = plan_line(rt.alloc(), plan.name.as_str(), "settlement")?;
            known.add_output(rt, settlement, path.as_str(), SETTLEMENT, safe)
        }
        None => Ok(()),
    }
}

/// Writes the response file and the settlement of all plans.
pub fn write_common<'x>(
    rt: &HostRuntime,
    paths: (&'x str, &'x str),
    texts: (&'x [u8], &'x [u8]),
    safe: bool,
    kept: &[Node],
) -> Result<(), Ending> {
    let (response, settlement) = paths;
    let (replies, sums) = texts;
    let label = String::from_str(rt.alloc(), "--response")?;
    let first = output_text(RESPONSE, label, response, replies);
    let label = String::from_str(rt.alloc(), "--settlement")?;
    let second = output_text(SETTLEMENT, label, settlement, sums);
    write_texts(rt, &[first, second], safe, kept)
}

/// Writes the settlement of a plan, where it is named, and its end books.
pub fn write_plan<'x>(
    rt: &HostRuntime,
    plan: &'x PlanFiles,
    settlement: &'x [u8],
    books: &'x [u8],
    safe: bool,
    kept: &[Node],
) -> Result<(), Ending> {
    let name = plan.name.as_str();
    let label = plan_line(rt.alloc(), name, "settlement")?;
    let books_label = plan_line(rt.alloc(), name, "books_out")?;
    let last = output_text(END_BOOKS, books_label, plan.books_out.as_str(), books);
    match &plan.settlement {
        Some(path) => {
            let first = output_text(SETTLEMENT, label, path.as_str(), settlement);
            write_texts(rt, &[first, last], safe, kept)
        }
        None => write_texts(rt, &[last], safe, kept),
    }
}

/// Writes the settlement of a plan, where it is named.
pub fn write_settlement<'x>(
    rt: &HostRuntime,
    plan: &'x PlanFiles,
    settlement: &'x [u8],
    safe: bool,
    kept: &[Node],
) -> Result<(), Ending> {
    match &plan.settlement {
        Some(path) => {
            let label = plan_line(rt.alloc(), plan.name.as_str(), "settlement")?;
            let only = output_text(SETTLEMENT, label, path.as_str(), settlement);
            write_texts(rt, &[only], safe, kept)
        }
        None => Ok(()),
    }
}

fn output_text<'x>(
    file: ProgramFile,
    label: String,
    path: &'x str,
    text: &'x [u8],
) -> OutputText<'x> {
    OutputText {
        file,
        label,
        path,
        text,
    }
}
