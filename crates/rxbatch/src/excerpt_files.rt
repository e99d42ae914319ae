//! The command `excerpt`: a record of a batch with what it hangs on, written into a folder of its own.
use crate::commands::{not_explained, read_explained};
use crate::ending::{AtPath, Ending};
use crate::file_fault::ProgramFile;
use crate::page_folder::write_file;
use crate::places::{Found, make_folder};
use crate::shown_path::shown_path;
use crate::standard_output::print;
use crate::texts::slices;
use rx_cli::ExcerptWords;
use rx_commands::{Excerpt, ExcerptFault};
use rx_explain_text::Compared;
use rx_fields::Memory;
use rx_io::Inputs;
use std::path::Path;
use std::thread::Threads;

const FILE: ProgramFile = ProgramFile::Excerpt;

/// Writes the excerpt of a record into a new folder, and prints how it is run; ends otherwise where the response file that is
/// given has another answer.
pub fn excerpt<R: Threads + Sync>(
    rt: &HostRuntime,
    threads: &R,
    words: &ExcerptWords<'_>,
) -> Result<(), Ending> {
    need_new(rt, words.out)?;
    let (texts, response) = read_explained(rt, &words.inputs, words.response)?;
    let made = rx_commands::excerpt_record(
        threads,
        rt.alloc(),
        &slices(&texts),
        words.place,
        response.as_deref(),
    );
    let made = made.map_err(|fault| not_excerpted(rt, words, &texts, response.as_ref(), fault));
    drop((texts, response));
    let made = made?;
    let done = write_all(rt, words.out, &made);
    let compared = made.compared;
    drop(made);
    done?;
    match compared {
        None | Some(Compared::Same) => Ok(()),
        Some(_) => Err(Ending::Differs),
    }
}

// Ends where something stands at the path of the folder.
fn need_new(rt: &HostRuntime, folder: &str) -> Result<(), Ending> {
    match Found::at(rt, folder) {
        Ok(Found::Nothing) => Ok(()),
        Ok(_) => {
            let shown = shown_path(rt.alloc(), folder)?;
            let line = format!(in rt.alloc();
                "--out {shown}: it is there; an excerpt is written into a new folder"
            )?;
            Err(Ending::Stopped(line))
        }
        Err(error) => Err(Ending::of_output(FILE, error).at_path(rt, folder)),
    }
}

// Writes the four files, and prints what the last says.
fn write_all(rt: &HostRuntime, folder: &str, made: &Excerpt) -> Result<(), Ending> {
    if let Err(error) = make_folder(rt, folder) {
        return Err(Ending::of_output(FILE, error).at_path(rt, folder));
    }
    write_one(rt, folder, "sheet.toml", &made.sheet)?;
    write_one(rt, folder, "books.txt", &made.books)?;
    write_one(rt, folder, "batch.bin", &made.batch)?;
    write_one(rt, folder, "README.txt", &made.readme)?;
    print(rt, &made.readme)
}

fn write_one(rt: &HostRuntime, folder: &str, name: &str, text: &[u8]) -> Result<(), Ending> {
    let path = Path::new(folder).join(rt.alloc(), name)?;
    write_file(rt, FILE, path.as_str(), text).at_path(rt, path.as_str())
}

// The ending if there is no excerpt.
fn not_excerpted(
    rt: &HostRuntime,
    words: &ExcerptWords<'_>,
    texts: &Inputs<Vec<u8>>,
    response: Option<&Vec<u8>>,
    fault: ExcerptFault,
) -> Ending {
    let said = match fault {
        ExcerptFault::Input(fault) => {
            return not_explained(rt, &words.inputs, texts, words.response, response, fault);
        }
        other => said(rt, words.place, other),
    };
    match said {
        Ok(line) => Ending::Stopped(line),
        Err(refused) => Ending::from(refused),
    }
}

// Why a record has no excerpt, in words.
fn said(rt: &HostRuntime, record: u64, fault: ExcerptFault) -> Result<String, Memory> {
    let why = match fault {
        ExcerptFault::NoRecord => "the batch has no such record",
        ExcerptFault::NoTransaction =>
            "its header is rejected, so it has no transaction; explain says why",
        ExcerptFault::TooLong =>
            "its families have more members and claims than a books file may have lines",
        _ => "its sheet can't be written anew",
    };
    Ok(format!(in rt.alloc(); "--record {record}: {why}")?)
}
