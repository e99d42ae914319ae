//! The command for people: a batch is checked and adjudicated, and the outputs are written into a folder.
use crate::check_files::checked;
use crate::ending::Ending;
use crate::file_fault::{FileFault, ProgramFile};
use crate::moment::{stamp_or_now, workers_or_all};
use crate::places::make_folder;
use crate::run_files::{print_stamp, run_as};
use crate::settings::{RunManner, RunPlan};
use crate::texts::{open_each, read_opened};
use rx_batch::read_batch;
use rx_check::{Checked, Warnings, early_stamp};
use rx_cli::AdjudicateWords;
use rx_fields::Memory;
use rx_io::{Device, Inputs};
use std::alloc::Global;
use std::fs::File;
use std::io::{IsTerminal, Seek, SeekFrom};
use std::sync::Wait;
use std::thread::Threads;

/// Checks a batch, adjudicates it as `run --safe` does, and writes the outputs and a line of the log into a folder, which is
/// made where it isn't there. Nothing is written where an input is refused, or where a warning stops it.
pub fn adjudicate<R: Threads + Wait + Sync>(
    rt: &HostRuntime,
    threads: &R,
    words: &AdjudicateWords<'_>,
) -> Result<(), Ending> {
    let inputs = open_each(rt, &words.inputs)?;
    let plan = planned(rt, threads, words, &inputs)?;
    run_as(rt, threads, &plan.settings(Some(&inputs))).map_err(in_folder)
}

// What the run is to do on inputs that were opened, once they are looked at and the folder is there.
fn planned<R: Threads>(
    rt: &HostRuntime,
    threads: &R,
    words: &AdjudicateWords<'_>,
    inputs: &Inputs<File>,
) -> Result<RunPlan, Ending> {
    look(rt, words, inputs)?;
    rewind(rt, words, inputs)?;
    make_out(rt, words.out)?;
    let stamp = stamp_or_now(rt, words.stamp)?;
    if !words.quiet {
        print_stamp(rt, stamp.as_str());
    }
    let workers = workers_or_all(threads, words.workers);
    let manner = RunManner::of_adjudicate(words, workers, rt.stderr().is_terminal());
    Ok(RunPlan::of_adjudicate(rt.alloc(), words, stamp, manner)?)
}

// Reports the faults of the inputs and the warnings, and ends where an input is refused or a warning stops the command.
fn look(
    rt: &HostRuntime,
    words: &AdjudicateWords<'_>,
    inputs: &Inputs<File>,
) -> Result<(), Ending> {
    let texts = read_opened(rt, inputs, &words.inputs)?;
    let checked = check(rt.alloc(), &words.inputs, &texts)?;
    let early = early_text(rt.alloc(), words.stamp, &texts.batch)?;
    drop(texts);
    report(rt, words, &checked, early.as_str())
}

// Reports what a check found, and the warning of the stamp.
fn report(
    rt: &HostRuntime,
    words: &AdjudicateWords<'_>,
    checked: &Checked,
    early: &str,
) -> Result<(), Ending> {
    if let Some(fault) = checked.refusal {
        return Err(Ending::from(fault).in_words(without_end(rt.alloc(), &checked.text)?));
    }
    let text = checked.text.as_str();
    let _ = eprint!(rt; "{text}{early}");
    let strictly = words.strict && !early.is_empty();
    match why_stopped(words, &checked.warnings, strictly) {
        Some(why) => Err(Ending::Stopped(String::from_str(rt.alloc(), why)?)),
        None => Ok(()),
    }
}

// Why the warnings stop the command, if they do.
fn why_stopped(
    words: &AdjudicateWords<'_>,
    warnings: &Warnings,
    early: bool,
) -> Option<&'static str> {
    if !words.again && warnings.stop(false, false) {
        Some("nothing is written; --again adjudicates despite such warnings")
    } else if early || warnings.stop(words.again, words.strict) {
        Some("nothing is written; without --strict such warnings don't matter")
    } else {
        None
    }
}

// What a check finds.
fn check(alloc: Global, paths: &Inputs<&str>, texts: &Inputs<Vec<u8>>) -> Result<Checked, Memory> {
    let paths = Inputs {
        sheet: paths.sheet,
        books: Some(paths.books),
        batch: Some(paths.batch),
    };
    let files = Inputs {
        sheet: texts.sheet.as_slice(),
        books: Some(texts.books.as_slice()),
        batch: Some(texts.batch.as_slice()),
    };
    checked(alloc, &paths, &files)
}

// The warning of a stamp from before the batch, where one is given.
fn early_text(alloc: Global, stamp: Option<&str>, batch: &[u8]) -> Result<String, Memory> {
    let Some(stamp) = stamp else {
        return Ok(String::new(alloc));
    };
    match read_batch(alloc, batch) {
        Ok(batch) => Ok(early_stamp(alloc, stamp, batch.head.lot().created())?),
        Err(_) => Ok(String::new(alloc)),
    }
}

// The lines without the end of the last.
fn without_end(alloc: Global, text: &String) -> Result<String, Memory> {
    Ok(String::from_str(alloc, text.as_str().trim_end())?)
}

// The inputs are read once more, by the run: a pipe can't be.
fn rewind(
    rt: &HostRuntime,
    words: &AdjudicateWords<'_>,
    inputs: &Inputs<File>,
) -> Result<(), Ending> {
    let files = [
        (Device::Sheet, words.inputs.sheet, &inputs.sheet),
        (Device::Books, words.inputs.books, &inputs.books),
        (Device::Batch, words.inputs.batch, &inputs.batch),
    ];
    for (device, path, file) in files {
        let mut front = file;
        if let Err(error) = front.seek(SeekFrom::Start(0)) {
            return Err(Ending::File(FileFault::of(ProgramFile::Of(device), error)).at_path(
                rt, path,
            ));
        }
    }
    Ok(())
}

fn make_out(rt: &HostRuntime, path: &str) -> Result<(), Ending> {
    match make_folder(rt, path) {
        Ok(()) => Ok(()),
        Err(error) => {
            let fault = FileFault::of(ProgramFile::Of(Device::Response), error);
            let line = fault.words_of(rt.alloc(), "--out", path)?;
            Err(Ending::File(fault).in_words(line))
        }
    }
}

// The ending of the run, with the names that the outputs have for the command.
fn in_folder(ending: Ending) -> Ending {
    match ending {
        Ending::OneFile(one, other) => Ending::OneFile(one.in_folder(), other.in_folder()),
        Ending::NotPlain(one) => Ending::NotPlain(one.in_folder()),
        other => other,
    }
}
