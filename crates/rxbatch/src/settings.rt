//! What a run is to do.
use rx_cli::{AdjudicateWords, RunWords};
use rx_io::{Inputs, Outputs};
use std::alloc::{AllocError, Global};
use std::fs::File;

/// What a run is to do: its paths, its stamp, and how it is done and reported.
#[derive(Clone, Copy)]
pub struct RunSettings<'a> {
    pub inputs: Inputs<&'a str>,
    /// The inputs, where they are open already; each stands at its front.
    pub opened: Option<&'a Inputs<File>>,
    pub outputs: Outputs<&'a str>,
    pub log: Option<&'a str>,
    pub stamp: &'a str,
    pub manner: RunManner,
}

/// How a run is done and reported.
#[derive(Clone, Copy)]
pub struct RunManner {
    pub workers: u16,
    pub plain: bool,
    pub desk: bool,
    pub safe: bool,
    /// The steps are reported.
    pub verbose: bool,
    /// The end is reported.
    pub reports_end: bool,
    /// A fault is reported in words too.
    pub explains_refusal: bool,
    /// The log has sums.
    pub sums: bool,
}

/// The same with texts of its own: the words of `run` or of `adjudicate`, with what stands for those that were left out.
#[derive(Drop)]
pub struct RunPlan {
    inputs: Inputs<String>,
    outputs: Outputs<String>,
    log: Option<String>,
    stamp: String,
    manner: RunManner,
}

impl RunPlan {
    /// That of `run`.
    pub fn of_run(
        alloc: Global,
        words: &RunWords<'_>,
        stamp: String,
        manner: RunManner,
    ) -> Result<RunPlan, AllocError> {
        let inputs = copied_inputs(alloc, &words.inputs)?;
        let outputs = Outputs {
            response: String::from_str(alloc, words.outputs.response)?,
            books: String::from_str(alloc, words.outputs.books)?,
            settlement: String::from_str(alloc, words.outputs.settlement)?,
        };
        let log = match words.log {
            Some(path) => Some(String::from_str(alloc, path)?),
            None => None,
        };
        Ok(RunPlan {
            inputs,
            outputs,
            log,
            stamp,
            manner,
        })
    }

    /// That of `adjudicate`, whose outputs and log are in a folder.
    pub fn of_adjudicate(
        alloc: Global,
        words: &AdjudicateWords<'_>,
        stamp: String,
        manner: RunManner,
    ) -> Result<RunPlan, AllocError> {
        let folder = words.out;
        let inputs = copied_inputs(alloc, &words.inputs)?;
        let outputs = outputs_in(alloc, folder)?;
        let log = format!(in alloc; "{folder}/log.jsonl")?;
        Ok(RunPlan {
            inputs,
            outputs,
            log: Some(log),
            stamp,
            manner,
        })
    }

    /// What the run is to do, on these files where they are open already.
    pub fn settings<'a>(&'a self, opened: Option<&'a Inputs<File>>) -> RunSettings<'a> {
        RunSettings {
            inputs: Inputs {
                sheet: self.inputs.sheet.as_str(),
                books: self.inputs.books.as_str(),
                batch: self.inputs.batch.as_str(),
            },
            opened,
            outputs: Outputs {
                response: self.outputs.response.as_str(),
                books: self.outputs.books.as_str(),
                settlement: self.outputs.settlement.as_str(),
            },
            log: self.log.as_deref(),
            stamp: self.stamp.as_str(),
            manner: self.manner,
        }
    }
}

impl RunManner {
    /// That of `run`.
    pub fn of_run(words: &RunWords<'_>, workers: u16, explains_refusal: bool) -> RunManner {
        RunManner {
            workers,
            plain: words.plain,
            desk: words.desk,
            safe: words.safe,
            verbose: words.verbose,
            reports_end: words.verbose,
            explains_refusal,
            sums: words.sums,
        }
    }

    /// That of `adjudicate`, which writes safely, and to a log with sums. Its steps are reported on a terminal.
    pub fn of_adjudicate(
        words: &AdjudicateWords<'_>,
        workers: u16,
        is_terminal: bool,
    ) -> RunManner {
        RunManner {
            workers,
            plain: false,
            desk: false,
            safe: true,
            verbose: is_terminal && !words.quiet,
            reports_end: !words.quiet,
            explains_refusal: true,
            sums: true,
        }
    }
}

fn outputs_in(alloc: Global, folder: &str) -> Result<Outputs<String>, AllocError> {
    Ok(Outputs {
        response: format!(in alloc; "{folder}/response.bin")?,
        books: format!(in alloc; "{folder}/books.txt")?,
        settlement: format!(in alloc; "{folder}/settlement.txt")?,
    })
}

fn copied_inputs(alloc: Global, paths: &Inputs<&str>) -> Result<Inputs<String>, AllocError> {
    Ok(Inputs {
        sheet: String::from_str(alloc, paths.sheet)?,
        books: String::from_str(alloc, paths.books)?,
        batch: String::from_str(alloc, paths.batch)?,
    })
}
