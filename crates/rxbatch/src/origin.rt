//! What a page says of its origin: the files that were read, the program and the time.
use crate::ending::Ending;
use crate::family_files::FamilyTexts;
use crate::moment::now_in_words;
use crate::shown_path::shown_path;
use rx_cli::{FamilyWords, VERSION};
use rx_commands::family::FamilyOrigin;
use rx_fields::Memory;
use rx_io::Inputs;
use rx_report_text::{InputFile, Origin};
use rx_run_log::FileSum;
use std::alloc::Global;

/// The sums of the files that a page was made from, the program's version, and the time.
#[derive(Drop)]
pub struct Noted {
    sums: Inputs<FileSum>,
    options: String,
    program: String,
    made: String,
}

impl Noted {
    /// Of these texts, which were read at these paths, now.
    pub fn of(
        rt: &HostRuntime,
        paths: &Inputs<&str>,
        texts: &Inputs<Vec<u8>>,
    ) -> Result<Noted, Ending> {
        let alloc = rt.alloc();
        Ok(Noted {
            options: options_of(alloc, paths)?,
            program: program_of(alloc)?,
            sums: texts
                .as_ref()
                .map(|text| FileSum::of_bytes(alloc, text.as_slice())),
            made: now_in_words(rt),
        })
    }

    /// The same with the paths of the files.
    pub fn origin<'a>(&'a self, paths: &Inputs<&'a str>) -> Result<Origin<'a>, Ending> {
        Ok(Origin {
            sheet: input_file(paths.sheet, &self.sums.sheet)?,
            books: input_file(paths.books, &self.sums.books)?,
            batch: input_file(paths.batch, &self.sums.batch)?,
            options: self.options.as_str(),
            program: self.program.as_str(),
            made: self.made.as_str(),
        })
    }
}

/// The same of a family's page.
#[derive(Drop)]
pub struct NotedFamily {
    sheet: Option<FileSum>,
    books: FileSum,
    program: String,
    made: String,
}

impl NotedFamily {
    /// Of these texts, now.
    pub fn of(rt: &HostRuntime, texts: &FamilyTexts) -> Result<NotedFamily, Ending> {
        let alloc = rt.alloc();
        Ok(NotedFamily {
            program: program_of(alloc)?,
            sheet: texts
                .sheet
                .as_ref()
                .map(|text| FileSum::of_bytes(alloc, text.as_slice())),
            books: FileSum::of_bytes(alloc, texts.books.as_slice()),
            made: now_in_words(rt),
        })
    }

    /// The same with the paths of the files.
    pub fn origin<'a>(&'a self, words: &FamilyWords<'a>) -> Result<FamilyOrigin<'a>, Ending> {
        let sheet = match (words.sheet, &self.sheet) {
            (Some(path), Some(sum)) => Some(input_file(path, sum)?),
            _ => None,
        };
        Ok(FamilyOrigin {
            sheet,
            books: input_file(words.books, &self.books)?,
            program: self.program.as_str(),
            made: self.made.as_str(),
        })
    }
}

// The program and its version.
fn program_of(alloc: Global) -> Result<String, Memory> {
    let version = VERSION;
    Ok(format!(in alloc; "rxbatch {version}")?)
}

fn options_of(alloc: Global, paths: &Inputs<&str>) -> Result<String, Memory> {
    let sheet = shown_path(alloc, paths.sheet)?;
    let books = shown_path(alloc, paths.books)?;
    let batch = shown_path(alloc, paths.batch)?;
    Ok(format!(in alloc; "--sheet {sheet} --books {books} --batch {batch}")?)
}

fn input_file<'a>(path: &'a str, sum: &'a FileSum) -> Result<InputFile<'a>, Ending> {
    match sum.sha256() {
        Some(sha256) => Ok(InputFile { path, sha256 }),
        None => Err(Ending::from(Memory)),
    }
}
