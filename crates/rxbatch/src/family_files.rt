//! The command that shows a family of the books, on files.
use crate::ending::Ending;
use crate::moment::workers_or_all;
use crate::origin::NotedFamily;
use crate::refused_text::GivenTexts;
use crate::shown_path::shown_path;
use crate::standard_output::print;
use crate::texts::{opened, text_in};
use rx_cli::{FamilyForm as FormWords, FamilyWords};
use rx_commands::family::{FamilyAsked, FamilyForm, show_family};
use rx_fields::Memory;
use rx_io::{Device, Inputs};
use rx_switch::SwitchFault;
use std::thread::Threads;

/// The texts that a family is shown from.
#[derive(Drop)]
pub struct FamilyTexts {
    pub sheet: Option<Vec<u8>>,
    pub books: Vec<u8>,
}

/// Prints a family of the books.
pub fn family<R: Threads + Sync>(
    rt: &HostRuntime,
    threads: &R,
    words: &FamilyWords<'_>,
) -> Result<(), Ending> {
    let texts = read(rt, words)?;
    let noted = match words.form {
        FormWords::Html => Some(NotedFamily::of(rt, &texts)?),
        FormWords::Columns | FormWords::Tsv | FormWords::Json => None,
    };
    let shown = shown_in(rt, threads, words, &texts, noted.as_ref());
    drop(noted);
    drop(texts);
    match shown? {
        Some(text) => print(rt, &text),
        None => Err(not_found(rt, words)?),
    }
}

// Opens sheet and books, and then reads them.
fn read(rt: &HostRuntime, words: &FamilyWords<'_>) -> Result<FamilyTexts, Ending> {
    let sheet = match words.sheet {
        Some(path) => Some((path, opened(rt, path, Device::Sheet)?)),
        None => None,
    };
    let books = opened(rt, words.books, Device::Books)?;
    let sheet = match sheet {
        Some((path, file)) => Some(text_in(rt, &file, path, Device::Sheet)?),
        None => None,
    };
    Ok(FamilyTexts {
        sheet,
        books: text_in(rt, &books, words.books, Device::Books)?,
    })
}

// The form that is asked for; a page says its origin.
fn form_by<'a>(
    words: &FamilyWords<'a>,
    noted: Option<&'a NotedFamily>,
) -> Result<FamilyForm<'a>, Ending> {
    match (words.form, noted) {
        (FormWords::Tsv, _) => Ok(FamilyForm::Tsv),
        (FormWords::Json, _) => Ok(FamilyForm::Json),
        (FormWords::Html, Some(noted)) => Ok(FamilyForm::Html(noted.origin(words)?)),
        (FormWords::Columns | FormWords::Html, _) => Ok(FamilyForm::Columns),
    }
}

// The family in its form.
fn shown_in<'x, R: Threads + Sync>(
    rt: &HostRuntime,
    threads: &R,
    words: &FamilyWords<'x>,
    texts: &'x FamilyTexts,
    noted: Option<&'x NotedFamily>,
) -> Result<Option<Vec<u8>>, Ending> {
    let form = form_by(words, noted)?;
    let parts = usize::from(workers_or_all(threads, None));
    let sheet = texts.sheet.as_deref();
    let asked = FamilyAsked {
        family: words.family.as_bytes(),
        person: words.person.map(|person| person.as_bytes()),
    };
    let shown = show_family(
        threads,
        rt.alloc(),
        parts,
        sheet,
        &texts.books,
        &asked,
        form,
    );
    match shown {
        Ok(text) => Ok(text),
        Err(fault) => Err(refused(rt, words, texts, fault)),
    }
}

// The ending where sheet or books are refused.
fn refused<'x>(
    rt: &HostRuntime,
    words: &FamilyWords<'x>,
    texts: &'x FamilyTexts,
    fault: SwitchFault,
) -> Ending {
    let paths = Inputs {
        sheet: words.sheet.unwrap_or(""),
        books: words.books,
        batch: "",
    };
    let texts = Inputs {
        sheet: texts.sheet.as_deref(),
        books: Some(texts.books.as_slice()),
        batch: None,
    };
    GivenTexts::of(paths, texts).refused(rt, fault)
}

// The ending where the books list no such member.
fn not_found(rt: &HostRuntime, words: &FamilyWords<'_>) -> Result<Ending, Memory> {
    let alloc = rt.alloc();
    let family = shown_path(alloc, words.family)?;
    let line = match words.person {
        Some(person) => {
            let person = shown_path(alloc, person)?;
            format!(in alloc; "--family {family} --person {person}: the books list no such member")?
        }
        None => format!(in alloc; "--family {family}: the books list no member of it")?,
    };
    Ok(Ending::Stopped(line))
}
