//! The refusals of the commands that keep books up, in words.
use crate::ending::{Ending, Numbers};
use crate::refused_text::GivenTexts;
use crate::shown_path::shown_path;
use rx_books_upkeep::{TableFault, UpkeepFault, Wrong};
use rx_fields::{MOST_LINES, Memory};
use rx_io::Inputs;
use rx_switch::SwitchFault;
use std::alloc::{AllocError, Global};

/// What a command was given: the paths, as they were written, and the texts; those of no file are empty.
#[derive(Clone, Copy)]
pub struct Given<'a> {
    pub books: (&'a str, &'a [u8]),
    pub table: (&'a str, &'a [u8]),
    pub books_out: &'a str,
}

impl<'a> Given<'a> {
    /// Only a table, of this path and this text.
    pub fn of_table(path: &'a str, text: &'a [u8], books_out: &'a str) -> Given<'a> {
        let books = ("", "".as_bytes());
        let table = (path, text);
        Given {
            books,
            table,
            books_out,
        }
    }

    /// Only books, of this path and this text.
    pub fn of_books(path: &'a str, text: &'a [u8], books_out: &'a str) -> Given<'a> {
        let table = ("", "".as_bytes());
        let books = (path, text);
        Given {
            books,
            table,
            books_out,
        }
    }

    /// The ending where these are refused: the numbers, and then the words.
    pub fn refused(&self, rt: &HostRuntime, fault: UpkeepFault) -> Ending {
        let alloc = rt.alloc();
        let (numbers, line) = match fault {
            UpkeepFault::Memory => return self.books_refused(rt, SwitchFault::Memory),
            UpkeepFault::Books(fault) => return self.books_refused(rt, SwitchFault::Books(fault)),
            UpkeepFault::Table(fault) => (
                [8, table_code(fault), line_number(fault)],
                table_words(alloc, fault, self.table),
            ),
            UpkeepFault::AfterPeriod => ([9, 1, 0], after_period(alloc)),
            UpkeepFault::TooMuch => ([9, 2, 0], too_much(alloc, self.books_out)),
        };
        let numbers = Numbers::Refused(numbers);
        match line {
            Ok(line) => Ending::InWords(numbers, line),
            Err(Memory) => Ending::Bare(numbers),
        }
    }

    // The ending where the books are, or out of memory, as a run reports it.
    fn books_refused(&self, rt: &HostRuntime, fault: SwitchFault) -> Ending {
        let (path, text) = self.books;
        let paths = Inputs {
            sheet: "",
            books: path,
            batch: "",
        };
        let texts = Inputs {
            sheet: None,
            books: Some(text),
            batch: None,
        };
        GivenTexts::of(paths, texts).refused(rt, fault)
    }
}

/// The words of these commands' refusal with these numbers, of files that are called as here; none where none has them.
pub fn numbered_upkeep(
    alloc: Global,
    kind: u64,
    within: u64,
    place: u64,
) -> Result<Option<String>, Memory> {
    let table = ("members", "".as_bytes());
    let line = match (kind, within, place) {
        (8, 1, 0) => table_words(alloc, TableFault::TooMuch, table)?,
        (8, 2, 1) => table_words(alloc, TableFault::Heading, table)?,
        (8, 3, line) if line > 1 => format!(in alloc;
            "members:{line}: expected a member: family, person, first, last, with a tab between each two"
        )?,
        (8, 4, line) if line > 2 => format!(in alloc;
            "members:{line}: the member of an earlier line again; expected once"
        )?,
        (8, 5, line) if line > 0 => table_words(alloc, TableFault::Unended(line), table)?,
        (9, 1, 0) => after_period(alloc)?,
        (9, 2, 0) => too_much(alloc, "books")?,
        _ => return Ok(None),
    };
    Ok(Some(line))
}

fn after_period(alloc: Global) -> Result<String, Memory> {
    let text =
        "--before: the day is after the first day of the period, whose totals would lack claims";
    Ok(String::from_str(alloc, text)?)
}

fn too_much(alloc: Global, path: &str) -> Result<String, Memory> {
    let shown = shown_path(alloc, path)?;
    Ok(format!(in alloc;
        "--books-out {shown}: more than {MOST_LINES} lines, and no run reads such books (age takes claims out)"
    )?)
}

// The fault's number.
fn table_code(fault: TableFault) -> u64 {
    match fault {
        TableFault::TooMuch => 1,
        TableFault::Heading => 2,
        TableFault::Line(..) => 3,
        TableFault::Twice(..) => 4,
        TableFault::Unended(_) => 5,
        TableFault::Memory => 6,
    }
}

// The line of the fault.
fn line_number(fault: TableFault) -> u64 {
    match fault {
        TableFault::TooMuch | TableFault::Memory => 0,
        TableFault::Heading => 1,
        TableFault::Line(line, _) | TableFault::Twice(line, _) | TableFault::Unended(line) => line,
    }
}

// The fault of a table: the file and the line, what is expected, and how it is mended.
fn table_words(
    alloc: Global,
    fault: TableFault,
    (path, text): (&str, &[u8]),
) -> Result<String, Memory> {
    let shown = shown_path(alloc, path)?;
    let expected = expected_of(alloc, fault)?;
    let hint = hint_of(fault, text);
    let line = match line_number(fault) {
        0 => format!(in alloc; "{shown}: {expected}")?,
        number => format!(in alloc; "{shown}:{number}: {expected}{hint}")?,
    };
    Ok(line)
}

fn expected_of(alloc: Global, fault: TableFault) -> Result<String, AllocError> {
    let words = match fault {
        TableFault::Memory => "out of memory",
        TableFault::TooMuch => return format!(in alloc; "more than {MOST_LINES} lines"),
        TableFault::Twice(_, earlier) => {
            return format!(in alloc; "the member of line {earlier} again; expected once");
        }
        TableFault::Heading =>
            "expected the heading family, person, first, last, with a tab between each two",
        TableFault::Line(_, wrong) => expected_by(wrong),
        TableFault::Unended(_) => "expected a line feed at the end of the last line",
    };
    String::from_str(alloc, words)
}

fn expected_by(wrong: Wrong) -> &'static str {
    match wrong {
        Wrong::Fields =>
            "expected four fields: family, person, first, last, with a tab between each two",
        Wrong::Family => "family: expected an id of at most 20 bytes",
        Wrong::Person => "person: expected an id of at most 3 bytes",
        Wrong::First => "first: expected a date of eight digits, CCYYMMDD",
        Wrong::Last => "last: expected a date of eight digits, CCYYMMDD, and nothing after it",
        Wrong::Order => "last: expected a day that isn't before the first",
    }
}

// How a fault that editors and spreadsheets make is mended.
fn hint_of(fault: TableFault, text: &[u8]) -> &'static str {
    let number = match fault {
        TableFault::Heading | TableFault::Line(..) => line_number(fault),
        _ => return "",
    };
    let line = line_of(text, number);
    if number == 1 && line.starts_with(b"\xEF\xBB\xBF") {
        " (a byte order mark stands in front: save the file without one)"
    } else if line.ends_with(b"\r") {
        " (lines end in CR LF: tr -d '\\r')"
    } else if line.contains(&b'"') {
        " (fields have no quotation marks)"
    } else if line.contains(&b' ') {
        " (fields have no blanks around them)"
    } else {
        ""
    }
}

// The bytes of a line, counted from 1.
fn line_of(text: &[u8], number: u64) -> &[u8] {
    let others = number.saturating_sub(1) as usize;
    text.split(|b| *b == b'\n').nth(others).unwrap_or(&[])
}
