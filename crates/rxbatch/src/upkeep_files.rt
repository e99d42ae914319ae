//! The commands that keep books up, on files.
ghost use Rattle.std.specs.Prelude.{◌≤◌, IfOk};

use crate::ending::{AtPath, Ending};
use crate::file_fault::ProgramFile;
use crate::files::open_input;
use crate::kept_file::KeptFile;
use crate::moment::workers_or_all;
use crate::nodes::Node;
use crate::standard_output::print;
use crate::texts::{bytes_in, opened, shared, text_in};
use crate::two_outputs::TwoOutputs;
use crate::upkeep_values::{day_in, percent_in, percent_of_sheet, period_in};
use crate::upkeep_words::Given;
use rx_books_upkeep::{
    AgedText, Loaded, MembersText, age_text, changes_text, founded_text, members_text,
};
use rx_cli::{AgeWords, MembersWords, Origin, Percent};
use rx_fields::{Day, Memory, Period, date_write};
use rx_io::{Device, Pieces};
use std::alloc::Global;
use std::fs::File;
use std::sync::Arc;
use std::thread::Threads;

const BOOKS: ProgramFile = ProgramFile::Of(Device::Books);

const END_BOOKS: ProgramFile = ProgramFile::Of(Device::EndBooks);

/// Loads a table of members into books, and prints what became of its members. A refused call writes nothing.
pub fn members<R: Threads + Sync>(
    rt: &HostRuntime,
    threads: &R,
    words: &MembersWords<'_>,
) -> Result<(), Ending> {
    let table = open_table(rt, words.members)?;
    match words.origin {
        Origin::Books(path) => load(rt, threads, words, path, &table),
        Origin::Period(period) => {
            let done = first_books(rt, threads, words, period, &table)?;
            finish_members(rt, words, Node::Other, &table, &done)
        }
    }
}

// Loads the table into the books at a path.
fn load<R: Threads + Sync>(
    rt: &HostRuntime,
    threads: &R,
    words: &MembersWords<'_>,
    path: &str,
    table: &File,
) -> Result<(), Ending> {
    let books = opened(rt, path, Device::Books)?;
    let done = loaded(rt, threads, words, path, &books, table)?;
    finish_members(rt, words, Node::of(&books), table, &done)
}

// Writes the end books, and prints what became of the members.
fn finish_members(
    rt: &HostRuntime,
    words: &MembersWords<'_>,
    books: Node,
    table: &File,
    done: &MembersText,
) -> Result<(), Ending> {
    let inputs = [(BOOKS, books), (ProgramFile::Members, Node::of(table))];
    write_members(rt, words, &inputs, done)?;
    let line = counts_line(rt.alloc(), done.counts)?;
    print(rt, line.as_str().as_bytes())
}

// The table loaded into opening books.
fn loaded<R: Threads + Sync>(
    rt: &HostRuntime,
    threads: &R,
    words: &MembersWords<'_>,
    path: &str,
    books: &File,
    table: &File,
) -> Result<MembersText, Ending> {
    let books = shared_text(rt, books, path)?;
    let table = table_in(rt, table, words.members)?;
    let parts = usize::from(workers_or_all(threads, None));
    members_text(threads, rt.alloc(), parts, &books, &table).map_err(|fault| {
        let given = Given {
            books: (path, books.as_slice()),
            table: (words.members, table.as_slice()),
            books_out: words.books_out,
        };
        given.refused(rt, fault)
    })
}

// The first books of a plan.
fn first_books<R: Threads + Sync>(
    rt: &HostRuntime,
    threads: &R,
    words: &MembersWords<'_>,
    period: &str,
    table: &File,
) -> Result<MembersText, Ending> {
    let period = period_in(period)?;
    let table = table_in(rt, table, words.members)?;
    match founded_text(threads, rt.alloc(), period, &table) {
        Ok(done) => Ok(done),
        Err(fault) => Err(Given::of_table(words.members, &table, words.books_out).refused(
            rt, fault,
        )),
    }
}

// The whole text of opened books, to be shared with the end books.
fn shared_text(rt: &HostRuntime, books: &File, path: &str) -> Result<Arc<Vec<u8>, Global>, Ending> {
    let text = text_in(rt, books, path, Device::Books)?;
    Ok(shared(rt.alloc(), text)?)
}

fn open_table(rt: &HostRuntime, path: &str) -> Result<File, Ending> {
    open_input(rt, path, Device::Books).map_err(|ending| of_table(rt, ending, path))
}

fn table_in(rt: &HostRuntime, table: &File, path: &str) -> Result<Vec<u8>, Ending> {
    bytes_in(rt, table, Device::Books).map_err(|ending| of_table(rt, ending, path))
}

// The ending where the table at a path failed.
fn of_table(rt: &HostRuntime, ending: Ending, path: &str) -> Ending {
    ending.of_file(ProgramFile::Members).at_path(rt, path)
}

// Writes the end books, and the report where one is asked for.
fn write_members(
    rt: &HostRuntime,
    words: &MembersWords<'_>,
    inputs: &[(ProgramFile, Node); 2],
    done: &MembersText,
) -> Result<(), Ending> {
    let Some(report) = words.report else {
        let put = write_books(rt, words.books_out, words.safe, inputs, &done.books);
        return put.at_path(rt, words.books_out);
    };
    let mut texts = Vec::new(rt.alloc());
    texts.push(changes_text(rt.alloc(), &done.changes)?)?;
    let text = Pieces::Texts(texts);
    let outputs = TwoOutputs {
        books_out: words.books_out,
        books: &done.books,
        other: report,
        name: ProgramFile::Report,
        text: &text,
        safe: words.safe,
    };
    outputs.write(rt, inputs.as_slice())
}

// Writes the end books, which are no file of these.
fn write_books(
    rt: &HostRuntime,
    path: &str,
    safe: bool,
    inputs: &[(ProgramFile, Node); 2],
    text: &Pieces,
) -> Result<(), Ending> {
    let [(_, books), (_, table)] = *inputs;
    let kept = [books, table];
    let mut file = KeptFile::open(rt, path, END_BOOKS, safe, &kept)?;
    if let Some(ending) = file.twice(rt, END_BOOKS, inputs.as_slice()) {
        file.remove_made(rt);
        return Err(ending);
    }
    let done = written(rt, &mut file, text);
    let ended = file.end(rt, END_BOOKS);
    done?;
    ended
}

fn written(rt: &HostRuntime, file: &mut KeptFile, text: &Pieces) -> Result<(), Ending> {
    file.put_pieces(rt, END_BOOKS, text)?;
    file.take_path(rt)
}

fn counts_line(alloc: Global, counts: Loaded) -> Result<String, Memory> {
    let Loaded {
        came_in,
        changed,
        stayed,
    } = counts;
    Ok(format!(in alloc; "{came_in} came in, {changed} changed, {stayed} stayed\n")?)
}

/// Takes the claims before a day out of books, and prints how many left and the first safe day. A refused call writes
/// nothing.
pub fn age<R: Threads + Sync>(
    rt: &HostRuntime,
    threads: &R,
    words: &AgeWords<'_>,
) -> Result<(), Ending> {
    let ageing = Ageing::asked(rt, words)?;
    let books = opened(rt, words.books, Device::Books)?;
    let done = aged(rt, threads, words, &books, ageing)?;
    finish_aged(&done, rt, words, Node::of(&books))
}

// Writes the outputs, and prints how many claims left.
fn finish_aged(
    done: &AgedText,
    rt: &HostRuntime,
    words: &AgeWords<'_>,
    books: Node,
) -> Result<(), Ending> {
    write_aged(done, rt, words, books)?;
    let line = aged_line(rt.alloc(), done.left, done.first_safe)?;
    print(rt, line.as_str().as_bytes())
}

// Which claims leave, and what the end books are made for.
#[derive(Clone, Copy)]
struct Ageing {
    before: Day,
    period: Option<Period>,
    refill_percent: u64,
}

impl Ageing {
    fn asked(rt: &HostRuntime, words: &AgeWords<'_>) -> Result<Ageing, Ending>
        ensures { IfOk result (λ ageing. ageing.refill_percent ≤ 100) }
    {
        Ok(Ageing {
            before: day_in(words.before)?,
            period: match words.period {
                Some(period) => Some(period_in(period)?),
                None => None,
            },
            refill_percent: match words.percent {
                Percent::Number(number) => percent_in(number)?,
                Percent::Sheet(path) => percent_of_sheet(rt, path)?,
            },
        })
    }
}

// The books without the claims that leave.
fn aged<R: Threads + Sync>(
    rt: &HostRuntime,
    threads: &R,
    words: &AgeWords<'_>,
    books: &File,
    ageing: Ageing,
) -> Result<AgedText, Ending>
    requires { ageing.refill_percent ≤ 100 }
{
    let Ageing {
        before,
        period,
        refill_percent,
    } = ageing;
    let text = shared_text(rt, books, words.books)?;
    let parts = usize::from(workers_or_all(threads, None));
    match age_text(
        threads,
        rt.alloc(),
        parts,
        &text,
        before,
        period,
        refill_percent,
    ) {
        Ok(done) => Ok(done),
        Err(fault) => Err(Given::of_books(words.books, &text, words.books_out).refused(rt, fault)),
    }
}

// Writes the claims that left, and then the end books without them.
fn write_aged(
    done: &AgedText,
    rt: &HostRuntime,
    words: &AgeWords<'_>,
    books: Node,
) -> Result<(), Ending> {
    let outputs = TwoOutputs {
        books_out: words.books_out,
        books: &done.books,
        other: words.dropped,
        name: ProgramFile::Dropped,
        text: &done.dropped,
        safe: words.safe,
    };
    outputs.write(rt, &[(BOOKS, books)])
}

fn aged_line(alloc: Global, left: usize, first_safe: Option<Day>) -> Result<String, Memory> {
    match first_safe {
        Some(day) => {
            let digits = date_write(day);
            let digits = str::from_utf8(&digits).unwrap_or("");
            Ok(format!(in alloc; "{left} claims left, first safe day {digits}\n")?)
        }
        None => Ok(format!(in alloc; "{left} claims left, no safe day\n")?),
    }
}
