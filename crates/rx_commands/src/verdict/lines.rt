ghost use Rattle.std.specs.Prelude.{◌≡◌, ◌≤◌, IfOk};
ghost use Rattle.rx_print.specs.Page.{Writes};
ghost use Rattle.rx_switch.specs.Job.{texts_in};
ghost use Rattle.rx_commands.specs.Verdict.{difference_lines, end_of, first_of, front_text, option_line, place_line};
ghost use Rattle.rx_commands.specs.Verdict.{place_words, same_line, shown_piece, sized, verdict_text, word_of};
ghost use Rattle.rx_commands.specs.Verified.{texts_in_files};

use crate::pieces::{pieces_before, rest_of_piece};
use crate::verdict::{Verified, are_none};
use rx_batch::ETX;
use rx_fields::Memory;
use rx_io::Outputs;
use rx_print::{Page, Style};
use rx_switch::Output;
use std::alloc::Global;

// How many bytes of a line or record are shown.
const LONGEST: usize = 60;

/// What a place in a file is counted in: pieces, each ended by one byte.
#[derive(Clone, Copy)]
pub(crate) enum Cut {
    Line,
    Record,
}

impl Cut {
    // The byte that ends one.
    fn end(self) -> u8
        ensures { result ≡ end_of self }
    {
        match self {
            Cut::Line => b'\n',
            Cut::Record => ETX,
        }
    }

    fn word(self) -> &'static [u8]
        ensures { result.now ≡ word_of self }
    {
        match self {
            Cut::Line => b"line",
            Cut::Record => b"record",
        }
    }

    // The number of the first.
    fn first(self) -> u128
        ensures value { result ≡ first_of self }
        ensures within { result ≤ 1 }
    {
        match self {
            Cut::Line => 1,
            Cut::Record => 0,
        }
    }
}

/// What `verify` prints: that the files are the same, with the sizes of all three, or a line for each file that isn't,
/// with the first line or record that differs and at most 60 bytes of what stands there from the first byte on that does
/// (docs/CLI.md, "verify"). Records count from 0, the header, and bytes from 0.
pub(crate) fn verdict_text(
    alloc: Global,
    verified: &Verified,
    files: &Outputs<&[u8]>,
) -> Result<Vec<u8>, Memory>
    ensures { IfOk result (λ text. text.items ≡ verdict_text (texts_in verified.now.output)
        (texts_in_files files.now) verified.now.differences) }
{
    let mut page = Page::new(alloc);
    if are_none(&verified.differences) {
        put_same(&mut page, &verified.output);
    } else {
        put_differences(&mut page, verified, files);
    }
    page.into_bytes()
}

// The line that the files are the same, with the sizes of all three.
fn put_same(page: &mut Page, output: &Output)
    ensures { Writes page.old page.new (same_line (texts_in output.now)) }
{
    put_size(page, b"same: response ", &output.response);
    put_size(page, b" bytes, books ", &output.books);
    put_size(page, b", settlement ", &output.settlement);
    page.put(b"\n");
}

// A file's size, after the words that say which it is.
#[tactic(auto, using(std::proofs::Common::append_assoc), unfolding(crate::specs::Verdict::sized))]
fn put_size(page: &mut Page, words: &[u8], file: &[u8])
    ensures { Writes page.old page.new (sized words.now file.now) }
{
    page.put(words);
    page.grouped(file.len() as u64);
}

// A line for each file that differs.
#[tactic(auto, using(std::proofs::Common::append_assoc))]
fn put_differences(page: &mut Page, verified: &Verified, files: &Outputs<&[u8]>)
    ensures { Writes page.old page.new (difference_lines (texts_in verified.now.output)
        (texts_in_files files.now) verified.now.differences) }
{
    let (ours, found) = (&verified.output, verified.differences);
    put_difference(
        page,
        b"response",
        Cut::Record,
        &ours.response,
        files.response,
        found.response,
    );
    put_difference(
        page,
        b"books",
        Cut::Line,
        &ours.books,
        files.books,
        found.books,
    );
    put_difference(
        page,
        b"settlement",
        Cut::Line,
        &ours.settlement,
        files.settlement,
        found.settlement,
    );
}

// The line of one file, where it differs.
fn put_difference(
    page: &mut Page,
    name: &[u8],
    cut: Cut,
    ours: &[u8],
    theirs: &[u8],
    at: Option<usize>,
)
    ensures { Writes page.old page.new (option_line name.now cut ours.now theirs.now at) }
{
    match at {
        Some(at) => put_place(page, name, cut, ours, theirs, at),
        None => {}
    }
}

#[tactic(auto, using(std::proofs::Common::append_assoc))]
fn put_place(page: &mut Page, name: &[u8], cut: Cut, ours: &[u8], theirs: &[u8], at: usize)
    ensures { Writes page.old page.new (place_line name.now cut ours.now theirs.now at) }
{
    put_words(page, name, cut, pieces_before(ours, at, cut.end()), at);
    put_piece(page, cut, theirs, at);
    page.put(b", replay ");
    put_piece(page, cut, ours, at);
    page.put(b"\n");
}

// Which line or record of a file it is, and which byte of the file.
fn put_words(page: &mut Page, name: &[u8], cut: Cut, number: usize, at: usize)
    ensures { Writes page.old page.new (place_words name.now cut number at) }
{
    page.put(name);
    page.put(b": ");
    page.put(cut.word());
    page.put(b" ");
    page.number(number as u128 + cut.first());
    page.put(b" differs from byte ");
    page.number(at as u128);
    page.put(b": file ");
}

// What stands from a place to the end of its line or record.
fn put_piece(page: &mut Page, cut: Cut, file: &[u8], at: usize)
    ensures { Writes page.old page.new (shown_piece cut file.now at) }
{
    put_front(page, rest_of_piece(file, at, cut.end()));
}

// Bytes as a terminal shows them, of many the front only.
#[tactic(auto, using(std::proofs::Common::append_assoc))]
fn put_front(page: &mut Page, bytes: &[u8])
    ensures { Writes page.old page.new (front_text bytes.now) }
{
    if bytes.len() <= LONGEST {
        page.escaped(Style::Terminal, bytes);
        return;
    }
    let front = &bytes[..LONGEST];
    page.escaped(Style::Terminal, front);
    page.put(b"..");
}
