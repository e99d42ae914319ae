ghost use Rattle.std.specs.Prelude.{◌++◌, codes};
ghost use Rattle.rx_print.specs.Escape.{escaped};
ghost use Rattle.rx_print.specs.Page.{Writes};
ghost use Rattle.rx_print.specs.declared.style.Style.TheVariants.{Html};
ghost use Rattle.rx_report_text.specs.Origin.{made_text, origin_text, plan_text, file_text, files_text, stamp_text, term_text};
ghost use Rattle.rx_report_text.specs.Stamps.{stamp_words};

use crate::stamp::stamp_words;
use rx_fields::{Door, Lot, Stamp};
use rx_print::{Page, Style};

/// A file from which a page was made.
#[derive(Clone, Copy)]
pub struct InputFile<'a> {
    /// Its path, as it was given.
    pub path: &'a str,
    /// The SHA-256 of its bytes, in 64 hexadecimal digits.
    pub sha256: &'a str,
}

/// What a page was made from, by what and when.
#[derive(Clone, Copy)]
pub struct Origin<'a> {
    pub sheet: InputFile<'a>,
    pub books: InputFile<'a>,
    pub batch: InputFile<'a>,
    /// The options that name these files to a command, as a shell reads them.
    pub options: &'a str,
    /// The program and its version.
    pub program: &'a str,
    /// The time by the clock, as `2026-11-28 09:55`; empty where it isn't known.
    pub made: &'a str,
}

/// What a page says at its head: the batch, the stamp of its run, the plan, and the page's origin.
#[derive(Clone, Copy)]
pub struct PageHead<'a> {
    pub lot: Lot,
    /// Where it is known.
    pub stamp: Option<Stamp>,
    /// The BIN and the processor control number of the sheet.
    pub door: Door,
    pub origin: Origin<'a>,
}

/// Writes the plan, the stamp, the files, the program and the time.
pub(crate) fn put_origin(page: &mut Page, head: &PageHead<'_>)
    ensures { Writes page.old page.new (origin_text head.now) }
{
    put_plan(page, &head.door);
    put_stamp(page, head.stamp);
    put_files(page, &head.origin);
    put_made(page, &head.origin);
}

fn put_plan(page: &mut Page, door: &Door)
    ensures { Writes page.old page.new (plan_text door.now) }
{
    page.markup("<dl class=\"origin\">\n<dt>Plan</dt><dd>BIN ");
    page.escaped(Style::Html, &door.bin);
    page.markup(", PCN ");
    page.escaped(Style::Html, &door.pcn);
    page.markup("</dd>\n");
}

fn put_stamp(page: &mut Page, stamp: Option<Stamp>)
    ensures { Writes page.old page.new (stamp_text stamp) }
{
    match stamp {
        None => {}
        Some(stamp) => put_known_stamp(page, stamp),
    }
}

fn put_known_stamp(page: &mut Page, stamp: Stamp)
    ensures { Writes page.old page.new (codes "<dt>Stamp</dt><dd>" ++ (escaped Html (stamp_words stamp) ++ codes "</dd>\n")) }
{
    page.markup("<dt>Stamp</dt><dd>");
    page.escaped(Style::Html, &stamp_words(stamp));
    page.markup("</dd>\n");
}

fn put_files(page: &mut Page, origin: &Origin<'_>)
    ensures { Writes page.old page.new (files_text origin.now) }
{
    put_file(page, "Sheet", &origin.sheet);
    put_file(page, "Books", &origin.books);
    put_file(page, "Batch file", &origin.batch);
}

/// Writes a file under a name: its path, and the SHA-256 of its bytes.
pub fn put_file(page: &mut Page, name: &'static str, file: &InputFile<'_>)
    ensures { Writes page.old page.new (file_text name.now file.now) }
{
    page.markup("<dt>");
    page.markup(name);
    page.markup("</dt><dd>");
    put_text(page, file.path);
    page.markup(" <code>");
    put_text(page, file.sha256);
    page.markup("</code></dd>\n");
}

fn put_made(page: &mut Page, origin: &Origin<'_>)
    ensures { Writes page.old page.new (made_text origin.now) }
{
    put_term(page, "Program", origin.program);
    put_term(page, "Made", origin.made);
    page.markup("</dl>\n");
}

/// Writes a text of the program under a name.
pub fn put_term(page: &mut Page, name: &'static str, text: &str)
    ensures { Writes page.old page.new (term_text name.now text.now) }
{
    page.markup("<dt>");
    page.markup(name);
    page.markup("</dt><dd>");
    put_text(page, text);
    page.markup("</dd>\n");
}

/// Writes a text of the command line.
pub(crate) fn put_text(page: &mut Page, text: &str)
    ensures { Writes page.old page.new (escaped Html text.now) }
{
    page.escaped(Style::Html, text.as_bytes());
}
