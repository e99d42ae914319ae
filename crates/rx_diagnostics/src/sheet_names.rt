ghost use Rattle.std.specs.Prelude.{◌≡◌, ◌++◌, IfOk, OnOk, codes, option_copied, string_bytes};
ghost use Rattle.toml.specs.View.{table_view};
ghost use Rattle.rx_diagnostics.specs.KnownKeys.{texts_of};
ghost use Rattle.rx_diagnostics.specs.Quoting.{shown_text};
ghost use Rattle.rx_diagnostics.specs.SheetNames.{at_line, comma_before, meant_text, names_in, names_text, unless_known};

use crate::quoting::shown;
use crate::sheet_keys::is_among;
use crate::sheet_lines::{At, line_of};
use std::alloc::{AllocError, Global};
use toml::Table;

/// The names of a table that aren't among these.
pub(crate) fn names_in<'t>(
    alloc: Global,
    table: &'t Table,
    known: &[&'static str],
) -> Result<Vec<&'t str>, AllocError>
    ensures { IfOk result (λ names. texts_of names.items ≡ names_in (texts_of known.now) (table_view table.now)) }
{
    let mut names = Vec::new(alloc);
    for (name, _value) in table.iter() {
        put_unknown(&mut names, name.as_str(), known)?;
    }
    Ok(names)
}

// A name that isn't among these.
fn put_unknown<'t>(
    names: &mut Vec<&'t str>,
    name: &'t str,
    known: &[&'static str],
) -> Result<(), AllocError>
    ensures { OnOk result
        (texts_of names.new.items ≡ texts_of names.old.items ++ unless_known (texts_of known.now) name.now) }
{
    if !is_among(name, known) {
        names.push(name)?;
    }
    Ok(())
}

/// These names, each after a blank and with commas between.
#[tactic(auto, using(std::proofs::Common::append_assoc))]
pub(crate) fn names_words(alloc: Global, names: &[&str]) -> Result<String, AllocError>
    ensures { IfOk result (λ said. string_bytes said ≡ names_text (texts_of names.now)) }
{
    let mut said = String::new(alloc);
    let mut left = names;
    while let [name, rest @ ..] = left {
        put_name(alloc, &mut said, name, comma_before(rest))?;
        left = rest;
    }
    Ok(said)
}

// A comma, unless nothing follows.
fn comma_before(rest: &[&str]) -> &'static str
    ensures { result.now ≡ comma_before (texts_of rest.now) }
{
    if rest.is_empty() { "" } else { "," }
}

// One of them.
#[tactic(auto, using(std::proofs::Common::append_assoc))]
fn put_name(alloc: Global, said: &mut String, name: &str, comma: &str) -> Result<(), AllocError>
    ensures { OnOk result
        (string_bytes said.new ≡ string_bytes said.old ++ (codes " " ++ (shown_text name.now ++ comma.now))) }
{
    let shown = shown(alloc, name.as_bytes())?;
    let named = format!(in alloc; " {shown}{comma}")?;
    said.push_str(named.as_str())
}

/// The key of this sheet that may be meant, with its line.
#[tactic(auto, unfolding(crate::specs::SheetNames::meant_text))]
pub(crate) fn meant_words(
    alloc: Global,
    text: &[u8],
    name: Option<&str>,
) -> Result<String, AllocError>
    ensures { IfOk result (λ said. string_bytes said ≡ meant_text text.now (option_copied name.entry)) }
{
    let Some(name) = name else {
        return Ok(String::new(alloc));
    };
    let line = line_of(alloc, text, At::Key(name))?;
    at_line(alloc, line, name)
}

#[tactic(auto, using(std::proofs::Common::append_assoc))]
fn at_line(alloc: Global, line: Option<u64>, name: &str) -> Result<String, AllocError>
    ensures { IfOk result (λ said. string_bytes said ≡ at_line line name.now) }
{
    let name = shown(alloc, name.as_bytes())?;
    match line {
        Some(line) => format!(in alloc; "; line {line} has {name}: is it meant?"),
        None => format!(in alloc; "; {name} is no key of a sheet: is it meant?"),
    }
}
