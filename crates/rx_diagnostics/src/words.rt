ghost use Rattle.std.specs.Prelude.{◌≡◌, ◌++◌, [], IfOk, string_bytes};
ghost use Rattle.rx_diagnostics.specs.Lines.{BeginsAt, line_text, mend_text, place_text, record_name};

use crate::place::Place;
use rx_fields::Memory;
use std::alloc::{AllocError, Global};

/// A fault in words: its place, and what is to be said of it.
#[derive(Drop)]
pub struct Words {
    /// Where in its file the fault stands.
    pub place: Place,
    /// What is there, and what is expected, on one line.
    pub text: String,
    /// The command that mends it in one step, without the name of the file; empty if there is none.
    pub mend: &'static str,
}

impl Words {
    /// The words of a fault that no one step mends.
    pub(crate) fn new(place: Place, text: String) -> Words
        ensures place { result.place ≡ place }
        ensures text { result.text ≡ text }
        ensures mend { result.mend.now ≡ [] }
    {
        Words {
            place,
            text,
            mend: "",
        }
    }

    /// The line of the fault: the file's name and the place, and then what is said of it; last, in parentheses, the
    /// command that mends the file.
    ///
    /// # Errors
    ///
    /// Only Memory.
    pub fn line(&self, alloc: Global, file: &str) -> Result<String, Memory>
        ensures value { IfOk result (λ line. string_bytes line ≡ line_text file.now self.now) }
        ensures begins { IfOk result (λ line. BeginsAt file.now self.now.place (string_bytes line)) }
    {
        let place = place_text(alloc, file, self.place)?;
        let mend = mend_text(alloc, file, self.mend)?;
        joined(alloc, &place, self.text.as_str(), &mend)
    }
}

// The place, what is said, and how it is mended.
#[tactic(auto, using(std::proofs::Common::append_assoc))]
fn joined(alloc: Global, place: &str, text: &str, mend: &str) -> Result<String, Memory>
    ensures { IfOk result (λ line. string_bytes line ≡ place.now ++ (text.now ++ mend.now)) }
{
    Ok(format!(in alloc; "{place}{text}{mend}")?)
}

// The command that mends the file, if there is one.
#[tactic(auto, using(std::proofs::Common::append_assoc))]
fn mend_text(alloc: Global, file: &str, mend: &str) -> Result<String, AllocError>
    ensures { IfOk result (λ text. string_bytes text ≡ mend_text file.now mend.now) }
{
    if mend.is_empty() {
        Ok(String::new(alloc))
    } else {
        format!(in alloc; " ({mend} {file})")
    }
}

// The name of the file, and the place in it.
#[tactic(auto, using(std::proofs::Common::append_assoc))]
fn place_text(alloc: Global, file: &str, place: Place) -> Result<String, AllocError>
    ensures { IfOk result (λ text. string_bytes text ≡ place_text file.now place) }
{
    match place {
        Place::Whole => format!(in alloc; "{file}: "),
        Place::Line(line) => format!(in alloc; "{file}:{line}: "),
        Place::Column { line, column } => format!(in alloc; "{file}:{line}:{column}: "),
        Place::Byte(byte) => format!(in alloc; "{file}: byte {byte}: "),
        Place::Record { number, byte } => {
            let name = record_name(alloc, number)?;
            format!(in alloc; "{file}: {name}, byte {byte}: ")
        }
    }
}

// The header by its name, another record by its number.
fn record_name(alloc: Global, number: u64) -> Result<String, AllocError>
    ensures { IfOk result (λ name. string_bytes name ≡ record_name number) }
{
    if number == 0 {
        String::from_str(alloc, "header")
    } else {
        format!(in alloc; "record {number}")
    }
}

/// What is said of a fault, as yet without its place.
#[derive(Drop)]
pub(crate) struct Said {
    pub(crate) text: String,
    pub(crate) mend: &'static str,
}

impl Said {
    /// A text of a fault that no one step mends.
    pub(crate) fn plain(text: String) -> Said
        ensures text { result.text ≡ text }
        ensures mend { result.mend.now ≡ [] }
    {
        Said { text, mend: "" }
    }

    /// A text with the command that mends the file.
    pub(crate) fn mended(alloc: Global, text: &str, mend: &'static str) -> Result<Said, AllocError>
        ensures text { IfOk result (λ said. string_bytes said.text ≡ text.now) }
        ensures mend { IfOk result (λ said. said.mend.now ≡ mend.now) }
    {
        let text = String::from_str(alloc, text)?;
        Ok(Said { text, mend })
    }
}

impl Words {
    /// What is said, at its place.
    pub(crate) fn of(place: Place, said: Said) -> Words
        ensures place { result.place ≡ place }
        ensures text { result.text ≡ said.text }
        ensures mend { result.mend.now ≡ said.mend.now }
    {
        let Said { text, mend } = said;
        Words { place, text, mend }
    }
}
