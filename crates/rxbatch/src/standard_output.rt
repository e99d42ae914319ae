use crate::ending::Ending;
use rx_commands::{Outcome, Printed};
use std::io;
use std::io::Write;

/// Writes a text to standard output.
pub fn print(rt: &HostRuntime, text: &[u8]) -> Result<(), Ending> {
    io::writer(rt)
        .write_all(text)
        .map_err(|error| Ending::of_standard_output(error).at_path(rt, ""))
}

/// Writes what a command prints, and ends as the command does.
pub fn print_outcome(rt: &HostRuntime, printed: Printed) -> Result<(), Ending> {
    match printed.outcome {
        Outcome::Done => print(rt, &printed.text),
        Outcome::NotFound => Err(Ending::NotFound(printed.text)),
        Outcome::Differs => {
            print(rt, &printed.text)?;
            Err(Ending::Differs)
        }
    }
}
