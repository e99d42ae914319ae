//! Why there is no command.
ghost use Rattle.std.specs.Prelude.{◌≡◌, ◌≢◌};
ghost use Rattle.clap.specs.Words.{kind_of};
ghost use Rattle.rx_cli.specs.Faults.{IsWords, asks_help, asks_version, memory_fault, number_of, out_of_memory, fault_text};

use clap::error::ErrorKind;
use std::alloc::AllocError;
use std::fmt;
use std::fmt::Write;

/// Why the words give no command (docs/CLI.md, "Exit statuses"). Its `Display` is the text for standard
/// error.
#[derive(Debug, Drop)]
pub enum WordsFault {
    /// The words aren't understood, or ask for help or the version: the text is `clap`'s. Without a text where `run`
    /// names one path twice.
    Words(Option<clap::Error>),
    /// Out of memory.
    Memory,
}

impl WordsFault {
    /// The fault's number: 1 Words, 2 Memory (docs/CLI.md, "Exit statuses").
    pub fn code(&self) -> u32
        ensures { result ≡ number_of self.now }
    {
        match self {
            WordsFault::Words(_) => 1,
            WordsFault::Memory => 2,
        }
    }

    /// Says whether the words ask for the version: the text, for standard output, is its line.
    pub fn is_version(&self) -> bool
        ensures { result ≡ asks_version self.now }
    {
        match self {
            WordsFault::Words(Some(error)) => matches!(error.kind(), ErrorKind::DisplayVersion),
            _ => false,
        }
    }

    /// Says whether the words ask for help: the text is the help.
    pub fn is_help(&self) -> bool
        ensures { result ≡ asks_help self.now }
    {
        match self {
            WordsFault::Words(Some(error)) => matches!(error.kind(), ErrorKind::DisplayHelp),
            _ => false,
        }
    }
}

impl From<AllocError> for WordsFault {
    ghost from_gives = { λ _ fault. fault ≡ memory_fault };

    fn from(_error: AllocError) -> WordsFault {
        WordsFault::Memory
    }
}

impl From<clap::Error> for WordsFault {
    ghost from_gives = { λ error fault. IsWords fault → kind_of error ≢ out_of_memory };

    fn from(error: clap::Error) -> WordsFault {
        match error.kind() {
            ErrorKind::OutOfMemory => WordsFault::Memory,
            _ => WordsFault::Words(Some(error)),
        }
    }
}

// A writer of text to another, with each control character but the line feed as two hexadecimal digits in angle
// brackets: a word that `clap` repeats can't drive a terminal.
#[derive(Drop)]
struct Shown<'a, W: fmt::Write> {
    to: &'a mut fmt::Formatter<W>,
}

impl<W: fmt::Write> fmt::Write for Shown<'_, W> {
    fn write_str(&mut self, text: &str) -> fmt::Result {
        for character in text.chars() {
            if character < ' ' && character != '\n' {
                write!(self.to, "<{:02X}>", u32::from(character))?;
            } else {
                self.to.write_char(character)?;
            }
        }
        Ok(())
    }
}

impl fmt::Display for WordsFault {
    ghost output = { fault_text };

    fn fmt<W: fmt::Write>(&self, f: &mut fmt::Formatter<W>) -> fmt::Result {
        match self {
            WordsFault::Words(Some(error)) => write!(Shown { to: f }, "{error}"),
            WordsFault::Words(None) => Ok(()),
            WordsFault::Memory => f.write_str("refused 6 0 0\n"),
        }
    }
}
