//! What messages call files, streams and options.
use crate::file_fault::ProgramFile;
use rx_io::Device;

/// A file or a stream that a message names.
#[derive(Clone, Copy, PartialEq, Eq)]
pub enum Named {
    /// The file of an option.
    File(ProgramFile),
    /// The sheet or the books to compare with.
    WithSheet,
    WithBooks,
    /// A page in a folder.
    OnePage,
    /// An output that has its name in a folder.
    InFolder(ProgramFile),
    StandardError,
}

impl Named {
    /// The file of a run.
    pub fn of(device: Device) -> Named {
        Named::File(ProgramFile::Of(device))
    }

    /// The option, or what a message calls the file where it has none.
    pub fn text(self) -> &'static str {
        match self {
            Named::File(file) => file.option(),
            Named::WithSheet => "--with-sheet",
            Named::WithBooks => "--with-books",
            Named::OnePage => "a page in --html-dir",
            Named::InFolder(file) => match file {
                ProgramFile::Of(Device::Response) => "response.bin in --out",
                ProgramFile::Of(Device::EndBooks) => "books.txt in --out",
                ProgramFile::Of(Device::Settlement) => "settlement.txt in --out",
                ProgramFile::Log => "log.jsonl in --out",
                other => other.option(),
            },
            Named::StandardError => "standard error",
        }
    }

    /// The same of an output that a folder holds.
    pub fn in_folder(self) -> Named {
        match self {
            Named::File(file) => Named::InFolder(file),
            other => other,
        }
    }
}

/// An option whose value isn't what is expected.
#[derive(Clone, Copy)]
pub enum WrongValue {
    /// The day of `--before`.
    Day,
    Period,
    Percent,
    /// The pharmacy's id.
    Provider,
    /// A page of a report for one pharmacy.
    ProviderPage,
    /// A page of a report on several plans.
    PlansPage,
    /// Another way of a run of several plans.
    PlansRun,
}

impl WrongValue {
    /// The option.
    pub fn option(self) -> &'static str {
        match self {
            WrongValue::Day => "--before",
            WrongValue::Period => "--period",
            WrongValue::Percent => "--refill-percent",
            WrongValue::Provider | WrongValue::ProviderPage => "--for-provider",
            WrongValue::PlansPage | WrongValue::PlansRun => "--plans",
        }
    }

    /// What is expected, in words.
    pub fn expected(self) -> &'static str {
        match self {
            WrongValue::Day => "a date of eight digits",
            WrongValue::Period =>
                "two dates of eight digits with a hyphen between them, the first not after the last",
            WrongValue::Percent => "0 to 100",
            WrongValue::Provider => "an id of 1 to 15 printable characters without '|'",
            WrongValue::ProviderPage => "a report without '--html' and '--html-dir'",
            WrongValue::PlansPage =>
                "a report without '--html' and '--html-dir', which are of one plan",
            WrongValue::PlansRun => "neither '--plain' nor '--desk'",
        }
    }
}
