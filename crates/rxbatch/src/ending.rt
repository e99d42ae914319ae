use crate::file_fault::{FileFault, ProgramFile, Reason};
use crate::named::{Named, WrongValue};
use rx_batch::BatchFault;
use rx_fields::Memory;
use rx_io::Device;
use rx_switch::{IoFault, SwitchFault, told};
use std::alloc::{AllocError, AllocFailed, Global};
use std::io;
use std::io::Write;

/// How the program ends where its work isn't done (docs/CLI.md, "Exit statuses").
#[derive(Drop)]
pub enum Ending {
    /// A word of the command line isn't text.
    NoText,
    /// The words aren't understood; what is wrong with them was printed.
    Misused,
    /// These are one regular file, as far as the system says: the files of two options, or one and a standard stream.
    OneFile(Named, Named),
    /// The paths of these two options are `-`.
    TwoStreams(Named, Named),
    /// The files that the words name can't be written so: a line says why.
    Conflict(String),
    /// The path of this option is there, and leads to no regular file; `--safe` replaces no other.
    NotPlain(Named),
    /// The value of an option isn't what is expected.
    NoValue(WrongValue),
    /// Out of memory.
    Memory,
    /// A file failed.
    File(FileFault),
    /// One of these two, or a text that isn't a response file, with lines in words.
    InWords(Numbers, String),
    /// The same without words.
    Bare(Numbers),
    /// A check found only warnings.
    Warned,
    /// A line says why nothing is done, in words.
    Stopped(String),
    /// No transaction is what was asked for: the line that says so.
    NotFound(Vec<u8>),
    /// A file isn't what the inputs give; what differs was printed.
    Differs,
}

/// What the line of numbers says of a run that isn't done.
#[derive(Clone, Copy)]
pub enum Numbers {
    /// The three numbers of a refusal.
    Refused([u64; 3]),
    /// The number of a file that failed.
    File(u64),
    /// The number of the fault of a response file, and its place.
    Response([u64; 2]),
    /// The number of the fault of a detail that holds no reply, and its place.
    Reply([u64; 2]),
}

impl From<AllocError> for Ending {
    fn from(_refused: AllocError) -> Ending {
        Ending::Memory
    }
}

impl<T: Drop> From<AllocFailed<T>> for Ending {
    fn from(_refused: AllocFailed<T>) -> Ending {
        Ending::Memory
    }
}

impl Numbers {
    // The exit status with such a line.
    fn status(self) -> u8 {
        match self {
            Numbers::Refused(_) | Numbers::Response(_) | Numbers::Reply(_) => 1,
            Numbers::File(_) => 3,
        }
    }
}

impl From<SwitchFault> for Ending {
    fn from(fault: SwitchFault) -> Ending {
        Ending::Bare(numbers_of(fault))
    }
}

impl From<Memory> for Ending {
    fn from(_refused: Memory) -> Ending {
        Ending::Memory
    }
}

impl Ending {
    /// The ending where a text can't be read as a response file.
    pub fn of_response(fault: BatchFault) -> Ending {
        match fault {
            BatchFault::Memory => Ending::Memory,
            fault => {
                let numbers = [u64::from(fault.code()), fault.place().unwrap_or(0)];
                Ending::Bare(Numbers::Response(numbers))
            }
        }
    }

    /// The same, of a file that failed with its words: the option, this path, and the reason.
    pub fn at_path(self, rt: &HostRuntime, path: &str) -> Ending {
        match self {
            Ending::File(fault) => Ending::File(fault).at_label(rt, fault.file.option(), path),
            other => other,
        }
    }

    /// The same where a message calls the file so.
    pub fn at_label(self, rt: &HostRuntime, label: &str, path: &str) -> Ending {
        match self {
            Ending::File(fault) if !fault.is_closed_output() => {
                match fault.words_of(rt.alloc(), label, path) {
                    Ok(line) => Ending::InWords(Numbers::File(fault.file.number()), line),
                    Err(Memory) => Ending::File(fault),
                }
            }
            other => other,
        }
    }

    /// The same without the words that follow its numbers.
    pub fn without_words(self) -> Ending {
        match self {
            Ending::InWords(numbers, _) => Ending::Bare(numbers),
            other => other,
        }
    }

    /// The ending where a call on an input failed.
    pub fn of_input(device: Device, error: io::Error) -> Ending {
        Ending::File(FileFault::of(ProgramFile::Of(device), error))
    }

    /// The ending where a call on an output failed.
    pub fn of_output(file: ProgramFile, error: io::Error) -> Ending {
        match error.kind() {
            io::ErrorKind::OutOfMemory => Ending::Memory,
            _ => Ending::File(FileFault::of(file, error)),
        }
    }

    /// The same where a sink failed, with what the system answered last, where that call failed.
    pub fn of_sink(file: ProgramFile, last: Option<io::Error>) -> Ending {
        match last {
            Some(error) => Ending::of_output(file, error),
            None => Ending::File(FileFault {
                file,
                reason: Reason::Unknown,
            }),
        }
    }

    /// The ending of a run on devices, with what the system answered last, where that call failed.
    pub fn of_run(fault: IoFault, last: Option<io::Error>) -> Ending {
        let (device, reason) = match fault {
            IoFault::Switch(refused) => return Ending::from(refused),
            IoFault::Long(device) => (device, Reason::Long),
            IoFault::Read(device) | IoFault::Write(device) => match last {
                Some(error) => (device, Reason::System(error)),
                None => (device, Reason::Unknown),
            },
        };
        let file = ProgramFile::Of(device);
        Ending::File(FileFault { file, reason })
    }

    /// The same ending, of another file.
    pub fn of_file(self, file: ProgramFile) -> Ending {
        match self {
            Ending::File(fault) => Ending::File(FileFault {
                file,
                reason: fault.reason,
            }),
            ending => ending,
        }
    }

    /// The ending where another run has an output.
    pub fn busy(file: ProgramFile) -> Ending {
        Ending::File(FileFault {
            file,
            reason: Reason::Busy,
        })
    }

    /// The ending where a call on the log failed.
    pub fn of_log(error: io::Error) -> Ending {
        Ending::File(FileFault {
            file: ProgramFile::Log,
            reason: Reason::System(error),
        })
    }

    /// The ending where a call on standard output failed.
    pub fn of_standard_output(error: io::Error) -> Ending {
        Ending::File(FileFault {
            file: ProgramFile::Output,
            reason: Reason::System(error),
        })
    }

    /// The exit status: 1 for a refused input, 2 for words, 3 for a file, 4 for only warnings and for a claim that isn't
    /// there, 5 where a file differs.
    pub fn status(&self) -> u8 {
        match self {
            Ending::NoText | Ending::Misused | Ending::NoValue(_) => 2,
            Ending::OneFile(..) | Ending::TwoStreams(..) => 2,
            Ending::Conflict(_) | Ending::NotPlain(_) => 2,
            Ending::Memory => 1,
            Ending::File(_) => 3,
            Ending::InWords(numbers, _) | Ending::Bare(numbers) => numbers.status(),
            Ending::Warned | Ending::Stopped(_) | Ending::NotFound(_) => 4,
            Ending::Differs => 5,
        }
    }

    /// The numbers of a refused run, or of a file that failed.
    pub fn numbers(&self) -> Option<Numbers> {
        match self {
            Ending::Memory => Some(numbers_of(SwitchFault::Memory)),
            Ending::File(fault) => Some(Numbers::File(fault.file.number())),
            Ending::InWords(numbers, _) | Ending::Bare(numbers) => Some(*numbers),
            _ => None,
        }
    }

    /// The same with a line in words after its numbers.
    pub fn in_words(self, line: String) -> Ending {
        match self.numbers() {
            Some(numbers) => Ending::InWords(numbers, line),
            None => self,
        }
    }

    /// The ending in words where its options are at fault.
    pub fn words(&self, alloc: Global) -> Option<String> {
        match self {
            Ending::OneFile(one, other) => {
                let (one, other) = (one.text(), other.text());
                format!(in alloc; "{one} and {other} are the same file").ok()
            }
            Ending::NotPlain(one) => {
                let one = one.text();
                format!(in alloc; "{one} isn't a regular file").ok()
            }
            _ => None,
        }
    }

    /// Writes the line or the text of it to standard error; nothing where the reader of standard output is gone.
    pub fn print(&self, rt: &HostRuntime) {
        let _ = match self {
            Ending::NoText => eprintln!(rt; "rxbatch: an argument isn't valid UTF-8"),
            Ending::OneFile(one, other) => {
                let (one, other) = (one.text(), other.text());
                eprintln!(rt; "rxbatch: {one} and {other} are the same file")
            }
            Ending::TwoStreams(one, other) => {
                let (one, other) = (one.text(), other.text());
                eprintln!(rt;
                    "rxbatch: {one} and {other} are both -: only one path may be (/dev/stdin and /dev/stdout are the same streams)"
                )
            }
            Ending::NotPlain(one) => {
                let one = one.text();
                eprintln!(rt; "rxbatch: {one} isn't a regular file")
            }
            Ending::NoValue(wrong) => {
                let (option, expected) = (wrong.option(), wrong.expected());
                eprintln!(rt; "rxbatch: {option}: expected {expected}")
            }
            Ending::Memory => print_numbers(rt, numbers_of(SwitchFault::Memory)),
            Ending::File(fault) if fault.is_closed_output() => Ok(()),
            Ending::File(fault) => print_numbers(rt, Numbers::File(fault.file.number())),
            Ending::InWords(numbers, line) => {
                let _ = print_numbers(rt, *numbers);
                eprintln!(rt; "{line}")
            }
            Ending::Bare(numbers) => print_numbers(rt, *numbers),
            Ending::Stopped(line) | Ending::Conflict(line) => eprintln!(rt; "rxbatch: {line}"),
            Ending::NotFound(line) => rt.stderr().write_all(line.as_slice()),
            Ending::Misused | Ending::Warned | Ending::Differs => Ok(()),
        };
    }
}

/// What may end the work at a file.
pub trait AtPath<T> {
    /// The same of a file that failed with its words: the option, this path, and the reason.
    fn at_path(self, rt: &HostRuntime, path: &str) -> Result<T, Ending>;
}

impl<T> AtPath<T> for Result<T, Ending> {
    fn at_path(self, rt: &HostRuntime, path: &str) -> Result<T, Ending> {
        match self {
            Ok(done) => Ok(done),
            Err(ending) => Err(ending.at_path(rt, path)),
        }
    }
}

/// What the system answers to a call on an output.
pub trait OfOutput<T> {
    /// The ending where the call failed.
    fn of_output(self, file: ProgramFile) -> Result<T, Ending>;
}

impl<T> OfOutput<T> for io::Result<T> {
    fn of_output(self, file: ProgramFile) -> Result<T, Ending> {
        match self {
            Ok(done) => Ok(done),
            Err(error) => Err(Ending::of_output(file, error)),
        }
    }
}

/// The three numbers of a refusal.
pub fn numbers_of(refused: SwitchFault) -> Numbers {
    Numbers::Refused(told(&IoFault::Switch(refused)).numbers)
}

// Writes the line of a refused run, or of a file that failed.
fn print_numbers(rt: &HostRuntime, numbers: Numbers) -> io::Result<()> {
    match numbers {
        Numbers::Refused(numbers) => print_refusal(rt, numbers),
        Numbers::File(number) => print_failed_file(rt, number),
        Numbers::Response(numbers) => print_two(rt, "response", numbers),
        Numbers::Reply(numbers) => print_two(rt, "reply", numbers),
    }
}

fn print_refusal(rt: &HostRuntime, numbers: [u64; 3]) -> io::Result<()> {
    let [first, second, third] = numbers;
    eprintln!(rt; "refused {first} {second} {third}")
}

fn print_two(rt: &HostRuntime, word: &str, numbers: [u64; 2]) -> io::Result<()> {
    let [number, place] = numbers;
    eprintln!(rt; "{word} {number} {place}")
}

fn print_failed_file(rt: &HostRuntime, number: u64) -> io::Result<()> {
    eprintln!(rt; "file {number}")
}
