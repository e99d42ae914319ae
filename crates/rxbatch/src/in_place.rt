//! The outputs of a run that writes them where they stand, each of them locked meanwhile.
use crate::beside_file::{BesideFile, NotMade};
use crate::ending::{Ending, OfOutput};
use crate::file_fault::ProgramFile;
use crate::files::names_stream;
use crate::named::Named;
use crate::nodes::Node;
use crate::output_file::OutputFile;
use crate::places::{Found, followed_path};
use rx_io::{Device, Outputs};
use std::fs::File;
use std::io;

// The outputs of a run, in the order of their numbers.
const OUTPUTS: [ProgramFile; 3] = [
    ProgramFile::Of(Device::Response),
    ProgramFile::Of(Device::EndBooks),
    ProgramFile::Of(Device::Settlement),
];

/// The outputs, opened and locked.
#[derive(Drop)]
pub struct InPlace {
    files: Outputs<LockedFile>,
}

/// An output, and the locked file next to it. A device or a pipe has none.
#[derive(Drop)]
pub struct LockedFile {
    output: OutputFile,
    lock: Option<BesideFile>,
}

impl InPlace {
    /// Locks and opens the files in the order of their numbers, and empties none. Where one can't be opened, none that this
    /// run made stays. The files that are kept are those that this run has opened.
    pub fn open(rt: &HostRuntime, paths: &Outputs<&str>, kept: &[Node]) -> Result<InPlace, Ending> {
        let [first, second, third] = OUTPUTS;
        let response = LockedFile::open(rt, paths.response, first, kept, &[])?;
        let opened = [(first, &response)];
        let books = match LockedFile::open(rt, paths.books, second, kept, &opened) {
            Ok(books) => books,
            Err(ending) => {
                response.remove_made(rt);
                return Err(ending);
            }
        };
        let opened = [(first, &response), (second, &books)];
        match LockedFile::open(rt, paths.settlement, third, kept, &opened) {
            Ok(settlement) => Ok(InPlace {
                files: Outputs {
                    response,
                    books,
                    settlement,
                },
            }),
            Err(ending) => {
                response.remove_made(rt);
                books.remove_made(rt);
                Err(ending)
            }
        }
    }

    /// What the system says of the files.
    pub fn nodes(&self) -> Outputs<Node> {
        self.files.as_ref().map(|file| Node::of(&file.output.file))
    }

    /// The files that are written.
    pub fn files(&self) -> Outputs<&File> {
        self.files.as_ref().map(|file| &file.output.file)
    }

    /// Empties those that are regular files.
    pub fn empty(&self) -> Result<(), Ending> {
        self.files.as_ref().try_map(|device, file| file
            .output
            .empty()
            .of_output(ProgramFile::Of(device)))?;
        Ok(())
    }

    /// Brings those that are regular files to the disk, and the names of new ones, and lets the locks go.
    pub fn keep(self, rt: &HostRuntime) -> Result<(), Ending> {
        let kept = self.files.as_ref().try_map(|device, file| file
            .output
            .keep(rt)
            .of_output(ProgramFile::Of(device)));
        self.leave(rt);
        kept?;
        Ok(())
    }

    /// Lets the locks go, and leaves the files as they are.
    pub fn leave(self, rt: &HostRuntime) {
        self.files.response.leave(rt);
        self.files.books.leave(rt);
        self.files.settlement.leave(rt);
    }

    /// Removes the files that this run made, and lets the locks go.
    pub fn remove_made(self, rt: &HostRuntime) {
        self.files.response.remove_made(rt);
        self.files.books.remove_made(rt);
        self.files.settlement.remove_made(rt);
    }
}

impl LockedFile {
    /// Takes the lock, and opens the file. The files that are kept, and those that are opened, are this run's.
    pub fn open(
        rt: &HostRuntime,
        path: &str,
        name: ProgramFile,
        kept: &[Node],
        opened: &[(ProgramFile, &LockedFile)],
    ) -> Result<LockedFile, Ending> {
        let lock = match lock_beside(rt, path, kept) {
            Ok(lock) => lock,
            Err(NotMade::Held(node)) => return Err(held(name, node, opened)),
            Err(NotMade::Failed(error)) => return Err(Ending::of_output(name, error)),
        };
        match OutputFile::open(rt, path) {
            Ok(output) => Ok(LockedFile { output, lock }),
            Err(error) => {
                let_go(rt, lock);
                Err(Ending::of_output(name, error))
            }
        }
    }

    /// The file that is written.
    pub fn file(&self) -> &File {
        &self.output.file
    }

    /// Empties a regular file.
    pub fn empty(&self, name: ProgramFile) -> Result<(), Ending> {
        self.output.empty().of_output(name)
    }

    /// Brings a regular file to the disk, and the name of a new one, and lets the lock go.
    pub fn keep(self, rt: &HostRuntime, name: ProgramFile) -> Result<(), Ending> {
        let kept = self.output.keep(rt).of_output(name);
        self.leave(rt);
        kept
    }

    /// Lets the lock go, and leaves the file as it is.
    pub fn leave(self, rt: &HostRuntime) {
        let_go(rt, self.lock);
    }

    /// Removes the file again, where this run made it, and lets the lock go.
    pub fn remove_made(self, rt: &HostRuntime) {
        self.output.remove_made(rt);
        let_go(rt, self.lock);
    }
}

// How a run ends where the file next to an output is there: another output of this run, or another run.
fn held(name: ProgramFile, node: Node, opened: &[(ProgramFile, &LockedFile)]) -> Ending {
    for (other, file) in opened {
        if let Some(lock) = &file.lock {
            if node.is_same(Node::of(&lock.file)) {
                return Ending::OneFile(Named::File(*other), Named::File(name));
            }
        }
    }
    Ending::busy(name)
}

// Takes the lock of an output that is a regular file or isn't there yet. A device or a pipe has none.
fn lock_beside(rt: &HostRuntime, path: &str, kept: &[Node]) -> Result<Option<BesideFile>, NotMade> {
    if names_stream(path) {
        return Ok(None);
    }
    let place = match Found::at(rt, path)? {
        Found::Plain(place) => place,
        Found::Nothing | Found::DeadLink => followed_path(rt, path)?,
        Found::Other => return Ok(None),
    };
    let (Some(folder), Some(name)) = (place.parent(), place.file_name()) else {
        return Ok(None);
    };
    Ok(Some(BesideFile::make(rt, folder, name, kept)?))
}

fn let_go(rt: &HostRuntime, lock: Option<BesideFile>) {
    if let Some(lock) = lock {
        lock.remove(rt);
    }
}
