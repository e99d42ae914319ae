//! An output of a command that keeps books up: it is opened when the text for it is there.
use crate::ending::{Ending, OfOutput};
use crate::file_fault::ProgramFile;
use crate::files::names_stream;
use crate::in_place::LockedFile;
use crate::named::Named;
use crate::nodes::Node;
use crate::noted_file::{LastError, noted_output};
use crate::safe_files::{SafeFile, SoFar};
use crate::streams::stream_of;
use rx_io::{Failed, Pieces};
use std::cell::Cell;
use std::fs::File;
use std::io::Write;

/// An output, opened and not written yet. While it is open, no run has it.
#[derive(Drop)]
pub enum KeptFile {
    /// The file itself.
    InPlace(LockedFile),
    /// A file next to it, which gets its path at the end.
    Beside(SafeFile),
}

impl KeptFile {
    /// Opens the first output of a command. The nodes are those of its inputs.
    pub fn open(
        rt: &HostRuntime,
        path: &str,
        name: ProgramFile,
        safe: bool,
        kept: &[Node],
    ) -> Result<KeptFile, Ending> {
        refuse_stream(path, name)?;
        if safe {
            let so_far = SoFar { kept, made: &[] };
            return Ok(KeptFile::Beside(SafeFile::open(rt, path, name, &so_far)?));
        }
        Ok(KeptFile::InPlace(LockedFile::open(rt, path, name, kept, &[])?))
    }

    /// Opens another output of the command in the manner of this one, which has that name.
    pub fn open_next(
        &self,
        rt: &HostRuntime,
        own: ProgramFile,
        path: &str,
        name: ProgramFile,
        kept: &[Node],
    ) -> Result<KeptFile, Ending> {
        refuse_stream(path, name)?;
        match self {
            KeptFile::InPlace(file) => {
                let opened = [(own, file)];
                let next = LockedFile::open(rt, path, name, kept, &opened)?;
                Ok(KeptFile::InPlace(next))
            }
            KeptFile::Beside(file) => {
                let so_far = SoFar {
                    kept,
                    made: &[file],
                };
                Ok(KeptFile::Beside(SafeFile::open(rt, path, name, &so_far)?))
            }
        }
    }

    /// What the system says of the file that has the path so far.
    pub fn node(&self) -> Node {
        match self {
            KeptFile::InPlace(file) => Node::of(file.file()),
            KeptFile::Beside(file) => file.node(),
        }
    }

    /// What this output, of that name, is too, as far as the system says: one of these files, or a standard stream.
    pub fn twice(
        &self,
        rt: &HostRuntime,
        name: ProgramFile,
        others: &[(ProgramFile, Node)],
    ) -> Option<Ending> {
        let node = self.node();
        for (other, other_node) in others {
            if node.may_be(*other_node) {
                return Some(Ending::OneFile(Named::File(*other), Named::File(name)));
            }
        }
        let stream = stream_of(rt, node)?;
        Some(Ending::OneFile(Named::File(name), stream))
    }

    /// Writes the text, and brings it to the disk.
    pub fn put(&self, name: ProgramFile, text: &[u8]) -> Result<(), Ending> {
        self.empty(name)?;
        write_all(self.file(), name, text)?;
        self.keep()
    }

    /// The same of a text in pieces.
    pub fn put_pieces(
        &self,
        rt: &HostRuntime,
        name: ProgramFile,
        text: &Pieces,
    ) -> Result<(), Ending> {
        self.empty(name)?;
        write_pieces(rt, self.file(), name, text)?;
        self.keep()
    }

    // The file that is written.
    fn file(&self) -> &File {
        match self {
            KeptFile::InPlace(file) => file.file(),
            KeptFile::Beside(file) => file.file(),
        }
    }

    // Empties a file that is written where it stands.
    fn empty(&self, name: ProgramFile) -> Result<(), Ending> {
        match self {
            KeptFile::InPlace(file) => file.empty(name),
            KeptFile::Beside(_) => Ok(()),
        }
    }

    // Brings what is written of a file next to the output to the disk.
    fn keep(&self) -> Result<(), Ending> {
        match self {
            KeptFile::InPlace(_) => Ok(()),
            KeptFile::Beside(file) => file.keep(),
        }
    }

    /// Gives the file its path, and brings that to the disk.
    pub fn take_path(&mut self, rt: &HostRuntime) -> Result<(), Ending> {
        match self {
            KeptFile::InPlace(_) => Ok(()),
            KeptFile::Beside(file) => {
                file.rename(rt)?;
                file.keep_name()?;
                file.look(rt)
            }
        }
    }

    /// Ends the output: of one that is written where it stands the bytes are brought to the disk.
    pub fn end(self, rt: &HostRuntime, name: ProgramFile) -> Result<(), Ending> {
        match self {
            KeptFile::InPlace(file) => file.keep(rt, name),
            KeptFile::Beside(file) => {
                file.discard(rt);
                Ok(())
            }
        }
    }

    /// Removes what the command made, before it writes.
    pub fn remove_made(self, rt: &HostRuntime) {
        match self {
            KeptFile::InPlace(file) => file.remove_made(rt),
            KeptFile::Beside(file) => file.discard(rt),
        }
    }
}

// Standard output is for what the command prints.
fn refuse_stream(path: &str, name: ProgramFile) -> Result<(), Ending> {
    if names_stream(path) {
        let output = Named::File(ProgramFile::Output);
        return Err(Ending::OneFile(Named::File(name), output));
    }
    Ok(())
}

// Writes a text in pieces to a file.
fn write_pieces(
    rt: &HostRuntime,
    file: &File,
    name: ProgramFile,
    text: &Pieces,
) -> Result<(), Ending> {
    let last: LastError = Cell::new(None);
    let mut sink = noted_output(file, &last);
    match text.write_to(rt.alloc(), &mut sink) {
        Ok(()) => Ok(()),
        Err(Failed) => Err(Ending::of_sink(name, last.get())),
    }
}

/// Writes the text to a file.
pub fn write_all(file: &File, name: ProgramFile, text: &[u8]) -> Result<(), Ending> {
    let mut to = file;
    to.write_all(text).of_output(name)
}
