//! A file next to an output, named `.rxbatch-` and the output's name, by which the run that made it has the output.
use crate::nodes::Node;
use std::alloc::AllocError;
use std::fs::{File, OpenOptions, TryLockError};
use std::io::ErrorKind;
use std::os::unix::fs::OpenOptionsExt;
use std::path::{Path, PathBuf};
use std::{fs, io};

/// The rights of a file that a run makes: its owner reads and writes it.
pub const NEW_RIGHTS: u32 = 0o600;

// How the names of such files begin. No output has a name like it, since it could be another output's.
const PREFIX: &str = ".rxbatch-";

// How often the file is made again where other runs take it away.
const TRIES: u32 = 64;

/// Why the file isn't made.
#[derive(Drop)]
pub enum NotMade {
    /// Another run has the output, or another output of this run is the same file: the file that is there.
    Held(Node),
    /// The system refused a call.
    Failed(io::Error),
}

impl From<io::Error> for NotMade {
    fn from(error: io::Error) -> NotMade {
        NotMade::Failed(error)
    }
}

impl From<AllocError> for NotMade {
    fn from(refused: AllocError) -> NotMade {
        NotMade::Failed(io::Error::from(refused))
    }
}

/// A file next to an output. It is locked: while it is open, no other run has the output.
#[derive(Drop)]
pub struct BesideFile {
    pub file: File,
    // Where it stands, until it gets another name.
    path: Option<PathBuf>,
}

impl BesideFile {
    /// Makes the file for the output that has this name in the folder. One that a killed run left is removed: nobody
    /// has it locked, and it is none of the files that are kept, which this run has opened.
    pub fn make(
        rt: &HostRuntime,
        folder: Path<'_>,
        name: &str,
        kept: &[Node],
    ) -> Result<BesideFile, NotMade> {
        if is_beside_name(name) {
            return Err(NotMade::Failed(name_taken()));
        }
        let name = format!(in rt.alloc(); "{PREFIX}{name}")?;
        let path = folder.join(rt.alloc(), name.as_str())?;
        for _ in 0..TRIES {
            if let Some(file) = make_locked(rt, path.as_path(), kept)? {
                return Ok(BesideFile {
                    file,
                    path: Some(path),
                });
            }
        }
        Err(NotMade::Held(Node::Other))
    }

    /// Gives the file another name.
    pub fn rename(&mut self, rt: &HostRuntime, to: Path<'_>) -> io::Result<()> {
        if let Some(path) = &self.path {
            fs::rename(rt, path.as_path(), to)?;
        }
        self.path = None;
        Ok(())
    }

    /// Removes the file, where it has no other name, unless the system says that another file is there.
    pub fn remove(self, rt: &HostRuntime) {
        if let Some(path) = &self.path {
            let there = match fs::symlink_metadata(rt, path.as_path()) {
                Ok(metadata) => Node::in_metadata(&metadata),
                Err(_) => Node::Untold,
            };
            if Node::of(&self.file).may_be(there) {
                let _ = fs::remove_file(rt, path.as_path());
            }
        }
    }
}

/// Whether a file with this name can be one next to an output.
pub fn is_beside_name(name: &str) -> bool {
    name.starts_with(PREFIX)
}

/// The answer for an output that has such a name.
pub fn name_taken() -> io::Error {
    io::Error::new(
        ErrorKind::InvalidInput,
        "names that begin with .rxbatch- are kept for the program",
    )
}

/// Whether the path leads, by no link, to this file.
pub fn has_path(rt: &HostRuntime, file: &File, path: Path<'_>) -> bool {
    match fs::symlink_metadata(rt, path) {
        Ok(metadata) => Node::of(file).is_same(Node::in_metadata(&metadata)),
        Err(_) => false,
    }
}

/// Removes this file from its path, where it is still there. What can't be removed stays.
pub fn remove_same(rt: &HostRuntime, file: &File, path: Path<'_>) {
    if has_path(rt, file, path) {
        let _ = fs::remove_file(rt, path);
    }
}

/// Makes a file that wasn't there, which is written from its front, or only at its end.
pub fn make_new(rt: &HostRuntime, path: Path<'_>, is_appended: bool) -> io::Result<File> {
    OpenOptions::new()
        .write(true)
        .append(is_appended)
        .create_new(true)
        .mode(NEW_RIGHTS)
        .open(rt, path)
}

// Makes the file and locks it. None where one is in the way that nobody has, which is removed, or where another run took
// the file for one of these.
fn make_locked(rt: &HostRuntime, path: Path<'_>, kept: &[Node]) -> Result<Option<File>, NotMade> {
    match make_new(rt, path, false) {
        Ok(file) => match file.try_lock() {
            Ok(()) if has_path(rt, &file, path) => Ok(Some(file)),
            Ok(()) | Err(TryLockError::WouldBlock) => Ok(None),
            Err(TryLockError::Error(error)) => {
                remove_same(rt, &file, path);
                Err(NotMade::Failed(error))
            }
        },
        Err(error) if error.kind() == ErrorKind::AlreadyExists => {
            remove_left(rt, path, kept)?;
            Ok(None)
        }
        Err(error) => Err(NotMade::Failed(error)),
    }
}

// Removes a file that a killed run left.
fn remove_left(rt: &HostRuntime, path: Path<'_>, kept: &[Node]) -> Result<(), NotMade> {
    match fs::symlink_metadata(rt, path) {
        Ok(metadata) if is_left(Node::in_metadata(&metadata), kept) => {}
        Ok(_) => return Err(NotMade::Failed(io::Error::from(ErrorKind::AlreadyExists))),
        Err(error) => return unless_gone(error),
    }
    let file = match fs::open(rt, path) {
        Ok(file) => file,
        Err(error) => return unless_gone(error),
    };
    match file.try_lock() {
        Ok(()) if has_path(rt, &file, path) => match fs::remove_file(rt, path) {
            Ok(()) => Ok(()),
            Err(error) => unless_gone(error),
        },
        Ok(()) => Ok(()),
        Err(TryLockError::WouldBlock) => Err(NotMade::Held(Node::of(&file))),
        Err(TryLockError::Error(error)) => Err(NotMade::Failed(error)),
    }
}

// Whether a file in the way may be one that a killed run left.
fn is_left(node: Node, kept: &[Node]) -> bool {
    matches!(node, Node::Plain(..)) && !kept.contains(&node)
}

// A file that went away meanwhile is no fault.
fn unless_gone(error: io::Error) -> Result<(), NotMade> {
    match error.kind() {
        ErrorKind::NotFound => Ok(()),
        _ => Err(NotMade::Failed(error)),
    }
}
