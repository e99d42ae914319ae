//! An output that is written where it stands, and the log.
use crate::beside_file::{make_new, remove_same};
use crate::files::names_stream;
use crate::places::{followed_path, keep_folder};
use std::fs::{File, OpenOptions};
use std::io;
use std::io::ErrorKind;
use std::path::PathBuf;

// How often a file is opened again that came or went between two calls.
const TRIES: u32 = 64;

/// An output, opened for writing and not emptied yet.
#[derive(Drop)]
pub struct OutputFile {
    pub file: File,
    // Where this run made it, if it wasn't there.
    made: Option<PathBuf>,
    // It is standard output, which is added to.
    is_stream: bool,
}

impl OutputFile {
    /// Opens the file, which is made where it isn't there, with rights for its owner only; or standard output.
    pub fn open(rt: &HostRuntime, path: &str) -> io::Result<OutputFile> {
        if names_stream(path) {
            let file = OpenOptions::new().append(true).open(rt, "/dev/stdout")?;
            return Ok(OutputFile {
                file,
                made: None,
                is_stream: true,
            });
        }
        OutputFile::open_as(rt, path, false)
    }

    /// The same of a file that is written only at its end.
    pub fn open_to_append(rt: &HostRuntime, path: &str) -> io::Result<OutputFile> {
        OutputFile::open_as(rt, path, true)
    }

    fn open_as(rt: &HostRuntime, path: &str, is_appended: bool) -> io::Result<OutputFile> {
        for _ in 0..TRIES {
            let found = OpenOptions::new()
                .write(true)
                .append(is_appended)
                .open(rt, path);
            match found {
                Ok(file) => {
                    return Ok(OutputFile {
                        file,
                        made: None,
                        is_stream: false,
                    });
                }
                Err(error) if error.kind() == ErrorKind::NotFound => {}
                Err(error) => return Err(error),
            }
            let place = followed_path(rt, path)?;
            match make_new(rt, place.as_path(), is_appended) {
                Ok(file) => {
                    return Ok(OutputFile {
                        file,
                        made: Some(place),
                        is_stream: false,
                    });
                }
                Err(error) if error.kind() == ErrorKind::AlreadyExists => {}
                Err(error) => return Err(error),
            }
        }
        Err(io::Error::from(ErrorKind::AlreadyExists))
    }

    /// Empties a regular file that has a path.
    pub fn empty(&self) -> io::Result<()> {
        if !self.is_stream && self.file.metadata()?.is_file() {
            self.file.set_len(0)
        } else {
            Ok(())
        }
    }

    /// Brings the bytes of a regular file to the disk, and its name where this run made it. What the system refused to keep
    /// is reported here, and not only when the file is closed.
    pub fn keep(&self, rt: &HostRuntime) -> io::Result<()> {
        if self.file.metadata()?.is_file() {
            self.file.sync_all()?;
        }
        match &self.made {
            Some(place) => keep_folder(rt, place.as_path()),
            None => Ok(()),
        }
    }

    /// Removes the file again, where this run made it. What can't be removed stays, empty.
    pub fn remove_made(self, rt: &HostRuntime) {
        if let Some(place) = &self.made {
            remove_same(rt, &self.file, place.as_path());
        }
    }
}
