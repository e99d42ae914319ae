//! The outputs of a run that is to leave each earlier file as it is until the whole run is done.
use crate::beside_file::{BesideFile, NotMade};
use crate::ending::{Ending, OfOutput};
use crate::file_fault::{FileFault, ProgramFile, Reason};
use crate::files::names_stream;
use crate::named::Named;
use crate::nodes::Node;
use crate::places::{Found, new_path};
use rx_io::{Device, Outputs};
use std::fs::{File, Metadata, OpenOptions, Permissions};
use std::io::ErrorKind;
use std::os::unix::fs::{MetadataExt, PermissionsExt, fchown};
use std::path::PathBuf;
use std::{fs, io};

/// An output that is written next to its path, under a name of its own.
#[derive(Drop)]
pub struct SafeFile {
    beside: BesideFile,
    name: ProgramFile,
    // The path, with no link in it.
    path: PathBuf,
    // The folder of both.
    folder: File,
    // The file that has the path so far.
    earlier: Node,
}

/// The files that a run has opened, and those that it made next to its outputs.
#[derive(Clone, Copy)]
pub struct SoFar<'a> {
    pub kept: &'a [Node],
    pub made: &'a [&'a SafeFile],
}

impl SafeFile {
    /// Makes the file; one that can't be made is a fault of the output.
    pub fn open(
        rt: &HostRuntime,
        path: &str,
        name: ProgramFile,
        so_far: &SoFar<'_>,
    ) -> Result<SafeFile, Ending> {
        if names_stream(path) {
            return Err(Ending::NotPlain(Named::File(name)));
        }
        match Found::at(rt, path).of_output(name)? {
            Found::Plain(path) => SafeFile::over(rt, path, name, so_far),
            Found::Nothing => {
                let path = new_path(rt, path).of_output(name)?;
                SafeFile::beside(rt, path, name, so_far)
            }
            Found::DeadLink | Found::Other => Err(Ending::NotPlain(Named::File(name))),
        }
    }

    // The file that is to replace an earlier one, with its rights.
    fn over(
        rt: &HostRuntime,
        path: PathBuf,
        name: ProgramFile,
        so_far: &SoFar<'_>,
    ) -> Result<SafeFile, Ending> {
        let mut safe = SafeFile::beside(rt, path, name, so_far)?;
        match safe.take_over(rt) {
            Ok(()) => Ok(safe),
            Err(error) => {
                safe.discard(rt);
                Err(Ending::of_output(name, error))
            }
        }
    }

    // Takes the rights of the earlier file. One that went away meanwhile is none.
    fn take_over(&mut self, rt: &HostRuntime) -> io::Result<()> {
        let found = OpenOptions::new().write(true).open(rt, self.path.as_path());
        let earlier = match found {
            Ok(earlier) => earlier,
            Err(error) if error.kind() == ErrorKind::NotFound => return Ok(()),
            Err(error) => return Err(error),
        };
        let metadata = earlier.metadata()?;
        take_rights(self.file(), &metadata)?;
        self.earlier = Node::of(&earlier);
        Ok(())
    }

    // The file, made next to the path.
    fn beside(
        rt: &HostRuntime,
        path: PathBuf,
        name: ProgramFile,
        so_far: &SoFar<'_>,
    ) -> Result<SafeFile, Ending> {
        let (Some(parent), Some(last)) = (path.parent(), path.file_name()) else {
            let error = io::Error::from(ErrorKind::InvalidInput);
            return Err(Ending::of_output(name, error));
        };
        let folder = fs::open(rt, parent).of_output(name)?;
        match BesideFile::make(rt, parent, last, so_far.kept) {
            Ok(beside) => Ok(SafeFile {
                beside,
                name,
                path,
                folder,
                earlier: Node::Other,
            }),
            Err(NotMade::Held(node)) => Err(held(name, node, so_far.made)),
            Err(NotMade::Failed(error)) => Err(Ending::of_output(name, error)),
        }
    }

    /// The file that is written.
    pub fn file(&self) -> &File {
        &self.beside.file
    }

    /// The file that has the path so far.
    pub fn node(&self) -> Node {
        self.earlier
    }

    /// Removes the file again, where it hasn't got its path.
    pub fn discard(self, rt: &HostRuntime) {
        self.beside.remove(rt);
    }

    /// Brings the bytes to the disk.
    pub fn keep(&self) -> Result<(), Ending> {
        self.file().sync_all().of_output(self.name)
    }

    /// Gives the file its path.
    pub fn rename(&mut self, rt: &HostRuntime) -> Result<(), Ending> {
        self.beside
            .rename(rt, self.path.as_path())
            .of_output(self.name)
    }

    /// Brings the new name to the disk.
    pub fn keep_name(&self) -> Result<(), Ending> {
        self.folder.sync_all().of_output(self.name)
    }

    /// Looks whether the path leads to the file.
    pub fn look(&self, rt: &HostRuntime) -> Result<(), Ending> {
        let file = self.file().metadata().of_output(self.name)?;
        let found = fs::symlink_metadata(rt, self.path.as_path()).of_output(self.name)?;
        if Node::in_metadata(&file).is_same(Node::in_metadata(&found)) {
            return Ok(());
        }
        Err(Ending::File(FileFault {
            file: self.name,
            reason: Reason::Replaced,
        }))
    }
}

/// Makes the files, in the order of their numbers; where one can't be made, none stays. The files that are kept are those
/// that this run has opened.
pub fn open_safe_files(
    rt: &HostRuntime,
    paths: &Outputs<&str>,
    kept: &[Node],
) -> Result<Outputs<SafeFile>, Ending> {
    let so_far = SoFar { kept, made: &[] };
    let response = SafeFile::open(
        rt,
        paths.response,
        ProgramFile::Of(Device::Response),
        &so_far,
    )?;
    let so_far = SoFar {
        kept,
        made: &[&response],
    };
    let books = match SafeFile::open(rt, paths.books, ProgramFile::Of(Device::EndBooks), &so_far) {
        Ok(books) => books,
        Err(ending) => {
            response.discard(rt);
            return Err(ending);
        }
    };
    let so_far = SoFar {
        kept,
        made: &[&response, &books],
    };
    match SafeFile::open(
        rt,
        paths.settlement,
        ProgramFile::Of(Device::Settlement),
        &so_far,
    ) {
        Ok(settlement) => Ok(Outputs {
            response,
            books,
            settlement,
        }),
        Err(ending) => {
            response.discard(rt);
            books.discard(rt);
            Err(ending)
        }
    }
}

/// Removes the files that haven't got their paths.
pub fn discard_each(rt: &HostRuntime, files: Outputs<SafeFile>) {
    files.response.discard(rt);
    files.books.discard(rt);
    files.settlement.discard(rt);
}

/// Gives each file its path, the end books last. Where that fails, the files that haven't got theirs are removed.
pub fn finish_each(rt: &HostRuntime, mut files: Outputs<SafeFile>) -> Result<(), Ending> {
    let done = rename_each(rt, &mut files);
    discard_each(rt, files);
    done
}

// The names of the first two are on the disk before the end books get theirs, and at last each file is under its own.
fn rename_each(rt: &HostRuntime, files: &mut Outputs<SafeFile>) -> Result<(), Ending> {
    files.response.keep()?;
    files.books.keep()?;
    files.settlement.keep()?;
    files.response.rename(rt)?;
    files.settlement.rename(rt)?;
    files.response.keep_name()?;
    files.settlement.keep_name()?;
    files.books.rename(rt)?;
    files.books.keep_name()?;
    files.response.look(rt)?;
    files.books.look(rt)?;
    files.settlement.look(rt)
}

// How a run ends where a file next to an output is there: another output of this run, or another run.
fn held(name: ProgramFile, node: Node, made: &[&SafeFile]) -> Ending {
    for other in made {
        if node.is_same(Node::of(other.file())) {
            return Ending::OneFile(Named::File(other.name), Named::File(name));
        }
    }
    Ending::busy(name)
}

// Gives the file the rights of an earlier one, its owner and its group as far as the system lets it. Where the group
// can't be had, another group gets no rights.
fn take_rights(file: &File, earlier: &Metadata) -> io::Result<()> {
    let (owner, group) = (Some(earlier.uid()), Some(earlier.gid()));
    let has_group = fchown(file, owner, group).is_ok() || fchown(file, None, group).is_ok();
    let rights = earlier.mode() & 0o777;
    let rights = if has_group { rights } else { rights & 0o707 };
    file.set_permissions(Permissions::from_mode(rights))
}
