//! What stands at the path of an output, and where one that isn't there yet is to stand.
use std::io::ErrorKind;
use std::path::{Path, PathBuf};
use std::{fs, io};

// How many links to nothing are followed, one after another.
const LINKS: u32 = 40;

// How often a path is looked at again whose file came or went between two calls.
const TRIES: u32 = 64;

/// What stands at a path.
#[derive(Drop)]
pub enum Found {
    /// A regular file: its path, with no link in it.
    Plain(PathBuf),
    /// Nothing.
    Nothing,
    /// A link to nothing.
    DeadLink,
    /// A folder, a pipe or another device.
    Other,
}

impl Found {
    /// Looks at a path, until two calls agree.
    pub fn at(rt: &HostRuntime, path: &str) -> io::Result<Found> {
        for _ in 0..TRIES {
            let found = match fs::metadata(rt, path) {
                Ok(metadata) if metadata.is_file() => plain(rt, path)?,
                Ok(_) => Some(Found::Other),
                Err(error) if error.kind() == ErrorKind::NotFound => absent(rt, path)?,
                Err(error) => return Err(error),
            };
            if let Some(found) = found {
                return Ok(found);
            }
        }
        Err(io::Error::from(ErrorKind::AlreadyExists))
    }
}

// A regular file; None where it went away meanwhile.
fn plain(rt: &HostRuntime, path: &str) -> io::Result<Option<Found>> {
    match fs::canonicalize(rt, path) {
        Ok(place) => Ok(Some(Found::Plain(place))),
        Err(error) if error.kind() == ErrorKind::NotFound => Ok(None),
        Err(error) => Err(error),
    }
}

// A path that leads to nothing; None where a regular file came into being meanwhile.
fn absent(rt: &HostRuntime, path: &str) -> io::Result<Option<Found>> {
    match fs::symlink_metadata(rt, path) {
        Ok(metadata) if metadata.is_file() => Ok(None),
        Ok(metadata) if metadata.is_symlink() => Ok(Some(Found::DeadLink)),
        Ok(_) => Ok(Some(Found::Other)),
        Err(error) if error.kind() == ErrorKind::NotFound => Ok(Some(Found::Nothing)),
        Err(error) => Err(error),
    }
}

/// The path of a file that isn't there, with no link in it. One that ends as the path of a folder names no file.
pub fn new_path(rt: &HostRuntime, path: &str) -> io::Result<PathBuf> {
    if path.ends_with('/') || path.ends_with("/.") {
        return Err(io::Error::from(ErrorKind::IsADirectory));
    }
    let path = Path::new(path);
    let Some(name) = path.file_name() else {
        return Err(io::Error::from(ErrorKind::InvalidInput));
    };
    let folder = match path.parent() {
        Some(parent) if !parent.as_str().is_empty() => parent,
        _ => Path::new("."),
    };
    Ok(fs::canonicalize(rt, folder)?.join(rt.alloc(), name)?)
}

/// The same where the path may be a link to the file that isn't there.
pub fn followed_path(rt: &HostRuntime, path: &str) -> io::Result<PathBuf> {
    let mut place = new_path(rt, path)?;
    for _ in 0..LINKS {
        let Ok(target) = fs::read_link(rt, place.as_path()) else {
            return Ok(place);
        };
        let Some(folder) = place.parent() else {
            return Ok(place);
        };
        let next = folder.join(rt.alloc(), target.as_path())?;
        place = new_path(rt, next.as_str())?;
    }
    Err(io::Error::from(ErrorKind::FilesystemLoop))
}

/// Makes a folder, where it isn't there.
pub fn make_folder(rt: &HostRuntime, path: &str) -> io::Result<()> {
    match fs::create_dir(rt, path) {
        Err(error) if error.kind() != ErrorKind::AlreadyExists => Err(error),
        _ => Ok(()),
    }
}

/// Brings the names in the folder of a file to the disk.
pub fn keep_folder(rt: &HostRuntime, path: Path<'_>) -> io::Result<()> {
    match path.parent() {
        Some(folder) => fs::open(rt, folder)?.sync_all(),
        None => Ok(()),
    }
}
