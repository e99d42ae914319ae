//! The pages of a report, written into a folder.
use crate::ending::Ending;
use crate::file_fault::ProgramFile;
use crate::kept_file::write_all;
use crate::named::Named;
use crate::nodes::Node;
use crate::places::make_folder;
use crate::safe_files::{SafeFile, SoFar};
use crate::streams::stream_of;
use rx_io::{Device, Inputs};
use rx_report_text::PageFile;
use std::alloc::AllocError;
use std::io::ErrorKind;
use std::path::{Path, PathBuf};
use std::{fs, io};

const PAGE: ProgramFile = ProgramFile::Page;

/// Writes the pages into a folder, which is made where it isn't there: the first page last, since it leads to the others. A
/// page gets its name when it is whole; other files stay. Nothing is written where a page would replace one of these inputs.
/// The path of the first page.
pub fn write_pages(
    rt: &HostRuntime,
    folder: &str,
    pages: &[PageFile],
    inputs: Inputs<Node>,
) -> Result<Option<PathBuf>, Ending> {
    keep_inputs(rt, folder, pages, inputs)?;
    if let Err(error) = make_folder(rt, folder) {
        return Err(Ending::of_output(PAGE, error).at_path(rt, folder));
    }
    let mut last = None;
    for page in pages.iter().rev() {
        let path = path_of(rt, folder, page)?;
        if let Err(ending) = write_file(rt, PAGE, path.as_str(), &page.text) {
            return Err(ending.at_path(rt, path.as_str()));
        }
        last = Some(path);
    }
    Ok(last)
}

// Ends where a page would replace an input file, as far as the system says, or a file to which a standard stream leads.
fn keep_inputs(
    rt: &HostRuntime,
    folder: &str,
    pages: &[PageFile],
    inputs: Inputs<Node>,
) -> Result<(), Ending> {
    let inputs = [
        (Device::Sheet, inputs.sheet),
        (Device::Books, inputs.books),
        (Device::Batch, inputs.batch),
    ];
    for page in pages {
        let path = path_of(rt, folder, page)?;
        let Ok(found) = fs::metadata(rt, path.as_path()) else {
            continue;
        };
        let node = Node::in_metadata(&found);
        for (device, input) in inputs {
            if node.may_be(input) {
                return Err(Ending::OneFile(Named::of(device), Named::OnePage));
            }
        }
        if let Some(stream) = stream_of(rt, node) {
            return Err(Ending::OneFile(Named::OnePage, stream));
        }
    }
    Ok(())
}

fn path_of(rt: &HostRuntime, folder: &str, page: &PageFile) -> Result<PathBuf, AllocError> {
    let name = str::from_utf8(&page.name).unwrap_or("");
    Path::new(folder).join(rt.alloc(), name)
}

/// Writes a text to a path, which leads to it once it is whole.
pub fn write_file(
    rt: &HostRuntime,
    kind: ProgramFile,
    path: &str,
    text: &[u8],
) -> Result<(), Ending> {
    let so_far = SoFar {
        kept: &[],
        made: &[],
    };
    let mut file = match SafeFile::open(rt, path, kind, &so_far) {
        Ok(file) => file,
        Err(Ending::NotPlain(_)) => return Err(Ending::of_output(kind, not_plain())),
        Err(ending) => return Err(ending),
    };
    let done = written(rt, kind, &mut file, text);
    file.discard(rt);
    done
}

fn not_plain() -> io::Error {
    io::Error::new(ErrorKind::InvalidInput, "it isn't a regular file")
}

fn written(
    rt: &HostRuntime,
    kind: ProgramFile,
    file: &mut SafeFile,
    text: &[u8],
) -> Result<(), Ending> {
    write_all(file.file(), kind, text)?;
    file.rename(rt)
}
