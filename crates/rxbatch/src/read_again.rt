//! An input that is read a second time, to be quoted.
use crate::noted_file::{LastError, noted_input};
use rx_io::{Device, Inputs};
use rx_run_log::{Traffic, Watched};
use rx_switch::{SwitchFault, read_all};
use std::cell::Cell;
use std::fs::File;
use std::io::{Seek, SeekFrom};
use std::os::unix::fs::MetadataExt;

/// The inputs of a run, with what the system said of them before they were read.
#[derive(Drop)]
pub struct ReadInputs<'a> {
    files: &'a Inputs<File>,
    stamps: Inputs<Option<Stamp>>,
}

// The size of a regular file, and when its bytes were changed last.
type Stamp = (u64, i64, i64);

impl<'a> ReadInputs<'a> {
    /// Of inputs that aren't read yet.
    pub fn new(files: &'a Inputs<File>) -> ReadInputs<'a> {
        ReadInputs {
            files,
            stamps: files.as_ref().map(|file| stamp_of(file)),
        }
    }

    /// The bytes of the input at fault once more; None where it isn't a regular file, and where they aren't those that passed.
    pub fn again(
        &self,
        rt: &HostRuntime,
        refused: SwitchFault,
        traffic: &Inputs<Traffic>,
    ) -> Option<Vec<u8>> {
        let device = match refused {
            SwitchFault::Sheet(_) => Device::Sheet,
            SwitchFault::Books(_) => Device::Books,
            SwitchFault::Batch(_) => Device::Batch,
            _ => return None,
        };
        let before = *self.stamps.get(device)?;
        again(
            rt,
            device,
            self.files.get(device)?,
            before,
            traffic.get(device)?,
        )
    }
}

fn stamp_of(file: &File) -> Option<Stamp> {
    let metadata = file.metadata().ok()?;
    if metadata.is_file() {
        Some((metadata.size(), metadata.mtime(), metadata.mtime_nsec()))
    } else {
        None
    }
}

// The bytes of an open file, which were read before.
fn again(
    rt: &HostRuntime,
    device: Device,
    file: &File,
    before: Option<Stamp>,
    earlier: &Traffic,
) -> Option<Vec<u8>> {
    before?;
    let mut front = file;
    front.seek(SeekFrom::Start(0)).ok()?;
    let last: LastError = Cell::new(None);
    let mut source = Watched::new(noted_input(file, &last), rt, false);
    let text = read_all(rt.alloc(), &mut source, device).ok()?;
    if stamp_of(file) == before && are_alike(source.traffic(), earlier) {
        Some(text)
    } else {
        None
    }
}

// Whether as many bytes and lines passed, with one front and one end.
fn are_alike(one: &Traffic, other: &Traffic) -> bool {
    one.bytes() == other.bytes()
        && one.line_feeds() == other.line_feeds()
        && one.front() == other.front()
        && one.end() == other.end()
}
