//! The files that a command reads whole.
use crate::ending::{AtPath, Ending};
use crate::files::open_input;
use crate::noted_file::{LastError, noted_input};
use rx_fields::Memory;
use rx_io::{Device, Inputs};
use rx_switch::read_all;
use std::alloc::Global;
use std::cell::Cell;
use std::fs::File;
use std::sync::Arc;

/// The file at a path, opened. One that can't be opened is reported in words too.
pub fn opened(rt: &HostRuntime, path: &str, device: Device) -> Result<File, Ending> {
    open_input(rt, path, device).at_path(rt, path)
}

/// The whole text of the file at a path. One that can't be read is reported in words too.
pub fn text_of(rt: &HostRuntime, path: &str, device: Device) -> Result<Vec<u8>, Ending> {
    let file = opened(rt, path, device)?;
    text_in(rt, &file, path, device)
}

/// The whole text of the file that was opened at a path.
pub fn text_in(
    rt: &HostRuntime,
    file: &File,
    path: &str,
    device: Device,
) -> Result<Vec<u8>, Ending> {
    bytes_in(rt, file, device).at_path(rt, path)
}

/// The whole text of an opened file. One that can't be read is reported without words.
pub fn bytes_in(rt: &HostRuntime, file: &File, device: Device) -> Result<Vec<u8>, Ending> {
    let last: LastError = Cell::new(None);
    let mut source = noted_input(file, &last);
    read_all(rt.alloc(), &mut source, device).map_err(|fault| Ending::of_run(fault, last.get()))
}

/// The whole text of the file at a path. One that can't be opened or read is reported without words.
pub fn bytes_of(rt: &HostRuntime, path: &str, device: Device) -> Result<Vec<u8>, Ending> {
    let file = open_input(rt, path, device)?;
    bytes_in(rt, &file, device)
}

/// A text that several threads read.
pub fn shared(alloc: Global, text: Vec<u8>) -> Result<Arc<Vec<u8>, Global>, Memory> {
    Arc::new(alloc, text).map_err(|_| Memory)
}

/// Opens and reads the inputs of a job, one after another in the order of their numbers.
pub fn read_each(rt: &HostRuntime, paths: &Inputs<&str>) -> Result<Inputs<Vec<u8>>, Ending> {
    paths.try_map(|device, path| text_of(rt, path, device))
}

/// Opens all inputs of a job, and then reads them.
pub fn open_and_read(rt: &HostRuntime, paths: &Inputs<&str>) -> Result<Inputs<Vec<u8>>, Ending> {
    let files = open_each(rt, paths)?;
    read_opened(rt, &files, paths)
}

/// Opens all inputs of a job, in the order of their numbers.
pub fn open_each(rt: &HostRuntime, paths: &Inputs<&str>) -> Result<Inputs<File>, Ending> {
    paths.try_map(|device, path| opened(rt, path, device))
}

/// Reads the inputs of a job that were opened at these paths.
pub fn read_opened(
    rt: &HostRuntime,
    files: &Inputs<File>,
    paths: &Inputs<&str>,
) -> Result<Inputs<Vec<u8>>, Ending> {
    Ok(Inputs {
        sheet: text_in(rt, &files.sheet, paths.sheet, Device::Sheet)?,
        books: text_in(rt, &files.books, paths.books, Device::Books)?,
        batch: text_in(rt, &files.batch, paths.batch, Device::Batch)?,
    })
}

/// The texts, lent.
pub fn slices(texts: &Inputs<Vec<u8>>) -> Inputs<&[u8]> {
    texts.as_ref().map(|text| text.as_slice())
}
