use crate::ending::Ending;
use crate::file_fault::{FileFault, ProgramFile};
use rx_io::{Device, Inputs};
use std::fs;
use std::fs::File;

/// The path that names standard input of an input, and standard output of an output.
pub const STREAM: &str = "-";

// Another name of standard output, which is added to under this name too.
const STANDARD_OUTPUT: &str = "/dev/stdout";

/// Whether an output's path names standard output.
pub fn names_stream(path: &str) -> bool {
    path == STREAM || path == STANDARD_OUTPUT
}

/// The file, opened for reading, or standard input; one that can't be opened is a fault of it.
pub fn open_input(rt: &HostRuntime, path: &str, device: Device) -> Result<File, Ending> {
    let path = if path == STREAM { "/dev/stdin" } else { path };
    match fs::open(rt, path) {
        Ok(file) => Ok(file),
        Err(error) => Err(Ending::of_input(device, error)),
    }
}

/// Opens the inputs, in the order of their numbers.
pub fn open_inputs(rt: &HostRuntime, paths: &Inputs<&str>) -> Result<Inputs<File>, Ending> {
    paths.try_map(|device, path| open_input(rt, path, device))
}
