//! The standard streams of the program.
use crate::file_fault::ProgramFile;
use crate::named::Named;
use crate::nodes::Node;
use std::fs;
use std::fs::File;
use std::io::ErrorKind;
use std::os::fd::AsRawFd;

/// The numbers of standard streams that were closed at the start, taken so that no file of a run gets one.
#[derive(Drop)]
pub struct TakenStreams {
    _taken: [Option<File>; 3],
}

impl TakenStreams {
    /// Takes them. What is opened can be neither read nor written: a stream that is closed stays one that fails.
    pub fn take(rt: &HostRuntime) -> TakenStreams {
        let mut taken = [None, None, None];
        for place in &mut taken {
            match fs::open(rt, "/") {
                Ok(folder) if folder.as_raw_fd() <= 2 => *place = Some(folder),
                _ => break,
            }
        }
        TakenStreams { _taken: taken }
    }
}

/// The standard stream that leads to this regular file, if one of the two that are written does or may, because the system
/// doesn't say.
pub fn stream_of(rt: &HostRuntime, node: Node) -> Option<Named> {
    let streams = [
        ("/proc/self/fd/1", Named::File(ProgramFile::Output)),
        ("/proc/self/fd/2", Named::StandardError),
    ];
    for (path, name) in streams {
        let stream = match fs::metadata(rt, path) {
            Ok(metadata) => Node::in_metadata(&metadata),
            Err(error) if error.kind() == ErrorKind::NotFound => Node::Other,
            Err(_) => Node::Untold,
        };
        if node.may_be(stream) {
            return Some(name);
        }
    }
    None
}
