//! The file of a run's log.
use crate::ending::Ending;
use crate::file_fault::ProgramFile;
use crate::named::Named;
use crate::nodes::Node;
use crate::output_file::OutputFile;
use crate::paths_apart::KnownFiles;
use crate::settings::RunSettings;
use crate::streams::stream_of;
use rx_io::Device;
use std::io::Write;
use std::{fs, io};

/// The file of a log, to which the line of a run is added.
#[derive(Drop)]
pub struct LogFile {
    output: OutputFile,
}

impl LogFile {
    /// Opens the file, which is made where it isn't there. One that is another file of the run or that a standard stream
    /// leads to, as far as the system says, is refused.
    pub fn open(rt: &HostRuntime, path: &str, words: &RunSettings<'_>) -> Result<LogFile, Ending> {
        let output = OutputFile::open_to_append(rt, path).map_err(Ending::of_log)?;
        let log = LogFile { output };
        if let Some(other) = log.other_name(rt, words) {
            log.output.remove_made(rt);
            return Err(Ending::OneFile(other, Named::File(ProgramFile::Log)));
        }
        Ok(log)
    }

    /// The same of a command whose files are known. The log is known from then on.
    pub fn open_known(
        rt: &HostRuntime,
        path: &str,
        known: &mut KnownFiles,
    ) -> Result<LogFile, Ending> {
        let label = String::from_str(rt.alloc(), ProgramFile::Log.option())?;
        known.add_output(rt, label, path, ProgramFile::Log, false)?;
        match OutputFile::open_to_append(rt, path) {
            Ok(output) => {
                known.add_opened(Node::of(&output.file))?;
                Ok(LogFile { output })
            }
            Err(error) => Err(Ending::of_log(error).at_path(rt, path)),
        }
    }

    /// What the system says of the file.
    pub fn node(&self) -> Node {
        Node::of(&self.output.file)
    }

    // The option of the run's file, or the standard stream, that is this one.
    fn other_name(&self, rt: &HostRuntime, words: &RunSettings<'_>) -> Option<Named> {
        let node = self.node();
        let (inputs, outputs) = (words.inputs, words.outputs);
        let files = [
            (Device::Sheet, inputs.sheet),
            (Device::Books, inputs.books),
            (Device::Batch, inputs.batch),
            (Device::Response, outputs.response),
            (Device::EndBooks, outputs.books),
            (Device::Settlement, outputs.settlement),
        ];
        for (device, path) in files {
            if let Ok(metadata) = fs::metadata(rt, path) {
                if node.may_be(Node::in_metadata(&metadata)) {
                    return Some(Named::of(device));
                }
            }
        }
        stream_of(rt, node)
    }

    /// Adds a line, which ends with a line feed, by one write, and brings it to the disk.
    pub fn add(mut self, rt: &HostRuntime, line: &str) -> Result<(), Ending> {
        self.put(rt, line).map_err(Ending::of_log)
    }

    fn put(&mut self, rt: &HostRuntime, line: &str) -> io::Result<()> {
        self.output.file.write_all(line.as_bytes())?;
        self.output.keep(rt)
    }
}
