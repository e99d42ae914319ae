//! Where a run writes: to the outputs themselves, or next to them.
use crate::ending::Ending;
use crate::in_place::InPlace;
use crate::nodes::Node;
use crate::safe_files::{SafeFile, discard_each, finish_each, open_safe_files};
use crate::settings::RunSettings;
use rx_io::Outputs;
use std::fs::File;

/// The files that a run writes. While they are open, no other run has these outputs.
#[derive(Drop)]
pub enum RunOutputs {
    /// The outputs themselves, emptied before the run.
    InPlace(InPlace),
    /// Files next to the outputs, which get their paths when the run is done.
    Beside(Outputs<SafeFile>),
}

impl RunOutputs {
    /// Opens the files, in the order of their numbers. No earlier file changes, and none of those that are kept, which this
    /// run has opened, is taken for one that a killed run left.
    pub fn open(
        rt: &HostRuntime,
        words: &RunSettings<'_>,
        kept: &[Node],
    ) -> Result<RunOutputs, Ending> {
        let paths = &words.outputs;
        if words.manner.safe {
            Ok(RunOutputs::Beside(open_safe_files(rt, paths, kept)?))
        } else {
            Ok(RunOutputs::InPlace(InPlace::open(rt, paths, kept)?))
        }
    }

    /// What the system says of the files that have the outputs' paths so far.
    pub fn nodes(&self) -> Outputs<Node> {
        match self {
            RunOutputs::InPlace(files) => files.nodes(),
            RunOutputs::Beside(files) => files.as_ref().map(|file| file.node()),
        }
    }

    /// The files that are written.
    pub fn files(&self) -> Outputs<&File> {
        match self {
            RunOutputs::InPlace(files) => files.files(),
            RunOutputs::Beside(files) => files.as_ref().map(|file| file.file()),
        }
    }

    /// Makes the files ready for the run.
    pub fn begin(&self) -> Result<(), Ending> {
        match self {
            RunOutputs::InPlace(files) => files.empty(),
            RunOutputs::Beside(_) => Ok(()),
        }
    }

    /// Removes what this run made, before it begins.
    pub fn remove_made(self, rt: &HostRuntime) {
        match self {
            RunOutputs::InPlace(files) => files.remove_made(rt),
            RunOutputs::Beside(files) => discard_each(rt, files),
        }
    }

    /// Leaves the outputs as they are, and removes the files next to them.
    pub fn leave(self, rt: &HostRuntime) {
        match self {
            RunOutputs::InPlace(files) => files.leave(rt),
            RunOutputs::Beside(files) => discard_each(rt, files),
        }
    }

    /// Ends the outputs of a run: of one that is done they are brought to the disk, and have their paths. Of another the
    /// files next to the outputs are removed.
    pub fn end(self, rt: &HostRuntime, done: Result<(), Ending>) -> Result<(), Ending> {
        if let Err(ending) = done {
            self.leave(rt);
            return Err(ending);
        }
        match self {
            RunOutputs::InPlace(files) => files.keep(rt),
            RunOutputs::Beside(files) => finish_each(rt, files),
        }
    }
}
