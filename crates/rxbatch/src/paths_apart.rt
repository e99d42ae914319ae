//! The files of a command that has many: no output is another of them.
use crate::ending::Ending;
use crate::file_fault::ProgramFile;
use crate::files::names_stream;
use crate::nodes::Node;
use crate::places::{Found, followed_path};
use crate::streams::stream_of;
use rx_fields::Memory;
use std::alloc::Global;
use std::collections::BTreeMap;
use std::fs;

/// The files of a command that are known so far, each by what a message calls it.
pub struct KnownFiles {
    // Under the place of each file, which no other has.
    labels: BTreeMap<String, String>,
    nodes: Vec<Node>,
}

// Written out, so that freeing one is one call wherever a function ends early, not one for each of its fields.
impl Drop for KnownFiles {
    fn drop(self) {
        let KnownFiles {
            labels: _,
            nodes: _,
        } = self;
    }
}

impl KnownFiles {
    /// The plans file, which was opened.
    pub fn of_plans_file(rt: &HostRuntime, node: Node) -> Result<KnownFiles, Ending> {
        let mut known = KnownFiles {
            labels: BTreeMap::new(rt.alloc()),
            nodes: Vec::new(rt.alloc()),
        };
        known.add_input(rt, String::from_str(rt.alloc(), "--plans")?, node)?;
        Ok(known)
    }

    /// What the system says of those that were opened.
    pub fn nodes(&self) -> &[Node] {
        self.nodes.as_slice()
    }

    /// Adds a file that was opened.
    pub fn add_opened(&mut self, node: Node) -> Result<(), Memory> {
        self.nodes.push(node)?;
        Ok(())
    }

    /// Adds an input that was opened. One that is a known file ends the command.
    pub fn add_input(&mut self, rt: &HostRuntime, label: String, node: Node) -> Result<(), Ending> {
        self.add_opened(node)?;
        match node_place(rt.alloc(), node)? {
            Some(place) => self.add_place(rt.alloc(), place, label),
            None => Ok(()),
        }
    }

    /// Adds the output at a path. One that is a known file, as far as the system says, or that a standard stream leads to,
    /// ends the command; so does one whose folder can't be found, and a safe one that is there and no regular file.
    pub fn add_output(
        &mut self,
        rt: &HostRuntime,
        label: String,
        path: &str,
        file: ProgramFile,
        safe: bool,
    ) -> Result<(), Ending> {
        if safe {
            need_plain(rt, label.as_str(), path, file)?;
        }
        match output_place(rt, label.as_str(), path, file)? {
            Some(place) => self.add_place(rt.alloc(), place, label),
            None => Ok(()),
        }
    }

    // A file is known from then on. One that is known already ends the command.
    fn add_place(&mut self, alloc: Global, place: String, label: String) -> Result<(), Ending> {
        if let Some(other) = self.labels.get(&place) {
            return Err(one_file(alloc, other.as_str(), label.as_str())?);
        }
        self.labels.insert(place, label)?;
        Ok(())
    }
}

// Ends where something stands at the path that a safe command doesn't replace.
fn need_plain(rt: &HostRuntime, label: &str, path: &str, file: ProgramFile) -> Result<(), Ending> {
    match Found::at(rt, path) {
        Ok(Found::Plain(_) | Found::Nothing) => Ok(()),
        Ok(Found::DeadLink | Found::Other) => {
            let line = format!(in rt.alloc(); "{label} isn't a regular file")?;
            Err(Ending::Conflict(line))
        }
        Err(error) => Err(Ending::of_output(file, error).at_label(rt, label, path)),
    }
}

// The place of an output, if it is a regular file or is to be one: then it is its path, with no link in it.
fn output_place(
    rt: &HostRuntime,
    label: &str,
    path: &str,
    file: ProgramFile,
) -> Result<Option<String>, Ending> {
    let alloc = rt.alloc();
    if file != ProgramFile::Log && names_stream(path) {
        return Err(one_file(alloc, label, "standard output")?);
    }
    match fs::metadata(rt, path) {
        Ok(metadata) => {
            let node = Node::in_metadata(&metadata);
            match stream_of(rt, node) {
                Some(stream) => Err(one_file(alloc, label, stream.text())?),
                None => Ok(node_place(alloc, node)?),
            }
        }
        Err(_) => match followed_path(rt, path) {
            Ok(place) => Ok(Some(String::from_str(alloc, place.as_str())?)),
            Err(error) => Err(Ending::of_output(file, error).at_label(rt, label, path)),
        },
    }
}

// The place of a regular file: a text that no path is.
fn node_place(alloc: Global, node: Node) -> Result<Option<String>, Memory> {
    match node {
        Node::Plain(device, number) => Ok(Some(format!(in alloc; "{device}:{number}")?)),
        Node::Other | Node::Untold => Ok(None),
    }
}

fn one_file(alloc: Global, one: &str, other: &str) -> Result<Ending, Memory> {
    Ok(Ending::Conflict(format!(in alloc; "{one} and {other} are the same file")?))
}
