use crate::named::Named;
use rx_io::{Device, Inputs, Outputs};
use std::fs::{File, Metadata};
use std::os::unix::fs::MetadataExt;

/// What the system says of a file: its device and its number there, where it is a regular one.
#[derive(Clone, Copy, PartialEq, Eq)]
pub enum Node {
    Plain(u64, u64),
    /// A terminal, a pipe or another device, or no file.
    Other,
    /// The system doesn't say.
    Untold,
}

impl Node {
    /// What the system says of an open file.
    pub fn of(file: &File) -> Node {
        match file.metadata() {
            Ok(metadata) => Node::in_metadata(&metadata),
            Err(_) => Node::Untold,
        }
    }

    /// What the metadata of a file say.
    pub fn in_metadata(metadata: &Metadata) -> Node {
        if metadata.is_file() {
            Node::Plain(metadata.dev(), metadata.ino())
        } else {
            Node::Other
        }
    }

    /// Whether these are one regular file.
    pub fn is_same(self, other: Node) -> bool {
        matches!(self, Node::Plain(..)) && self == other
    }

    /// Whether these may be one regular file: they are, or the system doesn't say.
    pub fn may_be(self, other: Node) -> bool {
        match (self, other) {
            (Node::Other, _) | (_, Node::Other) => false,
            (Node::Plain(..), Node::Plain(..)) => self == other,
            _ => true,
        }
    }
}

// The files of a run, in the order of their numbers.
const DEVICES: [Device; 6] = [
    Device::Sheet,
    Device::Books,
    Device::Batch,
    Device::Response,
    Device::EndBooks,
    Device::Settlement,
];

/// The options of an output and of another file that are one regular file, as far as the system says. Writing that
/// output would lose the other.
pub fn one_file_twice(inputs: Inputs<Node>, outputs: Outputs<Node>) -> Option<(Named, Named)> {
    let nodes = [
        inputs.sheet,
        inputs.books,
        inputs.batch,
        outputs.response,
        outputs.books,
        outputs.settlement,
    ];
    for output in 3..6 {
        for other in 0..output {
            if nodes[output].may_be(nodes[other]) {
                return Some((Named::of(DEVICES[other]), Named::of(DEVICES[output])));
            }
        }
    }
    None
}
