//! The end books of a command, with another file that it writes.
use crate::ending::Ending;
use crate::file_fault::ProgramFile;
use crate::kept_file::KeptFile;
use crate::nodes::Node;
use rx_io::{Device, Pieces};

const END_BOOKS: ProgramFile = ProgramFile::Of(Device::EndBooks);

/// The paths and the texts of the end books and another output, and whether they take their paths only when both are
/// written.
#[derive(Clone, Copy)]
pub struct TwoOutputs<'a> {
    pub books_out: &'a str,
    pub books: &'a Pieces,
    pub other: &'a str,
    pub name: ProgramFile,
    pub text: &'a Pieces,
    pub safe: bool,
}

impl<'a> TwoOutputs<'a> {
    /// Writes the other output, and then the end books. Neither is one of these inputs.
    pub fn write(&self, rt: &HostRuntime, inputs: &[(ProgramFile, Node)]) -> Result<(), Ending> {
        self.open_and_write(rt, inputs)
            .map_err(|ending| self.at_output(rt, ending))
    }

    // The ending where an output failed, in words.
    fn at_output(&self, rt: &HostRuntime, ending: Ending) -> Ending {
        let path = match &ending {
            Ending::File(fault) if fault.file == self.name => self.other,
            _ => self.books_out,
        };
        ending.at_path(rt, path)
    }

    fn open_and_write(
        &self,
        rt: &HostRuntime,
        inputs: &[(ProgramFile, Node)],
    ) -> Result<(), Ending> {
        let kept: Vec<Node> = inputs.iter().map(|(_, node)| *node).collect(rt.alloc())?;
        let end_books = KeptFile::open(rt, self.books_out, END_BOOKS, self.safe, &kept)?;
        let other = match end_books.open_next(rt, END_BOOKS, self.other, self.name, &kept) {
            Ok(other) => other,
            Err(ending) => {
                end_books.remove_made(rt);
                return Err(ending);
            }
        };
        self.write_opened(rt, inputs, end_books, other)
    }

    fn write_opened(
        &self,
        rt: &HostRuntime,
        inputs: &[(ProgramFile, Node)],
        mut end_books: KeptFile,
        mut other: KeptFile,
    ) -> Result<(), Ending> {
        if let Some(ending) = self.twice(rt, inputs, &end_books, &other) {
            end_books.remove_made(rt);
            other.remove_made(rt);
            return Err(ending);
        }
        let all = self.put_both(rt, &mut end_books, &mut other);
        let other_ended = other.end(rt, self.name);
        let books_ended = end_books.end(rt, END_BOOKS);
        all.and(other_ended).and(books_ended)
    }

    // The ending where an output is one of the inputs, or both are one file.
    fn twice(
        &self,
        rt: &HostRuntime,
        inputs: &[(ProgramFile, Node)],
        end_books: &KeptFile,
        other: &KeptFile,
    ) -> Option<Ending> {
        if let Some(ending) = end_books.twice(rt, END_BOOKS, inputs) {
            return Some(ending);
        }
        if let Some(ending) = other.twice(rt, self.name, inputs) {
            return Some(ending);
        }
        other.twice(rt, self.name, &[(END_BOOKS, end_books.node())])
    }

    fn put_both(
        &self,
        rt: &HostRuntime,
        end_books: &mut KeptFile,
        other: &mut KeptFile,
    ) -> Result<(), Ending> {
        other.put_pieces(rt, self.name, self.text)?;
        end_books.put_pieces(rt, END_BOOKS, self.books)?;
        other.take_path(rt)?;
        end_books.take_path(rt)
    }
}
