//! Texts that a command writes together.
use crate::ending::Ending;
use crate::file_fault::ProgramFile;
use crate::kept_file::KeptFile;
use crate::nodes::Node;

/// An output: its path and text, and what a message calls it.
#[derive(Drop)]
pub struct OutputText<'a> {
    pub file: ProgramFile,
    pub label: String,
    pub path: &'a str,
    pub text: &'a [u8],
}

/// Writes the texts in their order. Safe ones take their paths when all are on the disk, in that order too. None is one of the
/// files that are kept.
pub fn write_texts(
    rt: &HostRuntime,
    outputs: &[OutputText<'_>],
    safe: bool,
    kept: &[Node],
) -> Result<(), Ending> {
    let mut opened = Vec::with_capacity(rt.alloc(), outputs.len())?;
    for output in outputs {
        match KeptFile::open(rt, output.path, output.file, safe, kept) {
            Ok(file) => opened.push(file)?,
            Err(ending) => {
                remove_each(rt, opened);
                return Err(ending.at_label(rt, output.label.as_str(), output.path));
            }
        }
    }
    let done = put_each(rt, outputs, &mut opened);
    let ended = end_each(rt, outputs, opened);
    done?;
    ended
}

fn remove_each(rt: &HostRuntime, opened: Vec<KeptFile>) {
    for file in opened {
        file.remove_made(rt);
    }
}

// Brings each text to the disk, and gives each file its path.
fn put_each(
    rt: &HostRuntime,
    outputs: &[OutputText<'_>],
    opened: &mut [KeptFile],
) -> Result<(), Ending> {
    for (output, file) in outputs.iter().zip(opened.iter()) {
        if let Err(ending) = file.put(output.file, output.text) {
            return Err(ending.at_label(rt, output.label.as_str(), output.path));
        }
    }
    for (output, file) in outputs.iter().zip(opened.iter_mut()) {
        if let Err(ending) = file.take_path(rt) {
            return Err(ending.at_label(rt, output.label.as_str(), output.path));
        }
    }
    Ok(())
}

// Ends each output. The answer is the first failure.
fn end_each(
    rt: &HostRuntime,
    outputs: &[OutputText<'_>],
    opened: Vec<KeptFile>,
) -> Result<(), Ending> {
    let mut first = Ok(());
    for (output, file) in outputs.iter().zip(opened) {
        let ended = file.end(rt, output.file);
        if first.is_ok() {
            first = match ended {
                Ok(()) => Ok(()),
                Err(ending) => Err(ending.at_label(rt, output.label.as_str(), output.path)),
            };
        }
    }
    first
}
