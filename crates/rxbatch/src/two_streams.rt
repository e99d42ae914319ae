//! A path `-` stands at one option at most.
use crate::file_fault::ProgramFile;
use crate::files::STREAM;
use crate::named::Named;
use rx_io::Device;

// The options that take a path.
const OPTIONS: &[Named] = &[
    Named::File(ProgramFile::Plans),
    Named::File(ProgramFile::Of(Device::Sheet)),
    Named::WithSheet,
    Named::File(ProgramFile::Of(Device::Books)),
    Named::WithBooks,
    Named::File(ProgramFile::Of(Device::Batch)),
    Named::File(ProgramFile::Of(Device::Response)),
    Named::File(ProgramFile::Of(Device::EndBooks)),
    Named::File(ProgramFile::Of(Device::Settlement)),
    Named::File(ProgramFile::Log),
];

/// The first two options whose path is `-`, if there are two.
pub fn two_streams(words: &[String]) -> Option<(Named, Named)> {
    let mut first = None;
    for option in OPTIONS {
        if is_stream(words, option.text()) {
            match first {
                None => first = Some(*option),
                Some(one) => return Some((one, *option)),
            }
        }
    }
    None
}

// Whether the path of an option is `-`, as its own word or after `=`.
fn is_stream(words: &[String], option: &str) -> bool {
    let mut before = "";
    for word in words {
        let word = word.as_str();
        if before == option && word == STREAM {
            return true;
        }
        if word.split_once('=') == Some((option, STREAM)) {
            return true;
        }
        before = word;
    }
    false
}
