//! `settle`: the settlement of response files, all together.
use crate::ending::{Ending, Numbers};
use crate::files::STREAM;
use crate::named::Named;
use crate::refused_text::refused_response;
use crate::shown_path::shown_path;
use crate::standard_output::print;
use crate::texts::text_of;
use rx_cli::SettleWords;
use rx_commands::{CycleFault, settle_cycle};
use rx_fields::{Memory, trimmed};
use rx_io::Device;

/// Prints the settlement of response files, or the line of one provider.
pub fn settle(rt: &HostRuntime, words: &SettleWords<'_>) -> Result<(), Ending> {
    if names_stream_twice(&words.responses) {
        let response = Named::of(Device::Response);
        return Err(Ending::TwoStreams(response, response));
    }
    let files = read_files(rt, &words.responses)?;
    let provider = words.provider.map(|id| trimmed(id.as_bytes()));
    let text = settle_cycle(rt.alloc(), &files, provider);
    let text = text.map_err(|fault| not_settled(rt, &words.responses, &files, fault));
    drop(files);
    let text = text?;
    need_line(rt, words.provider, &text)?;
    print(rt, &text)
}

// Ends where no reply is to the one provider.
fn need_line(rt: &HostRuntime, provider: Option<&str>, text: &[u8]) -> Result<(), Ending> {
    match provider {
        Some(id) if text.is_empty() => {
            let alloc = rt.alloc();
            let shown = shown_path(alloc, id)?;
            let line = format!(in alloc; "--provider {shown}: the files have no answer of it")?;
            Err(Ending::Stopped(line))
        }
        _ => Ok(()),
    }
}

// Whether two of the paths are `-`.
fn names_stream_twice(paths: &[&str]) -> bool {
    let mut is_named = false;
    for path in paths {
        if *path == STREAM {
            if is_named {
                return true;
            }
            is_named = true;
        }
    }
    false
}

// The texts of the files, each opened and read before the next.
fn read_files(rt: &HostRuntime, paths: &[&str]) -> Result<Vec<Vec<u8>>, Ending> {
    let mut files = Vec::new(rt.alloc());
    for path in paths {
        let text = text_of(rt, path, Device::Response)?;
        if files.push(text).is_err() {
            return Err(Ending::from(Memory));
        }
    }
    Ok(files)
}

// The ending where a file answers no batch.
fn not_settled(rt: &HostRuntime, paths: &[&str], files: &[Vec<u8>], fault: CycleFault) -> Ending {
    match fault {
        CycleFault::Memory => Ending::from(Memory),
        CycleFault::NoResponse { file, fault } => match (paths.get(file), files.get(file)) {
            (Some(path), Some(text)) => refused_response(rt, path, text, fault),
            _ => Ending::of_response(fault),
        },
        CycleFault::NoReply { file, place, fault } => {
            let numbers = [u64::from(fault.code()), place as u64];
            let ending = Ending::Bare(Numbers::Reply(numbers));
            match no_reply(rt, paths.get(file).copied().unwrap_or(""), place) {
                Ok(line) => ending.in_words(line),
                Err(Memory) => ending,
            }
        }
    }
}

// The words of a detail that holds no reply.
fn no_reply(rt: &HostRuntime, path: &str, place: usize) -> Result<String, Memory> {
    let alloc = rt.alloc();
    let name = shown_path(alloc, path)?;
    let name = name.as_str();
    let line = format!(in alloc;
        "{name}: record {place}: no reply; expected a text of docs/FORMATS.md, Reply transmission"
    )?;
    Ok(line)
}
