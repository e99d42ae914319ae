//! How often each reject code was given.
use rx_fields::Code;
use rx_run_log::{CodeCount, CodesPassed};
use std::alloc::{AllocError, Global};

// What a code is made of, in the order of codes.
const CHARACTERS: &[u8] = b"0123456789ABCDEFGHIJKLMNOPQRSTUVWXYZ";

/// The codes that passed, each with its number, in the order of their characters.
pub fn code_counts(alloc: Global, passed: &CodesPassed) -> Result<Vec<CodeCount>, AllocError> {
    let mut counts = Vec::new(alloc);
    for first in CHARACTERS {
        for second in CHARACTERS {
            if let Some(count) = code_count(alloc, passed, [*first, *second])? {
                counts.push(count)?;
            }
        }
    }
    Ok(counts)
}

// The number of one code; None if the text is no code, or none passed.
fn code_count(
    alloc: Global,
    passed: &CodesPassed,
    text: [u8; 2],
) -> Result<Option<CodeCount>, AllocError> {
    if Code::new(&text).is_none() {
        return Ok(None);
    }
    let count = passed.times(text) as u64;
    if count == 0 {
        return Ok(None);
    }
    let mut code = String::new(alloc);
    code.push(char::from(text[0]))?;
    code.push(char::from(text[1]))?;
    Ok(Some(CodeCount { code, count }))
}
