//! Workers below 0, which `clap` takes for an option that it doesn't know.

/// Says what is expected of workers below 0, if words name such.
pub fn print_negative_workers(rt: &HostRuntime, words: &[String]) {
    if let Some(number) = negative_workers(words) {
        let _ = eprintln!(rt; "rxbatch: --workers {number}: expected a number from 1 to 64");
    }
}

// The first number below 0 that is a word after `--workers`.
fn negative_workers(words: &[String]) -> Option<&str> {
    let mut before = "";
    for word in words {
        let word = word.as_str();
        if before == "--workers" && is_negative(word) {
            return Some(word);
        }
        before = word;
    }
    None
}

// Whether a hyphen and digits.
fn is_negative(word: &str) -> bool {
    match word.as_bytes() {
        [b'-', digits @ ..] => !digits.is_empty() && digits.iter().all(|b| b.is_ascii_digit()),
        _ => false,
    }
}
