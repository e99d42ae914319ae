//! What the commands for disputes are asked to do.
use rx_io::Inputs;

/// The words of `excerpt`.
#[derive(Clone, Copy)]
pub struct ExcerptWords<'a> {
    pub inputs: Inputs<&'a str>,
    /// `--record`: the place of the record, from 1.
    pub place: u64,
    /// `--out`: the folder, which isn't there yet.
    pub out: &'a str,
    /// `--response`: the response file that is compared, if there is one.
    pub response: Option<&'a str>,
}
