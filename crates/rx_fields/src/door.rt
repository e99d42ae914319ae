/// The BIN and the processor control number that a transmission has to name to be accepted (docs/FORMATS.md, "Request
/// transmission").
#[derive(Clone, Copy, PartialEq, Eq)]
pub struct Door {
    /// The bank identification number, as six bytes.
    pub bin: [u8; 6],
    /// The processor control number, filled with blanks to ten bytes.
    pub pcn: [u8; 10],
}
