// How many bytes the header of a reply has (docs/FORMATS.md, "Reply transmission").
pub(crate) const HEADER: usize = 31;
