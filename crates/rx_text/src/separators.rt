/// X'1C', before a field.
pub const FIELD: u8 = 0x1C;

/// X'1D', before a group.
pub const GROUP: u8 = 0x1D;

/// X'1E', before a segment.
pub const SEGMENT: u8 = 0x1E;
