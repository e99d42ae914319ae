/// The byte that begins a record (docs/FORMATS.md, "Batch file").
pub const STX: u8 = 0x02;

/// The byte that ends a record.
pub const ETX: u8 = 0x03;

/// How many bytes a header has, with its STX and its ETX.
pub const HEADER_LENGTH: usize = 75;

/// How many bytes a trailer that is written has, with its STX and its ETX.
pub const TRAILER_LENGTH: usize = 56;

/// Where the batch number stands in a header, counted in bytes after its STX; it ends where the creation date starts.
pub const BATCH_NUMBER_AT: usize = 27;

/// Where the creation date stands in a header, counted in bytes after its STX; it ends where the creation time starts.
pub const CREATION_DATE_AT: usize = 34;

/// Where the creation time stands in a header, counted in bytes after its STX.
pub const CREATION_TIME_AT: usize = 42;
