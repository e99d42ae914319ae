/// The largest amount of money in a claim, in cents: eight digits.
pub const MOST_CENTS: u64 = 99_999_999;

/// The largest prescription reference number: twelve digits.
pub const MOST_REFERENCE: u64 = 999_999_999_999;

/// The largest dispensed quantity, in thousandths of a unit: ten digits.
pub const MOST_QUANTITY: u64 = 9_999_999_999;

/// The largest authorization number: fifteen digits.
pub const MOST_AUTHORIZATION: u64 = 999_999_999_999_999;

/// How many authorization numbers one batch number has: seven digits of the place and one of the transaction.
pub const NUMBERS_OF_A_BATCH: u64 = 100_000_000;

/// How many details a batch file may have.
pub const MOST_DETAILS: usize = 100_000;

/// How many lines a books file may have (docs/FORMATS.md, "Books file").
pub const MOST_LINES: usize = 1_000_000;

/// How many workers a run may have.
pub const MOST_WORKERS: u16 = 64;
