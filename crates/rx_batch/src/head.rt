ghost use Rattle.std.specs.Prelude.{◌≡◌};
ghost use Rattle.rx_batch.specs.Header.{file_of, byte_of_file, byte_of_kind};

use rx_fields::{Lot, Time};

/// The header of a batch file (docs/FORMATS.md, "Batch file").
#[derive(Clone, Copy, PartialEq, Eq)]
pub struct Head {
    /// What the records are; `read_batch` reads only requests.
    pub kind: Kind,
    /// Who sends the batch: 24 bytes, filled with blanks.
    pub sender: [u8; 24],
    /// The batch number and the creation date.
    pub lot: Lot,
    /// The creation time.
    pub time: Time,
    /// Production or test.
    pub file: FileType,
    /// The receiver of the batch: 24 bytes, filled with blanks.
    pub receiver: [u8; 24],
}

impl Head {
    /// The batch number and the creation date.
    pub fn lot(&self) -> Lot
        ensures { result ≡ self.now.lot }
    {
        self.lot
    }
}

/// What the records of a file are: requests, or the replies to them.
#[derive(Clone, Copy, PartialEq, Eq)]
pub enum Kind {
    /// Requests: `T`.
    Transmission,
    /// Replies: `R`.
    Response,
}

impl Kind {
    // The byte that stands for it.
    pub(crate) fn byte(self) -> u8
        ensures { result ≡ byte_of_kind self }
    {
        match self {
            Kind::Transmission => b'T',
            Kind::Response => b'R',
        }
    }
}

/// Whether a file is for production or a test.
#[derive(Clone, Copy, PartialEq, Eq)]
pub enum FileType {
    /// Production: `P`.
    Production,
    /// A test: `T`.
    Test,
}

impl FileType {
    // The file type for which a byte stands.
    pub(crate) fn of(byte: u8) -> Option<FileType>
        ensures { result ≡ file_of byte }
    {
        match byte {
            b'P' => Some(FileType::Production),
            b'T' => Some(FileType::Test),
            _ => None,
        }
    }

    // The byte that stands for it.
    pub(crate) fn byte(self) -> u8
        ensures value { result ≡ byte_of_file self }
        ensures again { file_of result ≡ Some self }
    {
        match self {
            FileType::Production => b'P',
            FileType::Test => b'T',
        }
    }
}
