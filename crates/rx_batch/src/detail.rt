ghost use Rattle.std.specs.Prelude.{◌≡◌};

use std::marker::Model;

/// One detail of a batch (docs/FORMATS.md, "Batch file").
#[derive(Drop)]
pub struct Detail {
    /// The sender's name for the detail: any bytes but STX and ETX.
    pub reference: [u8; 10],
    /// The transmission, of any length: any bytes but STX and ETX.
    pub text: Text,
}

/// Bytes that belong to their detail; contracts see the list of the bytes.
#[derive(Drop)]
pub struct Text {
    bytes: Vec<u8>,
}

impl Model for Text {
    ghost use Rattle.std.specs.Prelude.{List, ℕ};

    ghost Value = { List ℕ };

    ghost view = { λ t. t.bytes.items };
}

/// The details of a batch, in file order; contracts see the list of the details.
#[derive(Drop)]
pub struct Details {
    details: Vec<Detail>,
}

impl Model for Details {
    ghost use Rattle.std.specs.Prelude.{List};
    ghost use Rattle.rx_batch.specs.declared.detail.Detail.{Detail};

    ghost Value = { List Detail };

    ghost view = { λ d. d.details.items };
}

ghost use Rattle.std.specs.Prelude.{[], ◌∷◌, ◌++◌, ◌==◌, length, OnOk, OnErr};

use std::alloc::{AllocError, AllocFailed};

impl Text {
    /// The text of these bytes, without taking memory.
    pub fn new(bytes: Vec<u8>) -> Text
        ensures { result ≡ bytes.items }
    {
        Text { bytes }
    }

    /// The bytes of the text.
    pub fn bytes(&self) -> &[u8]
        ensures { result.now ≡ self.now }
    {
        self.bytes.as_slice()
    }

    /// Whether the text has no byte.
    pub fn is_empty(&self) -> bool
        ensures { result ≡ (length self.now == 0) }
    {
        self.bytes.is_empty()
    }

    // Puts bytes at the end.
    pub(crate) fn extend(&mut self, more: &[u8]) -> Result<(), AllocError>
        ensures ok { OnOk result (self.new ≡ self.old ++ more.now) }
        ensures err { OnErr result (self.new ≡ self.old) }
    {
        self.bytes.extend_from_slice(more)
    }
}

impl Details {
    /// The list of these details, without taking memory.
    pub fn new(details: Vec<Detail>) -> Details
        ensures { result ≡ details.items }
    {
        Details { details }
    }

    /// The details, in file order.
    pub fn as_slice(&self) -> &[Detail]
        ensures { result.now ≡ self.now }
    {
        self.details.as_slice()
    }

    /// The number of details.
    pub fn len(&self) -> usize
        ensures { result ≡ length self.now }
    {
        self.details.len()
    }

    // Puts a detail at the end.
    pub(crate) fn push(&mut self, detail: Detail) -> Result<(), AllocFailed<Detail>>
        ensures ok { OnOk result (self.new ≡ self.old ++ detail ∷ []) }
        ensures err { OnErr result (self.new ≡ self.old) }
    {
        self.details.push(detail)
    }
}
