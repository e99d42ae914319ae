//! The six files of a run, and the devices that it is lent: sources that bytes are read from, sinks that bytes are written to.
//!
//! In comes a device; out come all the bytes that it had left, at once or piece by piece to a consumer, or a text is
//! written to its end, whole or in pieces. No failed call is taken for the end, and an endless input is refused. What an
//! input may have is in `specs/Reading.antt`, what a write did in `specs/Writing.antt`. A text in pieces may be made of parts
//! of another, which it shares (`specs/Patches.antt`).
//!
//! ```rust
//! let text = rx_io::read_all(alloc, &mut ReaderSource::new(file).with_hint(len))?;
//! rx_io::write_all(&mut WriterSink::new(copy), text.as_slice())?;
//! ```
//!
//! `Inputs` and `Outputs` hold something of each file, and `Device` says which file it is (`specs/Files.antt`).
//!
//! ```rust
//! let texts = paths.try_map(|device, path| text_of(path, device))?;
//! ```
//!
//! What the bytes of a file mean is left to the crates above.
#![tactic(auto)]

mod consumer;
mod counted;
mod device;
mod fault;
mod files;
mod gathering;
mod memory;
mod patched;
mod pieces;
mod reading;
mod sink;
mod source;
mod wrapped;

pub use consumer::Consumer;
pub use device::Device;
pub use fault::{Failed, ReadFault};
pub use files::{Inputs, Outputs};
pub use memory::{SliceSource, VecSink};
pub use patched::Patched;
pub use pieces::{Pieces, one_text};
pub use reading::{read_all, read_each};
pub use sink::{Sink, write_all, write_pieces};
pub use source::Source;
pub use wrapped::{ReaderSource, WriterSink};
