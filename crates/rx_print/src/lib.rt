//! Small texts that several outputs share: numbers, amounts, dates, reject codes, bytes escaped; and a page to write on.
//!
//! `put_escaped` takes any bytes and the style of the place where they are to stand, in HTML, in a JSON string or on a
//! terminal; out comes printable ASCII that is read there as those bytes, and as nothing else. What is written for a byte,
//! and how it is read back, is in `specs/Escape.antt`. The tags, quotes and colours around them are left to the caller.
//! `specs/JsonData.antt` says as which value a text of JSON is read; `proofs/JsonPieces.antt` puts such texts together.
//!
//! ```rust
//! let mut page = Page::new(alloc);
//! page.escaped(Style::Html, family.bytes());
//! page.grouped(records);
//! let text = page.into_bytes()?;
//! ```
//!
//! Each other text is a definition of `specs/`, and a method of `Page` writes it. Where a growth was refused bytes are
//! missing, and `into_bytes` says so in the end. A function whose name begins with `put` puts the same at the end of a `Vec`;
//! where a growth was refused, what was put by then stays, but for `put_codes`, which leaves the text as it was.
#![tactic(auto)]

mod byte;
mod code_list;
mod date;
mod escape;
mod law;
mod number;
mod page;
mod style;

pub use byte::{bracketed, hexadecimal};
pub use code_list::put_codes;
pub use date::dashed_digits;
pub use escape::put_escaped;
pub use law::{no_mark_is_written, read_back, string_reads_as_json};
pub use number::{
    put_decimal, put_dollars, put_grouped, put_hundredths, put_signed, put_signed_dollars,
};
pub use page::Page;
pub use style::Style;
