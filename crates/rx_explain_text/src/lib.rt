//! An explanation in words, for people in dollars and cents, and as JSON for programs, in cents.
//!
//! ```rust
//! let text = rx_explain_text::explanation_text(alloc, lot, figures, &explanation, cited, None, Listing::All)?;
//! ```
//!
//! What is explained is decided by `rx_explain`; nothing is adjudicated here. Each text is the one of `specs/Texts.antt`,
//! `specs/Rejections.antt` or `specs/Json.antt`, byte for byte.
#![tactic(auto)]

mod absent;
mod cited;
mod code_words;
mod codes;
mod compared;
mod counted;
mod figures;
mod header;
mod json;
mod json_list;
mod laws;
mod reasons;
mod request_field;

pub use absent::{absent_for_text, absent_text};
pub use cited::Cited;
pub use code_words::{all_codes, expected, name};
pub use compared::Compared;
pub use counted::Listing;
pub use header::{explanation_text, rejection_text};
pub use json::{explanation_json, rejection_json};
pub use laws::{explanations_read_as_json, others_stay_hidden};
pub use request_field::{field_bytes, field_name};
