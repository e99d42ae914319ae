//! A family of the books: its members, its standing claims by date, each with the sums up to it, and what is left of a
//! plan's limits.
//!
//! `show_family` goes from the text of books, and of a plan sheet, to a text: aligned columns, a table of tabs, JSON or an HTML
//! page (`specs/FamilyShown.antt`). `family_of` makes the `Family` of books that were read, `part_of` one person's part of it.
//! `specs/FamilySums.antt` says which claims there are and what their sums come to, `specs/Families.antt` what a family is.
//!
//! ```rust
//! let asked = FamilyAsked { family: b"C100", person: None };
//! let text = show_family(rt, alloc, 4, Some(sheet), books, &asked, FamilyForm::Json)?;
//! ```

mod cells;
mod columns;
mod families;
mod law;
mod page;
mod rows;
mod shown;
mod sums;
mod tables;

pub use families::{Family, FamilyMember, Total, family_of, part_of};
pub use law::{family_reads_as_json, law_of_claims};
pub use page::FamilyOrigin;
pub use rows::{members_of, rows_of};
pub use shown::{FamilyAsked, FamilyForm, family_text, show_family};
pub use sums::{Claim, Limits, Running, by_date, reaches, summed};
