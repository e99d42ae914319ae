//! Lists of items in the ascending order of their keys, at most one item of a key, as `specs/Ascending.antt` has them.
//!
//! In come items that have a key (`Keyed`), in any order by `insert`, or in order by `push` and `from_vec`.
//! Out come the item with a key, found by binary search, and all items in order.
//!
//! ```rust
//! let mut seats = Ascending::new(alloc);
//! seats.insert(seat)?;
//! let guest = seats.get(&place).map(|seat| seat.guest);
//! ```
//!
//! No item is lent for writing, since its key has to stay: `replace` writes a whole item over the one with its key.
//! `Runs` is such a list that never changes, kept as some runs, one after another (`specs/Runs.antt`). `Hinted` is one whose
//! items are found by a hash of their keys; where they are slots (`Slot`), what they hold is taken out and put in
//! (`specs/Slots.antt`). `Few` is a list of mostly one item, in any order.
//! The lemmas on these lists, and those on orders of keys with several fields, are in `proofs/`.
#![tactic(auto)]

mod few;
mod hinted;
mod list;
mod near;
mod runs;
mod slices;
mod slots;

pub use few::Few;
pub use hinted::{Hashed, Hinted, hash_of_text, mixed};
pub use list::{Ascending, InsertError};
pub use near::{item_of, place_near};
pub use runs::Runs;
pub use slices::{Keyed, is_ascending, place_of};
pub use slots::Slot;
