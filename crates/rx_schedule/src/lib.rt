//! Which records of a batch share books, and so have to keep the file's order.
//!
//! In come the opening books and a batch's transmissions; out come the footprint of each record, the books that it names;
//! the waves, in which records that share no book go together; queues, which issue a record once every earlier one that it
//! shares a book with was passed; and shards, sets of records of which no two share a book, so that each may be
//! adjudicated apart.
//!
//! ```rust
//! let footprints = rx_schedule::footprints(alloc, &books, &transmissions)?;
//! let waves = rx_schedule::waves(alloc, &footprints)?;
//! let mut queues = rx_schedule::Queues::of(alloc, &footprints)?;
//! ```
//!
//! What a footprint is stands in `specs/Footprints.antt`, what waves are in `specs/Waves.antt`, which records may go in
//! `specs/Queues.antt`, and what shards are in `specs/Shards.antt`; why an order that keeps sharers apart gives what the
//! file's order gives stands in `specs/Machine.antt`.
#![tactic(auto)]

mod billers;
mod book_names;
mod deal;
mod event;
mod followers;
mod law;
mod links;
mod marks;
mod mentions;
mod naming;
mod ordered;
mod queues;
mod shard_numbers;
mod shard_plan;
mod ties;
mod uses;
mod wave_numbers;
mod wave_plan;

pub use event::Event;
pub use law::{law_of_core, law_of_holder, law_of_shards, law_of_standing, law_of_waves};
pub use naming::footprints;
pub use queues::Queues;
pub use shard_numbers::Shards;
pub use shard_plan::shards;
pub use wave_numbers::Waves;
pub use wave_plan::waves;
