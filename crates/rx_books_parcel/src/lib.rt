//! Books split into parcels: the books that a record names, moved out of the ledger, hold all that the record needs.
//!
//! In come footprints, the fill keys and families that a record names; what their books are of a ledger stands in
//! `rx_books_family`'s `specs/Books.antt`, and when they are enough for a record in `specs/Footprints.antt`.
#![tactic(auto)]

mod agreement;
mod footprint;
mod law;
mod parcel;

pub use footprint::Footprint;
pub use law::law_of_locality;
pub use parcel::Parcel;
