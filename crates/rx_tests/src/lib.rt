//! The tests of calls. A module has those of the crate of its name, and:
//!
//! - `plan`: sheets in `rx_ledger`; `request` and `reply`: the standard's; `books_in_parts`, `books_kept`, `books_lines` and
//!   `books_quick`: books, read and written, exactly and quickly, whole and in parts;
//! - `decoding`, `run_one`, `shards` and `workers`: `rx_wave`; `failing` and `face`: a run on devices; `runs`: a run over bytes, at
//!   `gates`; `devices`: readers and writers;
//! - `refused`: a desk and runs while memory is refused (`tests/refused_desk.py`);
//! - `table`, `values`, `worked`, `one_billing` and `texts`: what the cases are made of.
//!
//! What the program prints and writes, the scripts in `tests/` compare byte for byte. So calls that a run of it makes with ample
//! memory have no test here, unless no clause says all that is expected of them.
//!
//! They stand apart from those crates, since a crate that has tests is proved twice.
#![tactic(auto)]

#[cfg(test)]
mod batch;
#[cfg(test)]
mod books;
#[cfg(test)]
mod books_in_parts;
#[cfg(test)]
mod books_kept;
#[cfg(test)]
mod books_lines;
#[cfg(test)]
mod books_quick;
#[cfg(test)]
mod d0;
#[cfg(test)]
mod decoding;
#[cfg(test)]
mod desk;
#[cfg(test)]
mod devices;
#[cfg(test)]
mod face;
#[cfg(test)]
mod failing;
#[cfg(test)]
mod fields;
#[cfg(test)]
mod gates;
#[cfg(test)]
mod ledger;
#[cfg(test)]
mod one_billing;
#[cfg(test)]
mod parcels;
#[cfg(test)]
mod plan;
#[cfg(test)]
mod refused;
#[cfg(test)]
mod reply;
#[cfg(test)]
mod request;
#[cfg(test)]
mod response;
#[cfg(test)]
mod run_one;
#[cfg(test)]
mod runs;
#[cfg(test)]
mod same;
#[cfg(test)]
mod schedule;
#[cfg(test)]
mod shards;
#[cfg(test)]
mod sheet;
#[cfg(test)]
mod shelf;
#[cfg(test)]
mod switch;
#[cfg(test)]
mod table;
#[cfg(test)]
mod texts;
#[cfg(test)]
mod values;
#[cfg(test)]
mod worked;
#[cfg(test)]
mod workers;
