use rx_d0_values::Answer;
use rx_fields::{Days, Id, Person, Product, Quantity};

/// How much of its product a billing is of, and for how long.
#[derive(Clone, Copy)]
pub struct Dispensed {
    /// The quantity (442-E7), in thousandths.
    pub quantity: Quantity,
    /// The days supply (405-D5).
    pub days: Days,
}

/// One answer of a batch, with what its request says of it.
#[derive(Clone, Copy)]
pub struct Line {
    /// The record's place in the batch, from 1.
    pub place: u64,
    /// The answer's place in its reply, from 1.
    pub nth: u64,
    /// The service provider id of the reply, filled with blanks.
    pub provider: [u8; 15],
    /// The date of service of the reply, CCYYMMDD, or what stood there.
    pub date: [u8; 8],
    /// The family and the person: those that a billing names, or those of the claim that a reversal takes back.
    pub member: Option<(Id, Person)>,
    /// The product that a billing or a reversal names.
    pub product: Option<Product>,
    /// How much a billing is of.
    pub dispensed: Option<Dispensed>,
    /// What is answered.
    pub answer: Answer,
}
