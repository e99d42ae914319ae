/// The waves of a batch: records of one wave share no book, and may go in any order (docs/RULES.md, "Waves").
#[derive(Drop)]
pub struct Waves {
    /// The wave of each record, in file order, from 1.
    pub numbers: Vec<usize>,
    /// How many waves there are; 0 without records.
    pub count: usize,
    /// The places of the chain, a record of each wave, of which each shares with the next: so no fewer waves would do.
    pub chain: Vec<usize>,
}
