use rx_fields::Lot;

/// What a response file has at the place of a record, against the reply that the replay gives.
#[derive(Clone, Copy)]
pub enum Compared {
    /// The reference of the request and the same reply, byte for byte.
    Same,
    /// Another reference or another reply.
    Differs,
    /// No record.
    Absent,
    /// Whatever is there, the file answers another batch: one of this lot.
    OtherBatch(Lot),
}
