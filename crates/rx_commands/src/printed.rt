/// What a command prints on standard output, and how it ends.
#[derive(Drop)]
pub struct Printed {
    /// The text; where nothing is found, a line for standard error.
    pub text: Vec<u8>,
    /// How the command ends.
    pub outcome: Outcome,
}

/// How a command ends that refuses none of its inputs.
#[derive(Clone, Copy)]
pub enum Outcome {
    /// It is done.
    Done,
    /// No transaction is what was asked for; the text says so.
    NotFound,
    /// A file isn't what the inputs give; the text says where.
    Differs,
}
