ghost use Rattle.std.specs.Prelude.{◌≡◌};
ghost use Rattle.rx_fields.specs.Fault.{field_fault_code, id_fault_code};

/// Why a field has no value: the first of these that holds (docs/ARCHITECTURE.md, "Public calls").
#[derive(Clone, Copy, Debug, PartialEq, Eq)]
pub enum FieldFault {
    /// There is no byte.
    Empty,
    /// There are more bytes than the call reads.
    TooLong,
    /// A byte is no digit, or the last is no overpunched digit.
    NotDigit,
    /// The digits are no date of the calendar, or fewer than eight.
    NotDate,
}

impl FieldFault {
    /// The fault's number, from 1 in the order of the checks.
    pub fn code(self) -> u32
        ensures { result ≡ field_fault_code self }
    {
        match self {
            FieldFault::Empty => 1,
            FieldFault::TooLong => 2,
            FieldFault::NotDigit => 3,
            FieldFault::NotDate => 4,
        }
    }
}

/// Why a text is no id: the first of these that holds (docs/RULES.md, "Words").
#[derive(Clone, Copy, Debug, PartialEq, Eq)]
pub enum IdFault {
    /// Nothing is left once the trailing blanks are taken off.
    Blank,
    /// What is left has more bytes than the field takes.
    TooLong,
    /// A byte isn't printable ASCII.
    NotPrintable,
    /// A byte is `|`, which separates the fields of the books.
    Bar,
}

impl IdFault {
    /// The fault's number, from 1 in the order of the checks.
    pub fn code(self) -> u32
        ensures { result ≡ id_fault_code self }
    {
        match self {
            IdFault::Blank => 1,
            IdFault::TooLong => 2,
            IdFault::NotPrintable => 3,
            IdFault::Bar => 4,
        }
    }
}
