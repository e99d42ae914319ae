ghost use Rattle.std.specs.Prelude.{◌≡◌};
ghost use Rattle.rx_report.specs.Cells.{is_number, name_of};

/// What a report says of an answer.
#[derive(Clone, Copy)]
pub enum Column {
    /// The record's place in the batch.
    Place,
    /// The answer's place in its reply.
    Nth,
    /// The answer's status: P, D, A or R.
    Status,
    /// The reject codes, with a comma between each two.
    Codes,
    /// The pharmacy; empty where the reply names none.
    Provider,
    /// The prescription reference number.
    Prescription,
    /// The date of service.
    Date,
    /// The member's family.
    Family,
    /// The person in it.
    Person,
    /// Ingredient cost and dispensing fee, in cents.
    Allowed,
    /// What is applied to the deductible, in cents.
    Deductible,
    /// The copay, in cents.
    Copay,
    /// The coinsurance, in cents.
    Coinsurance,
    /// What the member pays, in cents.
    Member,
    /// What the plan pays, in cents; below zero where it is given back.
    Plan,
    /// The authorization number, in 15 digits.
    Authorization,
    /// The product, in 11 digits.
    Product,
    /// The quantity, in thousandths.
    Quantity,
    /// The days supply.
    Days,
}

/// The columns but the first, in order.
pub(crate) const OTHERS: [Column; 18] = [
    Column::Nth,
    Column::Status,
    Column::Codes,
    Column::Provider,
    Column::Prescription,
    Column::Date,
    Column::Family,
    Column::Person,
    Column::Allowed,
    Column::Deductible,
    Column::Copay,
    Column::Coinsurance,
    Column::Member,
    Column::Plan,
    Column::Authorization,
    Column::Product,
    Column::Quantity,
    Column::Days,
];

impl Column {
    /// The column's name, in lower case.
    pub fn name(self) -> &'static [u8]
        ensures { result.now ≡ name_of self }
    {
        match self {
            Column::Place => b"record",
            Column::Nth => b"nth",
            Column::Status => b"answer",
            Column::Codes => b"codes",
            Column::Provider => b"provider",
            Column::Prescription => b"prescription",
            Column::Date => b"date",
            Column::Family => b"family",
            Column::Person => b"person",
            Column::Allowed => b"allowed",
            Column::Deductible => b"deductible",
            Column::Copay => b"copay",
            Column::Coinsurance => b"coinsurance",
            Column::Member => b"member_pays",
            Column::Plan => b"plan_pays",
            Column::Authorization => b"authorization",
            Column::Product => b"product",
            Column::Quantity => b"quantity",
            Column::Days => b"days",
        }
    }

    // Whether its cells are numbers.
    pub(crate) fn is_number(self) -> bool
        ensures { result ≡ is_number self }
    {
        !matches!(
            self,
            Column::Status
                | Column::Codes
                | Column::Provider
                | Column::Date
                | Column::Family
                | Column::Person
                | Column::Authorization
                | Column::Product
        )
    }
}
