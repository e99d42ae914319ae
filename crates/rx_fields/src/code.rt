ghost use Rattle.std.specs.Prelude.{◌≡◌, Some};
ghost use Rattle.rx_fields.specs.Codes.{code_text, code_of};

/// A reject code, in the order of its characters (docs/FORMATS.md, "Request transmission"; docs/RULES.md, "Billing").
#[derive(Clone, Copy, PartialEq, Eq)]
pub enum Code {
    /// 01: the BIN isn't the plan's.
    Bin,
    /// 02: the version isn't `D0`.
    Version,
    /// 03: the transaction code is neither `B1` nor `B2`.
    TransactionCode,
    /// 04: the processor control number isn't the plan's.
    ProcessorControlNumber,
    /// 05: the provider id is no id of at most 15 bytes.
    Provider,
    /// 07: the cardholder id is absent or no id of at most 20 bytes.
    Cardholder,
    /// 13: the other coverage code isn't 0 or 1.
    OtherCoverage,
    /// 15: the date of service doesn't exist.
    DateOfService,
    /// 16: the prescription reference number isn't 1 to 12 digits.
    Reference,
    /// 19: the days supply isn't 1 to 3 digits, or is zero.
    DaysSupply,
    /// 20: the compound code is neither `0` nor `1`.
    Compound,
    /// 21: the product id isn't 11 digits.
    ProductId,
    /// 23: the ingredient cost is absent, unreadable or negative.
    IngredientCost,
    /// 52: the family has no member.
    UnknownCardholder,
    /// 53: the person code is unreadable, or the family has no such person.
    Person,
    /// 65: the member isn't covered on the date of service.
    NotCovered,
    /// 70: the product isn't in the plan sheet.
    ProductNotCovered,
    /// 76: the days supply exceeds the plan's limit.
    PlanLimits,
    /// 79: too much of an earlier fill is left.
    RefillTooSoon,
    /// 81: the date of service is before the benefit period.
    TooOld,
    /// 82: the date of service is after the batch's creation date.
    PostDated,
    /// 83: another claim stands under the fill key.
    DuplicatePaid,
    /// 87: no such claim stands under the fill key.
    ReversalNotProcessed,
    /// A9: the transaction count isn't 1 to 4, or isn't the number of groups.
    TransactionCount,
    /// DC: the dispensing fee is unreadable or negative.
    DispensingFee,
    /// DQ: the usual and customary charge is unreadable, negative, or absent with an absent gross amount due.
    UsualCharge,
    /// DU: the gross amount due is unreadable or negative.
    GrossAmount,
    /// E1: the product qualifier isn't `03`.
    ProductQualifier,
    /// E7: the quantity isn't 1 to 10 digits, or is zero.
    Quantity,
    /// EM: the reference qualifier isn't `1`.
    ReferenceQualifier,
    /// R8: the text breaks the request's syntax.
    Syntax,
}

impl Code {
    /// The code's two characters.
    pub fn text(self) -> [u8; 2]
        ensures text { result ≡ code_text self }
        ensures again { code_of result ≡ Some self }
    {
        match self {
            Code::Bin => *b"01",
            Code::Version => *b"02",
            Code::TransactionCode => *b"03",
            Code::ProcessorControlNumber => *b"04",
            Code::Provider => *b"05",
            Code::Cardholder => *b"07",
            Code::OtherCoverage => *b"13",
            Code::DateOfService => *b"15",
            Code::Reference => *b"16",
            Code::DaysSupply => *b"19",
            Code::Compound => *b"20",
            Code::ProductId => *b"21",
            Code::IngredientCost => *b"23",
            Code::UnknownCardholder => *b"52",
            Code::Person => *b"53",
            Code::NotCovered => *b"65",
            Code::ProductNotCovered => *b"70",
            Code::PlanLimits => *b"76",
            Code::RefillTooSoon => *b"79",
            Code::TooOld => *b"81",
            Code::PostDated => *b"82",
            Code::DuplicatePaid => *b"83",
            Code::ReversalNotProcessed => *b"87",
            Code::TransactionCount => *b"A9",
            Code::DispensingFee => *b"DC",
            Code::UsualCharge => *b"DQ",
            Code::GrossAmount => *b"DU",
            Code::ProductQualifier => *b"E1",
            Code::Quantity => *b"E7",
            Code::ReferenceQualifier => *b"EM",
            Code::Syntax => *b"R8",
        }
    }

    /// The code of two characters; None where no code has them.
    pub fn new(bytes: &[u8]) -> Option<Code>
        ensures { result ≡ code_of bytes.now }
    {
        match bytes {
            b"01" => Some(Code::Bin),
            b"02" => Some(Code::Version),
            b"03" => Some(Code::TransactionCode),
            b"04" => Some(Code::ProcessorControlNumber),
            b"05" => Some(Code::Provider),
            b"07" => Some(Code::Cardholder),
            b"13" => Some(Code::OtherCoverage),
            b"15" => Some(Code::DateOfService),
            b"16" => Some(Code::Reference),
            b"19" => Some(Code::DaysSupply),
            b"20" => Some(Code::Compound),
            b"21" => Some(Code::ProductId),
            b"23" => Some(Code::IngredientCost),
            b"52" => Some(Code::UnknownCardholder),
            b"53" => Some(Code::Person),
            b"65" => Some(Code::NotCovered),
            b"70" => Some(Code::ProductNotCovered),
            b"76" => Some(Code::PlanLimits),
            b"79" => Some(Code::RefillTooSoon),
            b"81" => Some(Code::TooOld),
            b"82" => Some(Code::PostDated),
            b"83" => Some(Code::DuplicatePaid),
            b"87" => Some(Code::ReversalNotProcessed),
            b"A9" => Some(Code::TransactionCount),
            b"DC" => Some(Code::DispensingFee),
            b"DQ" => Some(Code::UsualCharge),
            b"DU" => Some(Code::GrossAmount),
            b"E1" => Some(Code::ProductQualifier),
            b"E7" => Some(Code::Quantity),
            b"EM" => Some(Code::ReferenceQualifier),
            b"R8" => Some(Code::Syntax),
            _ => None,
        }
    }
}
