ghost use Rattle.std.specs.Prelude.{◌≡◌};
ghost use Rattle.rx_fields.specs.Codes.{all_codes};
ghost use Rattle.rx_explain_text.specs.Words.{case_name_of, name_of, expected_of};

use rx_fields::Code;
use rx_ledger::Decision;

/// Every reject code, in the order of its characters.
pub fn all_codes() -> [Code; 31]
    ensures { result ≡ all_codes }
{
    [
        Code::Bin,
        Code::Version,
        Code::TransactionCode,
        Code::ProcessorControlNumber,
        Code::Provider,
        Code::Cardholder,
        Code::OtherCoverage,
        Code::DateOfService,
        Code::Reference,
        Code::DaysSupply,
        Code::Compound,
        Code::ProductId,
        Code::IngredientCost,
        Code::UnknownCardholder,
        Code::Person,
        Code::NotCovered,
        Code::ProductNotCovered,
        Code::PlanLimits,
        Code::RefillTooSoon,
        Code::TooOld,
        Code::PostDated,
        Code::DuplicatePaid,
        Code::ReversalNotProcessed,
        Code::TransactionCount,
        Code::DispensingFee,
        Code::UsualCharge,
        Code::GrossAmount,
        Code::ProductQualifier,
        Code::Quantity,
        Code::ReferenceQualifier,
        Code::Syntax,
    ]
}

/// The name of a reject code, in the standard's words.
pub fn name(code: Code) -> &'static str
    ensures { result.now ≡ name_of code }
{
    match code {
        Code::Bin => "missing or invalid BIN number",
        Code::Version => "missing or invalid version",
        Code::TransactionCode => "missing or invalid transaction code",
        Code::ProcessorControlNumber => "missing or invalid processor control number",
        Code::Provider => "missing or invalid service provider number",
        Code::Cardholder => "missing or invalid cardholder id",
        Code::OtherCoverage => "missing or invalid other coverage code",
        Code::DateOfService => "missing or invalid date of service",
        Code::Reference => "missing or invalid prescription reference number",
        Code::DaysSupply => "missing or invalid days supply",
        Code::Compound => "missing or invalid compound code",
        Code::ProductId => "missing or invalid product id",
        Code::IngredientCost => "missing or invalid ingredient cost",
        Code::UnknownCardholder => "non-matched cardholder id",
        Code::Person => "non-matched person code",
        Code::NotCovered => "patient is not covered",
        Code::ProductNotCovered => "product not covered",
        Code::PlanLimits => "plan limitations exceeded",
        Code::RefillTooSoon => "refill too soon",
        Code::TooOld => "claim too old",
        Code::PostDated => "claim is post-dated",
        Code::DuplicatePaid => "duplicate of a paid claim",
        Code::ReversalNotProcessed => "reversal not processed",
        Code::TransactionCount => "missing or invalid transaction count",
        Code::DispensingFee => "missing or invalid dispensing fee",
        Code::UsualCharge => "missing or invalid usual and customary charge",
        Code::GrossAmount => "missing or invalid gross amount due",
        Code::ProductQualifier => "missing or invalid product id qualifier",
        Code::Quantity => "missing or invalid quantity dispensed",
        Code::ReferenceQualifier => "missing or invalid prescription reference qualifier",
        Code::Syntax => "syntax error",
    }
}

/// What the tables of header codes and group codes expect in place of what a request has (docs/FORMATS.md, "Request
/// transmission"); of a code of adjudication what the rules expect (docs/RULES.md, "Billing").
pub fn expected(code: Code) -> &'static str
    ensures { result.now ≡ expected_of code }
{
    match code {
        Code::Bin => "the plan's BIN",
        Code::Version => "D0",
        Code::TransactionCode => "B1 or B2",
        Code::ProcessorControlNumber => "the plan's processor control number",
        Code::Provider => "an id of at most 15 bytes",
        Code::Cardholder => "an id of at most 20 bytes",
        Code::OtherCoverage => "0 or 1 in one or two digits, or no such field",
        Code::DateOfService => "a date CCYYMMDD that exists",
        Code::Reference => "1 to 12 digits",
        Code::DaysSupply => "1 to 3 digits that aren't all zero",
        Code::Compound => "0 or 1, or no such field",
        Code::ProductId => "11 digits",
        Code::IngredientCost => "an amount that isn't negative",
        Code::UnknownCardholder => "a family that has a member",
        Code::Person => "an id of at most 3 bytes, or no such field",
        Code::NotCovered => "a date of service within the coverage and the benefit period",
        Code::ProductNotCovered => "a product of the plan sheet",
        Code::PlanLimits => "a days supply within the plan's limit",
        Code::RefillTooSoon => "enough days of each earlier fill gone by",
        Code::TooOld => "a date of service in the benefit period",
        Code::PostDated => "a date of service no later than the batch's creation date",
        Code::DuplicatePaid => "no other claim under the fill key",
        Code::ReversalNotProcessed => "a claim of the product under the fill key",
        Code::TransactionCount => "1 to 4, and as many groups",
        Code::DispensingFee => "an amount that isn't negative, or no such field",
        Code::UsualCharge => "an amount that isn't negative, or 430-DU in its place",
        Code::GrossAmount => "an amount that isn't negative, or no such field",
        Code::ProductQualifier => "03",
        Code::Quantity => "1 to 10 digits that aren't all zero",
        Code::ReferenceQualifier => "1",
        Code::Syntax =>
            "56 printable bytes of header, and parts, segments and fields as the separators cut them",
    }
}

/// The name of a decision, for programs.
pub(crate) fn case_name(decision: &Decision) -> &'static str
    ensures { result.now ≡ case_name_of decision.now }
{
    match decision {
        Decision::NoFamily => "no family",
        Decision::NoPerson => "no person",
        Decision::SameStands(_) => "same claim stands",
        Decision::OtherStands(_) => "other claim stands",
        Decision::BeforePeriod => "before period",
        Decision::AfterCreation => "after creation",
        Decision::NotCovered(_) => "not covered",
        Decision::NotListed => "not listed",
        Decision::TooManyDays => "too many days",
        Decision::TooSoon => "too soon",
        Decision::Payable(_) => "payable",
        Decision::NoneStands => "none stands",
        Decision::OtherProduct(_) => "other product",
        Decision::TakenBack(_) => "taken back",
        Decision::Unread(_) => "unread",
    }
}
