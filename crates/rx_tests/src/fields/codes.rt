use crate::table::same_at;
use rx_fields::Code;

const CODES: &[(&str, Code)] = &[
    ("01", Code::Bin),
    ("02", Code::Version),
    ("03", Code::TransactionCode),
    ("04", Code::ProcessorControlNumber),
    ("05", Code::Provider),
    ("07", Code::Cardholder),
    ("13", Code::OtherCoverage),
    ("15", Code::DateOfService),
    ("16", Code::Reference),
    ("19", Code::DaysSupply),
    ("20", Code::Compound),
    ("21", Code::ProductId),
    ("23", Code::IngredientCost),
    ("52", Code::UnknownCardholder),
    ("53", Code::Person),
    ("65", Code::NotCovered),
    ("70", Code::ProductNotCovered),
    ("76", Code::PlanLimits),
    ("79", Code::RefillTooSoon),
    ("81", Code::TooOld),
    ("82", Code::PostDated),
    ("83", Code::DuplicatePaid),
    ("87", Code::ReversalNotProcessed),
    ("A9", Code::TransactionCount),
    ("DC", Code::DispensingFee),
    ("DQ", Code::UsualCharge),
    ("DU", Code::GrossAmount),
    ("E1", Code::ProductQualifier),
    ("E7", Code::Quantity),
    ("EM", Code::ReferenceQualifier),
    ("R8", Code::Syntax),
];

const NO_CODES: &[&str] = &["", "0", "00", "06", "010", "R9", "a9", "AM"];

#[test]
fn reject_codes_are_read_as_written(rt: HostRuntime) {
    for &(text, code) in CODES {
        same_at(&rt, text, &code.text().as_slice(), &text.as_bytes());
        same_at(&rt, text, &Code::new(text.as_bytes()), &Some(code));
    }
    for &text in NO_CODES {
        same_at(&rt, text, &Code::new(text.as_bytes()), &None);
    }
}
