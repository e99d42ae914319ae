use crate::same::same;
use crate::values::{claim, key, member};
use rx_d0_values::Amounts;
use rx_ledger::{AddError, Ledger, Member, Row};
use std::alloc::Global;
use std::process::Abort;

// The members of the opening books.
const MEMBERS: [(&[u8], &[u8]); 4] = [
    (b"C100", b"01"),
    (b"C100", b"02"),
    (b"C100", b"03"),
    (b"C200", b"01"),
];

fn covered(rt: &impl Abort, family: &[u8], code: &[u8]) -> Member {
    member(rt, family, code, b"20261231").expect(rt, "a coverage")
}

// The opening books, their members added from the last to the first.
fn opening(rt: &impl Abort, alloc: Global) -> Ledger {
    let mut ledger = Ledger::new(alloc);
    for (family, code) in MEMBERS.into_iter().rev() {
        let member = covered(rt, family, code);
        ledger.add_member(member).expect(rt, "a new member");
    }
    ledger
}

// A claim of last year, with this amount applied to the deductible.
fn billed(rt: &impl Abort, reference: u64, family: &[u8], deductible: u64) -> Option<Row> {
    let amounts = Amounts {
        ingredient_cost: 30_000,
        dispensing_fee: 175,
        deductible,
        copay: 3000,
        coinsurance: 0,
    };
    let key = key(rt, reference, b"20251230");
    claim(rt, key, family, amounts, 3_100_000_051)
}

fn standing(rt: &impl Abort, reference: u64, family: &[u8]) -> Row {
    billed(rt, reference, family, 10_000).expect(rt, "within the limits")
}

#[test]
fn a_coverage_has_an_end_at_or_after_its_beginning(rt: HostRuntime) {
    same(&rt, member(&rt, b"C100", b"01", b"20251231"), None);
    same(
        &rt,
        member(&rt, b"C100", b"01", b"20260101").is_some(),
        true,
    );
}

#[test]
fn the_shares_of_a_row_are_within_what_is_allowed(rt: HostRuntime) {
    same(&rt, billed(&rt, 90, b"C100", 40_000), None);
    same(&rt, billed(&rt, 90, b"C100", 27_175).is_some(), true);
    same(&rt, billed(&rt, 90, b"C100", 27_176), None);
    let row = standing(&rt, 90, b"C100");
    same(&rt, row.pricing.total_paid(), 17_175);
}

#[test]
fn a_member_is_added_once(rt: HostRuntime) {
    let mut ledger = opening(&rt, rt.alloc());
    let again = ledger.add_member(covered(&rt, b"C100", b"02"));
    same(&rt, again, Err(AddError::There));
    let members = MEMBERS.map(|(family, code)| covered(&rt, family, code));
    same(&rt, ledger.members(), members.as_slice());
}

#[test]
fn a_row_is_added_once_for_a_listed_member(rt: HostRuntime) {
    let mut ledger = opening(&rt, rt.alloc());
    let adds = [
        (91, b"C100", Ok(())),
        (90, b"C300", Err(AddError::Unknown)),
        (90, b"C200", Ok(())),
        (90, b"C100", Err(AddError::There)),
        (91, b"C300", Err(AddError::There)),
    ];
    for (reference, family, answer) in adds {
        let added = ledger.add_row(standing(&rt, reference, family));
        same(&rt, added, answer);
    }
    let rows = [standing(&rt, 90, b"C200"), standing(&rt, 91, b"C100")];
    same(&rt, ledger.rows(), rows.as_slice());
}
