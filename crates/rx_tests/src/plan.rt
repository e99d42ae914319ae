use crate::same::same;
use crate::values::this_year;
use rx_fields::{Door, Product};
use rx_ledger::{AddFault, Drug, Figures, Share, Sheet};
use std::alloc::Global;
use std::process::Abort;

// The drugs of the plain sheet: product, copay and price.
const DRUGS: [(&[u8], u64, u64); 3] = [
    (b"00001000101", 1000, 2500),
    (b"00002000202", 3000, 100_000),
    (b"00003000303", 1000, 5000),
];

// The figures of the plain sheet of docs/FORMATS.md.
pub(crate) fn figures(rt: &impl Abort) -> Figures {
    Figures {
        door: Door {
            bin: *b"900001",
            pcn: *b"RXDEMO    ",
        },
        period: this_year(rt),
        member_deductible: 10_000,
        family_maximum: 30_000,
        refill_percent: 75,
        max_days: 90,
        fee: 175,
        family_deductible: None,
    }
}

pub(crate) fn product(rt: &impl Abort, digits: &[u8]) -> Product {
    Product::new(digits).expect(rt, "a product")
}

// The plain sheet, its drugs added from the last to the first.
fn plain_sheet(rt: &impl Abort, alloc: Global) -> Sheet {
    let mut sheet = Sheet::new(alloc, figures(rt)).expect(rt, "figures within their ranges");
    for (digits, copay, price) in DRUGS.into_iter().rev() {
        let share = Share::Copay(copay);
        let added = sheet.add(product(rt, digits), Drug { share, price });
        added.expect(rt, "a new drug");
    }
    sheet
}

#[test]
fn a_refused_drug_leaves_the_sheet(rt: HostRuntime) {
    let mut sheet = plain_sheet(&rt, rt.alloc());
    let refused = [
        (b"00004000404", Share::Copay(1000), 1_000_000_001),
        (b"00004000404", Share::Percent(101), 100_000),
        (b"00004000404", Share::Copay(100_000_000), 100_000),
        (b"00001000101", Share::Percent(101), 2500),
    ];
    for (digits, share, price) in refused {
        let added = sheet.add(product(&rt, digits), Drug { share, price });
        same(&rt, added, Err(AddFault::Range));
    }
    let share = Share::Copay(1000);
    let again = sheet.add(product(&rt, b"00001000101"), Drug { share, price: 2500 });
    same(&rt, again, Err(AddFault::There));
    same(&rt, sheet.drugs().len(), 3);
}
