use crate::plan::{figures, product};
use crate::same::same;
use rx_ledger::{Drug, Listed, Share};
use rx_sheet::{one_reading, read_sheet};
use std::process::Abort;

// The plain sheet of docs/FORMATS.md, with a percentage and a name in a tier.
const PLAIN: &[u8] = b"bin = '900001'
pcn = 'RXDEMO'
period_first = '20260101'
period_last = '20261231'
member_deductible = 10000
family_maximum = 30000
refill_percent = 75
max_days = 90
fee = 175
[tiers]
1 = 1000
2 = 3000
4 = { percent = 20, name = 'brand' }
[drugs.00001000101]
tier = '1'
price = 2500
[drugs.00002000202]
tier = '2'
price = 100000
[drugs.00004000404]
tier = '4'
price = 100000
";

fn listed(rt: &impl Abort, digits: &[u8], share: Share, price: u64) -> Listed {
    Listed {
        product: product(rt, digits),
        drug: Drug { share, price },
    }
}

#[test]
fn the_plain_sheet(rt: HostRuntime) {
    one_reading();
    let sheet = read_sheet(rt.alloc(), PLAIN).expect(&rt, "a plan sheet");
    same(&rt, *sheet.figures(), figures(&rt));
    let drugs = [
        listed(&rt, b"00001000101", Share::Copay(1000), 2500),
        listed(&rt, b"00002000202", Share::Copay(3000), 100_000),
        listed(&rt, b"00004000404", Share::Percent(20), 100_000),
    ];
    same(&rt, sheet.drugs(), drugs.as_slice());
}
