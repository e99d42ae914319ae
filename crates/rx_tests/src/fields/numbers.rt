use crate::table::{same, same_at};
use rx_fields::{Lot, Product, date_read};

#[test]
fn lots_have_seven_digits(rt: HostRuntime) {
    let created = date_read(b"20260301").expect(&rt, "a date");
    let lot = Lot::new(9_999_999, created).expect(&rt, "a lot");
    same!(rt; (lot.number(), lot.created()), (9_999_999, created));
    same!(rt; Lot::new(10_000_000, created), None);
}

const PRODUCTS_REFUSED: &[&str] = &["0000200020", "000020002020", "0000200020A", ""];

#[test]
fn products_have_eleven_digits(rt: HostRuntime) {
    let product = Product::new(b"00002000202").expect(&rt, "a product");
    same!(rt; product.number(), 2_000_202);
    same!(rt; product.digits(), *b"00002000202");
    for &text in PRODUCTS_REFUSED {
        same_at(&rt, text, &Product::new(text.as_bytes()), &None);
    }
}
