ghost use Rattle.std.specs.Prelude.{◌≡◌, ◌&&◌, ◌<◌, ◌≤◌, ◌^◌, if◌then◌else◌, is_none, is_some, IfSome, None, Some};
ghost use Rattle.rx_d0_request.specs.Slots.{text_of};
ghost use Rattle.rx_d0_request.specs.Values.{provider_in, date_in, is_text, id_in, person_in, number_in, positive_in};
ghost use Rattle.rx_d0_request.specs.Values.{product_in, amount_in, is_no_amount, is_plain, is_sole};

use rx_fields::{
    Cents, Day, Days, Id, Person, Product, Provider, Quantity, Reference, date_read, number_read,
    signed_read,
};

/// The id of a pharmacy.
pub(crate) fn provider(bytes: &[u8]) -> Option<Provider>
    ensures { result ≡ provider_in bytes.now }
{
    Provider::new(bytes).ok()
}

/// The date of service.
pub(crate) fn date(bytes: &[u8]) -> Option<Day>
    ensures { result ≡ date_in bytes.now }
{
    date_read(bytes).ok()
}

/// Whether a field has this very text.
pub(crate) fn is_text(value: Option<&[u8]>, text: &[u8]) -> bool
    ensures { result ≡ is_text text.now (text_of value.entry) }
{
    match value {
        Some(value) => value == text,
        None => false,
    }
}

/// The cardholder id.
pub(crate) fn family(value: Option<&[u8]>) -> Option<Id>
    ensures { result ≡ id_in 20 (text_of value.entry) }
{
    Id::new(value?, 20).ok()
}

/// The person code; `01` if there is none.
pub(crate) fn person(value: Option<&[u8]>) -> Option<Person>
    ensures { result ≡ person_in (text_of value.entry) }
{
    match value {
        Some(value) => Person::new(value).ok(),
        None => Person::new(b"01").ok(),
    }
}

fn number(value: Option<&[u8]>, max: usize) -> Option<u64>
    requires { max ≤ 19 }
    ensures value { result ≡ number_in max (text_of value.entry) }
    ensures within { IfSome result (λ n. n < 10 ^ max) }
{
    number_read(value?, max).ok()
}

/// The prescription reference number.
pub(crate) fn reference(value: Option<&[u8]>) -> Option<Reference>
    ensures { result ≡ number_in 12 (text_of value.entry) }
{
    Reference::new(number(value, 12)?)
}

/// The product.
pub(crate) fn product(value: Option<&[u8]>) -> Option<Product>
    ensures { result ≡ product_in (text_of value.entry) }
{
    Product::new(value?)
}

/// The quantity dispensed.
pub(crate) fn quantity(value: Option<&[u8]>) -> Option<Quantity>
    ensures { result ≡ positive_in 10 (text_of value.entry) }
{
    Quantity::new(number(value, 10)?)
}

/// The days supply.
pub(crate) fn days(value: Option<&[u8]>) -> Option<Days>
    ensures { result ≡ positive_in 3 (text_of value.entry) }
{
    Days::new(number(value, 3)?)
}

/// An amount that isn't negative.
pub(crate) fn amount(value: Option<&[u8]>) -> Option<Cents>
    ensures { result ≡ amount_in (text_of value.entry) }
{
    let amount = signed_read(value?).ok()?;
    if amount < 0 {
        return None;
    }
    Cents::new(amount as u64)
}

/// An amount that isn't negative, where there is a field. None: the field is present and no such amount.
pub(crate) fn amount_if_any(value: Option<&[u8]>) -> Option<Option<Cents>>
    ensures { result
        ≡ (if is_no_amount (text_of value.entry) then None else Some (amount_in (text_of value.entry))) }
{
    match value {
        Some(_) => Some(Some(amount(value)?)),
        None => Some(None),
    }
}

/// Whether a compound code is absent, `0` or `1`.
pub(crate) fn is_plain(value: Option<&[u8]>) -> bool
    ensures { result ≡ is_plain (text_of value.entry) }
{
    value.is_none() || is_text(value, b"0") || is_text(value, b"1")
}

/// Whether an other coverage code is absent, or stands for 0 or 1.
pub(crate) fn is_sole(value: Option<&[u8]>) -> bool
    ensures { result ≡ is_sole (text_of value.entry) }
{
    match number(value, 2) {
        Some(code) => code <= 1,
        None => value.is_none(),
    }
}
