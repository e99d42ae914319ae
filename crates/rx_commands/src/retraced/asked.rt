use rx_d0_values::{Body, Heard, Transmission};
use rx_explain::Query;
use rx_fields::{Authorization, Key, Lot, Memory, NUMBERS_OF_A_BATCH, Reference};
use std::alloc::Global;

/// The places of the records, ascending, of which a transaction is asked for, as far as the requests say: exactly those,
/// but where an authorization number is asked for. Then they are the records with the fill key of the transaction whose own
/// number it is; that a claim of the opening books has it too, only the replies say.
pub(crate) fn asked_in(
    alloc: Global,
    lot: Lot,
    query: &Query,
    transmissions: &[Transmission],
) -> Result<Vec<u64>, Memory> {
    let mut places = Vec::new(alloc);
    let key = numbered_key(lot, query, transmissions);
    for (before, transmission) in transmissions.iter().enumerate() {
        let place = before as u64 + 1;
        if is_asked(query, &key, place, transmission) {
            places.push(place)?;
        }
    }
    Ok(places)
}

fn is_asked(query: &Query, key: &Option<Key>, place: u64, transmission: &Transmission) -> bool {
    let Body::Heard(heard) = &transmission.body else {
        return false;
    };
    match query {
        Query::Place(one) => place == *one,
        Query::One(at) => place == at.place,
        Query::Number(_) => match key {
            Some(key) => names(heard, key.reference) && heard.key(key.reference) == *key,
            None => false,
        },
        Query::Reference(reference) => names(heard, *reference),
        Query::ReferenceAt(reference, provider) => {
            heard.provider == *provider && names(heard, *reference)
        }
    }
}

// The fill key of the transaction whose own authorization number is asked for.
fn numbered_key(lot: Lot, query: &Query, transmissions: &[Transmission]) -> Option<Key> {
    let Query::Number(number) = query else {
        return None;
    };
    let (place, nth) = place_in(lot, *number)?;
    let Body::Heard(heard) = &transmissions.get(place.checked_sub(1)?)?.body else {
        return None;
    };
    let transaction = heard.list.as_slice().get(nth.checked_sub(1)?)?;
    Some(heard.key(transaction.reference()?))
}

// Place and place in the record of an authorization number of the lot.
fn place_in(lot: Lot, number: Authorization) -> Option<(usize, usize)> {
    let number = number.get();
    if number / NUMBERS_OF_A_BATCH != u64::from(lot.number()) {
        return None;
    }
    let place = number % NUMBERS_OF_A_BATCH / 10;
    Some((place as usize, (number % 10) as usize))
}

// Whether a transaction of the record has this prescription reference number.
fn names(heard: &Heard, reference: Reference) -> bool {
    heard
        .list
        .as_slice()
        .iter()
        .any(|transaction| transaction.reference() == Some(reference))
}
