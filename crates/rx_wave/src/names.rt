ghost use Rattle.std.specs.Prelude.{◌≡◌, ◌++◌, IfOk, OnOk};
ghost use Rattle.std.specs.List.{Contains, flat_map};
ghost use Rattle.rx_fields.specs.Order.{key_cmp};
ghost use Rattle.rx_fields.specs.declared.key.Key.{Key as KeyValue};
ghost use Rattle.rx_sorted.specs.Ascending.{IsAscending};
ghost use Rattle.rx_serial.specs.Named.{keys_named, keys_of};

use rx_d0_values::{Body, Heard, Transaction, Transmission};
use rx_fields::{Key, Memory};
use std::alloc::Global;

/// The fill keys that the records of a batch name, in order, each once.
pub(crate) fn named_keys(alloc: Global, transmissions: &[Transmission]) -> Result<Vec<Key>, Memory>
    ensures rise { IfOk result (λ keys. IsAscending key_cmp (λ key. key) keys.items) }
    ensures keeps { IfOk result (λ keys. (key : KeyValue) → Contains (keys_named transmissions.now) key → Contains keys.items key) }
{
    let mut keys = all_keys(alloc, transmissions)?;
    keys.sort_by_cached_key(|key| rank_of(key))?;
    // Mostly they are in order by now, and the sort sees that in one pass.
    keys.sort()?;
    keys.dedup();
    Ok(keys)
}

// By it most keys are in order: the first eleven bytes of the pharmacy's id, and the reference number. Nothing rests on it.
fn rank_of(key: &Key) -> u128 {
    let mut rank = 0;
    for byte in key.provider.bytes().iter().take(11) {
        rank = (rank << 8) | u128::from(*byte);
    }
    (rank << 40) | u128::from(key.reference.get())
}

// The same in file order, as often as they are named.
fn all_keys(alloc: Global, transmissions: &[Transmission]) -> Result<Vec<Key>, Memory>
    ensures { IfOk result (λ keys. keys.items ≡ keys_named transmissions.now) }
{
    let mut keys = Vec::with_capacity(alloc, transmissions.len())?;
    for transmission in transmissions {
        if let Body::Heard(heard) = &transmission.body {
            put_keys(&mut keys, heard)?;
        }
    }
    Ok(keys)
}

// Puts the fill keys of a record after the others.
fn put_keys(keys: &mut Vec<Key>, heard: &Heard) -> Result<(), Memory>
    ensures { OnOk result (keys.new.items ≡ keys.old.items ++ flat_map (keys_of heard.now) heard.now.list) }
{
    let list = heard.list.as_slice();
    for transaction in list {
        put_key(keys, heard, transaction)?;
    }
    Ok(())
}

// Puts the fill key of a transaction after the others, where it names one.
fn put_key(keys: &mut Vec<Key>, heard: &Heard, transaction: &Transaction) -> Result<(), Memory>
    ensures { OnOk result (keys.new.items ≡ keys.old.items ++ keys_of heard.now transaction.now) }
{
    let reference = match transaction {
        Transaction::Bill(bill) => bill.parts().reference,
        Transaction::Reverse(reversal) => reversal.reference,
        Transaction::Faulty(_) => return Ok(()),
    };
    keys.push(heard.key(reference))?;
    Ok(())
}
