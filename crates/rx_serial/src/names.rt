ghost use Rattle.std.specs.Prelude.{◌≡◌, ◌++◌, ◌↔◌, IfOk, OnOk, map};
ghost use Rattle.std.specs.List.{Contains, flat_map};
ghost use Rattle.rx_fields.specs.Order.{key_cmp};
ghost use Rattle.rx_fields.specs.declared.key.Key.{Key};
ghost use Rattle.rx_sorted.specs.Ascending.{IsAscending};
ghost use Rattle.rx_serial.specs.Named.{keys_named, keys_of, named_key};

use rx_d0_values::{Body, Heard, Transaction, Transmission};
use rx_fields::{Key, Memory};
use std::alloc::Global;

/// A fill key that some records name, and which of their transactions does, counted over all of them. By their ranks most
/// keys are in order.
#[derive(Clone, Copy)]
pub(crate) struct Named {
    pub(crate) rank: u128,
    pub(crate) key: Key,
    pub(crate) transaction: usize,
}

/// The fill keys that some records name: as their transactions do, and each once, in order.
#[derive(Drop)]
pub(crate) struct Names {
    pub(crate) named: Vec<Named>,
    pub(crate) keys: Vec<Key>,
}

/// The fill keys that some records name.
pub(crate) fn names_of(alloc: Global, records: &[&Transmission]) -> Result<Names, Memory>
    ensures rise { IfOk result (λ names. IsAscending key_cmp (λ key. key) names.keys.items) }
    ensures keys { IfOk result (λ names. (key : Key)
        → Contains names.keys.items key ↔ Contains (keys_named (map (λ t. t.now) records.now)) key) }
{
    let mut named = keys_named(alloc, records)?;
    let keys = unique_keys(alloc, &mut named)?;
    Ok(Names { named, keys })
}

// The fill keys that some records name, in the order in which they do.
fn keys_named(alloc: Global, records: &[&Transmission]) -> Result<Vec<Named>, Memory>
    ensures { IfOk result (λ named. map named_key named.items ≡ keys_named (map (λ t. t.now) records.now)) }
{
    let mut named = Vec::with_capacity(alloc, records.len())?;
    let mut before = 0;
    for transmission in records {
        if let Body::Heard(heard) = &transmission.body {
            before = put_keys(&mut named, heard, before)?;
        }
    }
    Ok(named)
}

// Puts the fill keys of a record after the others. This many transactions come before its own, and the result is how
// many there are with those.
fn put_keys(named: &mut Vec<Named>, heard: &Heard, before: usize) -> Result<usize, Memory>
    ensures { OnOk result (map named_key named.new.items
        ≡ map named_key named.old.items ++ flat_map (keys_of heard.now) heard.now.list) }
{
    let list = heard.list.as_slice();
    let mut at = before;
    for transaction in list {
        put_key(named, heard, transaction, at)?;
        at = at.saturating_add(1);
    }
    Ok(at)
}

// Puts the fill key of a transaction after the others.
fn put_key(
    named: &mut Vec<Named>,
    heard: &Heard,
    transaction: &Transaction,
    at: usize,
) -> Result<(), Memory>
    ensures { OnOk result (map named_key named.new.items
        ≡ map named_key named.old.items ++ keys_of heard.now transaction.now) }
{
    let reference = match transaction {
        Transaction::Bill(bill) => bill.parts().reference,
        Transaction::Reverse(reversal) => reversal.reference,
        Transaction::Faulty(_) => return Ok(()),
    };
    let key = heard.key(reference);
    named.push(Named {
        rank: rank_of(&key),
        key,
        transaction: at,
    })?;
    Ok(())
}

// A number by which most keys are in order: 88 bits for the first eleven bytes of the pharmacy's id, and 40 for the
// reference number. Nothing is promised of it: keys in another order are sorted again.
fn rank_of(key: &Key) -> u128 {
    let mut first = [0u8; 16];
    for (to, byte) in first.iter_mut().zip(key.provider.bytes()) {
        *to = *byte;
    }
    ((u128::from_be_bytes(first) >> 40) << 40) | u128::from(key.reference.get())
}

// The fill keys in order, each once. From then on most of those that are named are in this order too.
fn unique_keys(alloc: Global, named: &mut Vec<Named>) -> Result<Vec<Key>, Memory>
    ensures rise { IfOk result (λ unique. IsAscending key_cmp (λ key. key) unique.items) }
    ensures keys { IfOk result (λ unique. (key : Key)
        → Contains unique.items key ↔ Contains (map named_key named.old.items) key) }
{
    named.sort_unstable_by_key(|name| name.rank);
    let mut keys = only_keys(alloc, named)?;
    // Mostly they are in order by now, and the sort sees that in one pass.
    keys.sort()?;
    keys.dedup();
    Ok(keys)
}

// The keys that are named.
fn only_keys(alloc: Global, named: &[Named]) -> Result<Vec<Key>, Memory>
    ensures { IfOk result (λ keys. keys.items ≡ map named_key named.now) }
{
    let mut keys = Vec::with_capacity(alloc, named.len())?;
    for name in named {
        keys.push(name.key)?;
    }
    Ok(keys)
}

/// Where the fill key of each of this many transactions probably is among the keys. Both lists are mostly in one order.
/// It promises nothing: the key that is found there is compared.
pub(crate) fn slots_of(
    alloc: Global,
    named: &[Named],
    keys: &[Key],
    transactions: usize,
) -> Result<Vec<usize>, Memory> {
    let mut slots = vec![in alloc; 0usize; transactions]?;
    let mut at = 0usize;
    for name in named {
        if keys.get(at) != Some(&name.key) {
            at = at.saturating_add(1);
        }
        if let Some(slot) = slots.get_mut(name.transaction) {
            *slot = at;
        }
    }
    Ok(slots)
}
