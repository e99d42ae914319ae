ghost use Rattle.std.specs.Prelude.{◌≡◌, ◌<◌, ◌^◌, ◌++◌, ◌∷◌, ◌==◌, [], IfErr, IfOk, IsTrue, OnErr, OnOk, Some};
ghost use Rattle.std.specs.Prelude.{is_ok, length};
ghost use Rattle.std.specs.Iterator.Adapters.{IterYieldsInOrder};
ghost use Rattle.std.specs.Option.{ok_or, option_copied};
ghost use Rattle.std.specs.Slice.Iter.{iter_rest};
ghost use Rattle.rx_sorted.specs.Ascending.{IsAscending, IsAt, IsGap, contains_key, is_ascending, is_past};
ghost use Rattle.rx_sorted.specs.Ascending.{item_at, put, without};
ghost use Rattle.rx_sorted.specs.InsertError.{is_there, refused_item};

use crate::slices::{Keyed, is_ascending, is_past, place_of};
use std::alloc::{AllocError, AllocFailed, Global};
use std::marker::Model;
use std::slice::Iter;

/// Why an item was not inserted. It comes back.
#[derive(Debug, Drop)]
pub enum InsertError<T> {
    /// An item with its key is there.
    There(T),
    /// There is no memory for one more.
    Memory(T),
}

impl<T> From<AllocFailed<T>> for InsertError<T> {
    ghost use Rattle.std.specs.Prelude.{◌≡◌};
    ghost use Rattle.rx_sorted.specs.declared.list.InsertError.{InsertError};

    ghost from_gives = { λ refused error. error ≡ InsertError.Memory refused.value };

    fn from(refused: AllocFailed<T>) -> InsertError<T> {
        InsertError::Memory(refused.value)
    }
}

/// A list of items in the ascending order of their keys, at most one item of a key.
#[derive(Drop)]
pub struct Ascending<T: Keyed> {
    items: Vec<T>,
}

impl<T: Keyed> Model for Ascending<T> {
    ghost use Rattle.std.specs.Prelude.{List};
    ghost use Rattle.rx_sorted.specs.Ascending.{IsAscending};

    ghost Value = { List T };

    ghost view = { λ a. a.items.items };

    ghost invariant = { λ a. IsAscending T.Key.cmp T.key_of a.items.items };
}

impl<T: Keyed> Ascending<T> {
    /// The list without items. It takes no memory.
    pub fn new(alloc: Global) -> Self
        ensures { result ≡ [] }
    {
        Ascending {
            items: Vec::new(alloc),
        }
    }

    /// The list of these items. Where they are not in order, or two have one key, they come back. It takes no memory.
    pub fn from_vec(items: Vec<T>) -> Result<Self, Vec<T>>
        ensures ok { is_ok result ≡ is_ascending T.Key.cmp T.key_of items.items }
        ensures value { IfOk result (λ list. list ≡ items.items) }
        ensures err { IfErr result (λ back. back.items ≡ items.items) }
    {
        if is_ascending(&items) {
            Ok(Ascending { items })
        } else {
            Err(items)
        }
    }

    /// An equal list, of items that can be copied.
    pub fn to_copy(&self, alloc: Global) -> Result<Self, AllocError>
    where
        T: Copy,
        ensures { IfOk result (λ copy. copy ≡ self.now) }
    {
        let items = Vec::from_slice(alloc, &self.items)?;
        Ok(Ascending { items })
    }

    /// The items, in order.
    pub fn into_vec(self) -> Vec<T>
        ensures { result.items ≡ self }
    {
        let Ascending { items } = self;
        items
    }

    /// All items, in order.
    pub fn as_slice(&self) -> &[T]
        ensures value { result.now ≡ self.now }
        ensures ascending { IsAscending T.Key.cmp T.key_of self.now }
        ensures small { length self.now < 2 ^ 63 }
    {
        self.items.as_slice()
    }

    /// Goes over the items, in order.
    pub fn iter(&self) -> Iter<'_, T>
        ensures rest { iter_rest result ≡ self.now }
        ensures runs { IterYieldsInOrder T }
    {
        self.items.iter()
    }

    /// How many items there are.
    pub fn len(&self) -> usize
        ensures value { result ≡ length self.now }
        ensures small { result < 2 ^ 63 }
    {
        self.items.len()
    }

    /// Whether there are no items.
    pub fn is_empty(&self) -> bool
        ensures { result ≡ (length self.now == 0) }
    {
        self.items.is_empty()
    }

    /// Where the item with the key is, or where it would go.
    pub fn place(&self, key: &T::Key) -> Result<usize, usize>
        ensures found { IfOk result (IsAt T.Key.cmp T.key_of self.now key.now) }
        ensures absent { IfErr result (IsGap T.Key.cmp T.key_of self.now key.now) }
    {
        place_of(&self.items, key)
    }

    /// The item that has the key.
    pub fn get(&self, key: &T::Key) -> Option<&T>
        ensures { option_copied result ≡ item_at T.Key.cmp T.key_of self.now key.now }
    {
        match self.place(key) {
            Ok(at) => Some(&self.items[at]),
            Err(_) => None,
        }
    }

    /// Whether an item has the key.
    pub fn contains_key(&self, key: &T::Key) -> bool
        ensures { result ≡ contains_key T.Key.cmp T.key_of self.now key.now }
    {
        self.place(key).is_ok()
    }

    /// Whether each item's key is less than this one. It looks at the last item only.
    pub fn is_past(&self, key: &T::Key) -> bool
        ensures { result ≡ is_past T.Key.cmp T.key_of self.now key.now }
    {
        is_past(&self.items, key)
    }

    /// Puts an item with a new key in its place. One whose key is there is refused before memory is asked for.
    pub fn insert(&mut self, item: T) -> Result<(), InsertError<T>>
        ensures ok { OnOk result (self.new ≡ put T.Key.cmp T.key_of self.old item) }
        ensures there { is_there result ≡ contains_key T.Key.cmp T.key_of self.old (T.key_of item) }
        ensures err { OnErr result (self.new ≡ self.old) }
        ensures back { IfErr result (λ refused. refused_item refused ≡ item) }

        // For a caller that keeps totals over the items: how they stood, and that there are few.
        ensures ascending { IsAscending T.Key.cmp T.key_of self.old }
        ensures small { length self.new < 2 ^ 63 }
    {
        match self.place(&item.key()) {
            Ok(_) => Err(InsertError::There(item)),
            Err(at) => Ok(self.items.insert(at, item)?),
        }
    }

    /// Puts an item whose key is past the others' at the end. `is_past` says whether it is.
    pub fn push(&mut self, item: T) -> Result<(), AllocFailed<T>>
        requires { IsTrue (is_past T.Key.cmp T.key_of self.old (T.key_of item)) }
        ensures ok { OnOk result (self.new ≡ self.old ++ item ∷ []) }
        ensures err { OnErr result (self.new ≡ self.old) }
        ensures back { IfErr result (λ refused. refused.value ≡ item) }

        ensures small { length self.new < 2 ^ 63 }
    {
        self.items.push(item)
    }

    /// Writes the item over the one that has its key, which comes back. An item with a new key comes back itself, as
    /// an `Err`. It takes no memory.
    pub fn replace(&mut self, item: T) -> Result<T, T>
        ensures value { result ≡ ok_or (item_at T.Key.cmp T.key_of self.old (T.key_of item)) item }
        ensures ok { OnOk result (self.new ≡ put T.Key.cmp T.key_of self.old item) }
        ensures err { OnErr result (self.new ≡ self.old) }

        ensures ascending { IsAscending T.Key.cmp T.key_of self.old }
    {
        match self.place(&item.key()) {
            Ok(at) => Ok(std::mem::replace(&mut self.items[at], item)),
            Err(_) => Err(item),
        }
    }

    /// Writes the item at the place of its key, which was looked up before. The item that was there comes back. It takes
    /// no memory.
    pub fn replace_at(&mut self, place: usize, item: T) -> T
        requires { IsAt T.Key.cmp T.key_of self.old (T.key_of item) place }
        ensures value { item_at T.Key.cmp T.key_of self.old (T.key_of item) ≡ Some result }
        ensures items { self.new ≡ put T.Key.cmp T.key_of self.old item }

        ensures ascending { IsAscending T.Key.cmp T.key_of self.old }
    {
        std::mem::replace(&mut self.items[place], item)
    }

    /// Takes the item that has the key out of the list. It takes no memory.
    pub fn remove(&mut self, key: &T::Key) -> Option<T>
        ensures value { result ≡ item_at T.Key.cmp T.key_of self.old key.now }
        ensures items { self.new ≡ without T.Key.cmp T.key_of self.old key.now }

        ensures ascending { IsAscending T.Key.cmp T.key_of self.old }
    {
        match self.place(key) {
            Ok(at) => Some(self.items.remove(at)),
            Err(_) => None,
        }
    }
}

impl<T: Keyed + PartialEq> PartialEq for Ascending<T> {
    ghost use Rattle.std.specs.Cmp.Lexicographic.{lists_per, pointwise};

    ghost eq = { λ a b. pointwise T.eq a b };

    ghost laws = { lists_per T.laws };

    fn eq(&self, other: &Ascending<T>) -> bool {
        self.as_slice() == other.as_slice()
    }
}

impl<T: Keyed + Eq> Eq for Ascending<T> {
    ghost use Rattle.std.specs.Cmp.Lexicographic.{lists_equiv};

    ghost laws = { lists_equiv T.Eq.laws };
}
