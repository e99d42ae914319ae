ghost use Rattle.std.specs.Prelude.{◌≡◌, ◌<◌, IfOk, length, slice_index_or};
ghost use Rattle.std.specs.Borrow.{sem};
ghost use Rattle.std.specs.Mem.{FitsInMemory};
ghost use Rattle.rx_sorted.specs.Few.{items_of};
ghost use Rattle.rx_sorted.specs.FewLends.{lends_item};

use std::alloc::{AllocError, Global};

/// A list of mostly one item, which then stands in place and takes no memory of its own.
#[derive(Drop)]
pub enum Few<T> {
    /// A single item.
    One(T),
    /// As many items as the list has.
    Many(Vec<T>),
}

impl<T> Few<T> {
    /// The items.
    pub fn as_slice(&self) -> &[T]
        requires { FitsInMemory T.row }
        ensures { result.now ≡ items_of self.now }
    {
        match self {
            Few::One(item) => std::slice::from_ref(item),
            Few::Many(items) => items.as_slice(),
        }
    }

    /// The list of these items, which can be copied: a single one stands in place. It takes no memory.
    pub fn of(items: Vec<T>) -> Few<T>
    where
        T: Copy,
        ensures { items_of result ≡ items.items }
    {
        match items.as_slice() {
            [item] => Few::One(*item),
            _ => Few::Many(items),
        }
    }

    /// The item at a place, for writing.
    pub fn at_mut(&mut self, place: usize) -> &mut T
        requires { place < length (items_of self.old) }
        ensures* writes_back { sem 𝓛 (lends_item T.row self.entry place result) }
        ensures value { result.now ≡ slice_index_or (items_of self.old) place result.now }
    {
        match self {
            Few::One(item) => item,
            Few::Many(items) => &mut items[place],
        }
    }

    /// An equal list, of items that can be copied.
    #[inline(always)]
    pub fn to_copy(&self, alloc: Global) -> Result<Few<T>, AllocError>
    where
        T: Copy,
        ensures { IfOk result (λ copy. items_of copy ≡ items_of self.now) }
    {
        match self {
            Few::One(item) => Ok(Few::One(*item)),
            Few::Many(items) => Ok(Few::Many(Vec::from_slice(alloc, items)?)),
        }
    }
}
