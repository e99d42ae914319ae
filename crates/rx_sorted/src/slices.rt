ghost use Rattle.std.specs.Prelude.{◌≡◌, IfErr, IfOk};
ghost use Rattle.rx_sorted.specs.Ascending.{IsAscending, IsAt, IsGap, is_ascending, is_past};

/// An item that has a key, as a row of a table.
pub trait Keyed {
    /// What items are ordered by: mostly a plain struct that derives its order, field by field.
    type Key: Ord + Copy + Drop;

    ghost key_of: { Self → Self.Key };

    /// The item's key.
    fn key(&self) -> Self::Key
        ensures { result ≡ key_of self.now };
}

/// Whether each item's key is less than the next item's.
pub fn is_ascending<T: Keyed>(items: &[T]) -> bool
    ensures { result ≡ is_ascending T.Key.cmp T.key_of items.now }
{
    items.is_sorted_by(|a, b| a.key().cmp(&b.key()).is_lt())
}

/// Where the item with the key is, or where it would go, by binary search.
pub fn place_of<T: Keyed>(items: &[T], key: &T::Key) -> Result<usize, usize>
    requires { IsAscending T.Key.cmp T.key_of items.now }
    ensures found { IfOk result (IsAt T.Key.cmp T.key_of items.now key.now) }
    ensures absent { IfErr result (IsGap T.Key.cmp T.key_of items.now key.now) }
{
    items.binary_search_by_key(key, |item| item.key())
}

// Whether each item's key is less than this one. It looks at the last item only.
pub(crate) fn is_past<T: Keyed>(items: &[T], key: &T::Key) -> bool
    requires { IsAscending T.Key.cmp T.key_of items.now }
    ensures { result ≡ is_past T.Key.cmp T.key_of items.now key.now }
{
    match items.last() {
        Some(last) => last.key().cmp(key).is_lt(),
        None => true,
    }
}
