ghost use Rattle.std.specs.Prelude.{◌≡◌, IfErr, IfOk, IsTrue};
ghost use Rattle.std.specs.Option.{option_copied};
ghost use Rattle.rx_sorted.specs.Ascending.{IsAscending, IsAt, IsGap, item_at};
ghost use Rattle.rx_sorted.specs.Near.{AreBefore, AreBehind};

use crate::slices::{Keyed, place_of};

/// Where the item with the key is, or where it would go. Before the list is searched, it is looked for at the place
/// `near`.
pub fn place_near<T: Keyed>(items: &[T], near: usize, key: &T::Key) -> Result<usize, usize>
    requires { IsAscending T.Key.cmp T.key_of items.now }
    ensures found { IfOk result (IsAt T.Key.cmp T.key_of items.now key.now) }
    ensures absent { IfErr result (IsGap T.Key.cmp T.key_of items.now key.now) }
{
    if is_at(items, near, key) {
        return Ok(near);
    }
    if are_before(items, near, key) && are_behind(items, near, key) {
        return Err(near);
    }
    place_of(items, key)
}

/// The item that has the key.
pub fn item_of<'a, T: Keyed>(items: &'a [T], key: &T::Key) -> Option<&'a T>
    requires { IsAscending T.Key.cmp T.key_of items.now }
    ensures { option_copied result ≡ item_at T.Key.cmp T.key_of items.now key.now }
{
    match place_of(items, key) {
        Ok(at) => Some(&items[at]),
        Err(_) => None,
    }
}

// Whether the item at the place has the key.
pub(crate) fn is_at<T: Keyed>(items: &[T], place: usize, key: &T::Key) -> bool
    ensures { IsTrue result → IsAt T.Key.cmp T.key_of items.now key.now place }
{
    match items.get(place) {
        Some(item) => item.key().cmp(key).is_eq(),
        None => false,
    }
}

// Whether the items up to the place have lesser keys. It looks at the last of them only.
fn are_before<T: Keyed>(items: &[T], place: usize, key: &T::Key) -> bool
    requires { IsAscending T.Key.cmp T.key_of items.now }
    ensures { IsTrue result → AreBefore T.Key.cmp T.key_of items.now key.now place }
{
    if place == 0 {
        return true;
    }
    match items.get(place - 1) {
        Some(item) => item.key().cmp(key).is_lt(),
        None => false,
    }
}

// Whether the items from the place on have greater keys. It looks at the first of them only.
fn are_behind<T: Keyed>(items: &[T], place: usize, key: &T::Key) -> bool
    requires { IsAscending T.Key.cmp T.key_of items.now }
    ensures { IsTrue result → AreBehind T.Key.cmp T.key_of items.now key.now place }
{
    match items.get(place) {
        Some(item) => item.key().cmp(key).is_gt(),
        None => true,
    }
}
