ghost use Rattle.std.specs.Prelude.{◌≡◌, ◌≢◌, ◌≤◌, Option, is_some, length, map, vec_capacity};
ghost use Rattle.std.specs.List.{flat_map, list_all};
ghost use Rattle.std.specs.Option.{option_and_then};
ghost use Rattle.std.specs.declared.cmp.Ordering.TheVariants.{Equal};
ghost use Rattle.rx_sorted.specs.Ascending.{IsAscending, item_at, itself};
ghost use Rattle.rx_sorted.specs.Few.{items_of};
ghost use Rattle.rx_sorted.specs.Slots.{content_at, emptied_of, filled_of, is_in, is_out, over};

use crate::few::Few;
use crate::hinted::{Hashed, Hinted};
use crate::slices::Keyed;

/// An item that holds something of its own key, or nothing.
pub trait Slot: Hashed {
    /// What it holds.
    type Content: Keyed<Key = Self::Key> + Drop;

    ghost held: { Self → Option Self.Content };

    ghost emptied: { Self → Self };

    ghost filled: { Self.Content → Self → Self };

    /// Whether it holds something.
    fn is_held(&self) -> bool
        ensures { result ≡ is_some (held self.now) };

    /// Takes out what it holds, if it does.
    fn take(&mut self) -> Option<Self::Content>
        ensures content { result ≡ held self.old }
        ensures slot { self.new ≡ emptied self.old };

    /// Puts something in.
    fn put(&mut self, content: Self::Content)
        ensures { self.new ≡ filled content self.old };

    ghost emptied_keeps: { (slot : Self) → Self.key_of (emptied slot) ≡ Self.key_of slot };

    ghost filled_keeps: { (content : Self.Content) (slot : Self) → Self.key_of (filled content slot) ≡ Self.key_of slot };

    ghost emptied_again: { (slot : Self) → emptied (emptied slot) ≡ emptied slot };

    ghost filled_again: { (b c : Self.Content) (slot : Self) → filled b (filled c slot) ≡ filled b slot };
}

impl<T: Slot> Hinted<T> {
    /// Whether the slot of each of these keys is there, and is filled: then where to look for the first of them.
    pub fn all_in(&self, keys: &[T::Key]) -> Option<usize>
        ensures { is_some result ≡ list_all (λ k. is_in T.held (item_at T.Key.cmp T.key_of self.now k)) keys.now }
    {
        match keys {
            [key] => self.place_in(key),
            keys if self.are_in(keys) => Some(0),
            _ => None,
        }
    }

    /// Whether the slot of each of these keys is there, and is empty: then where to look for the first of them.
    pub fn all_out(&self, contents: &[T::Content]) -> Option<usize>
        ensures { is_some result ≡ list_all (λ b. is_out T.held (item_at T.Key.cmp T.key_of self.now (T.Content.key_of b))) contents.now }
    {
        match contents {
            [content] => self.place_out(&content.key()),
            contents if self.are_out(contents) => Some(0),
            _ => None,
        }
    }

    /// Takes what the slots of these keys hold. The first is looked for at `near`. There is room for all in the list, unless
    /// it is a single one, which needs none.
    #[inline(always)]
    pub fn take_all(
        &mut self,
        near: usize,
        keys: &[T::Key],
        room: Vec<T::Content>,
    ) -> Few<T::Content>
        requires exact { (a b : T.Key) → T.Key.cmp a b ≡ Equal → a ≡ b }
        requires rise { IsAscending T.Key.cmp itself keys.now }
        requires none { length room.items ≡ 0 }
        requires room { length keys.now ≢ 1 → length keys.now ≤ vec_capacity room }
        ensures contents { items_of result ≡ flat_map (content_at T.Key.cmp T.key_of T.held self.old) keys.now }
        ensures slots { self.new ≡ map (emptied_of T.Key.cmp T.key_of T.emptied keys.now) self.old }
    {
        match keys {
            [key] => match self.take(near, key) {
                Some(content) => Few::One(content),
                None => Few::Many(room),
            },
            keys => Few::Many(self.take_each(keys, room)),
        }
    }

    /// Puts these into the slots of their keys. The first slot is looked for at `near`. It takes no memory.
    #[inline(always)]
    pub fn put_all(&mut self, near: usize, contents: Few<T::Content>)
        ensures { self.new ≡ map (filled_of T.Key.cmp T.key_of T.Content.key_of T.filled (items_of contents)) self.old }
    {
        match contents {
            Few::One(content) => self.put(near, content),
            Few::Many(contents) => self.put_each(contents),
        }
    }

    // Whether the slot of each of these keys is there, and is filled.
    fn are_in(&self, keys: &[T::Key]) -> bool
        ensures { result ≡ list_all (λ k. is_in T.held (item_at T.Key.cmp T.key_of self.now k)) keys.now }
    {
        keys.iter().all(|key| self.is_in(key))
    }

    // Whether the slot of each of these keys is there, and is empty.
    fn are_out(&self, contents: &[T::Content]) -> bool
        ensures { result ≡ list_all (λ b. is_out T.held (item_at T.Key.cmp T.key_of self.now (T.Content.key_of b))) contents.now }
    {
        contents.iter().all(|content| self.is_out(&content.key()))
    }

    // Whether the key's slot is there, and is filled.
    fn is_in(&self, key: &T::Key) -> bool
        ensures { result ≡ is_in T.held (item_at T.Key.cmp T.key_of self.now key.now) }
    {
        self.place_in(key).is_some()
    }

    // Whether the key's slot is there, and is empty.
    fn is_out(&self, key: &T::Key) -> bool
        ensures { result ≡ is_out T.held (item_at T.Key.cmp T.key_of self.now key.now) }
    {
        self.place_out(key).is_some()
    }

    // Where the key's slot is, if it is there and filled.
    fn place_in(&self, key: &T::Key) -> Option<usize>
        ensures { is_some result ≡ is_in T.held (item_at T.Key.cmp T.key_of self.now key.now) }
    {
        match self.place(key) {
            Ok(at) => self.items[at].is_held().then_some(at),
            Err(_) => None,
        }
    }

    // Where the key's slot is, if it is there and empty.
    fn place_out(&self, key: &T::Key) -> Option<usize>
        ensures { is_some result ≡ is_out T.held (item_at T.Key.cmp T.key_of self.now key.now) }
    {
        match self.place(key) {
            Ok(at) => (!self.items[at].is_held()).then_some(at),
            Err(_) => None,
        }
    }

    // Takes what the slots of these keys hold. There is room for all in the list, which comes back with them.
    fn take_each(&mut self, keys: &[T::Key], room: Vec<T::Content>) -> Vec<T::Content>
        requires exact { (a b : T.Key) → T.Key.cmp a b ≡ Equal → a ≡ b }
        requires rise { IsAscending T.Key.cmp itself keys.now }
        requires none { length room.items ≡ 0 }
        requires room { length keys.now ≤ vec_capacity room }
        ensures contents { result.items ≡ flat_map (content_at T.Key.cmp T.key_of T.held self.old) keys.now }
        ensures slots { self.new ≡ map (emptied_of T.Key.cmp T.key_of T.emptied keys.now) self.old }
    {
        let mut contents = room;
        for key in keys {
            if let Some(content) = self.take(0, key) {
                contents.push_reserved(content);
            }
        }
        contents
    }

    // Puts these into the slots of their keys, from the last on.
    fn put_each(&mut self, contents: Vec<T::Content>)
        ensures { self.new ≡ map (filled_of T.Key.cmp T.key_of T.Content.key_of T.filled contents.items) self.old }
    {
        let mut contents = contents;
        'contents: while let Some(content) = contents.pop() {
            self.put(0, content);
        }
    }

    // Takes what the slot of a key holds, if it is there. It is looked for at `near` first.
    #[inline(always)]
    fn take(&mut self, near: usize, key: &T::Key) -> Option<T::Content>
        ensures content { result ≡ option_and_then T.held (item_at T.Key.cmp T.key_of self.old key.now) }
        ensures slots { self.new ≡ over T.Key.cmp T.key_of T.emptied key.now self.old }
    {
        match self.place_from(near, key) {
            Ok(at) => self.items[at].take(),
            Err(_) => None,
        }
    }

    // Puts this into the slot of its key, if there is one. The slot is looked for at `near` first.
    #[inline(always)]
    fn put(&mut self, near: usize, content: T::Content)
        ensures { self.new ≡ over T.Key.cmp T.key_of (T.filled content) (T.Content.key_of content) self.old }
    {
        match self.place_from(near, &content.key()) {
            Ok(at) => self.items[at].put(content),
            Err(_) => {}
        }
    }
}
