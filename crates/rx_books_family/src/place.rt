ghost use Rattle.std.specs.Prelude.{◌≡◌, None, Some, refl};
ghost use Rattle.std.specs.Option.{option_copied, option_map};
ghost use Rattle.rx_books_family.specs.Amended.{members_held};
ghost use Rattle.rx_books_family.specs.Shelves.{row_held};

use crate::family::Family;
use crate::key_book::KeyBook;
use rx_fields::{Id, Key};
use rx_ledger::{Member, Row};
use rx_sorted::{Hashed, Keyed, Slot, hash_of_text, mixed};

/// The place of a fill key's book: the row that stands under the key, or none; or nothing, where the book is out.
#[derive(Clone, Copy)]
pub struct KeyPlace {
    /// The fill key.
    pub key: Key,
    /// Its book, where it is in its place.
    pub held: Option<Option<Row>>,
}

impl KeyPlace {
    /// The row that stands under the key; None if there is none, or the book is out.
    pub fn row(&self) -> Option<&Row>
        ensures { option_copied result ≡ row_held self.now }
    {
        match &self.held {
            Some(row) => row.as_ref(),
            None => None,
        }
    }
}

impl Keyed for KeyPlace {
    type Key = Key;

    ghost key_of = { λ place. place.key };

    fn key(&self) -> Key {
        self.key
    }
}

impl Hashed for KeyPlace {
    fn hash_of(key: &Key) -> u64 {
        let hash = mixed(hash_of_text(key.provider.bytes()), key.reference.get());
        let day = u64::from(key.date.day());
        mixed(
            hash,
            day.wrapping_mul(16)
                .wrapping_add(u64::from(key.date.month())),
        )
    }
}

impl Slot for KeyPlace {
    type Content = KeyBook;

    ghost held = { λ place. option_map (λ row. record { key = place.key; row = row }) place.held };

    ghost emptied = { λ place. record place { held = None } };

    ghost filled = { λ book place. record place { held = Some book.row } };

    ghost emptied_keeps = { λ place. refl };

    ghost filled_keeps = { λ book place. refl };

    ghost emptied_again = { λ place. refl };

    ghost filled_again = { λ b c place. refl };

    fn is_held(&self) -> bool {
        self.held.is_some()
    }

    #[inline(always)]
    fn take(&mut self) -> Option<KeyBook> {
        let row = self.held.take()?;
        Some(KeyBook { key: self.key, row })
    }

    #[inline(always)]
    fn put(&mut self, book: KeyBook) {
        self.held = Some(book.row);
    }
}

/// The place of a family's book: the book, or nothing, where it is out.
#[derive(Drop)]
pub struct FamilyPlace {
    /// The family.
    pub family: Id,
    /// Its book, where it is in its place.
    pub held: Option<Family>,
}

impl FamilyPlace {
    /// The members in the family's book; none where it is out.
    pub fn members(&self) -> &[Member]
        ensures { result.now ≡ members_held self.now }
    {
        match &self.held {
            Some(book) => book.members(),
            None => &[],
        }
    }
}

impl Keyed for FamilyPlace {
    type Key = Id;

    ghost key_of = { λ place. place.family };

    fn key(&self) -> Id {
        self.family
    }
}

impl Hashed for FamilyPlace {
    fn hash_of(family: &Id) -> u64 {
        hash_of_text(family.bytes())
    }
}

impl Slot for FamilyPlace {
    type Content = Family;

    ghost held = { λ place. place.held };

    ghost emptied = { λ place. record place { held = None } };

    ghost filled = { λ book place. record place { held = Some book } };

    ghost emptied_keeps = { λ place. refl };

    ghost filled_keeps = { λ book place. refl };

    ghost emptied_again = { λ place. refl };

    ghost filled_again = { λ b c place. refl };

    fn is_held(&self) -> bool {
        self.held.is_some()
    }

    #[inline(always)]
    fn take(&mut self) -> Option<Family> {
        self.held.take()
    }

    #[inline(always)]
    fn put(&mut self, book: Family) {
        self.held = Some(book);
    }
}
