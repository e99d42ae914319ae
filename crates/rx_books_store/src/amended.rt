ghost use Rattle.std.specs.Prelude.{◌≡◌};
ghost use Rattle.rx_ledger.specs.Ledger.{IsLedger};
ghost use Rattle.rx_books_family.specs.Books.{Book, book};
ghost use Rattle.rx_books_family.specs.Amended.{IsAmended};
ghost use Rattle.rx_books_family.specs.Shelves.{value_of};
ghost use Rattle.rx_books_store.specs.WholeBooks.{amended_books, beside};

use crate::books::{Books, Form};
use crate::open_books::OpenBooks;
use crate::whole::Whole;
use rx_books_family::{FamilyPlace, KeyPlace};
use rx_sorted::Hinted;
use std::marker::Model;

/// Books with places that stand instead of what the opened ones hold: what a shelf leaves where a family's book was given
/// with other members than the opening's. No run makes such books, so what may take memory makes plain ones of them.
pub(crate) struct AmendedBooks {
    books: OpenBooks,
    keys: Hinted<KeyPlace>,
    families: Hinted<FamilyPlace>,
}

// Written out, so that freeing one is one call wherever a function ends early, not one for each of its fields.
impl Drop for AmendedBooks {
    fn drop(self) {
        let AmendedBooks {
            books: _,
            keys: _,
            families: _,
        } = self;
    }
}

impl Model for AmendedBooks {
    ghost use Rattle.rx_books_store.specs.LedgerBooks.{LedgerBooks};

    ghost Value = { LedgerBooks };

    ghost use Rattle.rx_books_family.specs.Amended.{IsAmended};
    ghost use Rattle.rx_books_store.specs.WholeBooks.{amended_books, beside};

    ghost view = { λ b. amended_books b.books.books b.keys b.families };

    ghost invariant = { λ b. IsAmended (beside b.books.books b.keys b.families) };
}

impl AmendedBooks {
    /// All of them.
    pub(crate) fn whole(&self) -> Whole<'_>
        ensures { result ≡ self.now }
    {
        Whole::of(&self.books, self.keys.as_slice(), self.families.as_slice())
    }
}

impl OpenBooks {
    /// The books, closed, with what these places hold instead of what stood under their fill keys and in the books of
    /// their families; all values agree (docs/GUARANTEES.md, "Book values"). It takes no memory.
    pub fn close_with(self, keys: Hinted<KeyPlace>, families: Hinted<FamilyPlace>) -> Books
        requires { IsAmended (beside self.books keys families) }
        ensures books { result ≡ amended_books self.books keys families }
        // Each book has the value that it has without the places.
        ensures values { (b : Book) → book b result.ledger ≡ value_of (beside self.books keys families) b }
        ensures within { IsLedger result.ledger }
    {
        let books = AmendedBooks {
            books: self,
            keys,
            families,
        };
        Books {
            form: Form::Amended(books),
        }
    }
}
