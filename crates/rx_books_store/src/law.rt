ghost use Rattle.std.specs.Prelude.{◌≡◌, ◌↔◌, ℕ, List, Ok, Err};
ghost use Rattle.rx_fields.specs.Numbered.{Span};
ghost use Rattle.rx_fields.specs.declared.key.Key.{Key};
ghost use Rattle.rx_ledger.specs.Ledger.{Ledger, row_under};
ghost use Rattle.rx_books_family.specs.Books.{IsInOrder};
ghost use Rattle.rx_books_text.specs.declared.fault.BooksFault.{BooksFault};
ghost use Rattle.rx_books_store.specs.BooksFile.{HasBooksFault, IsBooksText};
ghost use Rattle.rx_books_store.specs.Figures.{books_of};

/// What a books file is and what is read of it are one: a text is read as books exactly where it is the one text of their
/// ledger with its sums, and has a fault exactly where that is the first of its lines, or else of its figures. So no text
/// is that of two books, or of books and has a fault, and each text does one of the two (docs/FORMATS.md, "Books file").
pub fn one_reading()
    ensures reads { (text : List ℕ) → (period : Span) → (L : Ledger)
        → IsBooksText text period L ↔ (books_of text ≡ Ok (record { period = period; ledger = L })) }
    ensures refuses { (text : List ℕ) → (f : BooksFault) → HasBooksFault text f ↔ (books_of text ≡ Err f) }
{}

/// A ledger in order is determined by its members and by the row under each fill key: where two have the same, they are one.
pub fn told_by_rows()
    ensures { (L M : Ledger) → IsInOrder L → IsInOrder M → L.members ≡ M.members
        → ((key : Key) → row_under L key ≡ row_under M key) → L ≡ M }
{}
