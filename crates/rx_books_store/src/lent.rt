ghost use Rattle.std.specs.Prelude.{◌≡◌, IfOk};
ghost use Rattle.rx_books_store.specs.Form.{books_lent};

use crate::books::{Books, Form};
use crate::open_books::OpenBooks;
use rx_fields::Memory;
use std::alloc::Global;

/// Books that are lent opened, for what only reads their members and the claims that stand.
#[derive(Drop)]
pub enum Lent<'a> {
    /// The books themselves.
    Own(&'a OpenBooks),
    /// Plain books of the same members and rows, made of books that a shelf closed to with other members.
    Made(OpenBooks),
}

impl<'a> Lent<'a> {
    /// The open books. They have no slot but those that the books were opened with before.
    pub fn books(&self) -> &OpenBooks
        ensures { result.now.books ≡ books_lent self.now }
    {
        match self {
            Lent::Own(books) => books,
            Lent::Made(books) => books,
        }
    }
}

impl Books {
    /// The books, lent opened: without a copy, unless a shelf closed to them with other members than it was made of.
    pub fn lend(&self, alloc: Global) -> Result<Lent<'_>, Memory>
        ensures { IfOk result (λ lent. books_lent lent ≡ self.now) }
    {
        match &self.form {
            Form::Plain(books) => Ok(Lent::Own(books)),
            Form::Amended(books) => {
                let books = books.whole();
                Ok(Lent::Made(books.made_plain(alloc, books.period())?))
            }
        }
    }
}
