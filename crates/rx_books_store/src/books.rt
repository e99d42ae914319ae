ghost use Rattle.std.specs.Prelude.{◌≡◌, ◌↔◌, IfOk, IfSome, IsTrue};
ghost use Rattle.std.specs.Option.{option_copied};
ghost use Rattle.rx_ledger.specs.Ledger.{IsLedger, row_under};
ghost use Rattle.rx_books_store.specs.BooksFile.{NamesFirstFault, ReadsAllBooks, ReadsBooksAlone, ReadsWhatIsWritten};
ghost use Rattle.rx_books_store.specs.BooksText.{books_text};
ghost use Rattle.rx_books_text.specs.Fault.{Gives};
ghost use Rattle.rx_books_store.specs.Figures.{books_of};
ghost use Rattle.rx_books_store.specs.LedgerBooks.{deductible_of_family, deductible_of_member, out_of_pocket_of_family};

use crate::amended::AmendedBooks;
use crate::open_books::OpenBooks;
use crate::reader::Quick;
use crate::whole::Whole;
use rx_books_text::{BooksFault, Version, read_printed};
use rx_fields::{Id, Key, Memory, Period, Person};
use rx_ledger::{Ledger, Member, Row};
use rx_sorted::Ascending;
use std::alloc::Global;
use std::marker::Model;

/// All books: the members and the standing claims, with the deductible of each member and the figures of each family
/// stored next to them. Contracts see the plain ledger, and the period that the totals are of (docs/RULES.md,
/// "Accumulators").
#[derive(Drop)]
pub struct Books {
    pub(crate) form: Form,
}

/// The two forms of books: as all are that were read or made of a ledger, and as a shelf leaves them where a family has
/// other members than the opening's.
#[derive(Drop)]
pub(crate) enum Form {
    Plain(OpenBooks),
    Amended(AmendedBooks),
}

impl Model for Books {
    ghost use Rattle.rx_books_store.specs.LedgerBooks.{LedgerBooks};

    ghost Value = { LedgerBooks };

    ghost use Rattle.rx_books_store.specs.Form.{books_in};

    ghost view = { λ b. books_in b.form };
}

impl AmendedBooks {
    // The same members and rows, with the totals of this period.
    fn made_plain(&self, alloc: Global, period: Period) -> Result<Books, Memory>
        ensures { IfOk result (λ books. books ≡ record { period = period; ledger = self.now.ledger }) }
    {
        Ok(self.whole().made_plain(alloc, period)?.close())
    }
}

impl Books {
    /// The books of a ledger, each total summed once over the rows of the period.
    pub fn from_ledger(alloc: Global, ledger: &Ledger, period: Period) -> Result<Books, Memory>
        ensures { IfOk result (λ books. books ≡ record { period = period; ledger = ledger.now }) }
    {
        Ok(OpenBooks::from_ledger(alloc, ledger, period)?.close())
    }

    /// The books of a text, or its first fault (docs/FORMATS.md, "Books file"). A text is accepted exactly where it is the
    /// one text of these books in a version.
    pub fn read(alloc: Global, text: &[u8]) -> Result<Books, BooksFault>
        ensures ok { ReadsBooksAlone text.now result }
        // The text of books is read as those books, unless memory ran out.
        ensures reads { ReadsAllBooks text.now result }
        // What was read, written in version 3, is a text of the same books.
        ensures again { ReadsWhatIsWritten result }
        ensures refuses { NamesFirstFault text.now result }
        // The same, computed.
        ensures value { Gives result (books_of text.now) }
    {
        let quick = Quick::read(alloc, text);
        Books::or_summed(alloc, text, quick)
    }

    /// The books that the exact reader finds, where each figure is the sum.
    pub(crate) fn read_summed(alloc: Global, text: &[u8]) -> Result<Books, BooksFault>
        ensures { Gives result (books_of text.now) }
    {
        let printed = read_printed(alloc, text)?;
        let books = OpenBooks::from_ledger(alloc, printed.ledger(), printed.head().period)?;
        match books.wrong_line(&printed) {
            Some(line) => Err(BooksFault::Totals(line)),
            None => Ok(books.close()),
        }
    }

    /// The plain ledger: all members and rows.
    pub fn ledger(&self, alloc: Global) -> Result<Ledger, Memory>
        ensures { IfOk result (λ ledger. ledger ≡ self.now.ledger) }
    {
        match &self.form {
            Form::Plain(books) => books.ledger(alloc),
            Form::Amended(books) => books.whole().ledger(alloc),
        }
    }

    /// The same members and rows, with the totals of this period.
    pub fn copy(&self, alloc: Global, period: Period) -> Result<Books, Memory>
        ensures { IfOk result (λ books. books ≡ record { period = period; ledger = self.now.ledger }) }
    {
        match &self.form {
            Form::Plain(books) => Ok(books.copy(alloc, period)?.close()),
            Form::Amended(books) => books.made_plain(alloc, period),
        }
    }

    /// The same claims, of these members; each claim's is one of them. The totals are of the same period.
    pub fn with_members(&self, alloc: Global, members: Ascending<Member>) -> Result<Books, Memory>
        requires { IsLedger (record { members = members; rows = self.now.ledger.rows }) }
        ensures { IfOk result (λ books. books ≡ record {
          period = self.now.period;
          ledger = record { members = members; rows = self.now.ledger.rows };
        }) }
    {
        if let Some(books) = self.plain()
            && books.has_no_slot()
        {
            return Ok(books.with_members(alloc, members)?.close());
        }
        let (_, rows) = self.ledger(alloc)?.into_lists();
        Books::from_ledger(alloc, &Ledger::from_lists(members, rows), self.period())
    }

    /// These books, with the totals of this period.
    pub fn with_period(self, alloc: Global, period: Period) -> Result<Books, Memory>
        ensures { IfOk result (λ books. books ≡ record { period = period; ledger = self.ledger }) }
    {
        let Books { form } = self;
        match form {
            Form::Plain(books) => Ok(books.with_period(alloc, period)?.close()),
            Form::Amended(books) => books.made_plain(alloc, period),
        }
    }

    /// The text of the books, in version 3 (docs/FORMATS.md, "Books file"). Lines of claims that stand unchanged are copied
    /// from the text that they were read from, where the books keep it.
    pub fn write(&self, alloc: Global) -> Result<Vec<u8>, Memory>
        ensures { IfOk result (λ text. text.items ≡ books_text Version.Three self.now.period self.now.ledger) }
    {
        match &self.form {
            Form::Plain(books) => books.write(alloc),
            Form::Amended(books) => {
                let books = books.whole();
                books.made_plain(alloc, books.period())?.write(alloc)
            }
        }
    }

    /// The period that the totals are of.
    pub fn period(&self) -> Period
        ensures value { result ≡ self.now.period }
        ensures within { IsLedger self.now.ledger }
    {
        match &self.form {
            Form::Plain(books) => books.period(),
            Form::Amended(books) => books.whole().period(),
        }
    }

    /// The row under a fill key.
    pub fn row(&self, key: &Key) -> Option<&Row>
        ensures { option_copied result ≡ row_under self.now.ledger key.now }
    {
        match &self.form {
            Form::Plain(books) => books.row(key),
            Form::Amended(books) => books.whole().row(key),
        }
    }

    /// The deductible of a person so far, in cents; None where that is no listed member.
    pub fn deductible(&self, family: &Id, person: &Person) -> Option<u128>
        ensures { result ≡ deductible_of_member self.now family.now person.now }
    {
        match &self.form {
            Form::Plain(books) => books.deductible(family, person),
            Form::Amended(books) => books.whole().deductible(family, person),
        }
    }

    /// The out of pocket of a family so far, in cents; None where it has no member.
    pub fn out_of_pocket(&self, family: &Id) -> Option<u128>
        ensures { result ≡ out_of_pocket_of_family self.now family.now }
    {
        match &self.form {
            Form::Plain(books) => books.out_of_pocket(family),
            Form::Amended(books) => books.whole().out_of_pocket(family),
        }
    }

    /// The deductible of a family so far, in cents; None where it has no member.
    pub fn family_deductible(&self, family: &Id) -> Option<u128>
        ensures { result ≡ deductible_of_family self.now family.now }
    {
        match &self.form {
            Form::Plain(books) => books.family_deductible(family),
            Form::Amended(books) => books.whole().family_deductible(family),
        }
    }

    // The open books that these are, where they are plain.
    pub(crate) fn plain(&self) -> Option<&OpenBooks>
        ensures { IfSome result (λ books. books.now.books ≡ self.now) }
    {
        match &self.form {
            Form::Plain(books) => Some(books),
            Form::Amended(_) => None,
        }
    }

    // Whether these are the same books.
    fn is_same(&self, other: &Books) -> bool
        requires ours { IsLedger self.now.ledger }
        requires theirs { IsLedger other.now.ledger }
        ensures { IsTrue result ↔ (self.now ≡ other.now) }
    {
        match (self.plain(), other.plain()) {
            (Some(ours), Some(theirs)) => ours.is_same(theirs),
            _ => self.whole().is_same(&other.whole()),
        }
    }

    // All of them, in whichever form.
    fn whole(&self) -> Whole<'_>
        requires { IsLedger self.now.ledger }
        ensures { result ≡ self.now }
    {
        match &self.form {
            Form::Plain(books) => Whole::alone(books),
            Form::Amended(books) => books.whole(),
        }
    }
}

ghost use Rattle.rx_d0_values.specs.Same.{same, same_laws, same_equivalence};
ghost use Rattle.rx_books_store.specs.contracts.books.Books.{the_row as books_row};

impl PartialEq for Books {
    ghost eq = { same books_row.coded };

    ghost laws = { same_laws books_row.coded };

    fn eq(&self, other: &Books) -> bool
        ensures { IsTrue result ↔ (self.now ≡ other.now) }
    {
        self.period() == other.period() && self.is_same(other)
    }
}

impl Eq for Books {
    ghost laws = { same_equivalence books_row.coded };
}
