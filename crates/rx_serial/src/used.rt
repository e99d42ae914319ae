ghost use Rattle.std.specs.Prelude.{◌≡◌, ◌<◌, length, slice_get, IfSome};
ghost use Rattle.rx_ledger.specs.Sums.{deductible, family_deductible, out_of_pocket};

use rx_books_store::OpenBooks;
use rx_ledger::Used;

/// What the member at a place and the family have used in the period of the books, in cents.
pub(crate) fn used_at(books: &OpenBooks, place: usize) -> Used
    requires { place < length books.now.books.ledger.members }
    ensures { IfSome (slice_get books.now.books.ledger.members place) (λ m.
        let kept = books.now.books in
        result ≡ record {
          deductible = deductible kept.period kept.ledger m.key.family m.key.person;
          out_of_pocket = out_of_pocket kept.period kept.ledger m.key.family;
          family_deductible = family_deductible kept.period kept.ledger m.key.family;
        }) }
{
    let home = books.home_of(place);
    Used {
        deductible: books.deductible_at(place),
        out_of_pocket: books.out_of_pocket_at(home),
        family_deductible: books.family_deductible_at(home),
    }
}
