ghost use Rattle.std.specs.Prelude.{◌≡◌};
ghost use Rattle.rx_books_family.specs.Shelves.{row_held};

use rx_books_family::KeyPlace;
use rx_ledger::Row;

/// The row that a place holds.
pub(crate) fn row_held(place: KeyPlace) -> Option<Row>
    ensures { result ≡ row_held place }
{
    match place.held {
        Some(row) => row,
        None => None,
    }
}
