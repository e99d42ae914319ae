ghost use Rattle.std.specs.Prelude.{◌≡◌, ◌<◌, get_or, length};

/// Where a transaction stands in a batch. Ordered as the batch is adjudicated.
#[derive(Clone, Copy, PartialEq, Eq, PartialOrd, Ord)]
pub struct At {
    /// The record's place in the batch, from 1.
    pub place: u64,
    /// The transaction's place in the record, from 1.
    pub nth: u64,
}

/// One of these places, by its number from 0.
pub fn place_at(places: &[At], nth: usize) -> At
    requires { nth < length places.now }
    ensures { result ≡ get_or places.now nth result }
{
    places[nth]
}
