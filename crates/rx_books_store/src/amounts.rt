ghost use Rattle.std.specs.Prelude.{◌≡◌, ◌+◌, ◌-◌, ◌<◌, ◌≤◌, ◌^◌, length, set, slice_index};
ghost use Rattle.rx_books_store.specs.Parts.{AreAdded, MayBeAdded};

/// Adds to the figure at a place.
pub(crate) fn add_at(figures: &mut Vec<u128>, place: usize, amount: u128)
    requires in_range { place < length figures.old.items }
    requires room { slice_index figures.old.items place + amount < 2 ^ 128 }
    ensures { figures.new.items ≡ set figures.old.items place (slice_index figures.old.items place + amount) }
{
    figures[place] += amount;
}

/// Adds to each figure the one at its place.
pub(crate) fn add_all(figures: &mut Vec<u128>, more: &[u128])
    requires { MayBeAdded figures.old.items more.now }
    ensures { AreAdded figures.old.items more.now figures.new.items }
{
    for (place, amount) in more.iter().enumerate() {
        add_at(figures, place, *amount);
    }
}

/// Takes from the figure at a place, of which it is a part.
pub(crate) fn take_at(figures: &mut Vec<u128>, place: usize, amount: u128)
    requires in_range { place < length figures.old.items }
    requires enough { amount ≤ slice_index figures.old.items place }
    ensures { figures.new.items ≡ set figures.old.items place (slice_index figures.old.items place - amount) }
{
    figures[place] -= amount;
}
