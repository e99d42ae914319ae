ghost use Rattle.std.specs.Prelude.{◌≡◌};
ghost use Rattle.std.specs.Option.{option_copied};
ghost use Rattle.rx_explain.specs.Spots.{item};

/// The item of a list at a place, from 1; None if there is none.
pub fn item<T>(items: &[T], place: u64) -> Option<&T>
    ensures { option_copied result ≡ item items.now place }
{
    items.get(place.checked_sub(1)? as usize)
}
