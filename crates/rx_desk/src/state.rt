ghost use Rattle.std.specs.Prelude.{◌≡◌, ◌↔◌, IsTrue};

use rx_books_parcel::Parcel;

/// Where a record is.
#[derive(Drop)]
pub(crate) enum State {
    /// It wasn't taken.
    Waiting,
    /// It is out, with a parcel equal to this one.
    Out(Parcel),
    /// It was given.
    Given,
}

/// Whether a record is out with this parcel.
pub(crate) fn is_out_with(state: &State, parcel: &Parcel) -> bool
    ensures { IsTrue result ↔ (state.now ≡ State.Out parcel.now) }
{
    match state {
        State::Waiting => false,
        State::Out(kept) => *kept == *parcel,
        State::Given => false,
    }
}
