ghost use Rattle.std.specs.Prelude.{◌≡◌};
ghost use Rattle.rx_batch.specs.Header.{trailer_of};

use rx_fields::number_read;

/// What a trailer says of its batch.
#[derive(Clone, Copy)]
pub struct Trailer {
    pub number: u64,
    pub count: u64,
}

impl Trailer {
    // What a trailer's bytes between STX and ETX say.
    pub(crate) fn of(body: &[u8]) -> Option<Trailer>
        ensures { result ≡ trailer_of body.now }
    {
        if body.len() < 19 || body.len() > 54 {
            return None;
        }
        let number = number_read(&body[2..9], 7).ok()?;
        let count = number_read(&body[9..19], 10).ok()?;
        Some(Trailer { number, count })
    }
}
