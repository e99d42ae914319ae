ghost use Rattle.std.specs.Prelude.{◌≡◌};
ghost use Rattle.std.specs.Option.{option_map};
ghost use Rattle.rx_report_text.specs.Whys.{spot_of, why_of};

use rx_report::Line;
use rx_sorted::{Ascending, Keyed};

/// Where an answer stands in a batch. Ordered as the batch is adjudicated.
#[derive(Clone, Copy, PartialEq, Eq, PartialOrd, Ord)]
pub struct AnswerSpot {
    /// The record's place in the batch, from 1.
    pub place: u64,
    /// The answer's place in its reply, from 1.
    pub nth: u64,
}

/// Why an answer was given.
#[derive(Drop)]
pub struct Why {
    /// Where the answer stands.
    pub spot: AnswerSpot,
    /// The lines that say it, each with its line feed.
    pub text: Vec<u8>,
}

impl Keyed for Why {
    type Key = AnswerSpot;

    ghost key_of = { λ why. why.spot };

    fn key(&self) -> AnswerSpot {
        self.spot
    }
}

/// The explanations of answers, of each at most one.
pub type Whys = Ascending<Why>;

/// The lines that say why a line's answer was given, where they are among these.
pub fn why_of<'a>(whys: &'a Whys, line: &Line) -> Option<&'a [u8]>
    ensures { option_map (λ text. text.now) result ≡ why_of whys.now line.now }
{
    match whys.get(&spot_of(line)) {
        Some(why) => Some(why.text.as_slice()),
        None => None,
    }
}

fn spot_of(line: &Line) -> AnswerSpot
    ensures { result ≡ spot_of line.now }
{
    AnswerSpot {
        place: line.place,
        nth: line.nth,
    }
}
