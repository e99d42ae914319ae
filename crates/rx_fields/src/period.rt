ghost use Rattle.std.specs.Prelude.{◌≡◌};

use crate::day::Day;
use std::marker::Model;

/// A benefit period or a coverage: the days from a first to a last one, both included (docs/RULES.md, "Rules of
/// adjudication").
#[derive(Clone, Copy, PartialEq, Eq)]
pub struct Period {
    first: Day,
    last: Day,
}

impl Model for Period {
    ghost use Rattle.std.specs.Prelude.{◌≡◌, true};
    ghost use Rattle.rx_fields.specs.Numbered.{Span, is_span};

    ghost Value = { Span };

    ghost view = { λ p. record { first = p.first; last = p.last } };

    ghost invariant = { λ p. is_span (record { first = p.first; last = p.last }) ≡ true };

    ghost inverse = { λ s. record { first = s.first; last = s.last } };
}

ghost use Rattle.rx_fields.specs.Numbered.{period_of, is_within};

impl Period {
    /// The period of two days; None where the first is after the last.
    pub fn new(first: Day, last: Day) -> Option<Period>
        ensures { result ≡ period_of first last }
    {
        if first > last {
            return None;
        }
        Some(Period { first, last })
    }

    /// The first day.
    pub fn first(&self) -> Day
        ensures { result ≡ self.now.first }
    {
        self.first
    }

    /// The last day.
    pub fn last(&self) -> Day
        ensures { result ≡ self.now.last }
    {
        self.last
    }

    /// Whether the day is one of the period's.
    pub fn contains(&self, day: Day) -> bool
        ensures { result ≡ is_within self.now day }
    {
        self.first <= day && day <= self.last
    }
}
