ghost use Rattle.std.specs.Prelude.{◌≡◌};
ghost use Rattle.rx_check.specs.Stop.{is_unlikely, is_worth_a_look, stops};

use crate::warnings::Warnings;

impl Warnings {
    /// Whether an adjudication ends at these warnings before it writes anything (docs/CLI.md, "adjudicate"): books of another
    /// period, a batch of another plan, one that was adjudicated already, and end books that no run could read, unless it is to
    /// be done `again`; where it is `strict`, also ignored keys and books with many lines.
    pub fn stop(&self, again: bool, strict: bool) -> bool
        ensures { result ≡ stops again strict self.now }
    {
        (!again && self.are_unlikely()) || (strict && self.are_worth_a_look())
    }

    // Whether hardly any operator means what is warned of.
    fn are_unlikely(&self) -> bool
        ensures { result ≡ is_unlikely self.now }
    {
        self.period.is_some() || self.none_under || self.adjudicated > 0 || self.may_pass
    }

    // Whether there is another warning.
    fn are_worth_a_look(&self) -> bool
        ensures { result ≡ is_worth_a_look self.now }
    {
        !self.ignored.is_empty() || self.has_many_lines()
    }
}
