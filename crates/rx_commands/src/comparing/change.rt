//! What the answers that differ come to.
ghost use Rattle.std.specs.Prelude.{◌≡◌, ◌≤◌, ◌<◌, ◌^◌, ◌+◌, ◌++◌, ◌-ℤ◌, pos};
ghost use Rattle.std.specs.Fmt.{signed_decimal};
ghost use Rattle.rx_commands.specs.Differing.{both, gain, less, more};
ghost use Rattle.rx_commands.specs.Changes.{added, cents_of, weight};
ghost use Rattle.rx_settle.specs.Answers.{paid_out, taken_back};
ghost use Rattle.rx_print.specs.Page.{Writes};

use rx_print::Page;
use rx_report::Line;
use rx_settle::Tally;

/// How many answers differ, and the cents that they move. Its numbers are wide enough for all answers that fit in memory.
#[derive(Clone, Copy)]
pub(crate) struct Change {
    /// How many they are.
    pub count: u128,
    /// What the plan pays more for them.
    pub more: u128,
    /// What it pays less.
    pub less: u128,
}

impl Change {
    /// Counts one more.
    pub fn add(&mut self, given: &Line, changed: &Line)
        requires { weight self.old + 400_000_001 < 2 ^ 127 }
        ensures value { self.new ≡ added self.old (both given.now changed.now) }
        ensures within { weight self.new ≤ weight self.old + 400_000_001 }
    {
        self.count += 1;
        self.more += more_by(given, changed);
        self.less += less_by(given, changed);
    }

    /// By how many cents the net is more for them: less than 0 where it is less.
    pub fn cents(&self) -> i128
        requires { weight self.now < 2 ^ 127 }
        ensures { result ≡ cents_of self.now }
    {
        apart(self.more, self.less)
    }
}

/// The same for one of them.
pub(crate) fn gain_of(given: &Line, changed: &Line) -> i128
    ensures { result ≡ gain (both given.now changed.now) }
{
    apart(more_by(given, changed), less_by(given, changed))
}

/// Puts this in cents, between these texts.
#[tactic(auto, using(std::proofs::Common::append_assoc))]
pub(crate) fn put_gain(page: &mut Page, front: &[u8], given: &Line, changed: &Line, end: &[u8])
    ensures { Writes page.old page.new (front.now ++ (signed_decimal (gain (both given.now changed.now)) ++ end.now)) }
{
    page.put(front);
    page.signed(gain_of(given, changed));
    page.put(end);
}

// By how much the one is more than the other.
fn apart(one: u128, other: u128) -> i128
    requires one { one < 2 ^ 127 }
    requires other { other < 2 ^ 127 }
    ensures { result ≡ pos one -ℤ pos other }
{
    one as i128 - other as i128
}

// What the plan pays more for an answer that differs.
fn more_by(given: &Line, changed: &Line) -> u128
    ensures value { result ≡ more (both given.now changed.now) }
    ensures within { result ≤ 200_000_000 }
{
    paid_out(changed) + taken_back(given)
}

// What it pays less.
fn less_by(given: &Line, changed: &Line) -> u128
    ensures value { result ≡ less (both given.now changed.now) }
    ensures within { result ≤ 200_000_000 }
{
    paid_out(given) + taken_back(changed)
}

fn paid_out(line: &Line) -> u128
    ensures value { result ≡ paid_out line.now.answer }
    ensures within { result ≤ 100_000_000 }
{
    Tally::of_answer(&line.answer).paid_out
}

fn taken_back(line: &Line) -> u128
    ensures value { result ≡ taken_back line.now.answer }
    ensures within { result ≤ 100_000_000 }
{
    Tally::of_answer(&line.answer).taken_back
}
