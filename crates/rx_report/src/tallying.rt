ghost use Rattle.std.specs.Prelude.{◌≡◌, ◌≤◌, ◌*◌, length, map};
ghost use Rattle.rx_report.specs.Lines.{answer_of};
ghost use Rattle.rx_settle.specs.Answers.{tally, weight};

use crate::line::Line;
use rx_settle::Tally;

/// What the answers of some lines come to.
pub(crate) fn tally_lines(lines: &[Line]) -> Tally
    ensures value { result ≡ tally (map answer_of lines.now) }
    ensures within { weight result ≤ 100_000_000 * length lines.now }
{
    let mut tally = Tally::default();
    for line in lines {
        tally = tally.plus(Tally::of_answer(&line.answer));
    }
    tally
}
