ghost use Rattle.std.specs.Prelude.{◌≡◌, ◌≤◌, ◌<◌, ◌+◌, ◌*◌, ◌^◌, [], ◌∷◌, length};
ghost use Rattle.rx_settle.specs.Answers.{answers_in, tally, plus, weight};

use rx_d0_values::{Answer, Outcome};

/// How many answers of each status there are, and the cents that they move. Its numbers are wide enough for all
/// replies that fit in memory.
#[derive(Clone, Copy, Default)]
pub struct Tally {
    /// Status P.
    pub paid: u128,
    /// Status D.
    pub duplicate: u128,
    /// Status A.
    pub approved: u128,
    /// Status R.
    pub rejected: u128,
    /// The totals paid (509-F9) over status P, in cents.
    pub paid_out: u128,
    /// The totals paid (509-F9) that status A takes back, in cents.
    pub taken_back: u128,
}

impl Tally {
    /// The counts of a reply's answers.
    pub fn of(outcome: &Outcome) -> Tally
        ensures value { result ≡ tally (answers_in outcome.now) }
        ensures within { weight result ≤ 400_000_000 }
    {
        match outcome {
            Outcome::Rejected(rejected) => Tally {
                rejected: u128::from(rejected.groups.get()),
                ..Tally::default()
            },
            Outcome::Heard(answers) => Tally::of_answers(answers.as_slice()),
        }
    }

    // The counts of at most four answers.
    fn of_answers(answers: &[Answer]) -> Tally
        requires { length answers.now ≤ 4 }
        ensures value { result ≡ tally answers.now }
        ensures within { weight result ≤ 100_000_000 * length answers.now }
    {
        let mut tally = Tally::default();
        for answer in answers {
            tally = tally.plus(Tally::of_answer(answer));
        }
        tally
    }

    /// One answer's count.
    pub fn of_answer(answer: &Answer) -> Tally
        ensures value { result ≡ tally (answer.now ∷ []) }
        ensures within { weight result ≤ 100_000_000 }
    {
        match answer {
            Answer::Paid(paid) => Tally {
                paid: 1,
                paid_out: u128::from(paid.pricing.total_paid()),
                ..Tally::default()
            },
            Answer::Twice(_) => Tally {
                duplicate: 1,
                ..Tally::default()
            },
            Answer::Approved(approved) => Tally {
                approved: 1,
                taken_back: u128::from(approved.total_paid.get()),
                ..Tally::default()
            },
            Answer::Refused(_) => Tally {
                rejected: 1,
                ..Tally::default()
            },
        }
    }

    /// The counts of both.
    pub fn plus(self, more: Tally) -> Tally
        requires { weight self + weight more < 2 ^ 128 }
        ensures { result ≡ plus self more }
    {
        Tally {
            paid: self.paid + more.paid,
            duplicate: self.duplicate + more.duplicate,
            approved: self.approved + more.approved,
            rejected: self.rejected + more.rejected,
            paid_out: self.paid_out + more.paid_out,
            taken_back: self.taken_back + more.taken_back,
        }
    }
}
