//! What the program is asked to do.
ghost use Rattle.std.specs.Prelude.{◌≡◌, map};
ghost use Rattle.rx_cli.specs.Paths.{files_of, has_twice, paths_of};

use crate::compare_options::CompareWords;
use crate::dispute::ExcerptWords;
use crate::given::CheckWords;
use crate::paths::has_one_twice;
use crate::people::{AdjudicateWords, FaultNumbers};
use crate::retrace::{ExplainWords, ReportWords, VerifyWords};
use crate::settle_options::SettleWords;
use crate::switch::{JoinWords, RouteWords};
use crate::upkeep::{AgeWords, FamilyWords, MembersWords};
use rx_io::{Inputs, Outputs};

/// The words of `run`. Its six files and its log are different texts.
#[derive(Clone, Copy)]
pub struct RunWords<'a> {
    pub inputs: Inputs<&'a str>,
    pub outputs: Outputs<&'a str>,
    /// `--stamp`, as it was written; whether it is a stamp is the run's to say. Without it the run's is the time when it begins.
    pub stamp: Option<&'a str>,
    /// `--workers`, 0 to 65535; whether this many can work is the run's to say. Without it there are as many as processors.
    pub workers: Option<u16>,
    /// `--plain`: adjudicate over plain lists, one record after another.
    pub plain: bool,
    /// `--desk`: hand the records out to the workers one by one.
    pub desk: bool,
    /// `--safe`: each output takes its path only where the whole run is done.
    pub safe: bool,
    /// `--verbose`: the steps of the run and its faults in words.
    pub verbose: bool,
    /// `--log`: the file for a line about the run.
    pub log: Option<&'a str>,
    /// `--sums`: the SHA-256 of each file in that line.
    pub sums: bool,
}

impl<'a> RunWords<'a> {
    /// Says whether a path stands twice.
    pub(crate) fn names_one_twice(&self) -> bool
        ensures { result ≡ has_twice (paths_of self.now) }
    {
        let files = self.files();
        match self.log {
            None => has_one_twice(files.as_slice()),
            Some(log) => files.contains(&log) || has_one_twice(files.as_slice()),
        }
    }

    /// The six files, inputs before outputs.
    fn files(&self) -> [&'a str; 6]
        ensures { map (λ p. p.now) result ≡ files_of self.now }
    {
        let (inputs, outputs) = (self.inputs, self.outputs);
        [
            inputs.sheet,
            inputs.books,
            inputs.batch,
            outputs.response,
            outputs.books,
            outputs.settlement,
        ]
    }
}

/// The words of `show`.
#[derive(Clone, Copy)]
pub struct ShowWords<'a> {
    /// `--sheet`: the plan sheet.
    pub sheet: &'a str,
    /// `--batch`: the batch file.
    pub batch: &'a str,
    /// `--tsv`: a tab between fields, and more of them.
    pub tsv: bool,
}

/// One of the subcommands, with the values of its options (docs/CLI.md, "Commands").
#[derive(Drop)]
pub enum Command<'a> {
    /// `run`: adjudicates a batch file.
    Run(RunWords<'a>),
    /// `show`: one line per transaction.
    Show(ShowWords<'a>),
    /// `plan`: the waves and the chain.
    Plan(Inputs<&'a str>),
    /// `sample`: the reply to the base claim.
    Sample,
    /// `check`: the faults of the inputs, in words.
    Check(CheckWords<'a>),
    /// `explain`: why a transaction was answered so.
    Explain(ExplainWords<'a>),
    /// `excerpt`: a record with what its answer hangs on.
    Excerpt(ExcerptWords<'a>),
    /// `verify`: whether the outputs are those of the inputs.
    Verify(VerifyWords<'a>),
    /// `report`: a line for each answer, by provider.
    Report(ReportWords<'a>),
    /// `adjudicate`: checks a batch, adjudicates it and writes the outputs into a folder.
    Adjudicate(AdjudicateWords<'a>),
    /// `fault`: the numbers of a refusal in words.
    Fault(FaultNumbers),
    /// `members`: a table loaded into books.
    Members(MembersWords<'a>),
    /// `age`: books without claims before a day.
    Age(AgeWords<'a>),
    /// `family`: a family of the books.
    ShowFamily(FamilyWords<'a>),
    /// `route`: adjudicates a batch file for several plans.
    Route(RouteWords<'a>),
    /// `join`: joins the response files of several plans' runs.
    Join(JoinWords<'a>),
    /// `replies`: one line per reply of this response file.
    Replies(&'a str),
    /// `compare`: which answers would be others.
    Compare(CompareWords<'a>),
    /// `settle`: the settlement of response files.
    Settle(SettleWords<'a>),
}
