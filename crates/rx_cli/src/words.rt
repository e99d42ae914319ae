//! The words read.
ghost use Rattle.std.specs.Prelude.{◌≡◌, ◌≢◌, [], codes, true, IfErr, IfNone, IfOk, IfSome, map};
ghost use Rattle.clap.specs.Words.{fault_of, found_of, rows_of, subcommand_of, subcommand_rows_of, takes};
ghost use Rattle.rx_cli.specs.Syntax.{whole_line};
ghost use Rattle.rx_cli.specs.Asked.{Holds, HoldsFault, HoldsNamed, HoldsRun, HoldsRunApart, HoldsShow, NoneHolds};
ghost use Rattle.rx_cli.specs.Faults.{IsWords};

use crate::asked::{Command, RunWords, ShowWords};
use crate::compare_options::compare;
use crate::dispute_words::excerpt;
use crate::fault::WordsFault;
use crate::given::check;
use crate::misuse::misuse;
use crate::options::{flag, inputs, number_if_given, outputs, text};
use crate::people_words::{adjudicate, fault};
use crate::retrace_options::{explain, report, verify};
use crate::settle_options::settle;
use crate::switch_options::{join, route};
use crate::syntax::line;
use crate::upkeep_options::{age, family, members};
use clap::ArgMatches;
use std::alloc::Global;
use std::convert::AsStr;

fn show<'a>(found: &ArgMatches<'a>) -> Option<ShowWords<'a>>
    ensures some { IfSome result (HoldsShow (rows_of (found_of found.now))) }
    ensures none { IfNone result (NoneHolds (HoldsShow (rows_of (found_of found.now)))) }
{
    let sheet = text(found, "sheet")?;
    let batch = text(found, "batch")?;
    let tsv = flag(found, "tsv");
    Some(ShowWords { sheet, batch, tsv })
}

fn run<'a>(found: &ArgMatches<'a>) -> Option<RunWords<'a>>
    ensures some { IfSome result (HoldsRun (rows_of (found_of found.now))) }
    ensures none { IfNone result (NoneHolds (HoldsRun (rows_of (found_of found.now)))) }
{
    let inputs = inputs(found)?;
    let outputs = outputs(found)?;
    let workers = number_if_given(found, "workers")?;
    Some(RunWords {
        inputs,
        outputs,
        stamp: text(found, "stamp"),
        workers,
        plain: flag(found, "plain"),
        desk: flag(found, "desk"),
        safe: flag(found, "safe"),
        verbose: flag(found, "verbose"),
        log: text(found, "log"),
        sums: flag(found, "sums"),
    })
}

/// `run` of which no path stands twice.
fn run_apart<'a>(found: &ArgMatches<'a>) -> Option<RunWords<'a>>
    ensures some { IfSome result (HoldsRunApart (rows_of (found_of found.now))) }
    ensures none { IfNone result (NoneHolds (HoldsRunApart (rows_of (found_of found.now)))) }
{
    let run = run(found)?;
    if run.names_one_twice() {
        return None;
    }
    Some(run)
}

/// `fault`, whose numbers borrow nothing of the words.
fn read_fault<'a>(found: &ArgMatches<'a>) -> Option<Command<'a>>
    ensures some { IfSome result (HoldsNamed (codes "fault") (rows_of (found_of found.now))) }
    ensures none { IfNone result (NoneHolds (HoldsFault (rows_of (found_of found.now)))) }
{
    let numbers = fault(found)?;
    Some(Command::Fault(numbers))
}

/// The command of this name, but for `settle`, whose words take memory. `clap` lets no other name through.
fn read<'a>(name: &str, found: &ArgMatches<'a>) -> Option<Command<'a>>
    ensures some { IfSome result (HoldsNamed name.now (rows_of (found_of found.now))) }
    ensures none { IfNone result (name.now ≢ codes "settle" → NoneHolds (HoldsNamed name.now (rows_of (found_of found.now)))) }
{
    match name {
        "run" => run_apart(found).map(Command::Run),
        "show" => show(found).map(Command::Show),
        "plan" => inputs(found).map(Command::Plan),
        "excerpt" => excerpt(found).map(Command::Excerpt),
        "sample" => Some(Command::Sample),
        "check" => check(found).map(Command::Check),
        "explain" => explain(found).map(Command::Explain),
        "join" => join(found).map(Command::Join),
        "verify" => verify(found).map(Command::Verify),
        "route" => route(found).map(Command::Route),
        "report" => report(found).map(Command::Report),
        "adjudicate" => adjudicate(found).map(Command::Adjudicate),
        "fault" => read_fault(found),
        "members" => members(found).map(Command::Members),
        "age" => age(found).map(Command::Age),
        "family" => family(found).map(Command::ShowFamily),
        "replies" => text(found, "response").map(Command::Replies),
        "compare" => compare(found).map(Command::Compare),
        _ => None,
    }
}

/// The command of this name. `clap` lets no option that a command requires be absent.
fn named<'a>(alloc: Global, name: &str, found: &ArgMatches<'a>) -> Result<Command<'a>, WordsFault>
    ensures ok { IfOk result (HoldsNamed name.now (rows_of (found_of found.now))) }
    ensures words { IfErr result (λ e. IsWords e → NoneHolds (HoldsNamed name.now (rows_of (found_of found.now)))) }
{
    if name == "settle" {
        return Ok(Command::Settle(settle(found, alloc)?));
    }
    match read(name, found) {
        Some(command) => Ok(command),
        None => Err(misuse(alloc, name, found)),
    }
}

/// `clap`'s matches of the words.
fn matches<'a, S: AsStr>(alloc: Global, words: &'a [S]) -> Result<ArgMatches<'a>, WordsFault>
    ensures subcommand { IfOk result (λ m. subcommand_rows_of m ≡ subcommand_of whole_line (map S.text words.now)) }
    ensures taken { IfOk result (λ _. fault_of whole_line (map S.text words.now) ≡ []) }
    ensures words { IfErr result (λ e. IsWords e → takes whole_line (map S.text words.now) ≡ true → ⊥) }
{
    let line = Box::into_inner(line(alloc)?);
    Ok(line.try_get_matches_from(words)?)
}

/// What the words ask for, the program's name being the first (docs/CLI.md, "Commands").
///
/// At `Ok` `clap` finds no fault in the words, and the command holds the subcommand and the option values that `clap`'s
/// matches of them hold; the workers are 0 to 65535, and the paths of `run` are different texts.
///
/// # Errors
///
/// `Words` where `clap` doesn't take the words, help or the version being asked for too, where the workers aren't only
/// digits, where `run` names one path twice, and where options stand together that exclude or require each other;
/// `Memory` where memory ran out.
pub fn command<'a, S: AsStr>(alloc: Global, words: &'a [S]) -> Result<Command<'a>, WordsFault>
    ensures ok { IfOk result (Holds (subcommand_of whole_line (map S.text words.now))) }
    ensures taken { IfOk result (λ _. fault_of whole_line (map S.text words.now) ≡ []) }
    ensures words { IfErr result (λ e. IsWords e → takes whole_line (map S.text words.now) ≡ true
        → NoneHolds (Holds (subcommand_of whole_line (map S.text words.now)))) }
{
    let matches = matches(alloc, words)?;
    match matches.subcommand() {
        Some((name, found)) => named(alloc, name, found),
        None => Err(WordsFault::Words(None)),
    }
}
