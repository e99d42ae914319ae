//! The program `rxbatch`: a pharmacy batch adjudicator (docs/CLI.md, "Commands").
//!
//! ```text
//! rxbatch adjudicate --sheet F --books F --batch F --out DIR [--stamp S] [--workers N] [--again] [--strict] [--quiet]
//!                                                   checks and adjudicates a batch, the outputs in a folder
//! rxbatch run --sheet F --books F --batch F [--stamp S] [--workers N] --response F --books-out F --settlement F [--plain]
//!     [--desk] [--safe] [--log F [--sums]] [-v]     adjudicates a batch
//! rxbatch show --sheet F --batch F [--tsv]          a line for each transaction
//! rxbatch plan --sheet F --books F --batch F        the waves of the records, and the chain
//! rxbatch check (--sheet F [--books F] | --plans F) [--batch F]
//!                                                   the faults of these files in words, and warnings
//! rxbatch explain (--sheet F --books F | --plans F) --batch F (--record P[.N] | --number A | --rx R [--provider ID])
//!     [--response F] [--json] [--for-provider ID]   why a claim was answered as it was
//! rxbatch excerpt --sheet F --books F --batch F --record P --out DIR [--response F]
//!                                                   a record with what it hangs on, a job of its own
//! rxbatch verify (--sheet F --books F --books-out F | --plans F) --batch F --stamp S --response F --settlement F [--plain]
//!     [--desk] [--workers N]                        whether the files of a run are what it gives
//! rxbatch report (--sheet F --books F | --plans F) --batch F [--stamp S] [--provider ID | --family ID | --for-provider ID]
//!     [--tsv | --json | --jsonl | --html | --html-dir DIR]
//!                                                   a line for each answer, by provider, with counts and net
//! rxbatch members (--books F | --period FIRST-LAST) --members F --books-out F [--safe]
//!                                                   a table of members loaded into books
//! rxbatch age --books F --before DAY [--period FIRST-LAST] (--sheet F | --refill-percent N) --books-out F --dropped F
//!     [--safe]                                      books without the claims before a day
//! rxbatch family --books F --family ID [--person P] [--sheet F] [--tsv | --json | --html]
//!                                                   a family's members, claims and sums
//! rxbatch route --plans F --batch F --stamp S [--workers N] --response F --settlement F [--safe] [-v] [--log F]
//!                                                   adjudicates a batch for several plans
//! rxbatch join --plans F --batch F --response F --settlement F [--safe]
//!                                                   joins the response files of several plans' runs
//! rxbatch replies --response F                      a line for each answer of a response file
//! rxbatch compare --sheet F [--with-sheet F] --books F [--with-books F] --batch F [--tsv | --json]
//!                                                   which answers another sheet or other books would change
//! rxbatch settle --response F.. [--provider ID]     the settlement of response files, all together
//! rxbatch fault N M P                               the numbers of a refusal in words
//! rxbatch help                                      the help, on standard output
//! rxbatch sample                                    the reply to the base claim, on one line
//! rxbatch --version                                 the version, and the kit that proved it
//! ```
//!
//! Words are read by `rx_cli`; `run` is `rx_switch::run_io`, `check` one call of `rx_check`, and each other command one call of
//! `rx_commands`, `rx_show` or `rx_switch`. Here files are opened and read, and texts, refusals and exit statuses written.
#![tactic(auto)]

mod adjudicate;
mod beside_file;
mod check_files;
mod code_counts;
mod commands;
mod compare;
mod ending;
mod excerpt_files;
mod family_files;
mod fault_line;
mod file_fault;
mod files;
mod in_place;
mod join_files;
mod kept_file;
mod log_file;
mod moment;
mod named;
mod negative_workers;
mod nodes;
mod noted_file;
mod origin;
mod output_file;
mod outputs;
mod page_folder;
mod paths_apart;
mod places;
mod plan_json;
mod plan_words;
mod plans_checked;
mod plans_explained;
mod plans_file;
mod plans_reported;
mod plans_verified;
mod read_again;
mod refused_text;
mod reporter;
mod route_files;
mod route_log;
mod run_files;
mod run_gate;
mod safe_files;
mod settings;
mod settle;
mod shown_path;
mod standard_output;
mod step_source;
mod streams;
mod switch_inputs;
mod switch_outputs;
mod texts;
mod two_outputs;
mod two_streams;
mod upkeep_files;
mod upkeep_values;
mod upkeep_words;
mod watched_run;
mod written_texts;

use ending::Ending;
use negative_workers::print_negative_workers;
use rx_cli::{Command, WordsFault, command};
use std::io::IsTerminal;
use std::process::ExitCode;
use std::sync::Wait;
use std::thread::Threads;
use std::{env, io};
use streams::TakenStreams;
use two_streams::two_streams;

fn main(rt: HostRuntime) -> ExitCode {
    let _streams = TakenStreams::take(&rt);
    match perform(&rt, &rt) {
        Ok(()) => ExitCode::SUCCESS,
        Err(ending) => {
            ending.print(&rt);
            ExitCode::from(ending.status())
        }
    }
}

// Does what the words ask for; a run starts its threads with the second handle.
fn perform<R: Threads + Wait + Sync>(rt: &HostRuntime, threads: &R) -> Result<(), Ending> {
    let words = words(rt)?;
    let asked = command(rt.alloc(), words.as_slice());
    perform_asked(rt, threads, words.as_slice(), &asked)
}

// The same, once the words were read.
fn perform_asked<R: Threads + Wait + Sync>(
    rt: &HostRuntime,
    threads: &R,
    words: &[String],
    asked: &Result<Command<'_>, WordsFault>,
) -> Result<(), Ending> {
    if may_name_paths(asked) {
        if let Some((one, other)) = two_streams(words) {
            return Err(Ending::TwoStreams(one, other));
        }
    }
    match asked {
        Ok(command) => perform_command(rt, threads, command),
        Err(fault) if asks_for_text(fault, words) => commands::print_asked(rt, fault),
        Err(fault) => {
            print_negative_workers(rt, words);
            Err(misused(rt, fault))
        }
    }
}

// Does what a command asks for.
fn perform_command<R: Threads + Wait + Sync>(
    rt: &HostRuntime,
    threads: &R,
    command: &Command<'_>,
) -> Result<(), Ending> {
    match command {
        Command::Run(words) => run_files::run(rt, threads, words),
        Command::Adjudicate(words) => adjudicate::adjudicate(rt, threads, words),
        Command::Fault(numbers) => commands::fault(rt, numbers),
        Command::Show(words) => for_programs(rt, commands::show(rt, threads, words)),
        Command::Sample => for_programs(rt, commands::sample(rt)),
        Command::Plan(words) => for_programs(rt, commands::plan(rt, words)),
        Command::Check(words) => check_files::check(rt, words),
        Command::Explain(words) => commands::explain(rt, threads, words),
        Command::Excerpt(words) => excerpt_files::excerpt(rt, threads, words),
        Command::Verify(words) => commands::verify(rt, threads, words),
        Command::Report(words) => commands::report(rt, threads, words),
        Command::Members(words) => upkeep_files::members(rt, threads, words),
        Command::Age(words) => upkeep_files::age(rt, threads, words),
        Command::ShowFamily(words) => family_files::family(rt, threads, words),
        Command::Route(words) => route_files::route(rt, threads, words),
        Command::Join(words) => join_files::join(rt, threads, words),
        Command::Replies(path) => commands::replies(rt, path),
        Command::Compare(words) => compare::compare(rt, threads, words),
        Command::Settle(words) => settle::settle(rt, words),
    }
}

// Whether the words are understood, one path that stands twice aside.
fn may_name_paths(asked: &Result<Command<'_>, WordsFault>) -> bool {
    match asked {
        Ok(_) | Err(WordsFault::Words(None)) => true,
        Err(_) => false,
    }
}

// The ending of a command that programs call: its line of numbers, and on a terminal the words too.
fn for_programs(rt: &HostRuntime, done: Result<(), Ending>) -> Result<(), Ending> {
    if rt.stderr().is_terminal() {
        return done;
    }
    done.map_err(Ending::without_words)
}

// Whether the words ask for the version, or for the help by `help`, the word after the program's name.
fn asks_for_text(fault: &WordsFault, words: &[String]) -> bool {
    fault.is_version() || fault.is_help() && names_help(words)
}

fn names_help(words: &[String]) -> bool {
    match words.get(1) {
        Some(word) => word.as_str() == "help",
        None => false,
    }
}

// The ending where the words aren't understood: what is wrong with them is printed.
fn misused(rt: &HostRuntime, fault: &WordsFault) -> Ending {
    match fault {
        WordsFault::Words(_) => {
            let _ = eprint!(rt; "{fault}");
            Ending::Misused
        }
        WordsFault::Memory => Ending::Memory,
    }
}

// The words of the command line, the program's name first.
fn words(rt: &HostRuntime) -> Result<Vec<String>, Ending> {
    let given = env::args(rt).map_err(|error| unread(&error))?;
    let mut words = Vec::new(rt.alloc());
    for word in given {
        if words.push(word).is_err() {
            return Err(Ending::Memory);
        }
    }
    Ok(words)
}

// Why the words can't be had.
fn unread(error: &io::Error) -> Ending {
    match error.kind() {
        io::ErrorKind::OutOfMemory => Ending::Memory,
        _ => Ending::NoText,
    }
}
