//! A command line that is being drawn up.
ghost use Rattle.std.specs.Prelude.{◌≡◌, false, IfOk};
ghost use Rattle.clap.specs.Words.{App, app_of, rule_of, with_rule, with_subcommand};
ghost use Rattle.rx_cli.specs.Syntax.{Draws, IsDrawn, IsLocal, flag, optional_option, positional, repeated_option, required_option};
ghost use Rattle.rx_cli.specs.Syntax.{verbose_flag, workers_option};

use crate::argument;
use clap::{Arg, Command as Line};
use std::alloc::{AllocError, Global};

/// A line as far as it is drawn up. Where memory runs out once, there is no line in the end.
///
/// The line is boxed: each option hands the draft on by value, and a line is large.
#[derive(Drop)]
pub(crate) struct Draft<'a> {
    alloc: Global,
    line: Result<Box<Line<'a>>, AllocError>,
}

impl<'a> Draft<'a> {
    /// The draft that is this line.
    pub(crate) fn of(alloc: Global, line: Line<'a>) -> Draft<'a>
        requires { IsLocal line }
        ensures { Draws (app_of line.entry) result }
    {
        Draft {
            alloc,
            line: boxed(alloc, line),
        }
    }

    /// The line with the option `--name VALUE` too.
    pub(crate) fn option(self, name: &'a str, value: &'a str, help: &'a str) -> Draft<'a>
        ensures { (app : App) → Draws app self.entry → Draws (with_rule app (required_option name.entry.now)) result }
    {
        let option = argument::option(self.alloc, name, value, help);
        self.arg(option)
    }

    /// The line with the option `--name FILE` too.
    pub(crate) fn file(self, name: &'a str, help: &'a str) -> Draft<'a>
        ensures { (app : App) → Draws app self.entry → Draws (with_rule app (required_option name.entry.now)) result }
    {
        self.option(name, "FILE", help)
    }

    /// The line with the option `--name FILE..` too, which may stand several times.
    pub(crate) fn files(self, name: &'a str, help: &'a str) -> Draft<'a>
        ensures { (app : App) → Draws app self.entry → Draws (with_rule app (repeated_option name.entry.now)) result }
    {
        let files = argument::files(self.alloc, name, help);
        self.arg(files)
    }

    /// The line with the option `--name VALUE` too, which may be absent.
    pub(crate) fn optional(self, name: &'a str, value: &'a str, help: &'a str) -> Draft<'a>
        ensures { (app : App) → Draws app self.entry → Draws (with_rule app (optional_option name.entry.now)) result }
    {
        let optional = argument::optional(self.alloc, name, value, help);
        self.arg(optional)
    }

    /// The line with the option `--workers N` too, which may be absent.
    pub(crate) fn workers(self, help: &'a str) -> Draft<'a>
        ensures { (app : App) → Draws app self.entry → Draws (with_rule app workers_option) result }
    {
        self.optional("workers", "N", help)
    }

    /// The line with the flag `--name` too.
    pub(crate) fn flag(self, name: &'a str, help: &'a str) -> Draft<'a>
        ensures { (app : App) → Draws app self.entry → Draws (with_rule app (flag name.entry.now)) result }
    {
        let flag = argument::flag(self.alloc, name, help);
        self.arg(flag)
    }

    /// The line with the flag `-v` or `--verbose` too.
    pub(crate) fn verbose(self, help: &'a str) -> Draft<'a>
        ensures { (app : App) → Draws app self.entry → Draws (with_rule app verbose_flag) result }
    {
        let verbose = argument::verbose(self.alloc, help);
        self.arg(verbose)
    }

    /// The line with VALUE too, without an option.
    pub(crate) fn place(self, name: &'a str, help: &'a str) -> Draft<'a>
        ensures { (app : App) → Draws app self.entry → Draws (with_rule app (positional name.entry.now)) result }
    {
        let place = argument::place(self.alloc, name, help);
        self.arg(place)
    }

    // The line with this argument too.
    fn arg(self, arg: Arg<'a>) -> Draft<'a>
        requires { arg.global ≡ false }
        ensures { (app : App) → Draws app self.entry → Draws (with_rule app (rule_of arg.entry)) result }
    {
        let alloc = self.alloc;
        let line = match self.line {
            Ok(line) => with_arg(alloc, line, arg),
            Err(error) => Err(error),
        };
        Draft { alloc, line }
    }

    /// The line with this subcommand too.
    pub(crate) fn subcommand(self, draft: Draft<'a>) -> Draft<'a>
        ensures { (app sub : App) → Draws app self.entry → Draws sub draft.entry
            → Draws (with_subcommand app sub.top) result }
    {
        let alloc = self.alloc;
        let line = match self.line {
            Ok(line) => with_subcommand(alloc, line, draft),
            Err(error) => Err(error),
        };
        Draft { alloc, line }
    }

    /// The line as it is drawn up.
    pub(crate) fn line(self) -> Result<Box<Line<'a>>, AllocError>
        ensures { (app : App) → Draws app self.entry → IfOk result (λ l. app_of l.value ≡ app) }
    {
        self.line
    }
}

fn boxed<'a>(alloc: Global, line: Line<'a>) -> Result<Box<Line<'a>>, AllocError>
    ensures { IfOk result (λ l. l.value ≡ line.entry) }
{
    Ok(Box::new(alloc, line)?)
}

fn with_arg<'a>(
    alloc: Global,
    line: Box<Line<'a>>,
    arg: Arg<'a>,
) -> Result<Box<Line<'a>>, AllocError>
    requires { arg.global ≡ false }
    ensures { (app : App) → IsDrawn app line.entry → IfOk result (IsDrawn (with_rule app (rule_of arg.entry))) }
{
    boxed(alloc, Box::into_inner(line).arg(arg)?)
}

fn with_subcommand<'a>(
    alloc: Global,
    line: Box<Line<'a>>,
    draft: Draft<'a>,
) -> Result<Box<Line<'a>>, AllocError>
    ensures { (app sub : App) → IsDrawn app line.entry → Draws sub draft.entry
        → IfOk result (IsDrawn (with_subcommand app sub.top)) }
{
    let subcommand = Box::into_inner(draft.line?);
    boxed(alloc, Box::into_inner(line).subcommand(subcommand)?)
}
