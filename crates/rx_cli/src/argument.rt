//! The arguments of a command line, as `clap` has them.
ghost use Rattle.std.specs.Prelude.{◌≡◌, false};
ghost use Rattle.clap.specs.Words.{rule_of};
ghost use Rattle.rx_cli.specs.Syntax.{flag, optional_option, positional, repeated_option, required_option, verbose_flag};

use clap::{Arg, ArgAction};
use std::alloc::Global;

/// The option `--name VALUE`.
pub(crate) fn option<'a>(alloc: Global, name: &'a str, value: &'a str, help: &'a str) -> Arg<'a>
    ensures rule { rule_of result ≡ required_option name.entry.now }
    ensures local { result.global ≡ false }
{
    Arg::new(alloc, name)
        .long(name)
        .value_name(value)
        .required(true)
        .help(help)
}

/// The option `--name VALUE`, which may be absent.
pub(crate) fn optional<'a>(alloc: Global, name: &'a str, value: &'a str, help: &'a str) -> Arg<'a>
    ensures rule { rule_of result ≡ optional_option name.entry.now }
    ensures local { result.global ≡ false }
{
    option(alloc, name, value, help).required(false)
}

/// The option `--name FILE..`, which may stand several times.
pub(crate) fn files<'a>(alloc: Global, name: &'a str, help: &'a str) -> Arg<'a>
    ensures rule { rule_of result ≡ repeated_option name.entry.now }
    ensures local { result.global ≡ false }
{
    option(alloc, name, "FILE", help)
        .action(ArgAction::Append)
        .num_args(1..)
}

/// The flag `--name`.
pub(crate) fn flag<'a>(alloc: Global, name: &'a str, help: &'a str) -> Arg<'a>
    ensures rule { rule_of result ≡ flag name.entry.now }
    ensures local { result.global ≡ false }
{
    Arg::new(alloc, name)
        .long(name)
        .action(ArgAction::SetTrue)
        .help(help)
}

/// The flag `-v` or `--verbose`.
pub(crate) fn verbose<'a>(alloc: Global, help: &'a str) -> Arg<'a>
    ensures rule { rule_of result ≡ verbose_flag }
    ensures local { result.global ≡ false }
{
    flag(alloc, "verbose", help).short('v')
}

/// VALUE, without an option.
pub(crate) fn place<'a>(alloc: Global, name: &'a str, help: &'a str) -> Arg<'a>
    ensures rule { rule_of result ≡ positional name.entry.now }
    ensures local { result.global ≡ false }
{
    Arg::new(alloc, name)
        .value_name(name)
        .required(true)
        .help(help)
}
