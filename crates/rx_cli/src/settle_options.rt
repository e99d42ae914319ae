//! The words of `settle`.
ghost use Rattle.std.specs.Prelude.{◌≡◌, IfErr, IfOk, map, option_map};
ghost use Rattle.clap.specs.Words.{all_of, found_of, rows_of};
ghost use Rattle.rx_cli.specs.Asked.{HoldsSettle, NoneHolds};
ghost use Rattle.rx_cli.specs.Faults.{IsWords};
ghost use Rattle.rx_cli.specs.Syntax.{Draws, settle_line};

use crate::draft::Draft;
use crate::fault::WordsFault;
use crate::options::text;
use crate::syntax::draft;
use clap::ArgMatches;
use std::alloc::{AllocError, Global};

/// The words of `settle`.
#[derive(Drop)]
pub struct SettleWords<'a> {
    /// `--response`: the response files, in the order in which they stand.
    pub responses: Vec<&'a str>,
    /// `--provider`: the one provider whose line is printed, if there is one.
    pub provider: Option<&'a str>,
}

/// The subcommand `settle`.
pub(crate) fn settle_line<'a>(alloc: Global) -> Draft<'a>
    ensures { Draws settle_line result }
{
    draft(
        alloc,
        "settle",
        "Prints the settlement of response files, all together",
    )
    .files("response", "Response files, one or more")
    .optional("provider", "ID", "Only the line of this provider")
}

/// The texts of an option that may stand several times.
#[tactic(auto, using(crate::proofs::GivenTexts::raw_rows))]
fn texts<'a>(
    alloc: Global,
    found: &ArgMatches<'a>,
    name: &str,
) -> Result<Option<Vec<&'a str>>, AllocError>
    ensures { IfOk result (λ texts.
        option_map (λ v. map (λ t. t.now) v.items) texts ≡ all_of name.now (rows_of (found_of found.now))) }
{
    let Some(given) = found.get_strs(name) else {
        return Ok(None);
    };
    let mut texts = Vec::with_capacity(alloc, given.len())?;
    texts.extend_from_slice(given)?;
    Ok(Some(texts))
}

/// What `settle` takes.
pub(crate) fn settle<'a>(
    found: &ArgMatches<'a>,
    alloc: Global,
) -> Result<SettleWords<'a>, WordsFault>
    ensures ok { IfOk result (HoldsSettle (rows_of (found_of found.now))) }
    ensures words { IfErr result (λ e. IsWords e → NoneHolds (HoldsSettle (rows_of (found_of found.now)))) }
{
    let provider = text(found, "provider");
    match texts(alloc, found, "response")? {
        Some(responses) => Ok(SettleWords {
            responses,
            provider,
        }),
        None => Err(WordsFault::Words(None)),
    }
}
