//! What the commands that retrace a run are asked to do.

use crate::given::{ComparedFiles, GivenInputs};

/// What `explain` is asked after.
#[derive(Clone, Copy)]
pub enum Asked<'a> {
    /// `--record PLACE[.NTH]`, as it was written.
    Record(&'a str),
    /// `--number AUTHORIZATION`, as it was written.
    Number(&'a str),
    /// `--rx REFERENCE`, of each provider or of the one that `--provider ID` names, as they were written.
    Rx {
        reference: &'a str,
        provider: Option<&'a str>,
    },
}

/// The words of `explain`.
#[derive(Clone, Copy)]
pub struct ExplainWords<'a> {
    pub inputs: GivenInputs<'a>,
    /// `--record`, `--number` or `--rx`.
    pub asked: Asked<'a>,
    /// `--response`: the response file that is compared, if there is one.
    pub response: Option<&'a str>,
    /// `--json`: the answer in JSON.
    pub json: bool,
    /// `--all`: all claims of a sum, and not only the largest.
    pub all: bool,
    /// `--for-provider ID`: the pharmacy that the text is for, if it is for one.
    pub for_provider: Option<&'a str>,
}

/// The words of `verify`.
#[derive(Clone, Copy)]
pub struct VerifyWords<'a> {
    pub files: ComparedFiles<'a>,
    /// `--stamp`, as it was written.
    pub stamp: &'a str,
    /// `--workers`, 0 to 65535; 1 where it doesn't stand.
    pub workers: u16,
    /// `--plain`: adjudicate over plain lists, one record after another.
    pub plain: bool,
    /// `--desk`: hand the records out to the workers one by one.
    pub desk: bool,
}

/// Which lines a report has.
#[derive(Clone, Copy, PartialEq, Eq)]
pub enum Portion<'a> {
    /// All of them.
    Whole,
    /// `--provider ID`: those of one provider.
    Provider(&'a str),
    /// `--family ID`: those of one family.
    Family(&'a str),
    /// `--for-provider ID`: those of one provider, as it may see them.
    ForProvider(&'a str),
}

/// What a report is written as.
#[derive(Clone, Copy)]
pub enum Form<'a> {
    /// Aligned columns.
    Columns,
    /// `--tsv`: a tab between fields.
    Tsv,
    /// `--json`.
    Json,
    /// `--jsonl`: JSON, an object a line.
    Jsonl,
    /// `--html`: one page.
    Html,
    /// `--html-dir DIR`: a page for each provider, and one that leads to them, in this folder.
    HtmlDir(&'a str),
}

/// The words of `report`.
#[derive(Clone, Copy)]
pub struct ReportWords<'a> {
    pub inputs: GivenInputs<'a>,
    pub portion: Portion<'a>,
    pub form: Form<'a>,
    /// `--stamp`, as it was written; whether it is a stamp is the report's to say.
    pub stamp: Option<&'a str>,
}
