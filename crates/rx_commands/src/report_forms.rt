ghost use Rattle.std.specs.Prelude.{◌≡◌, ◌==◌, IfErr, IfOk, Ok, length, not};
ghost use Rattle.rx_commands.specs.Adjudicated.{IsAdjudicated};
ghost use Rattle.rx_commands.specs.Forms.{HasWhys, IsPrintedReport, IsReportText, IsText, head_of};
ghost use Rattle.rx_commands.specs.Own.{IsOwnReportText};
ghost use Rattle.rx_commands.specs.Reported.{IsCounted};
ghost use Rattle.rx_report_text.specs.ClaimsShown.{shows_claims};
ghost use Rattle.rx_commands.specs.Tiers.{table_of_text};
ghost use Rattle.rx_switch.specs.Planned.{IsNotPlanned};

use crate::batch_report::{Report, job_report};
use crate::own_records::own_part;
use crate::replay::Adjudicated;
use crate::tiers::Tiers;
use crate::whys::whys_of;
use rx_fields::{Memory, Stamp};
use rx_io::Inputs;
use rx_report::{Account, Groups, Line, Portion, account_of, claims_json, kept_lines, tsv_text};
use rx_report_text::{
    Origin, PageHead, Whys, account_json, columns_text, explained_page, shows_claims,
};
use rx_switch::SwitchFault;
use std::alloc::Global;
use std::thread::Threads;

/// What a report is written as.
#[derive(Clone, Copy)]
pub enum Form<'a> {
    /// Aligned columns.
    Columns,
    /// A line for each answer, with a tab between fields.
    Tsv,
    /// JSON.
    Json,
    /// JSON, an object a line.
    Jsonl,
    /// One HTML page, on which each claim unfolds to why it was answered so; at its head it says this origin.
    Html(Origin<'a>),
}

/// What `report` prints, and whether a line is in it: a portion may have none.
#[derive(Drop)]
pub struct PrintedReport {
    pub text: Vec<u8>,
    pub has_lines: bool,
}

/// What `report` prints: a line for each answer of a portion of a batch, by provider, with what they come to, and the stamp
/// of the run, where it is given. The batch is adjudicated one record after another in file order. It starts no thread.
///
/// # Errors
///
/// The first, in this order, of Sheet, Books and Batch; Memory may stand in place of any other answer.
pub fn report<R: Threads + Sync>(
    rt: &R,
    alloc: Global,
    inputs: &Inputs<&[u8]>,
    portion: Portion<'_>,
    form: Form<'_>,
    stamp: Option<Stamp>,
) -> Result<PrintedReport, SwitchFault>
    ensures reported { let given = inputs.now in IfOk result
        (IsReportText given.sheet.now given.books.now given.batch.now stamp portion.entry form.entry) }
    ensures refused { let given = inputs.now in
        IfErr result (λ fault. IsNotPlanned given.sheet.now given.books.now given.batch.now fault) }
{
    let report = job_report(rt, alloc, inputs, stamp)?;
    let printed = text_in_form(alloc, portion, form, inputs.sheet, &report);
    drop(report);
    Ok(printed?)
}

/// The same of a plan's own records: in a batch of several plans those that name it, by the BIN and the processor control
/// number of their headers (docs/FORMATS.md, "Several plans"). Each line has its place in the whole batch; what others are
/// answered isn't counted.
///
/// # Errors
///
/// The first, in this order, of Sheet, Books and Batch; Memory may stand in place of any other answer.
pub fn report_own<R: Threads + Sync>(
    rt: &R,
    alloc: Global,
    inputs: &Inputs<&[u8]>,
    portion: Portion<'_>,
    form: Form<'_>,
    stamp: Option<Stamp>,
) -> Result<PrintedReport, SwitchFault>
    ensures reported { let given = inputs.now in IfOk result
        (IsOwnReportText given.sheet.now given.books.now given.batch.now stamp portion.entry form.entry) }
    ensures refused { let given = inputs.now in
        IfErr result (λ fault. IsNotPlanned given.sheet.now given.books.now given.batch.now fault) }
{
    let whole = job_report(rt, alloc, inputs, stamp)?;
    let own = own_part(alloc, whole)?;
    let printed = text_in_form(alloc, portion, form, inputs.sheet, &own);
    drop(own);
    Ok(printed?)
}

// The text of a portion in a form, with the tiers of the sheet's text, and whether the portion has lines.
fn text_in_form(
    alloc: Global,
    portion: Portion<'_>,
    form: Form<'_>,
    sheet: &[u8],
    report: &Report,
) -> Result<PrintedReport, Memory>
    requires adjudicated { IsAdjudicated report.now.batch }
    requires counted { IsCounted report.now }
    ensures { IfOk result (IsPrintedReport portion.entry form.entry (table_of_text sheet.now) report.now) }
{
    let kept = kept_lines(alloc, portion, &report.lines)?;
    let groups = Groups::new(alloc, &kept)?;
    let account = account_of(alloc, portion, &report.settled, &kept, &groups)?;
    let text = text_of_account(alloc, portion, form, sheet, report, &kept, &account);
    with_lines(text, &kept)
}

// The text, and whether there are lines.
fn with_lines(text: Result<Vec<u8>, Memory>, kept: &[Line]) -> Result<PrintedReport, Memory>
    ensures { IfOk result (λ printed. (printed.has_lines ≡ not (length kept.now == 0)) × (text ≡ Ok printed.text)) }
{
    match text {
        Ok(text) => Ok(PrintedReport {
            text,
            has_lines: !kept.is_empty(),
        }),
        Err(refused) => Err(refused),
    }
}

// The text of lines and their account.
fn text_of_account(
    alloc: Global,
    portion: Portion<'_>,
    form: Form<'_>,
    sheet: &[u8],
    report: &Report,
    kept: &[Line],
    account: &Account<'_>,
) -> Result<Vec<u8>, Memory>
    requires { IsAdjudicated report.now.batch }
    ensures { IfOk result (λ text.
        IsText portion.entry form.entry (table_of_text sheet.now) report.now kept.now account.now text.items) }
{
    let batch = &report.batch;
    match form {
        Form::Tsv => tsv_text(alloc, batch.lot, report.stamp, kept),
        Form::Columns => columns_text(alloc, report.stamp, portion, account),
        Form::Json => account_json(alloc, batch.lot, report.stamp, portion, account),
        Form::Jsonl => claims_json(alloc, batch.lot, report.stamp, kept),
        Form::Html(origin) => {
            let whys = whys_shown(alloc, sheet, batch, kept, shows_claims(portion, account))?;
            explained_page(alloc, &head_of(report, origin), portion, account, &whys)
        }
    }
}

/// What the page of a report says at its head.
pub(crate) fn head_of<'a>(report: &Report, origin: Origin<'a>) -> PageHead<'a>
    ensures { result ≡ head_of report.now origin.entry }
{
    PageHead {
        lot: report.batch.lot,
        stamp: report.stamp,
        door: *report.batch.sheet.door(),
        origin,
    }
}

/// Why the answers of these lines were given, where they are shown.
pub(crate) fn whys_shown(
    alloc: Global,
    sheet: &[u8],
    batch: &Adjudicated,
    kept: &[Line],
    are_shown: bool,
) -> Result<Whys, Memory>
    requires { IsAdjudicated batch.now }
    ensures { IfOk result (HasWhys are_shown (table_of_text sheet.now) batch.now kept.now) }
{
    if !are_shown {
        return Ok(Whys::new(alloc));
    }
    let tiers = Tiers::read(alloc, sheet)?;
    whys_of(alloc, batch, &tiers, kept)
}
