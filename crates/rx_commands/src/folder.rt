ghost use Rattle.std.specs.Prelude.{IfErr, IfOk};
ghost use Rattle.rx_commands.specs.Adjudicated.{IsAdjudicated};
ghost use Rattle.rx_commands.specs.Folder.{ArePages, IsPrintedFolder, IsReportFolder};
ghost use Rattle.rx_commands.specs.Reported.{HasContents};
ghost use Rattle.rx_commands.specs.Tiers.{table_of_text};
ghost use Rattle.rx_switch.specs.Planned.{IsNotPlanned};

use crate::batch_report::{Report, job_report};
use crate::report_forms::{head_of, whys_shown};
use rx_fields::{Memory, Stamp};
use rx_io::Inputs;
use rx_report::{Account, Groups, Line, Portion, account_of, by_net, kept_lines};
use rx_report_text::{MOST_LINES, Origin, PageFile, folder_pages};
use rx_switch::SwitchFault;
use std::alloc::Global;
use std::thread::Threads;

/// The pages that `report --html-dir` writes, and whether there is a line on them.
#[derive(Drop)]
pub struct PrintedFolder {
    /// First the page that leads to the others, then each provider's.
    pub pages: Vec<PageFile>,
    pub has_lines: bool,
}

/// The report of a portion of a batch as pages of a folder: a page for each provider, with its lines only, and one that leads
/// to them, the greatest net first; each says the stamp of the run, where it is given. Up to `MOST_LINES` lines each has why it was answered so, else the command that says it.
/// The batch is adjudicated once, one record after another in file order. It starts no thread.
///
/// # Errors
///
/// The first, in this order, of Sheet, Books and Batch; Memory may stand in place of any other answer.
pub fn report_folder<R: Threads + Sync>(
    rt: &R,
    alloc: Global,
    origin: Origin<'_>,
    inputs: &Inputs<&[u8]>,
    portion: Portion<'_>,
    stamp: Option<Stamp>,
) -> Result<PrintedFolder, SwitchFault>
    ensures refused { let given = inputs.now in
        IfErr result (λ fault. IsNotPlanned given.sheet.now given.books.now given.batch.now fault) }
    ensures reported { let given = inputs.now in IfOk result
        (IsReportFolder given.sheet.now given.books.now given.batch.now stamp portion.entry origin.entry) }
{
    let report = job_report(rt, alloc, inputs, stamp)?;
    let printed = folder_of(alloc, &report, portion, origin, inputs.sheet);
    drop(report);
    Ok(printed?)
}

// The pages of a portion, with the tiers of the sheet's text.
fn folder_of(
    alloc: Global,
    report: &Report,
    portion: Portion<'_>,
    origin: Origin<'_>,
    sheet: &[u8],
) -> Result<PrintedFolder, Memory>
    requires counted { HasContents report.now.batch.asked.items report.now.batch.replies.items report.now }
    requires adjudicated { IsAdjudicated report.now.batch }
    ensures { IfOk result (IsPrintedFolder portion.entry origin.entry (table_of_text sheet.now) report.now) }
{
    let kept = kept_lines(alloc, portion, &report.lines)?;
    let groups = Groups::new(alloc, &kept)?;
    let account = account_of(alloc, portion, &report.settled, &kept, &groups)?;
    let account = by_net(account)?;
    pages_of(alloc, portion, origin, &account, &kept, report, sheet)
}

// The pages of lines and their account.
fn pages_of(
    alloc: Global,
    portion: Portion<'_>,
    origin: Origin<'_>,
    account: &Account<'_>,
    kept: &[Line],
    report: &Report,
    sheet: &[u8],
) -> Result<PrintedFolder, Memory>
    requires { IsAdjudicated report.now.batch }
    ensures { IfOk result
        (ArePages portion.entry origin.entry (table_of_text sheet.now) report.now kept.now account.now) }
{
    let whys = whys_shown(alloc, sheet, &report.batch, kept, kept.len() <= MOST_LINES)?;
    let pages = folder_pages(alloc, &head_of(report, origin), account, portion, &whys)?;
    Ok(PrintedFolder {
        pages,
        has_lines: !kept.is_empty(),
    })
}
