//! What a run says on standard error while it goes on.
use crate::settings::RunSettings;
use crate::watched_run::peak;
use rx_run_log::{
    RunReport, RunTimes, RunTraffic, Shards, Step, Totals, Traffic, details_in, done_line,
    input_report, micros_between, progress_line, shards_line, step_line,
};
use rx_wave::{Deal, Gate};
use std::alloc::AllocError;
use std::io::Write;
use std::sync::atomic::{AtomicU64, Ordering};
use std::time::{Clock, Duration};

// Progress is reported from this many milliseconds on, and again after this many at the soonest.
const FIRST: u64 = 1_000;

const BETWEEN: u64 = 200;

// After how many records the clock is looked at.
const LOOKED_AT: u64 = 64;

/// What reports a run, where that is asked for: its steps, and how many of its records are adjudicated.
#[derive(Drop)]
pub struct Reporter<'a> {
    rt: &'a HostRuntime,
    is_asked: bool,
    reports_end: bool,
    at_desk: bool,
    begin: Option<Duration>,
    // The details of the batch file.
    records: AtomicU64,
    // How many of them are adjudicated.
    adjudicated: AtomicU64,
    // When progress was reported last, in milliseconds from the begin.
    last_report: AtomicU64,
    // How many shards the batch was dealt out in, 0 where it wasn't, and the transactions of the largest and of all.
    shards: AtomicU64,
    largest: AtomicU64,
    transactions: AtomicU64,
}

impl<'a> Reporter<'a> {
    /// Of a run that begins now.
    pub fn new(rt: &'a HostRuntime, words: &RunSettings<'_>) -> Reporter<'a> {
        Reporter {
            rt,
            is_asked: words.manner.verbose,
            reports_end: words.manner.reports_end,
            at_desk: words.manner.desk,
            begin: rt.monotonic().ok(),
            records: AtomicU64::new(0),
            adjudicated: AtomicU64::new(0),
            last_report: AtomicU64::new(0),
            shards: AtomicU64::new(0),
            largest: AtomicU64::new(0),
            transactions: AtomicU64::new(0),
        }
    }

    /// How the batch was dealt out, where it was.
    pub fn shards(&self) -> Option<Shards> {
        match self.shards.load(Ordering::SeqCst) {
            0 => None,
            count => Some(Shards {
                count,
                largest: self.largest.load(Ordering::SeqCst),
                transactions: self.transactions.load(Ordering::SeqCst),
            }),
        }
    }

    /// When the run began.
    pub fn begin(&self) -> Option<Duration> {
        self.begin
    }

    /// Reports the step of an input that was read to its end.
    pub fn report_input(&self, step: Step, input: &Traffic) {
        if step == Step::Batch {
            self.records.store(details_in(input), Ordering::SeqCst);
        }
        self.report_line(step_line(self.rt.alloc(), &input_report(step, input)));
    }

    /// Reports the later steps of a run that is done, and its end.
    pub fn report_done(&self, traffic: &RunTraffic, times: RunTimes) {
        for report in &traffic.later_reports(times) {
            self.report_line(step_line(self.rt.alloc(), report));
        }
        let run = RunReport {
            totals: Totals::of_settlement(traffic.outputs.settlement.end()),
            peak: peak(self.rt).and_then(|kilobytes| kilobytes.checked_mul(1_024)),
            micros: micros_between(times.begin, times.end),
        };
        if self.reports_end {
            self.write(done_line(self.rt.alloc(), &run));
        }
    }

    // Reports how many records are adjudicated, where it is time for that.
    fn report_progress(&self, adjudicated: u64) {
        let Some(micros) = micros_between(self.begin, self.rt.monotonic().ok()) else {
            return;
        };
        let now = micros / 1_000;
        let last_report = self.last_report.load(Ordering::SeqCst);
        if now < FIRST || now.saturating_sub(last_report) < BETWEEN {
            return;
        }
        let is_ours = self
            .last_report
            .compare_exchange(last_report, now, Ordering::SeqCst, Ordering::SeqCst)
            .is_ok();
        if is_ours {
            let records = self.records.load(Ordering::SeqCst);
            self.report_line(progress_line(self.rt.alloc(), adjudicated, records));
        }
    }

    // Writes a line to standard error, where the steps are to be reported.
    fn report_line(&self, line: Result<Vec<u8>, AllocError>) {
        if self.is_asked {
            self.write(line);
        }
    }

    // What can't be reported on standard error isn't reported.
    fn write(&self, line: Result<Vec<u8>, AllocError>) {
        if let Ok(line) = line {
            let _ = self.rt.stderr().write_all(line.as_slice());
        }
    }
}

/// It starts every worker, and counts the records that leave.
impl Gate for Reporter<'_> {
    ghost use Rattle.std.specs.Prelude.{true};

    ghost starts = { λ _ _. true };

    fn start(&self, _worker: usize) -> bool {
        true
    }

    fn enter(&self, _place: usize) {}

    fn leave(&self, _place: usize) {
        if self.is_asked {
            let before = self.adjudicated.fetch_add(1, Ordering::SeqCst);
            let adjudicated = before.saturating_add(1);
            if adjudicated % LOOKED_AT == 0 {
                self.report_progress(adjudicated);
            }
        }
    }

    fn deal(&self, deal: &Deal) {
        self.shards.store(deal.shards as u64, Ordering::SeqCst);
        self.largest.store(deal.largest, Ordering::SeqCst);
        self.transactions.store(deal.transactions, Ordering::SeqCst);
        if let Some(shards) = self.shards() {
            self.report_line(shards_line(self.rt.alloc(), &shards));
        }
    }

    // It counts, which takes less time than the record.
    fn holds_up(&self) -> bool {
        self.at_desk
    }
}
