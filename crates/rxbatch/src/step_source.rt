//! An input of a run that is watched.
ghost use Rattle.std.specs.Prelude.{◌≡◌, false};

use crate::noted_file::{LastError, NotedFile, noted_input};
use crate::reporter::Reporter;
use rx_io::{Failed, ReaderSource, Source};
use rx_run_log::{Step, Summing, Traffic, Watched};
use std::fs::File;
use std::thread::Threads;

// The fewest bytes that are worth a thread for their sum.
const FEWEST_APART: u64 = 100_000;

/// How the sum of an input is made.
#[derive(Clone, Copy)]
pub enum Sums {
    /// There is none.
    Unasked,
    /// As the input is read.
    AsRead,
    /// By a thread of its own, from when its end was read.
    Apart,
}

impl Sums {
    /// Whether there is one.
    pub fn is_asked(self) -> bool {
        !matches!(self, Sums::Unasked)
    }
}

/// An input of a run, whose step is reported when its end is read.
#[derive(Drop)]
pub struct StepSource<'a, R> {
    source: Watched<'a, ReaderSource<NotedFile<'a>>, HostRuntime>,
    threads: &'a R,
    step: Step,
    reporter: &'a Reporter<'a>,
    // The sum that a thread makes.
    summing: Option<Summing>,
}

impl<'a, R: Threads> StepSource<'a, R> {
    /// The file, of which nothing was read, with the place where the system's answer is noted.
    pub fn new(
        rt: &'a HostRuntime,
        threads: &'a R,
        file: &'a File,
        last: &'a LastError,
        step: Step,
        reporter: &'a Reporter<'a>,
        sums: Sums,
    ) -> StepSource<'a, R>
        ensures { ⟦<StepSource<'a, R> as Source>⟧.failed result ≡ false }
    {
        let input = noted_input(file, last);
        let source = match sums {
            Sums::Unasked => Watched::new(input, rt, false),
            Sums::AsRead => Watched::new(input, rt, true),
            Sums::Apart => {
                let room = input.hint().unwrap_or(0);
                Watched::keeping(rt.alloc(), input, rt, room)
            }
        };
        StepSource {
            source,
            threads,
            step,
            reporter,
            summing: None,
        }
    }

    /// What passed, and its sum, where a thread makes it; the device is dropped.
    pub fn into_traffic(self) -> (Traffic, Option<Summing>) {
        let StepSource {
            source,
            summing,
            ..
        } = self;
        (source.into_traffic(), summing)
    }
}

impl<'a, R: Threads> Source for StepSource<'a, R> {
    ghost left = { λ s. ⟦<Watched<'a, ReaderSource<NotedFile<'a>>, HostRuntime> as Source>⟧.left s.source };

    ghost failed = { λ s. ⟦<Watched<'a, ReaderSource<NotedFile<'a>>, HostRuntime> as Source>⟧.failed s.source };

    ghost reads = { λ s. ⟦<Watched<'a, ReaderSource<NotedFile<'a>>, HostRuntime> as Source>⟧.reads s.source };

    ghost cramped = { λ s. ⟦<Watched<'a, ReaderSource<NotedFile<'a>>, HostRuntime> as Source>⟧.cramped s.source };

    fn hint(&self) -> Option<usize> {
        self.source.hint()
    }

    fn read(&mut self, buffer: &mut [u8]) -> Result<usize, Failed> {
        let count = self.source.read(buffer)?;
        if count == 0 {
            self.reporter.report_input(self.step, self.source.traffic());
            if self.source.traffic().bytes() >= FEWEST_APART {
                if let Some(text) = self.source.take_kept() {
                    self.summing = Some(Summing::begin(self.threads, text));
                }
            }
        }
        Ok(count)
    }
}
