// What no clause says: which refusal a run on devices answers.
ghost use Rattle.std.specs.Prelude.{◌≡◌, false};

use crate::same::same;
use rx_io::{SliceSource, Source, VecSink};
use rx_switch::{Device, Inputs, IoFault, Outputs, run_io};
use rx_wave::NoGate;
use std::alloc::Global;
use std::sync::Wait;
use std::thread::Threads;

const STAMP: &[u8] = b"202603010930";

// What a run with empty books answers.
fn run_on<'a, R: Threads + Wait + Sync>(
    rt: &R,
    alloc: Global,
    stamp: &[u8],
    workers: u16,
    sheet: SliceSource<'a>,
    batch: SliceSource<'a>,
) -> Result<(), IoFault>
    requires sheet { ⟦<SliceSource<'a> as Source>⟧.failed sheet ≡ false }
    requires batch { ⟦<SliceSource<'a> as Source>⟧.failed batch ≡ false }
{
    let mut sources = Inputs {
        sheet,
        books: SliceSource::new(b"", 1),
        batch,
    };
    let mut sinks = Outputs {
        response: VecSink::new(alloc, 7),
        books: VecSink::new(alloc, 7),
        settlement: VecSink::new(alloc, 7),
    };
    run_io(
        rt,
        alloc,
        &NoGate,
        stamp,
        workers,
        false,
        &mut sources,
        &mut sinks,
    )
}

#[test]
fn tells_a_failed_sheet_before_the_workers(rt: HostRuntime) {
    let sheet = SliceSource::new(b"bin", 1).failing_after(2);
    let answer = run_on(&rt, rt.alloc(), STAMP, 65, sheet, SliceSource::new(b"", 1));
    same(&rt, answer, Err(IoFault::Read(Device::Sheet)));
}

// One byte a read: the first isn't a batch's, the third read fails.
#[test]
fn reads_on_after_a_fault_of_the_batch(rt: HostRuntime) {
    let batch = SliceSource::new(b"X\x02", 1).failing_after(2);
    let answer = run_on(&rt, rt.alloc(), STAMP, 1, SliceSource::new(b"", 1), batch);
    same(&rt, answer, Err(IoFault::Read(Device::Batch)));
}
