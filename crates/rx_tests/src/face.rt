//! A run on a caller's own devices, at its own gate, through `rx_switch` only, which has every name that this takes.
ghost use Rattle.std.specs.Prelude.{◌≡◌, false};

use crate::one_billing::STAMP;
use crate::same::same;
use rx_switch::{
    Device, Failed, Gate, Inputs, IoFault, Outputs, SheetFault, SheetKey, Sink, Source,
    SwitchFault, run_io, told,
};
use std::alloc::Global;
use std::sync::Wait;
use std::thread::Threads;

// A device without a byte.
#[derive(Drop)]
struct Empty;

impl Source for Empty {
    ghost use Rattle.std.specs.Prelude.{None, false};

    ghost left = { λ _. None };

    ghost failed = { λ _. false };

    ghost reads = { λ _. 0 };

    ghost cramped = { λ _. false };

    fn read(&mut self, _buffer: &mut [u8]) -> Result<usize, Failed> {
        Ok(0)
    }
}

// A device that takes every piece whole.
#[derive(Drop)]
struct Takes;

impl Sink for Takes {
    ghost use Rattle.std.specs.Prelude.{None, false};

    ghost written = { λ _. None };

    ghost failed = { λ _. false };

    fn write(&mut self, piece: &[u8]) -> Result<usize, Failed> {
        Ok(piece.len())
    }
}

// A gate that starts each worker, and shares the records at a desk.
struct Opens;

impl Gate for Opens {
    ghost use Rattle.std.specs.Prelude.{true};

    ghost starts = { λ _ _. true };

    fn start(&self, _worker: usize) -> bool {
        true
    }

    fn enter(&self, _place: usize) {}

    fn leave(&self, _place: usize) {}
}

// What a run on these devices answers.
fn ran_on<R: Threads + Wait + Sync, S: Source + Drop>(
    rt: &R,
    alloc: Global,
    sheet: S,
) -> Result<(), IoFault>
    requires { S.failed sheet ≡ false }
{
    let mut inputs = Inputs {
        sheet,
        books: Empty,
        batch: Empty,
    };
    let mut outputs = Outputs {
        response: Takes,
        books: Takes,
        settlement: Takes,
    };
    run_io(
        rt,
        alloc,
        &Opens,
        STAMP,
        2,
        false,
        &mut inputs,
        &mut outputs,
    )
}

// A device whose first read fails.
#[derive(Drop)]
struct Broken {
    failed: bool,
}

impl Source for Broken {
    ghost use Rattle.std.specs.Prelude.{None, false};

    ghost left = { λ _. None };

    ghost failed = { λ source. source.failed };

    ghost reads = { λ _. 0 };

    ghost cramped = { λ _. false };

    fn read(&mut self, _buffer: &mut [u8]) -> Result<usize, Failed> {
        self.failed = true;
        Err(Failed)
    }
}

#[test]
fn devices_are_a_callers_own(rt: HostRuntime) {
    let fault = IoFault::Switch(SwitchFault::Sheet(SheetFault::Missing(SheetKey::Bin)));
    same(&rt, ran_on(&rt, rt.alloc(), Empty), Err(fault));
    same(&rt, told(&fault).numbers, [3, 2, 1]);
    let fault = IoFault::Read(Device::Sheet);
    same(
        &rt,
        ran_on(&rt, rt.alloc(), Broken { failed: false }),
        Err(fault),
    );
    same(&rt, told(&fault).status, 3);
}
