//! The worked case failing-devices (tests/cases/README.md): the run of one-billing on devices that fail at their nth
//! call, and on a sheet without an end; and the same run over the bytes themselves.
ghost use Rattle.std.specs.Prelude.{◌≡◌, ◌≤◌, false};

use crate::one_billing::{BATCH, BOOKS, END_BOOKS, RESPONSE, SETTLEMENT, SHEET, STAMP};
use crate::same::same;
use rx_io::{Failed, Sink, SliceSource, Source, VecSink};
use rx_switch::{Device, Inputs, IoFault, Outputs, run_io};
use rx_wave::NoGate;
use std::alloc::Global;
use std::process::Abort;
use std::sync::Wait;
use std::thread::Threads;

// What is wrong with the devices of a run.
#[derive(Clone, Copy)]
enum Flaw {
    Nothing,
    // The device fails after this many calls.
    FailsAfter(Device, usize),
    // The output takes no byte.
    TakesNothing(Device),
}

// The devices of a run.
#[derive(Clone, Copy)]
struct Devices {
    // The most bytes that they pass a call.
    most: usize,
    flaw: Flaw,
    ghost passes_some: { 1 ≤ most },
}

impl Devices {
    fn source<'a>(self, bytes: &'a [u8], device: Device) -> SliceSource<'a>
        ensures { ⟦<SliceSource<'a> as Source>⟧.failed result ≡ false }
    {
        let source = SliceSource::new(bytes, self.most);
        match self.flaw {
            Flaw::FailsAfter(broken, calls) if broken == device => source.failing_after(calls),
            _ => source,
        }
    }

    fn sink(self, alloc: Global, device: Device) -> VecSink
        ensures { ⟦<VecSink as Sink>⟧.failed result ≡ false }
    {
        match self.flaw {
            Flaw::FailsAfter(broken, calls) if broken == device => {
                VecSink::new(alloc, self.most).failing_after(calls)
            }
            Flaw::TakesNothing(broken) if broken == device => VecSink::new(alloc, 0),
            _ => VecSink::new(alloc, self.most),
        }
    }
}

// A sheet without an end, a byte a call.
#[derive(Drop)]
struct Endless;

impl Source for Endless {
    ghost use Rattle.std.specs.Prelude.{None, false};

    ghost left = { λ _. None };

    ghost failed = { λ _. false };

    ghost reads = { λ _. 0 };

    ghost cramped = { λ _. false };

    fn read(&mut self, buffer: &mut [u8]) -> Result<usize, Failed> {
        Ok(buffer.len().min(1))
    }
}

// What a run answered and wrote.
#[derive(Drop)]
struct Ran {
    answer: Result<(), IoFault>,
    written: Outputs<VecSink>,
}

// The case on such devices, and this one for the sheet.
fn run_on<R: Threads + Wait + Sync, S: Source + Drop>(
    rt: &R,
    alloc: Global,
    devices: Devices,
    sheet: S,
) -> Ran
    requires { S.failed sheet ≡ false }
{
    let mut inputs = Inputs {
        sheet,
        books: devices.source(BOOKS, Device::Books),
        batch: devices.source(BATCH, Device::Batch),
    };
    let mut written = Outputs {
        response: devices.sink(alloc, Device::Response),
        books: devices.sink(alloc, Device::EndBooks),
        settlement: devices.sink(alloc, Device::Settlement),
    };
    let answer = run_io(
        rt,
        alloc,
        &NoGate,
        STAMP,
        1,
        false,
        &mut inputs,
        &mut written,
    );
    Ran { answer, written }
}

// The case answers this on such devices, and writes these texts.
fn writes<R: Threads + Wait + Sync + Abort>(
    rt: &R,
    alloc: Global,
    devices: Devices,
    answer: Result<(), IoFault>,
    texts: [&[u8]; 3],
) {
    let sheet = devices.source(SHEET, Device::Sheet);
    let ran = run_on(rt, alloc, devices, sheet);
    same(rt, ran.answer, answer);
    let [response, end_books, settlement] = texts;
    same(rt, ran.written.response.bytes(), response);
    same(rt, ran.written.books.bytes(), end_books);
    same(rt, ran.written.settlement.bytes(), settlement);
}

// The texts that are written where this device fails after this many bytes: where it is an input, none; where it is an
// output, those before it whole, and this many bytes of its own.
fn written_before(rt: &impl Abort, device: Device, bytes: usize) -> [&'static [u8]; 3] {
    match device {
        Device::Sheet | Device::Books | Device::Batch => [b"", b"", b""],
        Device::Response => [front(rt, RESPONSE, bytes), b"", b""],
        Device::EndBooks => [RESPONSE, front(rt, END_BOOKS, bytes), b""],
        Device::Settlement => [RESPONSE, END_BOOKS, front(rt, SETTLEMENT, bytes)],
    }
}

fn front(rt: &impl Abort, text: &'static [u8], bytes: usize) -> &'static [u8] {
    text.get(..bytes).expect(rt, "so many bytes")
}

const WHOLE: [&[u8]; 3] = [RESPONSE, END_BOOKS, SETTLEMENT];

// The device can fail at this many calls, and no more.
fn fails_at_each<R: Threads + Wait + Sync + Abort>(
    rt: &R,
    alloc: Global,
    most: usize,
    device: Device,
    calls: usize,
)
    requires { 1 ≤ most }
{
    let fault = match device {
        Device::Sheet | Device::Books | Device::Batch => IoFault::Read(device),
        _ => IoFault::Write(device),
    };
    for nth in 0..calls {
        let flaw = Flaw::FailsAfter(device, nth);
        let texts = written_before(rt, device, nth.saturating_mul(most));
        writes(rt, alloc, Devices { most, flaw }, Err(fault), texts);
    }
    let flaw = Flaw::FailsAfter(device, calls);
    writes(rt, alloc, Devices { most, flaw }, Ok(()), WHOLE);
}

// Devices that pass this many bytes a call: without a failure, and each failing at this many calls.
fn fail_at<R: Threads + Wait + Sync + Abort>(
    rt: &R,
    alloc: Global,
    most: usize,
    calls: &[(Device, usize)],
)
    requires { 1 ≤ most }
{
    let flaw = Flaw::Nothing;
    writes(rt, alloc, Devices { most, flaw }, Ok(()), WHOLE);
    for &(device, calls) in calls {
        fails_at_each(rt, alloc, most, device, calls);
    }
}

#[test]
fn fails_at_each_call_of_a_byte(rt: HostRuntime) {
    let calls = [
        (Device::Sheet, 335),
        (Device::Books, 165),
        (Device::Batch, 327),
        (Device::Response, 302),
        (Device::EndBooks, 274),
        (Device::Settlement, 77),
    ];
    fail_at(&rt, rt.alloc(), 1, &calls);
}

#[test]
fn fails_at_each_call_of_seven_bytes(rt: HostRuntime) {
    let calls = [
        (Device::Sheet, 49),
        (Device::Books, 25),
        (Device::Batch, 48),
        (Device::Response, 44),
        (Device::EndBooks, 40),
        (Device::Settlement, 11),
    ];
    fail_at(&rt, rt.alloc(), 7, &calls);
}

// A whole text, and of an input its end.
#[test]
fn fails_at_each_call_of_a_text(rt: HostRuntime) {
    let calls = [
        (Device::Sheet, 2),
        (Device::Books, 2),
        (Device::Batch, 2),
        (Device::Response, 1),
        (Device::EndBooks, 1),
        (Device::Settlement, 1),
    ];
    fail_at(&rt, rt.alloc(), 4_096, &calls);
}

#[test]
fn fails_where_an_output_takes_no_byte(rt: HostRuntime) {
    for device in [Device::Response, Device::EndBooks, Device::Settlement] {
        let flaw = Flaw::TakesNothing(device);
        let texts = written_before(&rt, device, 0);
        let answer = Err(IoFault::Write(device));
        writes(&rt, rt.alloc(), Devices { most: 7, flaw }, answer, texts);
    }
}

#[test]
fn a_sheet_without_an_end_is_too_long(rt: HostRuntime) {
    let flaw = Flaw::Nothing;
    let ran = run_on(&rt, rt.alloc(), Devices { most: 1, flaw }, Endless);
    same(&rt, ran.answer, Err(IoFault::Long(Device::Sheet)));
    same(&rt, ran.written.response.bytes().len(), 0);
    same(&rt, ran.written.books.bytes().len(), 0);
    same(&rt, ran.written.settlement.bytes().len(), 0);
}
