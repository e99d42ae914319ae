// What no clause says: how many calls a reading takes, and devices that don't report their bytes.
use crate::same::same;
use rx_io::{Failed, ReaderSource, VecSink, WriterSink, read_all, write_all, write_pieces};
use std::alloc::{AllocError, Global};
use std::io;
use std::io::{ErrorKind, Read};

const TEXT: &[u8] = b"SETTLE|1|";

// A text whose first read a signal interrupts.
#[derive(Drop)]
struct Signalled {
    is_over: bool,
    text: &'static [u8],
}

impl Read for Signalled {
    fn read(&mut self, buffer: &mut [u8]) -> io::Result<usize> {
        if self.is_over {
            return self.text.read(buffer);
        }
        self.is_over = true;
        Err(io::Error::from(ErrorKind::Interrupted))
    }
}

fn pieces(alloc: Global) -> Result<Vec<Vec<u8>>, AllocError> {
    let mut pieces = Vec::new(alloc);
    pieces.push(b"SETT".to_vec(alloc)?)?;
    pieces.push(Vec::new(alloc))?;
    pieces.push(b"LE|1|".to_vec(alloc)?)?;
    Ok(pieces)
}

// Four bytes a call: the third call is for the last byte.
#[test]
fn writes_pieces_of_a_text_in_order(rt: HostRuntime) {
    let pieces = pieces(rt.alloc()).expect(&rt, "memory");
    let mut sink = VecSink::new(rt.alloc(), 4);
    same(&rt, write_pieces(&mut sink, &pieces), Ok(()));
    same(&rt, sink.bytes(), TEXT);
    let mut sink = VecSink::new(rt.alloc(), 4).failing_after(2);
    same(&rt, write_pieces(&mut sink, &pieces), Err(Failed));
    same(&rt, sink.bytes(), b"SETTLE|1".as_slice());
}

// A text of more bytes than are read at once, the hints for it, and the calls that it takes: three give bytes.
#[test]
fn reads_the_same_text_by_any_hint(rt: HostRuntime) {
    let mut long = Vec::new(rt.alloc());
    for place in 0..150_000u32 {
        long.push((place % 251) as u8).expect(&rt, "memory");
    }
    let hints = [
        (None, 8),
        (Some(0usize), 8),
        (Some(1000), 8),
        (Some(149_999), 4),
        (Some(150_000), 4),
        (Some(150_001), 4),
        (Some(400_000), 4),
    ];
    for (hint, most) in &hints {
        let mut source = ReaderSource::new(long.as_slice()).with_hint(*hint);
        let text = read_all(rt.alloc(), &mut source);
        same(&rt, text.expect(&rt, "a text").as_slice(), long.as_slice());
        same(&rt, source.calls() <= *most, true);
    }
}

#[test]
fn reads_again_where_a_signal_interrupts(rt: HostRuntime) {
    let signalled = Signalled {
        is_over: false,
        text: TEXT,
    };
    let mut source = ReaderSource::new(signalled);
    let text = read_all(rt.alloc(), &mut source);
    same(&rt, text.expect(&rt, "a text").as_slice(), TEXT);
    same(&rt, source.calls(), 3);
}

// It has room for four of nine bytes.
#[test]
fn takes_a_full_buffer_for_failed(rt: HostRuntime) {
    let mut room = [0u8; 4];
    let written = write_all(&mut WriterSink::new(room.as_mut_slice()), TEXT);
    same(&rt, written, Err(Failed));
    same(&rt, room, *b"SETT");
}
