//! The adapters in memory and over streams, and the plain clock and gate.

ghost use Rattle.std.specs.Prelude.{◌≤◌, IfOk, length};

use crate::due::same;
use outside_io::{
    CleanSink, CleanSource, Clock, CountClock, Failed, Gate, MemSink, MemSource, OpenGate,
    ReaderSource, Sink, SinkFault, Source, StdSink, StdSource, WriterSink,
};
use std::alloc::{AllocError, Global};
use std::io::{self, ErrorKind, Read, Write};
use std::process::Abort;
use std::test::Fail;

const TEXT: &[u8; 5] = b"abcde";

/// What a call moved: how many bytes, or that it failed.
type Moved = Option<usize>;

// Reads once; `seen` gets what the call moved. Says whether there may be more to read.
fn read_some<S: Source>(
    source: &mut S,
    text: &mut Vec<u8>,
    seen: &mut Vec<Moved>,
) -> Result<bool, AllocError> {
    let mut buf = [0u8; 4];
    match source.read(&mut buf) {
        Ok(0) => return Ok(false),
        Ok(count) => {
            seen.push(Some(count))?;
            text.extend_from_slice(&buf[..count])?;
        }
        Err(Failed) => seen.push(None)?,
    }
    Ok(true)
}

// Reads to the end of input, and past failures; `seen` gets what each call moved.
fn read_whole<S: Source>(
    alloc: Global,
    source: &mut S,
    seen: &mut Vec<Moved>,
) -> Result<Vec<u8>, AllocError> {
    let mut text = Vec::new(alloc);
    for _ in 0..100 {
        if !read_some(source, &mut text, seen)? {
            break;
        }
    }
    Ok(text)
}

// Writes once; `seen` gets what the call moved. Says how much it was.
fn write_some<K: Sink>(
    sink: &mut K,
    text: &[u8],
    seen: &mut Vec<Moved>,
) -> Result<usize, AllocError>
    ensures { IfOk result (λ count. count ≤ length text.now) }
{
    match sink.write(text) {
        Ok(count) => {
            seen.push(Some(count))?;
            Ok(count)
        }
        Err(SinkFault::Failed) => {
            seen.push(None)?;
            Ok(0)
        }
        Err(SinkFault::NoMemory) => Err(AllocError),
    }
}

// Writes all of a text, past failures; `seen` gets what each call moved.
fn write_whole<K: Sink>(
    sink: &mut K,
    text: &[u8],
    seen: &mut Vec<Moved>,
) -> Result<(), AllocError> {
    let mut rest = text;
    for _ in 0..100 {
        if rest.is_empty() {
            break;
        }
        let count = write_some(sink, rest, seen)?;
        rest = &rest[count..];
    }
    Ok(())
}

#[test]
fn a_clean_source_gives_its_bytes(rt: HostRuntime) -> Result<(), Fail> {
    let alloc = rt.alloc();
    let mut source = CleanSource::new(TEXT.to_vec(alloc)?);
    let mut seen = Vec::new(alloc);
    let text = read_whole(alloc, &mut source, &mut seen)?;
    same(&rt, text.as_slice(), TEXT.as_slice(), 0);
    same(&rt, seen.as_slice(), [Some(4), Some(1)].as_slice(), 1);
    Ok(())
}

#[test]
fn a_clean_sink_takes_all(rt: HostRuntime) -> Result<(), Fail> {
    let alloc = rt.alloc();
    let mut sink = CleanSink::new(alloc);
    let mut seen = Vec::new(alloc);
    write_whole(&mut sink, TEXT, &mut seen)?;
    same(&rt, sink.taken(), TEXT.as_slice(), 0);
    same(&rt, seen.as_slice(), [Some(5)].as_slice(), 1);
    Ok(())
}

// Bytes a call, the calls that fail, and what each call moves of five bytes (a read's room is four).
type Row = (usize, &'static [u64], &'static [Moved]);

const READS: &[Row] = &[
    (2, &[], &[Some(2), Some(2), Some(1)]),
    (2, &[1], &[None, Some(2), Some(2), Some(1)]),
    (9, &[3, 2], &[Some(4), None, None, Some(1)]),
    (
        1,
        &[6],
        &[Some(1), Some(1), Some(1), Some(1), Some(1), None],
    ),
];

const WRITES: &[Row] = &[
    (2, &[], &[Some(2), Some(2), Some(1)]),
    (2, &[1], &[None, Some(2), Some(2), Some(1)]),
    (4, &[3, 2], &[Some(4), None, None, Some(1)]),
    (9, &[2], &[Some(5)]),
];

// The rows, of which no proof knows more than that they are rows.
fn reads() -> &'static [Row] {
    READS
}

fn writes() -> &'static [Row] {
    WRITES
}

fn read_row<R: Abort>(rt: &R, alloc: Global, row: &Row) -> Result<(), AllocError> {
    let (per_call, fails, want) = *row;
    assert!(rt; per_call > 0);
    let mut source = MemSource::new(TEXT.to_vec(alloc)?, per_call, fails.to_vec(alloc)?);
    let mut seen = Vec::new(alloc);
    let text = read_whole(alloc, &mut source, &mut seen)?;
    same(rt, text.as_slice(), TEXT.as_slice(), 0);
    same(rt, seen.as_slice(), want, 1);
    Ok(())
}

fn write_row<R: Abort>(rt: &R, alloc: Global, row: &Row) -> Result<(), AllocError> {
    let (per_call, fails, want) = *row;
    assert!(rt; per_call > 0);
    let mut sink = MemSink::new(alloc, per_call, fails.to_vec(alloc)?);
    let mut seen = Vec::new(alloc);
    write_whole(&mut sink, TEXT, &mut seen)?;
    same(rt, sink.taken(), TEXT.as_slice(), 0);
    same(rt, seen.as_slice(), want, 1);
    Ok(())
}

#[test]
fn chosen_reads_fail(rt: HostRuntime) -> Result<(), Fail> {
    for row in reads() {
        read_row(&rt, rt.alloc(), row)?;
    }
    Ok(())
}

#[test]
fn chosen_writes_fail(rt: HostRuntime) -> Result<(), Fail> {
    for row in writes() {
        write_row(&rt, rt.alloc(), row)?;
    }
    Ok(())
}

#[test]
fn the_standard_streams_are_there(rt: HostRuntime) -> Result<(), Fail> {
    let alloc = rt.alloc();
    // With no room, so that it waits for nobody.
    let mut source = StdSource::new(rt.stdin());
    same(&rt, source.read(&mut []), Ok(0), 0);
    let mut sink = StdSink::new(rt.stdout());
    let mut seen = Vec::new(alloc);
    write_whole(&mut sink, b"written\n", &mut seen)?;
    same(&rt, seen.as_slice(), [Some(8)].as_slice(), 1);
    Ok(())
}

// A stream whose every other call fails, from the first on.
#[derive(Drop)]
struct Flaky {
    calls: u64,
}

impl Flaky {
    fn fails(&mut self) -> bool {
        self.calls = self.calls.saturating_add(1);
        self.calls % 2 == 1
    }
}

impl Read for Flaky {
    fn read(&mut self, buf: &mut [u8]) -> io::Result<usize> {
        if self.fails() {
            return Err(ErrorKind::Interrupted.into());
        }
        match buf.first_mut() {
            Some(first) => {
                *first = b'x';
                Ok(1)
            }
            None => Ok(0),
        }
    }
}

impl Write for Flaky {
    fn write(&mut self, buf: &[u8]) -> io::Result<usize> {
        if self.fails() { Ok(0) } else { Ok(buf.len()) }
    }

    fn flush(&mut self) -> io::Result<()> {
        Ok(())
    }
}

#[test]
fn errors_of_a_stream_are_faults(rt: HostRuntime) {
    let mut source = ReaderSource::new(Flaky { calls: 0 });
    let mut buf = [0; 3];
    same(&rt, source.read(&mut buf), Err(Failed), 0);
    same(&rt, source.read(&mut buf), Ok(1), 1);
    same(&rt, buf[0], b'x', 2);
    let mut sink = WriterSink::new(Flaky { calls: 0 });
    same(&rt, sink.write(b"abc"), Err(SinkFault::Failed), 3);
    same(&rt, sink.write(b"abc"), Ok(3), 4);
}

fn reading<C: Clock>(clock: &mut C) -> u64 {
    clock.now()
}

fn pass<G: Gate>(gate: &G) {
    gate.before_commit(1, 1);
    gate.after_outcome(1, 1);
}

#[test]
fn the_count_clock_reads_0_and_the_open_gate_is_open(rt: HostRuntime) {
    same(&rt, reading(&mut CountClock), 0, 0);
    pass(&OpenGate);
}
