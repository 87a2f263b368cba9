//! How much of a text the top call asks a source for, and offers to a sink, at once.

use crate::calls::{append, run_with};
use crate::due::same;
use cicada_top::Status;
use outside_io::{CleanSink, CleanSource, Failed, Sink, SinkFault, Source};
use std::alloc::{AllocError, Global};
use std::test::Fail;

/// The most bytes of a piece.
const MOST: usize = 65_536;

/// A source or a sink, and the longest piece that it met.
#[derive(Drop)]
struct Measured<T> {
    inner: T,
    longest: usize,
}

impl<S: Source> Source for Measured<S> {
    ghost left = { λ m. S.left m.inner };

    ghost faults = { λ m. S.faults m.inner };

    fn read(&mut self, buf: &mut [u8]) -> Result<usize, Failed> {
        self.longest = self.longest.max(buf.len());
        self.inner.read(buf)
    }
}

impl<K: Sink> Sink for Measured<K> {
    ghost taken = { λ m. K.taken m.inner };

    ghost faults = { λ m. K.faults m.inner };

    fn write(&mut self, piece: &[u8]) -> Result<usize, SinkFault> {
        self.longest = self.longest.max(piece.len());
        self.inner.write(piece)
    }
}

/// A table of 4,000 rows, in 116,000 bytes; its report has 96,000 and more.
fn long_text(alloc: Global) -> Result<Vec<u8>, AllocError> {
    let mut text = Vec::new(alloc);
    append(&mut text, "cicada 1/table a/")?;
    for i in 0..4_000u64 {
        let key = 10_000_000_000 + i;
        let row = format!(in alloc; "row a {key} 10000000000/")?;
        append(&mut text, &row)?;
    }
    append(&mut text, "done/")?;
    Ok(text)
}

#[test]
fn pieces_are_of_65_536_bytes(rt: HostRuntime) -> Result<(), Fail> {
    let alloc = rt.alloc();
    let mut source = Measured {
        inner: CleanSource::new(long_text(alloc)?),
        longest: 0,
    };
    let mut sink = Measured {
        inner: CleanSink::new(alloc),
        longest: 0,
    };
    let answer = run_with(&rt, alloc, "", &mut source, &mut sink)?;
    same(&rt, answer.status, Status::Done, 0);
    same(&rt, (source.longest, sink.longest), (MOST, MOST), 1);
    Ok(())
}
