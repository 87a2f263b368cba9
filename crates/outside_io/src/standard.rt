ghost use Rattle.std.specs.Prelude.{◌≡◌, ◌≤◌, length, take, None, Err, IfOk, OnOk, OnErr};
ghost use Rattle.std.specs.Io.KnownBytes.{ReadConsumes, WriteAppends};
ghost use Rattle.outside_io.specs.Faults.{one_more};
ghost use Rattle.outside_io.specs.Source.{ReadCause};
ghost use Rattle.outside_io.specs.Sink.{WriteCause};

use crate::{Failed, Sink, SinkFault, Source};
use std::io::{Read, Write};
use std::marker::Model;
use std::rt::{Stdin, Stdout};

/// Standard input.
pub type StdSource = ReaderSource<Stdin>;

/// Standard output.
pub type StdSink = WriterSink<Stdout>;

/// A source over a reader. It tells nothing of its bytes: what it gives is what the reader gives. It reads no more than it
/// is asked for. Each error of the reader is a fault, also that a signal came in between.
#[derive(Drop)]
pub struct ReaderSource<R> {
    input: R,
    faults: u64,
}

impl<R> Model for ReaderSource<R> {
    ghost use Rattle.outside_io.specs.Faults.{Counted};

    ghost Value = { Counted R };

    ghost view = { λ source. record { stream = source.input; faults = source.faults } };
}

impl<R> ReaderSource<R> {
    /// A source over this reader, with no fault yet.
    pub fn new(input: R) -> ReaderSource<R>
        ensures { result ≡ record { stream = input; faults = 0 } }
    {
        ReaderSource { input, faults: 0 }
    }
}

impl<R: Read> Source for ReaderSource<R> {
    ghost left = { λ _. None };

    ghost faults = { λ source. source.faults };

    fn read(&mut self, buf: &mut [u8]) -> Result<usize, Failed>
        ensures bound { IfOk result (λ n. n ≤ length buf.old) }
        ensures cause { ReadCause self.old.faults self.new.faults result }

        // What the reader gave is what is answered.
        ensures given { ReadConsumes (R.remaining self.old.stream) (R.remaining self.new.stream) result buf.new }
        ensures ok { OnOk result (self.new.faults ≡ self.old.faults) }
        ensures failed { OnErr result (self.new.faults ≡ one_more self.old.faults) }
    {
        let one_more = self.faults.saturating_add(1);
        match self.input.read(buf) {
            Ok(count) => Ok(count),
            Err(_) => {
                self.faults = one_more;
                Err(Failed)
            }
        }
    }
}

/// A sink over a writer. It tells nothing of its bytes: what it takes is what the writer takes. It keeps nothing back. Each
/// error of the writer is a fault, also that a signal came in between, and so is a writer that takes nothing of a piece that
/// is not empty.
#[derive(Drop)]
pub struct WriterSink<W> {
    output: W,
    faults: u64,
}

impl<W> Model for WriterSink<W> {
    ghost use Rattle.outside_io.specs.Faults.{Counted};

    ghost Value = { Counted W };

    ghost view = { λ sink. record { stream = sink.output; faults = sink.faults } };
}

impl<W> WriterSink<W> {
    /// A sink over this writer, with no fault yet.
    pub fn new(output: W) -> WriterSink<W>
        ensures { result ≡ record { stream = output; faults = 0 } }
    {
        WriterSink { output, faults: 0 }
    }
}

impl<W: Write> Sink for WriterSink<W> {
    ghost taken = { λ _. None };

    ghost faults = { λ sink. sink.faults };

    fn write(&mut self, piece: &[u8]) -> Result<usize, SinkFault>
        ensures bound { IfOk result (λ n. n ≤ length piece.now) }
        ensures cause { WriteCause self.old.faults self.new.faults piece.now result }

        // What the writer took is what is answered.
        ensures written { WriteAppends (W.contents self.old.stream) (W.contents self.new.stream) result piece.now }
        ensures ok { OnOk result (self.new.faults ≡ self.old.faults) }
        ensures failed { OnErr result ((result ≡ Err SinkFault.Failed) × (self.new.faults ≡ one_more self.old.faults)) }
    {
        let one_more = self.faults.saturating_add(1);
        match self.output.write(piece) {
            Ok(0) if !piece.is_empty() => {}
            Ok(count) => return Ok(count),
            Err(_) => {}
        }
        self.faults = one_more;
        Err(SinkFault::Failed)
    }
}
