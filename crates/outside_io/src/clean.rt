ghost use Rattle.std.specs.Prelude.{◌≡◌, ℕ, List, [], ◌++◌, length, take, drop, min, Some, Ok, OnOk, IfOk, OnErr, IfErr};

use crate::{Failed, Sink, SinkFault, Source};
use std::alloc::Global;
use std::marker::Model;

/// A source in memory that never fails. It is seen as the bytes left.
#[derive(Debug, Drop)]
pub struct CleanSource {
    bytes: Vec<u8>,
    given: usize,
}

impl Model for CleanSource {
    ghost use Rattle.std.specs.Prelude.{ℕ, ◌≤◌, List, length, drop};

    ghost Value = { List ℕ };

    ghost view = { λ source. drop source.given source.bytes.items };

    ghost invariant = { λ source. source.given ≤ length source.bytes.items };
}

impl CleanSource {
    /// A source that gives these bytes and ends.
    pub fn new(bytes: Vec<u8>) -> CleanSource
        ensures { result ≡ bytes.items }
    {
        CleanSource { bytes, given: 0 }
    }

    /// Moves the next bytes into the front of `buf`, at most `most`, and answers how many.
    pub(crate) fn give(&mut self, buf: &mut [u8], most: usize) -> usize
        ensures count { result ≡ min most (min (length buf.old) (length self.old)) }
        ensures copied { buf.new ≡ take result self.old ++ drop result buf.old }
        ensures rest { self.new ≡ drop result self.old }
    {
        let left = &self.bytes[self.given..];
        let count = most.min(buf.len()).min(left.len());
        buf[..count].copy_from_slice(&left[..count]);
        self.given += count;
        count
    }
}

impl Source for CleanSource {
    ghost left = { λ source. Some source };

    ghost faults = { λ _. 0 };

    fn read(&mut self, buf: &mut [u8]) -> Result<usize, Failed>
        ensures count { result ≡ Ok (min (length buf.old) (length self.old)) }
        ensures copied { IfOk result (λ n. buf.new ≡ take n self.old ++ drop n buf.old) }
        ensures rest { IfOk result (λ n. self.new ≡ drop n self.old) }
    {
        let room = buf.len();
        Ok(self.give(buf, room))
    }
}

/// A sink in memory that fails only for want of memory. It is seen as the bytes taken.
#[derive(Debug, Drop)]
pub struct CleanSink {
    bytes: Vec<u8>,
}

impl Model for CleanSink {
    ghost use Rattle.std.specs.Prelude.{ℕ, List};

    ghost Value = { List ℕ };

    ghost view = { λ sink. sink.bytes.items };
}

impl CleanSink {
    /// A sink that has taken nothing. What it takes lies in memory of `alloc`.
    pub fn new(alloc: Global) -> CleanSink
        ensures { result ≡ [] }
    {
        CleanSink {
            bytes: Vec::new(alloc),
        }
    }

    /// The bytes taken.
    pub fn taken(&self) -> &[u8]
        ensures { result.now ≡ self.now }
    {
        &self.bytes
    }
}

impl Sink for CleanSink {
    ghost taken = { λ sink. Some sink };

    ghost faults = { λ _. 0 };

    fn write(&mut self, piece: &[u8]) -> Result<usize, SinkFault>
        ensures whole { IfOk result (λ n. n ≡ length piece.now) }
        ensures taken { OnOk result (self.new ≡ self.old ++ piece.now) }
        ensures refused { OnErr result (self.new ≡ self.old) }
        ensures memory { IfErr result (λ fault. fault ≡ SinkFault.NoMemory) }
    {
        match self.bytes.extend_from_slice(piece) {
            Ok(()) => Ok(piece.len()),
            Err(_) => Err(SinkFault::NoMemory),
        }
    }
}
