//! A source and a sink in memory that fail at chosen calls and move few bytes at a time, for tests.
ghost use Rattle.std.specs.Prelude.{◌≡◌, ◌<◌, ◌↔◌, [], ◌++◌, length, take, drop, min, Some, IfOk, OnErr, IsErr, IsErrOf, IsTrue, if◌then◌else◌};
ghost use Rattle.std.specs.Bool.{OnTrue};
ghost use Rattle.std.specs.Io.KnownBytes.{IsAtEnd};
ghost use Rattle.outside_io.specs.Faults.{GoesOn, HasRisen};
ghost use Rattle.outside_io.specs.Source.{ReadCause};
ghost use Rattle.outside_io.specs.Sink.{WriteCause};
ghost use Rattle.outside_io.specs.Memory.{NextFails, after_call, after_fault};

use crate::{CleanSink, CleanSource, Failed, Sink, SinkFault, Source};
use std::alloc::Global;
use std::marker::Model;

// The calls that were made, and those that are to fail.
#[derive(Debug, Drop)]
struct Calls {
    per_call: usize,
    fails: Vec<u64>,
    made: u64,
    faults: u64,
}

impl Model for Calls {
    ghost use Rattle.outside_io.specs.Memory.{CallState};

    ghost Value = { CallState };

    ghost view = { λ calls. record {
      per_call = calls.per_call;
      fails = calls.fails.items;
      made = calls.made;
      faults = calls.faults;
    } };
}

impl Calls {
    fn new(per_call: usize, fails: Vec<u64>) -> Calls
        ensures { result ≡ record { per_call = per_call; fails = fails.items; made = 0; faults = 0 } }
    {
        Calls {
            per_call,
            fails,
            made: 0,
            faults: 0,
        }
    }

    fn per_call(&self) -> usize
        ensures { result ≡ self.now.per_call }
    {
        self.per_call
    }

    // Counts a call, and says whether it is to fail.
    fn next_fails(&mut self) -> bool
        ensures fails { IsTrue result ↔ NextFails self.old }
        ensures after { self.new ≡ (if result then after_fault self.old else after_call self.old) }
        ensures count { GoesOn self.old.faults self.new.faults }
        ensures risen { OnTrue result (HasRisen self.old.faults self.new.faults) }
    {
        self.made = self.made.saturating_add(1);
        let fails = self.fails.contains(&self.made);
        let one_more = self.faults.saturating_add(1);
        if fails {
            self.faults = one_more;
        }
        fails
    }
}

/// A source in memory. The calls whose numbers it was told fail. Calls are numbered from 1, and all from the
/// `u64::MAX`th on have that number.
#[derive(Debug, Drop)]
pub struct MemSource {
    left: CleanSource,
    calls: Calls,
}

impl Model for MemSource {
    ghost use Rattle.std.specs.Prelude.{◌<◌};
    ghost use Rattle.outside_io.specs.Memory.{SourceState};

    ghost Value = { SourceState };

    ghost view = { λ source. record { left = source.left; calls = source.calls } };

    ghost invariant = { λ source. 0 < source.calls.per_call };
}

impl MemSource {
    /// A source that gives these bytes, at most `per_call` in a call, and fails at the calls that `fails` numbers.
    pub fn new(bytes: Vec<u8>, per_call: usize, fails: Vec<u64>) -> MemSource
        requires { 0 < per_call }
        ensures left { result.left ≡ bytes.items }
        ensures calls { result.calls ≡ record { per_call = per_call; fails = fails.items; made = 0; faults = 0 } }
    {
        MemSource {
            left: CleanSource::new(bytes),
            calls: Calls::new(per_call, fails),
        }
    }
}

impl Source for MemSource {
    ghost left = { λ source. Some source.left };

    ghost faults = { λ source. source.calls.faults };

    fn read(&mut self, buf: &mut [u8]) -> Result<usize, Failed>
        ensures end { IfOk result (λ n. n ≡ 0 → 0 < length buf.old → IsAtEnd (Some self.new.left)) }
        ensures cause { ReadCause self.old.calls.faults self.new.calls.faults result }

        // Exactly the chosen calls fail, and the others move as many bytes as they may.
        ensures fails { IsErr result ↔ NextFails self.old.calls }
        ensures count { IfOk result (λ n. n ≡ min self.old.calls.per_call (min (length buf.old) (length self.old.left))) }
        ensures copied { IfOk result (λ n. buf.new ≡ take n self.old.left ++ drop n buf.old) }
        ensures given { IfOk result (λ n. self.new
            ≡ record { left = drop n self.old.left; calls = after_call self.old.calls }) }
        ensures failed { OnErr result (self.new
            ≡ record { left = self.old.left; calls = after_fault self.old.calls }) }
    {
        if self.calls.next_fails() {
            return Err(Failed);
        }
        let most = self.calls.per_call();
        Ok(self.left.give(buf, most))
    }
}

/// A sink in memory. The calls whose numbers it was told fail. Calls are numbered from 1, and all from the
/// `u64::MAX`th on have that number.
#[derive(Debug, Drop)]
pub struct MemSink {
    taken: CleanSink,
    calls: Calls,
}

impl Model for MemSink {
    ghost use Rattle.std.specs.Prelude.{◌<◌};
    ghost use Rattle.outside_io.specs.Memory.{SinkState};

    ghost Value = { SinkState };

    ghost view = { λ sink. record { taken = sink.taken; calls = sink.calls } };

    ghost invariant = { λ sink. 0 < sink.calls.per_call };
}

impl MemSink {
    /// A sink that has taken nothing, takes at most `per_call` bytes in a call, and fails at the calls that `fails`
    /// numbers. What it takes lies in memory of `alloc`.
    pub fn new(alloc: Global, per_call: usize, fails: Vec<u64>) -> MemSink
        requires { 0 < per_call }
        ensures taken { result.taken ≡ [] }
        ensures calls { result.calls ≡ record { per_call = per_call; fails = fails.items; made = 0; faults = 0 } }
    {
        MemSink {
            taken: CleanSink::new(alloc),
            calls: Calls::new(per_call, fails),
        }
    }

    /// The bytes taken.
    pub fn taken(&self) -> &[u8]
        ensures { result.now ≡ self.now.taken }
    {
        self.taken.taken()
    }
}

impl Sink for MemSink {
    ghost taken = { λ sink. Some sink.taken };

    ghost faults = { λ sink. sink.calls.faults };

    fn write(&mut self, piece: &[u8]) -> Result<usize, SinkFault>
        ensures cause { WriteCause self.old.calls.faults self.new.calls.faults piece.now result }

        // Exactly the chosen calls fail, and the others take as many bytes as they may, unless memory runs out.
        ensures fails { IsErrOf result SinkFault.Failed ↔ NextFails self.old.calls }
        ensures count { IfOk result (λ n. n ≡ min self.old.calls.per_call (length piece.now)) }
        ensures given { IfOk result (λ n. self.new
            ≡ record { taken = self.old.taken ++ take n piece.now; calls = after_call self.old.calls }) }
        ensures failed { IsErrOf result SinkFault.Failed → self.new
            ≡ record { taken = self.old.taken; calls = after_fault self.old.calls } }
        ensures no_memory { IsErrOf result SinkFault.NoMemory → self.new
            ≡ record { taken = self.old.taken; calls = after_call self.old.calls } }
    {
        if self.calls.next_fails() {
            return Err(SinkFault::Failed);
        }
        let most = self.calls.per_call();
        let (front, _) = piece.split_at(piece.len().min(most));
        self.taken.write(front)
    }
}
