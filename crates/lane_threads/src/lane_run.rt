//! Ways to run all lanes on the passes of an engine.

ghost use Rattle.std.specs.Prelude.{◌≡◌, ◌+◌, ◌≤◌, []};
ghost use Rattle.lane_runner.specs.Room.{HasRoom};
ghost use Rattle.lane_threads.specs.Workers.{MayBegin, WorksAndReads, draws_of};

use crate::workers::{LaneByLane, Work, Worked, Worker, nothing_is_read, work_lane_by_lane};
use lane_queue::LaneQueue;
use outside_io::{Clock, Gate};
use replay_model::NoMemory;
use std::alloc::Global;
use std::sync::Wait;
use stored_tables::RowsLawful;
use txn_engine::{Alone, Engine};

/// A way to run all lanes on the passes of an engine, which may read the rows of all tables beside them. The threads are those of
/// `run_all_by`: what is said here is what one thread does.
///
/// What is due is read by the worker of the first pass, once behind each result of its lanes, and what is left then behind all lanes by the
/// seat that is alone.
pub trait LaneRun<C: Clock, G: Gate> {
    ghost use Rattle.std.specs.Prelude.{◌≡◌, ℕ, ◌+◌, ◌-◌, ◌≤◌, List, [], OnOk, length};
    ghost use Rattle.replay_model.specs.TableMap.{TableMap};
    ghost use Rattle.lane_runner.specs.Using.{MayUse};
    ghost use Rattle.lane_runner.specs.Room.{HasRoom};
    ghost use Rattle.lane_threads.specs.Seen.{ReadsAll};
    ghost use Rattle.lane_threads.specs.Workers.{MayBegin, WorksAndReads, draws_of};

    /// How each worker runs the lanes that it takes.
    type Way: Work<C, G>;

    /// What the worker of the first pass begins with and gives back: how often it may read all rows, and what it has read.
    type Reader: Drop;

    /// How often a run has to read all rows beside its lanes. Each time it may draw a stamp.
    ghost due: { Self → ℕ };

    /// What the last run read so: a stamp, and tables with the rows at that stamp.
    ghost seen: { Self → List (ℕ × TableMap) };

    /// How often a reader may read all rows, and what it has read.
    ghost may_read: { Self.Reader → ℕ };

    ghost has_read: { Self.Reader → List (ℕ × TableMap) };

    /// The way is that of a run of so many lanes by so many workers.
    ghost is_for: { Self.Way → (lanes workers : ℕ) → Type 0 };

    /// Begins a run of so many lanes by so many workers, of which nothing was read yet.
    fn begin(&mut self, lanes: usize, workers: u32) -> (Self::Way, Self::Reader)
        requires { 1 ≤ workers }
        ensures way { is_for result.0 lanes workers }
        ensures due { due self.new ≡ due self.old }
        ensures may { may_read result.1 ≡ due self.old }
        ensures none { has_read result.1 ≡ [] };

    /// The work of the worker of the first pass, beside the others and on the caller's thread. Like these it takes lanes until none is left;
    /// behind each result it reads all rows, while that is still due.
    fn first<R: Wait>(
        rt: &R,
        alloc: Global,
        engine: &Engine<RowsLawful>,
        queue: &LaneQueue,
        way: &Self::Way,
        reader: Self::Reader,
        worker: Worker<C>,
        gate: &G,
        tries: u32,
    ) -> (Worked, Self::Reader)
        requires begin { MayBegin engine.now queue.now tries worker }
        requires room { HasRoom worker.pass.clock (draws_of worker.taker.lanes tries + may_read reader) }
        requires none { has_read reader ≡ [] }
        ensures { WorksAndReads (may_read reader) tries worker.pass worker.taker result.0 (has_read result.1) };

    /// Reads all rows as often as that is still due, at the seat that is alone behind all lanes.
    fn read_all(
        &mut self,
        alloc: Global,
        engine: &Engine<RowsLawful>,
        alone: &mut Alone<RowsLawful>,
        reader: Self::Reader,
    ) -> Result<(), NoMemory>
        requires pass { MayUse engine.now alone.old.pass }
        requires few { length (has_read reader) ≤ due self.old }
        requires room { HasRoom alone.old.pass.clock (due self.old - length (has_read reader)) }
        ensures due { due self.new ≡ due self.old }
        ensures reads { OnOk result (ReadsAll (due self.old) (has_read reader) alone.old alone.new (seen self.new)) };

    // It reads all rows at most 64 times.
    ghost few_due: { (run : Self) → due run ≤ 64 };
}

/// Workers that each run one lane behind the other, and read nothing else.
#[derive(Clone, Copy, Debug)]
pub struct Workers;

impl<C: Clock, G: Gate> LaneRun<C, G> for Workers {
    ghost use Rattle.std.specs.Prelude.{[], ⊤};
    ghost use Rattle.std.proofs.Common.{arith};

    type Way = LaneByLane;

    type Reader = ();

    ghost due = { λ _. 0 };

    ghost seen = { λ _. [] };

    ghost may_read = { λ _. 0 };

    ghost has_read = { λ _. [] };

    ghost is_for = { λ _ _ _. ⊤ };

    ghost few_due = { λ _. Prim.omega arith };

    fn begin(&mut self, _lanes: usize, _workers: u32) -> (LaneByLane, ()) {
        (LaneByLane, ())
    }

    fn first<R: Wait>(
        rt: &R,
        alloc: Global,
        engine: &Engine<RowsLawful>,
        queue: &LaneQueue,
        _way: &LaneByLane,
        _reader: (),
        worker: Worker<C>,
        gate: &G,
        tries: u32,
    ) -> (Worked, ())
        requires begin { MayBegin engine.now queue.now tries worker }
        requires room { HasRoom worker.pass.clock (draws_of worker.taker.lanes tries + 0) }
        ensures { WorksAndReads 0 tries worker.pass worker.taker result.0 [] }
    {
        nothing_is_read();
        let worked = work_lane_by_lane(rt, alloc, engine, queue, worker, gate, tries);
        (worked, ())
    }

    fn read_all(
        &mut self,
        _alloc: Global,
        _engine: &Engine<RowsLawful>,
        _alone: &mut Alone<RowsLawful>,
        _reader: (),
    ) -> Result<(), NoMemory> {
        Ok(())
    }
}
