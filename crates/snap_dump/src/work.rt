//! The work of a worker that dumps between its blocks.

ghost use Rattle.std.specs.Prelude.{◌≡◌, ◌+◌, ◌≤◌, [], IfOk};
ghost use Rattle.lane_queue.specs.Passes.{IsSamePass, HasEnded};
ghost use Rattle.lane_runner.specs.Lanes.{AddsSome};
ghost use Rattle.lane_runner.specs.Room.{HasRoom};
ghost use Rattle.lane_threads.specs.Workers.{DoesAndReads, MayWork, draws_of};
ghost use Rattle.snap_dump.specs.Dumps.{seen_in};

use crate::dump::Dump;
use crate::lanes::run_lane_dumping;
use lane_queue::{LanePass, LaneQueue};
use lane_runner::LaneDone;
use outside_io::{Meets, Reads};
use replay_model::NoMemory;
use std::alloc::Global;
use std::sync::Wait;
use stored_tables::RowsLawful;
use txn_engine::{Engine, Pass};

/// Takes lanes until none is left, and runs each with a dump behind each outcome, while fewer than `due` are made.
pub(crate) fn work_dumping<R: Wait, C: Reads, G: Meets>(
    rt: &R,
    alloc: Global,
    engine: &Engine<RowsLawful>,
    queue: &LaneQueue,
    pass: &mut Pass<RowsLawful>,
    taker: &mut LanePass,
    clock: &mut C,
    gate: &G,
    tries: u32,
    due: u32,
    made: &mut Vec<Dump>,
) -> Result<Vec<LaneDone>, NoMemory>
    requires may_work { MayWork engine.now queue.now tries pass.old taker.old }
    requires room { HasRoom pass.old.clock (draws_of taker.old.lanes tries + due) }
    requires none { made.old.items ≡ [] }
    ensures adds { AddsSome pass.old pass.new }
    ensures same { IsSamePass taker.old taker.new }
    ensures ended { IfOk result (λ done. HasEnded taker.new) }
    ensures does { IfOk result (λ done. DoesAndReads tries due pass.old pass.new taker.new.took done.items (seen_in made.new.items)) }
{
    // The seat of the pass is one of 64.
    pass.seat();
    engine.seats();
    let mut done = Vec::new(alloc);
    for _ in rt.forever() {
        let Some(lane) = queue.take(rt, taker) else {
            break;
        };
        let ran = run_lane_dumping(alloc, engine, pass, lane, clock, gate, tries, due, made)?;
        done.push(ran)?;
    }
    Ok(done)
}
