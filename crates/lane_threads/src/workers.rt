//! The work of one worker: what it begins with and leaves, and how it runs the lanes that it takes.

ghost use Rattle.std.specs.Prelude.{◌≡◌, IfOk, All};
ghost use Rattle.lane_queue.specs.Passes.{IsSamePass, HasEnded};
ghost use Rattle.lane_runner.specs.Lanes.{AddsSome};
ghost use Rattle.lane_threads.specs.Workers.{MayWork, MayBegin, DoesLanes, Works, WorksAndRetires, NothingIsRead};

use lane_queue::{LanePass, LaneQueue};
use lane_runner::{LaneDone, run_lane};
use outside_io::{Clock, Gate, Meets, Reads};
use replay_model::NoMemory;
use std::alloc::Global;
use std::sync::Wait;
use stored_tables::RowsLawful;
use txn_engine::{Engine, Pass, Retired};

/// What a worker owns.
#[derive(Drop)]
pub struct Worker<C> {
    pub pass: Pass<RowsLawful>,
    pub taker: LanePass,
    pub clock: C,
}

/// What a worker leaves whose pass stays open.
#[derive(Drop)]
pub struct Worked {
    pub pass: Pass<RowsLawful>,
    pub taker: LanePass,
    pub done: Result<Vec<LaneDone>, NoMemory>,
}

/// How a worker runs the lanes that it takes.
pub trait Work<C: Clock, G: Gate>: Sync + Drop {
    ghost use Rattle.lane_threads.specs.Workers.{MayBegin, Works};

    /// Takes lanes until none is left, and runs them. After want of memory the pass has no transaction in flight, so that it can retire.
    fn work<R: Wait>(
        &self,
        rt: &R,
        alloc: Global,
        engine: &Engine<RowsLawful>,
        queue: &LaneQueue,
        worker: Worker<C>,
        gate: &G,
        tries: u32,
    ) -> Worked
        requires begin { MayBegin engine.now queue.now tries worker }
        ensures { Works tries worker.pass worker.taker result };
}

/// What a worker leaves whose pass has retired.
#[derive(Drop)]
pub(crate) struct Left {
    pub(crate) retired: Retired<RowsLawful>,
    pub(crate) taker: LanePass,
    pub(crate) done: Result<Vec<LaneDone>, NoMemory>,
}

/// Takes lanes until none is left, and runs each.
fn work_lanes<R: Wait, C: Reads, G: Meets>(
    rt: &R,
    alloc: Global,
    engine: &Engine<RowsLawful>,
    queue: &LaneQueue,
    pass: &mut Pass<RowsLawful>,
    taker: &mut LanePass,
    clock: &mut C,
    gate: &G,
    tries: u32,
) -> Result<Vec<LaneDone>, NoMemory>
    requires may_work { MayWork engine.now queue.now tries pass.old taker.old }
    ensures adds { AddsSome pass.old pass.new }
    ensures same { IsSamePass taker.old taker.new }
    ensures ended { IfOk result (λ done. HasEnded taker.new) }
    ensures does { IfOk result (λ done. DoesLanes tries pass.old pass.new taker.new.took done.items) }
{
    let mut done = Vec::new(alloc);
    for _ in rt.forever() {
        let Some(lane) = queue.take(rt, taker) else {
            break;
        };
        let ran = run_lane(alloc, engine, pass, lane, clock, gate, tries)?;
        done.push(ran)?;
    }
    Ok(done)
}

/// Takes lanes until none is left, and runs one behind the other.
pub(crate) fn work_lane_by_lane<R: Wait, C: Reads + Drop, G: Meets>(
    rt: &R,
    alloc: Global,
    engine: &Engine<RowsLawful>,
    queue: &LaneQueue,
    worker: Worker<C>,
    gate: &G,
    tries: u32,
) -> Worked
    requires begin { MayBegin engine.now queue.now tries worker }
    ensures { Works tries worker.pass worker.taker result }
{
    let Worker {
        mut pass,
        mut taker,
        mut clock,
    } = worker;
    let done = work_lanes(
        rt, alloc, engine, queue, &mut pass, &mut taker, &mut clock, gate, tries,
    );
    Worked { pass, taker, done }
}

/// What one leaves that reads nothing beside its lanes is what one leaves that may read. The function does nothing; its contract is the law.
pub fn nothing_is_read()
    ensures { NothingIsRead }
{}

/// One lane behind the other.
#[derive(Clone, Copy, Debug)]
pub struct LaneByLane;

impl<C: Clock, G: Gate> Work<C, G> for LaneByLane {
    fn work<R: Wait>(
        &self,
        rt: &R,
        alloc: Global,
        engine: &Engine<RowsLawful>,
        queue: &LaneQueue,
        worker: Worker<C>,
        gate: &G,
        tries: u32,
    ) -> Worked
        requires begin { MayBegin engine.now queue.now tries worker }
        ensures { Works tries worker.pass worker.taker result }
    {
        work_lane_by_lane(rt, alloc, engine, queue, worker, gate, tries)
    }
}

/// Works until no lane is left, and then retires the pass: other seats do not wait for it while further lanes run.
pub(crate) fn work_and_retire<R: Wait, C: Clock, G: Gate, W: Work<C, G>>(
    rt: &R,
    alloc: Global,
    engine: &Engine<RowsLawful>,
    queue: &LaneQueue,
    way: &W,
    worker: Worker<C>,
    gate: &G,
    tries: u32,
) -> Left
    requires begin { MayBegin engine.now queue.now tries worker }
    ensures { WorksAndRetires tries worker.pass worker.taker result }
{
    let Worked { pass, taker, done } = way.work(rt, alloc, engine, queue, worker, gate, tries);
    Left {
        retired: pass.retire(engine),
        taker,
        done,
    }
}
