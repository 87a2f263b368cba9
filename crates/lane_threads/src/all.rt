//! The run of all lanes.

ghost use Rattle.std.specs.Prelude.{◌≡◌, ◌+◌, ◌<◌, ◌≤◌, ◌^◌, [], All, IfOk, length, map};
ghost use Rattle.std.specs.List.{AllByRecursion};
ghost use Rattle.stored_tables.specs.Places.{fixed_records};
ghost use Rattle.lane_runner.specs.Room.{HasRoom};
ghost use Rattle.lane_runner.specs.Lanes.{MayRun};
ghost use Rattle.lane_threads.specs.Workers.{MayBegin, HasRoomBeside, WorksAndReads, WorksAndRetires, EachRetires};
ghost use Rattle.lane_threads.specs.Gathers.{GathersIn};
ghost use Rattle.lane_threads.specs.All.{AreAllPasses, all_draws, RunsAll, RunsAndReads};
ghost use Rattle.lane_threads.specs.Seen.{AreSeen};

use crate::gathering::{Gathered, gather_others, start_gathering};
use crate::lane_run::{LaneRun, Workers};
use crate::seeing::readings_are_seen;
use crate::workers::{Left, Work, Worked, Worker, work_and_retire};
use lane_queue::{LanePass, LaneQueue};
use lane_runner::LaneDone;
use outside_io::{Clock, Gate};
use replay_model::{Lanes, NoMemory};
use std::alloc::Global;
use std::sync::Wait;
use std::thread;
use std::thread::Threads;
use stored_tables::RowsLawful;
use txn_engine::{Alone, Engine, Pass, Seat};

/// Runs each of these workers in a thread of its own, or behind another where none can be made, and joins them.
fn run_others<R: Threads + Wait + Sync, C: Clock, G: Gate, W: Work<C, G>>(
    rt: &R,
    alloc: Global,
    engine: &Engine<RowsLawful>,
    queue: &LaneQueue,
    way: &W,
    gate: &G,
    workers: Vec<Worker<C>>,
    tries: u32,
) -> Result<Vec<Left>, NoMemory>
    requires begin { All (MayBegin engine.now queue.now tries) workers.items }
    ensures { IfOk result (λ left. EachRetires tries workers.items left.items) }
{
    let work = move |worker: Worker<C>| -> Left
        requires { MayBegin engine.now queue.now tries worker }
        ensures { WorksAndRetires tries worker.pass worker.taker result }
    { work_and_retire(rt, alloc, engine, queue, way, worker, gate, tries) };
    Ok(thread::map_vec(rt, workers, &work)?)
}

/// Runs the first worker here, and beside it the others.
fn run_beside<
    R: Threads + Wait + Sync,
    C: Clock,
    G: Gate,
    W: Work<C, G>,
    L: LaneRun<C, G, Way = W>,
>(
    rt: &R,
    alloc: Global,
    engine: &Engine<RowsLawful>,
    queue: &LaneQueue,
    way: &W,
    reader: L::Reader,
    gate: &G,
    first: Worker<C>,
    others: Vec<Worker<C>>,
    tries: u32,
) -> (Result<Vec<Left>, NoMemory>, (Worked, L::Reader))
    requires first { MayBegin engine.now queue.now tries first }
    requires others { All (MayBegin engine.now queue.now tries) others.items }
    requires room { HasRoomBeside (L.may_read reader) tries first }
    requires none { L.has_read reader ≡ [] }
    ensures others { IfOk result.0 (λ left. EachRetires tries others.items left.items) }
    ensures first { WorksAndReads (L.may_read reader) tries first.pass first.taker result.1.0 (L.has_read result.1.1) }
{
    thread::join(
        rt,
        move || -> Result<Vec<Left>, NoMemory>
            requires { All (MayBegin engine.now queue.now tries) others.items }
            ensures { IfOk result (λ left. EachRetires tries others.items left.items) }
        { run_others(rt, alloc, engine, queue, way, gate, others, tries) },
        move || -> (Worked, L::Reader)
            requires { MayBegin engine.now queue.now tries first × HasRoomBeside (L.may_read reader) tries first × (L.has_read reader ≡ []) }
            ensures { WorksAndReads (L.may_read reader) tries first.pass first.taker result.0 (L.has_read result.1) }
        { L::first(rt, alloc, engine, queue, way, reader, first, gate, tries) },
    )
}

/// Runs all workers, and brings together what they leave.
fn run_workers<
    R: Threads + Wait + Sync,
    C: Clock,
    G: Gate,
    W: Work<C, G>,
    L: LaneRun<C, G, Way = W>,
>(
    rt: &R,
    alloc: Global,
    engine: &Engine<RowsLawful>,
    queue: &LaneQueue,
    way: &W,
    reader: L::Reader,
    gate: &G,
    mut workers: Vec<Worker<C>>,
    tries: u32,
) -> Result<(Gathered, L::Reader), NoMemory>
    requires some { 0 < length workers.items }
    requires begin { AllByRecursion (MayBegin engine.now queue.now tries) workers.items }
    requires room { AllByRecursion (HasRoomBeside (L.may_read reader) tries) workers.items }
    requires none { L.has_read reader ≡ [] }
    ensures { IfOk result (λ run. GathersIn engine.now tries (L.may_read reader) (map (λ w. w.pass) workers.items) (map (λ w. w.taker) workers.items) run.0 (L.has_read run.1)) }
{
    let others = workers.split_off(1)?;
    let Some(first) = workers.pop() else {
        unreachable!()
    };
    let (left, (worked, reader)) = run_beside::<R, C, G, W, L>(
        rt, alloc, engine, queue, way, reader, gate, first, others, tries,
    );
    let gathered = gather_others(start_gathering(alloc, worked)?, left?)?;
    Ok((gathered, reader))
}

/// Puts passes, rights to take lanes, and clocks together, in their order.
#[inline(never)]
fn workers_of<C: Clock>(
    alloc: Global,
    passes: Vec<Pass<RowsLawful>>,
    takers: Vec<LanePass>,
    clocks: Vec<C>,
) -> Result<Vec<Worker<C>>, NoMemory>
    requires takers { length passes.items ≡ length takers.items }
    requires clocks { length passes.items ≤ length clocks.items }
    ensures passes { IfOk result (λ workers. map (λ w. w.pass) workers.items ≡ passes.items) }
    ensures takers { IfOk result (λ workers. map (λ w. w.taker) workers.items ≡ takers.items) }
{
    let mut workers = Vec::new(alloc);
    let mut takers = takers.into_iter();
    let mut clocks = clocks.into_iter();
    for pass in passes {
        let (Some(taker), Some(clock)) = (takers.next(), clocks.next()) else {
            unreachable!()
        };
        workers.push(Worker { pass, taker, clock })?;
    }
    Ok(workers)
}

/// Runs all lanes on the passes of an engine, and brings the seats together again. Each pass is a worker, which takes lanes until none
/// is left, runs them in this way and then retires. The worker of the first pass is the caller's thread: it may read all rows beside its
/// lanes, and its pass stays open until the others have retired. Each other worker has a thread of its own; one for which none can be
/// made works behind another, on that one's thread.
///
/// `NoMemory` may come at any point of the run; all threads are joined first, and passes and lanes are dropped.
fn run_all_in<R: Threads + Wait + Sync, C: Clock, G: Gate, L: LaneRun<C, G>>(
    rt: &R,
    alloc: Global,
    engine: &Engine<RowsLawful>,
    passes: Vec<Pass<RowsLawful>>,
    lanes: Lanes,
    clocks: Vec<C>,
    gate: &G,
    tries: u32,
    way: &L::Way,
    reader: L::Reader,
) -> Result<(Alone<RowsLawful>, Vec<LaneDone>, L::Reader), NoMemory>
    requires passes { AreAllPasses engine.now passes.items }
    requires clocks { length passes.items ≤ length clocks.items }
    requires blocks { All (All MayRun) lanes }
    requires few { length lanes < 2 ^ 32 }
    requires fixed { fixed_records ≤ engine.now.fixed }
    requires room { AllByRecursion (λ p. HasRoom p.clock (all_draws lanes tries + L.may_read reader)) passes.items }
    requires way { L.is_for way.now (length lanes) engine.now.size.seats }
    requires none { L.has_read reader ≡ [] }
    ensures { IfOk result (λ run. RunsAndReads engine.now passes.items lanes tries (L.may_read reader) run.0 run.1.items (L.has_read run.2)) }
{
    let (queue, takers) = LaneQueue::fill(rt, alloc, lanes, engine.seats())?;
    let workers = workers_of(alloc, passes, takers, clocks)?;
    let (gathered, reader) = run_workers::<R, C, G, L::Way, L>(
        rt, alloc, engine, &queue, way, reader, gate, workers, tries,
    )?;
    let Gathered {
        pass,
        retired,
        takers,
        done,
    } = gathered;
    queue.close(rt, takers);
    Ok((engine.alone(pass, retired), done, reader))
}

/// Runs all lanes in this way, and brings the seats together again. The worker of seat 0 is the caller's thread; each other one has a
/// thread of its own, or works behind another where none can be made. It may wait for its threads and in the gate.
///
/// `NoMemory` may come at any point of the run; all threads are joined first, and passes and lanes are dropped.
pub fn run_all_by<R: Threads + Wait + Sync, C: Clock, G: Gate, L: LaneRun<C, G>>(
    rt: &R,
    alloc: Global,
    engine: &Engine<RowsLawful>,
    passes: Vec<Pass<RowsLawful>>,
    lanes: Lanes,
    clocks: Vec<C>,
    gate: &G,
    tries: u32,
    run: &mut L,
) -> Result<(Alone<RowsLawful>, Vec<LaneDone>), NoMemory>
    requires passes { AreAllPasses engine.now passes.items }
    requires clocks { length passes.items ≤ length clocks.items }
    requires blocks { All (All MayRun) lanes }
    requires few { length lanes < 2 ^ 32 }
    requires fixed { fixed_records ≤ engine.now.fixed }
    requires room { AllByRecursion (λ p. HasRoom p.clock (all_draws lanes tries + L.due run.old)) passes.items }
    ensures due { L.due run.new ≡ L.due run.old }
    ensures ran { IfOk result (λ ran. RunsAll engine.now passes.items lanes tries (L.due run.old) ran.0 ran.1.items) }
    ensures seen { IfOk result (λ ran. AreSeen (L.due run.old) passes.items ran.0 ran.1.items (L.seen run.new)) }
{
    readings_are_seen();
    let (way, reader) = run.begin(lanes.len(), engine.seats());
    let (mut alone, done, reader) = run_all_in::<R, C, G, L>(
        rt, alloc, engine, passes, lanes, clocks, gate, tries, &way, reader,
    )?;
    run.read_all(alloc, engine, &mut alone, reader)?;
    alone.tell(engine);
    Ok((alone, done))
}

/// Runs all lanes, each by `run_lane`, and reads nothing beside them.
pub fn run_all<R: Threads + Wait + Sync, C: Clock, G: Gate>(
    rt: &R,
    alloc: Global,
    engine: &Engine<RowsLawful>,
    passes: Vec<Pass<RowsLawful>>,
    lanes: Lanes,
    clocks: Vec<C>,
    gate: &G,
    tries: u32,
) -> Result<(Alone<RowsLawful>, Vec<LaneDone>), NoMemory>
    requires passes { AreAllPasses engine.now passes.items }
    requires clocks { length passes.items ≤ length clocks.items }
    requires blocks { All (All MayRun) lanes }
    requires few { length lanes < 2 ^ 32 }
    requires fixed { fixed_records ≤ engine.now.fixed }
    requires room { AllByRecursion (λ p. HasRoom p.clock (all_draws lanes tries)) passes.items }
    ensures { IfOk result (λ run. RunsAll engine.now passes.items lanes tries 0 run.0 run.1.items) }
{
    run_all_by(
        rt,
        alloc,
        engine,
        passes,
        lanes,
        clocks,
        gate,
        tries,
        &mut Workers,
    )
}
