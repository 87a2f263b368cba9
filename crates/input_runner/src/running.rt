//! The run of an input on an engine.

ghost use Rattle.std.specs.Prelude.{◌≡◌, ℕ, ◌≤◌, All, IfOk, OnOk, length};
ghost use Rattle.txn_engine.specs.Pass.{PassView};
ghost use Rattle.replay_model.specs.Input.{IsWellFormed};
ghost use Rattle.txn_script.specs.Grammar.{IsWithinLimits, IsRunnable};
ghost use Rattle.lane_runner.specs.Loading.{AreRowsOf};
ghost use Rattle.lane_runner.specs.Finishing.{MayFinish};
ghost use Rattle.input_runner.specs.Ran.{IsRunOf, AreSeenIn, AreSnapshotsOf, order_of};
ghost use Rattle.input_runner.specs.Running.{IsFor, IsLoaded, HasRunLanes, AreSeenBehind, AddsLater, GrowsBehind, HasRunAll};

use crate::copying::copy_lanes;
use crate::reading::read_tables;
use crate::sizes::{sizes_are_enough, sizes_of};
use history_replay::sort_results;
use lane_runner::{LaneDone, RowTables, finish_alone, load_rows};
use lane_threads::{
    LaneRun, run_all_by, runs_become_whole, runs_can_finish, shares_are_all, whole_runs_are_results,
};
use outside_io::{Clock, Gate};
use replay_model::{Input, NoMemory, Outcome, Pairs, Placed};
use std::alloc::Global;
use std::sync::Wait;
use std::thread::Threads;
use stored_tables::{FIXED_RECORDS, RowsLawful, one_tables};
use txn_engine::{Alone, Engine, Seat, StartFault};

/// What the run of an input came to.
#[derive(Drop)]
pub struct Ran {
    /// The blocks in the order of their stamps, each with its outcome.
    pub results: Vec<(Placed, Outcome)>,
    /// The rows of each table, as they were last.
    pub rows: Vec<Pairs>,
    /// The seat that is alone at the end; its log is the history of the run.
    pub end: Alone<RowsLawful>,
}

/// An engine of the sizes of the input, with so many seats, and its seat 0, which has loaded the rows and the indexes.
fn start(
    alloc: Global,
    input: &Input,
    seats: u32,
) -> Result<(Engine<RowsLawful>, Alone<RowsLawful>), NoMemory>
    requires well_formed { IsWellFormed input.now }
    requires within { IsWithinLimits input.now }
    requires rows { AreRowsOf input.now.rows }
    requires some { 1 ≤ seats }
    requires most { seats ≤ 64 }
    ensures engine { IfOk result (λ made. IsFor input.now seats made.0) }
    ensures loaded { IfOk result (λ made. IsLoaded input.now made.0 made.1) }
{
    sizes_are_enough();
    let sizes = sizes_of(input, seats);
    let (engine, mut alone) = match Engine::<RowsLawful>::start(
        alloc,
        seats,
        sizes.records,
        FIXED_RECORDS,
        sizes.spare,
    ) {
        Ok(made) => made,
        Err(StartFault::NoMemory) => return Err(NoMemory),
        Err(StartFault::Limit) => unreachable!(),
    };
    load_rows(alloc, &engine, &mut alone, input)?;
    Ok((engine, alone))
}

/// Runs the lanes of an input in this way on the passes of all seats, and brings these together again.
fn run_lanes<R: Threads + Wait + Sync, C: Clock, G: Gate, L: LaneRun<C, G>>(
    rt: &R,
    alloc: Global,
    engine: &Engine<RowsLawful>,
    alone: Alone<RowsLawful>,
    input: &Input,
    tries: u32,
    clocks: Vec<C>,
    gate: &G,
    way: &mut L,
) -> Result<(Alone<RowsLawful>, Vec<LaneDone>), NoMemory>
    requires well_formed { IsWellFormed input.now }
    requires within { IsWithinLimits input.now }
    requires blocks { All (All MayFinish) input.now.lanes }
    requires engine { IsFor input.now engine.now.size.seats engine.now }
    requires loaded { IsLoaded input.now engine.now alone }
    requires tries { tries ≤ 1000 }
    requires clocks { engine.now.size.seats ≤ length clocks.items }
    ensures ran { IfOk result (λ run. HasRunLanes input.now tries (L.due way.old) engine.now alone.pass run.0 run.1.items) }
    ensures due { L.due way.new ≡ L.due way.old }
    ensures seen { IfOk result (λ run. AreSeenBehind (L.due way.old) alone.pass run.0 run.1.items (L.seen way.new)) }
{
    shares_are_all();
    // The engine has a seat, and the seat that is alone is its first.
    engine.seats();
    alone.shared();
    let lanes = copy_lanes(alloc, &input.lanes)?;
    let passes = alone.share(engine);
    let (mut alone, done) = run_all_by(rt, alloc, engine, passes, lanes, clocks, gate, tries, way)?;
    alone.tell(engine);
    Ok((alone, done))
}

/// Runs the blocks that remain, and reads the tables.
fn run_rests(
    alloc: Global,
    engine: &Engine<RowsLawful>,
    alone: &mut Alone<RowsLawful>,
    input: &Input,
    done: Vec<LaneDone>,
) -> Result<(Vec<(Placed, Outcome)>, Vec<Pairs>), NoMemory>
    requires within { IsWithinLimits input.now }
    requires blocks { All (All MayFinish) input.now.lanes }
    requires engine { IsFor input.now engine.now.size.seats engine.now }
    requires ran { (tries due : ℕ) × (loaded : PassView) × (tries ≤ 1000) × (due ≤ 64) × HasRunLanes input.now tries due engine.now loaded alone.old done.items }
    ensures ran { IfOk result (λ run. (tries due : ℕ) (loaded : PassView) → tries ≤ 1000 → due ≤ 64 → HasRunLanes input.now tries due engine.now loaded alone.old done.items
        → HasRunAll input.now loaded alone.new.pass run.0.items run.1.items) }
    ensures grows { OnOk result (GrowsBehind alone.old.pass alone.new.pass.log) }
    ensures later { IfOk result (λ run. AddsLater alone.old.pass done.items run.0.items) }
{
    sizes_are_enough();
    runs_can_finish();
    runs_become_whole();
    // The engine has a seat, and at most 64.
    engine.seats();
    let results = finish_alone(alloc, engine, alone, done)?;
    let rows = read_tables(alloc, engine, alone, input.tables.len() as u32)?;
    Ok((results, rows))
}

/// Runs an input on an engine of its own with so many seats, its lanes in this way, each seat with its clock; each transaction block is tried
/// so many times beside the others, and those that remain are run by the seat that is alone. What was read beside the lanes are the rows
/// that the transaction blocks up to its stamp leave, each time by a snapshot of the run, beside the transactions of the first seat.
///
/// `NoMemory` may come at any point.
pub fn run_input<R: Threads + Wait + Sync, C: Clock, G: Gate, L: LaneRun<C, G>>(
    rt: &R,
    alloc: Global,
    input: &Input,
    workers: u32,
    tries: u32,
    clocks: Vec<C>,
    gate: &G,
    way: &mut L,
) -> Result<Ran, NoMemory>
    requires well_formed { IsWellFormed input.now }
    requires within { IsWithinLimits input.now }
    requires runnable { IsRunnable input.now }
    requires some { 1 ≤ workers }
    requires most { workers ≤ 64 }
    requires tries { tries ≤ 1000 }
    requires clocks { workers ≤ length clocks.items }
    ensures ran { IfOk result (λ ran. IsRunOf input.now ran.results.items ran.rows.items ran.end.pass) }
    ensures due { L.due way.new ≡ L.due way.old }
    ensures seen { IfOk result (λ ran. AreSeenIn (L.due way.old) input.now (order_of ran.results.items) (L.seen way.new)) }
    ensures snapshots { IfOk result (λ ran. AreSnapshotsOf input.now (order_of ran.results.items) ran.end.pass (L.seen way.new)) }
{
    whole_runs_are_results();
    one_tables();
    let (engine, alone) = start(alloc, input, workers)?;
    let (mut alone, done) = run_lanes(rt, alloc, &engine, alone, input, tries, clocks, gate, way)?;
    let (mut results, rows) = run_rests(alloc, &engine, &mut alone, input, done)?;
    sort_results::<RowTables>(&mut results);
    Ok(Ran {
        results,
        rows,
        end: alone,
    })
}
