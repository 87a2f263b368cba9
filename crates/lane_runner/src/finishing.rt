//! The blocks that remain, run by the seat that is alone.

ghost use Rattle.std.specs.Prelude.{◌≡◌, ◌+◌, ◌*◌, ◌≤◌, All, IfOk, OnOk, length};
ghost use Rattle.histories.specs.History.{Lawful};
ghost use Rattle.history_replay.specs.Results.{StandsForSome};
ghost use Rattle.txn_engine.specs.Lists.{IsRoomy};
ghost use Rattle.lane_runner.specs.Using.{MayUse};
ghost use Rattle.lane_runner.specs.Finishing.{MayFinish, Finishes, AreBehind, results_of, MayFinishAll, rests_of, rests_add, how_many_remain, RunsRests};
ghost use Rattle.lane_runner.specs.Weighs.{blocks_add};
ghost use Rattle.lane_runner.specs.Holding.{Holds, HasPlaces, HasRecords};
ghost use Rattle.lane_runner.specs.Rows.{stands};
ghost use Rattle.lane_runner.specs.Room.{HasRoom, clock_after};

use crate::alone_block::run_block;
use crate::done::LaneDone;
use histories::next_state_is_overlay;
use replay_model::{Block, NoMemory, Outcome, Placed};
use std::alloc::Global;
use stored_tables::{RowsLawful, adds_after};
use txn_engine::{Alone, Engine, Seat};

/// The results of lanes and the blocks that remain, lane behind lane.
fn take_apart(
    alloc: Global,
    done: Vec<LaneDone>,
) -> Result<(Vec<(Placed, Outcome)>, Vec<Block>), NoMemory>
    ensures results { IfOk result (λ parts. parts.0.items ≡ results_of done.items) }
    ensures rests { IfOk result (λ parts. parts.1.items ≡ rests_of done.items) }
{
    let mut results = Vec::new(alloc);
    let mut rests = Vec::new(alloc);
    for lane in done {
        results.append(&mut lane.results.into_vec())?;
        rests.append(&mut lane.rest.into_vec())?;
    }
    Ok((results, rests))
}

/// Runs blocks in their order, and puts their results behind those that are there.
fn run_rests(
    alloc: Global,
    engine: &Engine<RowsLawful>,
    alone: &mut Alone<RowsLawful>,
    blocks: Vec<Block>,
    results: &mut Vec<(Placed, Outcome)>,
) -> Result<(), NoMemory>
    requires pass { MayUse engine.now alone.old.pass }
    requires holds { Holds alone.old.pass }
    requires blocks { All MayFinish blocks.items }
    requires places { HasPlaces engine.now }
    requires records { HasRecords alone.old.pass (blocks_add blocks.items) }
    requires room { HasRoom alone.old.pass.clock (length blocks.items) }
    ensures ran { OnOk result (RunsRests blocks.items results.old.items alone.old.pass results.new.items alone.new.pass) }
    ensures clock { OnOk result (alone.new.pass.clock ≤ clock_after alone.old.pass.clock (length blocks.items)) }
{
    adds_after();
    for block in blocks {
        let done = run_block(alloc, engine, alone, &block)?;
        results.push(done)?;
    }
    Ok(())
}

/// Runs the blocks that remain of all lanes, in the order of the lanes, at a seat that has settled.
fn finish_settled(
    alloc: Global,
    engine: &Engine<RowsLawful>,
    alone: &mut Alone<RowsLawful>,
    done: Vec<LaneDone>,
) -> Result<Vec<(Placed, Outcome)>, NoMemory>
    requires pass { MayUse engine.now alone.old.pass }
    requires roomy { IsRoomy alone.old.pass }
    requires blocks { MayFinishAll done.items }
    requires places { HasPlaces engine.now }
    requires records { Lawful (StandsForSome stands) alone.old.pass.shared.size.records alone.old.pass.log → HasRecords alone.old.pass (rests_add done.items) }
    requires room { HasRoom alone.old.pass.clock (how_many_remain done.items) }
    ensures finishes { IfOk result (λ results. Finishes done.items alone.old.pass alone.new.pass results.items) }
    ensures clock { OnOk result (alone.new.pass.clock ≤ clock_after alone.old.pass.clock (how_many_remain done.items)) }
{
    let mut done = done;
    done.sort_unstable_by_key(|lane| lane.lane);
    alone.collect(engine);
    alone.rescan(engine);
    alone.tell(engine);
    let (mut results, rests) = take_apart(alloc, done)?;
    run_rests(alloc, engine, alone, rests, &mut results)?;
    Ok(results)
}

/// Brings each record to one version, finds the absent records, and runs the blocks that remain of all lanes, in the order of the lanes:
/// each as in a lane, but with the reading 0, without gate and promotion, and never refused. Gives every block's outcome once: those of
/// the lanes in their order, and behind them those of the blocks that remained. After `NoMemory` some of them may have run.
pub fn finish_alone(
    alloc: Global,
    engine: &Engine<RowsLawful>,
    alone: &mut Alone<RowsLawful>,
    done: Vec<LaneDone>,
) -> Result<Vec<(Placed, Outcome)>, NoMemory>
    requires pass { MayUse engine.now alone.old.pass }
    requires blocks { MayFinishAll done.items }
    requires places { HasPlaces engine.now }
    requires records { HasRecords alone.old.pass (rests_add done.items) }
    requires room { HasRoom alone.old.pass.clock (2 * engine.now.size.records + how_many_remain done.items) }
    ensures finishes { IfOk result (λ results. Finishes done.items alone.old.pass alone.new.pass results.items) }
    ensures clock { OnOk result (alone.new.pass.clock ≤ clock_after alone.old.pass.clock (2 * engine.now.size.records + how_many_remain done.items)) }
{
    next_state_is_overlay();
    let Ok(_) = alone.settle(engine) else {
        unreachable!();
    };
    finish_settled(alloc, engine, alone, done)
}
