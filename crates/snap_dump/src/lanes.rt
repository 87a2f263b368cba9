//! The run of one lane, with a dump behind the outcome of each block while dumps are due.

ghost use Rattle.std.specs.Prelude.{◌≡◌, ◌≢◌, ◌+◌, ◌-◌, ◌<◌, ◌≤◌, [], All, IfOk, OnOk, length};
ghost use Rattle.lane_runner.specs.Using.{MayUse};
ghost use Rattle.lane_runner.specs.Blocks.{AddsOthers};
ghost use Rattle.lane_runner.specs.Done.{DoesLane};
ghost use Rattle.lane_runner.specs.Lanes.{AddsSome, MayRun, lane_draws};
ghost use Rattle.lane_runner.specs.Room.{HasRoom, clock_after};
ghost use Rattle.snap_dump.specs.Beside.{MadeBeside};
ghost use Rattle.snap_dump.specs.Dumps.{DumpsMade, how_many};

use crate::at_seat::dump_at;
use crate::dump::Dump;
use lane_queue::Lane;
use lane_runner::{LaneDone, Session, Turn, give_way};
use outside_io::{Meets, Reads};
use replay_model::NoMemory;
use std::alloc::Global;
use stored_tables::RowsLawful;
use txn_engine::{Engine, Pass};

/// Makes a dump behind the outcome of a block, while fewer than `due` are made.
fn dump_behind<C: Reads>(
    alloc: Global,
    engine: &Engine<RowsLawful>,
    pass: &mut Pass<RowsLawful>,
    clock: &mut C,
    turn: Turn,
    due: u32,
    made: &mut Vec<Dump>,
) -> Result<(), NoMemory>
    requires pass { MayUse engine.now pass.old }
    requires within { length made.old.items ≤ due }
    requires room { HasRoom pass.old.clock (due - length made.old.items) }
    ensures others { OnOk result (AddsOthers pass.old pass.new) }
    ensures made { OnOk result (DumpsMade pass.old pass.new made.old.items made.new.items) }
    ensures one { OnOk result (turn ≡ Turn.Outcome → length made.old.items < due → length made.new.items ≡ length made.old.items + 1) }
    ensures none { turn ≢ Turn.Outcome → (made.new.items ≡ made.old.items) × (pass.new ≡ pass.old) }
    ensures within { OnOk result (length made.new.items ≤ due) }
    ensures adds { AddsSome pass.old pass.new }
    ensures clock { OnOk result (pass.new.clock ≤ clock_after pass.old.clock (how_many made.old.items made.new.items)) }
{
    if made.len() >= due as usize {
        return Ok(());
    }
    if turn != Turn::Outcome {
        return Ok(());
    }
    let dump = dump_at(alloc, engine, pass, clock.reading())?;
    made.push(dump)?;
    Ok(())
}

/// Runs the blocks of a lane by the rules of `run_lane`, try behind try, and makes a dump behind each outcome, while fewer than `due` are
/// made. Once a block is kept as rest, the later ones are too.
pub(crate) fn run_lane_dumping<C: Reads, G: Meets>(
    alloc: Global,
    engine: &Engine<RowsLawful>,
    pass: &mut Pass<RowsLawful>,
    lane: Lane,
    clock: &mut C,
    gate: &G,
    tries: u32,
    due: u32,
    made: &mut Vec<Dump>,
) -> Result<LaneDone, NoMemory>
    requires pass { MayUse engine.now pass.old }
    requires blocks { All MayRun lane.blocks }
    requires within { length made.old.items ≤ due }
    requires room { HasRoom pass.old.clock (lane_draws lane.blocks tries + (due - length made.old.items)) }
    ensures does { IfOk result (λ done. DoesLane lane done pass.old pass.new) }
    ensures rest { IfOk result (λ done. done.rest ≢ [] → pass.old.refusals + tries ≤ pass.new.refusals) }
    ensures made { OnOk result (DumpsMade pass.old pass.new made.old.items made.new.items) }
    ensures within { OnOk result (length made.new.items ≤ due) }
    ensures adds { AddsSome pass.old pass.new }
    ensures clock { OnOk result (pass.new.clock ≤ clock_after pass.old.clock (lane_draws lane.blocks tries + how_many made.old.items made.new.items)) }
    ensures beside { IfOk result (λ done. MadeBeside due pass.old pass.new made.old.items made.new.items done.results) }
{
    // The seat of the pass is one of 64.
    pass.seat();
    engine.seats();
    let mut session = Session::new(alloc, lane, tries);
    'attempts: while session.has_next() {
        give_way(session.pause());
        let turn = session.attempt(engine, pass, clock, gate)?;
        dump_behind(alloc, engine, pass, clock, turn, due, made)?;
    }
    Ok(session.finish())
}
