//! One block at the seat that is alone.

ghost use Rattle.std.specs.Prelude.{◌≡◌, ◌≤◌, [], true, false, All, IfOk, OnOk, length};
ghost use Rattle.histories.specs.History.{Lawful};
ghost use Rattle.history_replay.specs.Results.{StandsForSome};
ghost use Rattle.replay_model.specs.Input.{AreCommands};
ghost use Rattle.stored_tables.specs.Answers.{IsShort, ReadsAlone};
ghost use Rattle.stored_tables.specs.Weight.{all_add};
ghost use Rattle.stored_tables.specs.Places.{fixed_records};
ghost use Rattle.txn_engine.specs.Pass.{engine_of};
ghost use Rattle.lane_runner.specs.Using.{MayUse};
ghost use Rattle.lane_runner.specs.Rows.{stands};
ghost use Rattle.lane_runner.specs.Adds.{Adds};
ghost use Rattle.lane_runner.specs.Blocks.{RunsBlock};
ghost use Rattle.lane_runner.specs.Finishing.{MayFinish};
ghost use Rattle.lane_runner.specs.Holding.{Holds, Awaits, Enters, HasPlaces, HasRecords, LeavesAfter, CommitsAt, IsBehind, KeepsShared};
ghost use Rattle.lane_runner.specs.Room.{HasRoom, clock_after};

use crate::alone_txn::end_alone;
use crate::walks::untorn;
use histories::next_state_is_overlay;
use replay_model::{Block, Commands, NoMemory, Outcome, Placed};
use std::alloc::Global;
use stored_tables::{
    RowsLawful, exec_snap, exec_txn, fits_more, fits_records, keeps_tables, record_left, run_adds,
};
use txn_engine::{Alone, BeginFault, Engine, Seat};

/// Tells that the log is lawful, and collects.
pub(crate) fn close(engine: &Engine<RowsLawful>, alone: &mut Alone<RowsLawful>)
    requires engine { engine_of alone.old.pass ≡ engine.now }
    requires awaits { Awaits alone.old }
    ensures holds { Holds alone.new.pass }
    ensures lawful { Lawful (StandsForSome stands) alone.old.pass.shared.size.records alone.old.pass.log }
    ensures adds { Adds alone.old.pass alone.new.pass [] }
    ensures clock { alone.new.pass.clock ≡ alone.old.pass.clock }
    ensures shared { alone.new.shared ≡ alone.old.shared }
{
    alone.tell(engine);
    alone.collect(engine);
}

/// Commits commands as one transaction, and gives its stamp. Commands of which one is refused have an entry without writes.
///
/// No other transaction is in the way, and no place and no record number is wanted for: want of memory alone comes.
fn commit_commands(
    alloc: Global,
    engine: &Engine<RowsLawful>,
    alone: &mut Alone<RowsLawful>,
    commands: &Commands,
) -> Result<(u64, Outcome), NoMemory>
    requires pass { MayUse engine.now alone.old.pass }
    requires holds { Holds alone.old.pass }
    requires commands { AreCommands 8 commands.now }
    requires short { All IsShort commands.now }
    requires few { length commands.now ≤ 64 }
    requires places { HasPlaces engine.now }
    requires records { HasRecords alone.old.pass (all_add commands.now) }
    requires room { HasRoom alone.old.pass.clock 1 }
    ensures enters { IfOk result (λ done. Enters commands.now alone.old alone.new done.0 false done.1) }
    ensures shared { KeepsShared alone.old alone.new }
    ensures awaits { OnOk result (Awaits alone.new) }
{
    keeps_tables();
    fits_records();
    fits_more();
    run_adds();
    record_left();
    next_state_is_overlay();
    // The number of records is in its range, and the seat is alone.
    engine.records();
    alone.shared();
    let mut txn = match alone.begin(engine, 0) {
        Ok(txn) => txn,
        Err(BeginFault::ClockOut) => unreachable!(),
        Err(BeginFault::NoMemory) => return Err(NoMemory),
    };
    let told = exec_txn(alloc, &mut txn, commands);
    txn.leave();
    end_alone(engine, alone, told)
}

/// Runs commands as one transaction, and gives its stamp.
pub(crate) fn run_commands(
    alloc: Global,
    engine: &Engine<RowsLawful>,
    alone: &mut Alone<RowsLawful>,
    commands: &Commands,
) -> Result<(u64, Outcome), NoMemory>
    requires pass { MayUse engine.now alone.old.pass }
    requires holds { Holds alone.old.pass }
    requires commands { AreCommands 8 commands.now }
    requires short { All IsShort commands.now }
    requires few { length commands.now ≤ 64 }
    requires places { HasPlaces engine.now }
    requires records { HasRecords alone.old.pass (all_add commands.now) }
    requires room { HasRoom alone.old.pass.clock 1 }
    ensures holds { OnOk result (Holds alone.new.pass) }
    ensures committed { IfOk result (λ done. CommitsAt commands.now alone.old.pass alone.new.pass done.0 false done.1) }
    ensures shared { alone.new.shared ≡ alone.old.shared }
    ensures leaves { OnOk result (LeavesAfter commands.now alone.old.pass alone.new.pass) }
    ensures clock { OnOk result (alone.new.pass.clock ≤ clock_after alone.old.pass.clock 1) }
{
    let done = commit_commands(alloc, engine, alone, commands)?;
    close(engine, alone);
    Ok(done)
}

/// Reads for commands that read alone, as a snapshot behind all transactions of the log, and gives its stamp.
fn see_commands(
    alloc: Global,
    engine: &Engine<RowsLawful>,
    alone: &mut Alone<RowsLawful>,
    commands: &Commands,
) -> Result<(u64, Outcome), NoMemory>
    requires engine { engine_of alone.old.pass ≡ engine.now }
    requires holds { Holds alone.old.pass }
    requires commands { AreCommands 8 commands.now }
    requires short { All IsShort commands.now }
    requires reads { All ReadsAlone commands.now }
    requires size { fixed_records ≤ engine.now.size.records }
    requires room { HasRoom alone.old.pass.clock 1 }
    ensures enters { IfOk result (λ done. Enters commands.now alone.old alone.new done.0 true done.1) }
    ensures awaits { OnOk result (Awaits alone.new) }
    ensures behind { IfOk result (λ done. IsBehind alone.old.pass.log done.0) }
{
    keeps_tables();
    fits_records();
    // The seat is alone.
    alone.shared();
    let Ok(_stamp) = alone.tick(engine, 0) else {
        unreachable!();
    };
    let mut snapshot = alone.snapshot(engine);
    let told = exec_snap(alloc, &mut snapshot, commands);
    let stamp = snapshot.finish();
    // A kept state agrees with what was read, so the tables are not torn.
    let outcome = untorn(told)?;
    Ok((stamp, outcome))
}

/// Runs commands that read alone as a snapshot behind all transactions of the log, and gives its stamp.
fn look_up(
    alloc: Global,
    engine: &Engine<RowsLawful>,
    alone: &mut Alone<RowsLawful>,
    commands: &Commands,
) -> Result<(u64, Outcome), NoMemory>
    requires engine { engine_of alone.old.pass ≡ engine.now }
    requires holds { Holds alone.old.pass }
    requires commands { AreCommands 8 commands.now }
    requires short { All IsShort commands.now }
    requires reads { All ReadsAlone commands.now }
    requires size { fixed_records ≤ engine.now.size.records }
    requires room { HasRoom alone.old.pass.clock 1 }
    ensures holds { OnOk result (Holds alone.new.pass) }
    ensures committed { IfOk result (λ done. CommitsAt commands.now alone.old.pass alone.new.pass done.0 true done.1) }
    ensures behind { IfOk result (λ done. IsBehind alone.old.pass.log done.0) }
    ensures leaves { OnOk result (LeavesAfter commands.now alone.old.pass alone.new.pass) }
    ensures clock { OnOk result (alone.new.pass.clock ≤ clock_after alone.old.pass.clock 1) }
{
    let done = see_commands(alloc, engine, alone, commands)?;
    close(engine, alone);
    Ok(done)
}

/// Runs a block.
pub(crate) fn run_block(
    alloc: Global,
    engine: &Engine<RowsLawful>,
    alone: &mut Alone<RowsLawful>,
    block: &Block,
) -> Result<(Placed, Outcome), NoMemory>
    requires pass { MayUse engine.now alone.old.pass }
    requires holds { Holds alone.old.pass }
    requires block { MayFinish block.now }
    requires places { HasPlaces engine.now }
    requires records { HasRecords alone.old.pass (all_add block.now.commands) }
    requires room { HasRoom alone.old.pass.clock 1 }
    ensures holds { OnOk result (Holds alone.new.pass) }
    ensures ran { IfOk result (λ done. RunsBlock block.now alone.old.pass alone.new.pass done.0 done.1) }
    ensures behind { IfOk result (λ done. done.0.snap ≡ true → IsBehind alone.old.pass.log done.0.stamp) }
    ensures leaves { OnOk result (LeavesAfter block.now.commands alone.old.pass alone.new.pass) }
    ensures clock { OnOk result (alone.new.pass.clock ≤ clock_after alone.old.pass.clock 1) }
{
    let (stamp, outcome) = if block.snap {
        look_up(alloc, engine, alone, &block.commands)?
    } else {
        run_commands(alloc, engine, alone, &block.commands)?
    };
    let placed = Placed {
        stamp,
        snap: block.snap,
        lane: block.lane,
        number: block.number,
    };
    Ok((placed, outcome))
}
