//! The run of a snapshot block.

ghost use Rattle.std.specs.Prelude.{◌≡◌, ◌+◌, ◌≤◌, [], true, None, All, IfOk, OnOk, OnErr};
ghost use Rattle.replay_model.specs.Input.{AreCommands};
ghost use Rattle.stored_tables.specs.Answers.{IsShort, ReadsAlone};
ghost use Rattle.txn_engine.specs.Pass.{IsAlone};
ghost use Rattle.lane_runner.specs.Using.{MayUse};
ghost use Rattle.lane_runner.specs.Room.{HasRoom, clock_after};
ghost use Rattle.lane_runner.specs.Blocks.{IsDone};
ghost use Rattle.lane_runner.specs.Lanes.{AddsSome};
ghost use Rattle.lane_runner.specs.Ready.{IsReady, IsReadyOnceCollected};

use crate::collecting::collect;
use crate::done::BlockDone;
use crate::walks::untorn;
use outside_io::Meets;
use replay_model::{Block, NoMemory, Placed};
use std::alloc::Global;
use stored_tables::{RowsLawful, exec_snap, fits_more, fits_records, keeps_tables};
use txn_engine::{Engine, Pass, Seat};

/// Reads a snapshot block at the minimum of the published stamps, after a tick with the clock's reading. Want of memory leaves an
/// entry that is no block's.
fn read_block(
    alloc: Global,
    engine: &Engine<RowsLawful>,
    pass: &mut Pass<RowsLawful>,
    block: &Block,
    reading: u64,
) -> Result<BlockDone, NoMemory>
    requires pass { MayUse engine.now pass.old }
    requires kind { block.now.snap ≡ true }
    requires commands { AreCommands 8 block.now.commands }
    requires short { All IsShort block.now.commands }
    requires reads { All ReadsAlone block.now.commands }
    requires room { HasRoom pass.old.clock 1 }
    ensures done { IfOk result (λ done. IsDone block.now pass.old pass.new done) }
    ensures first { IfOk result (λ done. done.first_read ≡ None) }
    ensures fault { OnErr result (AddsSome pass.old pass.new) }
    ensures clock { pass.new.clock ≤ clock_after pass.old.clock 1 }
    ensures ready { OnOk result (IsReady pass.old → IsReadyOnceCollected pass.new) }
{
    keeps_tables();
    fits_records();
    fits_more();
    // The fixed records are among all, whose number is in its range.
    engine.fixed();
    engine.records();
    let Ok(_) = pass.tick(engine, reading) else {
        unreachable!();
    };
    let mut snapshot = pass.snapshot(engine);
    let told = exec_snap(alloc, &mut snapshot, &block.commands);
    let stamp = snapshot.finish();
    // A kept state agrees with what was read, so the tables are not torn.
    let outcome = untorn(told)?;
    let placed = Placed {
        stamp,
        snap: true,
        lane: block.lane,
        number: block.number,
    };
    Ok(BlockDone {
        placed,
        outcome,
        first_read: None,
    })
}

/// Runs a snapshot block, and collects.
pub(crate) fn run_snap<G: Meets>(
    alloc: Global,
    engine: &Engine<RowsLawful>,
    pass: &mut Pass<RowsLawful>,
    block: &Block,
    reading: u64,
    gate: &G,
) -> Result<BlockDone, NoMemory>
    requires pass { MayUse engine.now pass.old }
    requires kind { block.now.snap ≡ true }
    requires commands { AreCommands 8 block.now.commands }
    requires short { All IsShort block.now.commands }
    requires reads { All ReadsAlone block.now.commands }
    requires room { HasRoom pass.old.clock 1 }
    ensures done { IfOk result (λ done. IsDone block.now pass.old pass.new done) }
    ensures first { IfOk result (λ done. done.first_read ≡ None) }
    ensures fault { OnErr result (AddsSome pass.old pass.new) }
    ensures clock { pass.new.clock ≤ clock_after pass.old.clock 1 }
    ensures queue { OnOk result (IsAlone pass.old → pass.new.queue ≡ []) }
    ensures ready { OnOk result (IsReady pass.old → IsReady pass.new) }
{
    let done = read_block(alloc, engine, pass, block, reading)?;
    gate.after(block.lane, block.number);
    collect(engine, pass);
    Ok(done)
}
