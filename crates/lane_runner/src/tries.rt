//! A try of a block of either kind.

ghost use Rattle.std.specs.Prelude.{◌≡◌, ◌≤◌, List, [], ◌∷◌, IfOk, IsSome, OnOk, OnErr};
ghost use Rattle.replay_model.specs.declared.input.Block.{Block};
ghost use Rattle.txn_engine.specs.Pass.{IsIdleOf, IsAlone};
ghost use Rattle.lane_runner.specs.Using.{MayUse};
ghost use Rattle.lane_runner.specs.Room.{HasRoom, clock_after};
ghost use Rattle.lane_runner.specs.Blocks.{IsRefused, IsTried};
ghost use Rattle.lane_runner.specs.Lanes.{MayRun, AddsSome};
ghost use Rattle.lane_runner.specs.Ready.{IsAmple, IsReady};

use crate::done::BlockDone;
use crate::keeping_up::sync_with_others;
use crate::snapping::run_snap;
use crate::trying::try_once;
use outside_io::{Meets, Reads};
use replay_model::{Block, NoMemory};
use std::alloc::Global;
use stored_tables::RowsLawful;
use txn_engine::{Engine, Pass};

/// Synchronises the pass with all others before a further try of a block; before the first one nothing is done.
fn sync_before_try(engine: &Engine<RowsLawful>, pass: &mut Pass<RowsLawful>, refused: u32)
    requires pass { IsIdleOf engine.now pass.old }
    ensures first { refused ≡ 0 → pass.new ≡ pass.old }
    ensures none { IsRefused 0 pass.old pass.new }
    ensures queue { pass.new.queue ≡ pass.old.queue }
    ensures clock { pass.new.clock ≤ clock_after pass.old.clock 0 }
{
    if refused > 0 {
        sync_with_others(engine, pass);
    }
}

/// Tries a block once with the clock's reading, and collects. A transaction block that was refused is tried again after a synchronisation with
/// all other seats; a snapshot block is never refused. `None`: it is to be tried again.
pub(crate) fn try_block<C: Reads, G: Meets>(
    alloc: Global,
    engine: &Engine<RowsLawful>,
    pass: &mut Pass<RowsLawful>,
    block: &Block,
    clock: &mut C,
    gate: &G,
    refused: u32,
) -> Result<Option<BlockDone>, NoMemory>
    requires pass { MayUse engine.now pass.old }
    requires block { MayRun block.now }
    requires room { HasRoom pass.old.clock 1 }
    ensures tried { IfOk result (λ answer. IsTried block.now pass.old pass.new answer) }
    ensures fault { OnErr result (AddsSome pass.old pass.new) }
    ensures queue { OnOk result (IsAlone pass.old → pass.new.queue ≡ []) }
    ensures clock { pass.new.clock ≤ clock_after pass.old.clock 1 }
    ensures granted { refused ≡ 0 → (more : List Block) → IsAmple pass.old (block.now ∷ more) → IfOk result (λ answer. IsSome answer × IsReady pass.new) }
{
    if block.snap {
        let done = run_snap(alloc, engine, pass, block, clock.reading(), gate)?;
        return Ok(Some(done));
    }
    sync_before_try(engine, pass, refused);
    try_once(alloc, engine, pass, block, clock.reading(), gate)
}
