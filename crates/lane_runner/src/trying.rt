//! One try of a transaction block.

ghost use Rattle.std.specs.Prelude.{◌≡◌, ◌+◌, ◌<◌, ◌≤◌, List, [], ◌∷◌, false, All, IfOk, IfSome, IsSome, OnOk, OnErr};
ghost use Rattle.histories.specs.History.{Lawful};
ghost use Rattle.history_replay.specs.Results.{StandsForSome};
ghost use Rattle.plain_data.specs.State.{Fits};
ghost use Rattle.replay_model.specs.declared.input.Block.{Block};
ghost use Rattle.replay_model.specs.Input.{AreCommands};
ghost use Rattle.stored_tables.specs.Answers.{IsShort};
ghost use Rattle.seat_post.specs.declared.phase.Phase.TheVariants.{Open};
ghost use Rattle.txn_engine.specs.Pass.{IsAlone, entry_of};
ghost use Rattle.lane_runner.specs.Using.{MayUse};
ghost use Rattle.lane_runner.specs.Rows.{stands};
ghost use Rattle.lane_runner.specs.Room.{HasRoom, clock_after};
ghost use Rattle.lane_runner.specs.Adds.{Adds};
ghost use Rattle.lane_runner.specs.Blocks.{IsTried};
ghost use Rattle.lane_runner.specs.Ending.{EndsBlock, ran};
ghost use Rattle.lane_runner.specs.Ready.{IsAmple, IsReady, IsReadyOnceCollected};

use crate::collecting::collect;
use crate::done::BlockDone;
use crate::keeping_up::hear_refusal;
use outside_io::Meets;
use record_store::RecordStore;
use replay_model::{Block, NoMemory, Outcome, Placed};
use std::alloc::Global;
use stored_tables::{RowsLawful, Walk, exec_txn, fits_more, fits_records, keeps_tables};
use txn_engine::{BeginFault, CommitFault, Engine, Pass, Seat, Txn, TxnFault};
use validate_core::Conflict;

/// The conflict for which a commit was refused. `None`: no place was left.
fn conflict_of(fault: CommitFault) -> Option<Conflict> {
    match fault {
        CommitFault::Conflict(conflict) => Some(conflict),
        CommitFault::PlacesOut => None,
    }
}

/// Tries a transaction block once. `Err`: it is to be tried again, since another transaction was in the way, of which the conflict tells, or
/// no place or no record number was left; one refusal more is counted then.
///
/// A block that a command refuses has an entry without writes. The clock's reading may be any number. A seat that is alone
/// is granted each block for which it has room.
fn try_txn<G: Meets>(
    alloc: Global,
    engine: &Engine<RowsLawful>,
    pass: &mut Pass<RowsLawful>,
    block: &Block,
    reading: u64,
    gate: &G,
) -> Result<Result<BlockDone, Option<Conflict>>, NoMemory>
    requires pass { MayUse engine.now pass.old }
    requires kind { block.now.snap ≡ false }
    requires commands { AreCommands 8 block.now.commands }
    requires short { All IsShort block.now.commands }
    requires room { HasRoom pass.old.clock 1 }
    ensures tried { IfOk result (λ answer. IsTried block.now pass.old pass.new (ran answer)) }
    ensures fault { OnErr result (Adds pass.old pass.new []) }
    ensures clock { pass.new.clock ≤ clock_after pass.old.clock 1 }
    ensures granted { Lawful (StandsForSome stands) pass.old.shared.size.records pass.old.log → (more : List Block) → IsAmple pass.old (block.now ∷ more) → IfOk result (λ answer. IsSome (ran answer)) }
    ensures ready { IfOk result (λ answer. IfSome (ran answer) (λ _. IsReady pass.old → IsReadyOnceCollected pass.new)) }
{
    keeps_tables();
    fits_records();
    fits_more();
    // The number of records is in its range.
    engine.records();
    let mut txn = match pass.begin(engine, reading) {
        Ok(txn) => txn,
        Err(BeginFault::ClockOut) => unreachable!(),
        Err(BeginFault::NoMemory) => return Err(NoMemory),
    };
    let outcome = match exec_txn(alloc, &mut txn, &block.commands) {
        Ok(outcome) => outcome,
        Err(Walk::Torn(_)) => {
            // No kept state agrees with what was read, so the reads do not commit.
            txn.undo();
            gate.before(block.lane, block.number);
            match txn.commit() {
                Ok(_) => unreachable!(),
                Err(fault) => return Ok(Err(conflict_of(fault))),
            }
        }
        Err(Walk::Store(TxnFault::Conflict(conflict))) => {
            txn.abort();
            return Ok(Err(Some(conflict)));
        }
        Err(Walk::Store(TxnFault::RecordsOut)) => {
            txn.abort();
            return Ok(Err(None));
        }
        Err(_) => {
            txn.abort();
            return Err(NoMemory);
        }
    };
    Ok(commit_block(txn, block, outcome, gate))
}

/// Commits the transaction of a block that has this outcome, and gives what the block came to. `Err`: another transaction was in the way, of
/// which the conflict tells, or no place was left.
fn commit_block<G: Meets>(
    txn: Txn<'_, RowsLawful>,
    block: &Block,
    outcome: Outcome,
    gate: &G,
) -> Result<BlockDone, Option<Conflict>>
    requires open { txn.seat.now.phase ≡ Open }
    requires fits { Fits (StandsForSome stands) txn.seat.now.shared.size.records (entry_of txn.seat.now) }
    ensures ends { EndsBlock block.now outcome txn.entry.seat.now txn.exit.0.now (ran result) }
{
    gate.before(block.lane, block.number);
    let first_read = txn.first_read();
    let committed = match txn.commit() {
        Ok(committed) => committed,
        Err(fault) => return Err(conflict_of(fault)),
    };
    gate.after(block.lane, block.number);
    let placed = Placed {
        stamp: committed.stamp.number(),
        snap: false,
        lane: block.lane,
        number: block.number,
    };
    Ok(BlockDone {
        placed,
        outcome,
        first_read,
    })
}

/// Tries a transaction block once, and collects; where another transaction was in the way, its stamp is heard. `None`: it is to be tried again.
pub(crate) fn try_once<G: Meets>(
    alloc: Global,
    engine: &Engine<RowsLawful>,
    pass: &mut Pass<RowsLawful>,
    block: &Block,
    reading: u64,
    gate: &G,
) -> Result<Option<BlockDone>, NoMemory>
    requires pass { MayUse engine.now pass.old }
    requires kind { block.now.snap ≡ false }
    requires commands { AreCommands 8 block.now.commands }
    requires short { All IsShort block.now.commands }
    requires room { HasRoom pass.old.clock 1 }
    ensures tried { IfOk result (λ answer. IsTried block.now pass.old pass.new answer) }
    ensures fault { OnErr result (Adds pass.old pass.new []) }
    ensures clock { pass.new.clock ≤ clock_after pass.old.clock 1 }
    ensures queue { OnOk result (IsAlone pass.old → pass.new.queue ≡ []) }
    ensures granted { (more : List Block) → IsAmple pass.old (block.now ∷ more) → IfOk result (λ answer. IsSome answer × IsReady pass.new) }
{
    let answer = try_txn(alloc, engine, pass, block, reading, gate)?;
    collect(engine, pass);
    Ok(hear_refusal(engine, pass, answer))
}
