//! Blocks of commands.

ghost use Rattle.std.specs.Prelude.{◌≡◌, ℕ, ◌*◌, ◌<◌, ◌≤◌, IfOk, All, length};
ghost use Rattle.record_store.specs.Calls.{Reads, ReadFault, CallFault};
ghost use Rattle.record_store.specs.Walks.{IfTorn, IfStore, OnlyReads, ReadsGrow};
ghost use Rattle.record_store.specs.Writes.{GivesFewer};
ghost use Rattle.replay_model.specs.Input.{AreCommands};
ghost use Rattle.replay_model.specs.Running.{outcome_of};
ghost use Rattle.stored_tables.specs.Answers.{DueBy, IsIdle, IsShort, ReadsAlone, Stands};
ghost use Rattle.stored_tables.specs.Blocks.{Called, IfRefused, RanTo, SawTo};
ghost use Rattle.stored_tables.specs.Plan.{MayAsk, run_plan};
ghost use Rattle.stored_tables.specs.Runs.{Looks, Runs};
ghost use Rattle.stored_tables.specs.Tables.{EachTables};
ghost use Rattle.stored_tables.specs.Tears.{NamesTorn, NamesTornChange, OfCommand};

use crate::command::{read_command, run_command};
use record_store::{RecordRead, RecordStore, Walk};
use replay_model::{Commands, Outcome, Sequence};
use std::alloc::Global;

/// Runs a block's commands in order, up to the first that is refused. A refused block is taken back by `undo`, which drops all
/// writes, also those before this call. After a fault what was read and written may have grown.
pub fn exec_txn<S: RecordStore>(
    alloc: Global,
    store: &mut S,
    commands: &Commands,
) -> Result<Outcome, Walk<S::Fault>>
    requires commands { AreCommands 8 commands.now }
    requires short { All IsShort commands.now }
    requires fixed { 4112 ≤ (S.meaning store.old).fixed }
    ensures outcome { IfOk result (λ outcome. EachTables (S.meaning store.old) (S.meaning store.new) (λ _ _ tables. outcome ≡ outcome_of commands.now tables)) }
    ensures called { Called S.read_gives S.write_gives S.fresh_gives S.meaning commands.now store.old store.new result }
    ensures torn { IfTorn result (λ _. EachTables (S.meaning store.old) (S.meaning store.new) (λ _ _ _. ⊥)) }
    ensures tears { IfTorn result (λ rid. OfCommand commands.now (λ table. NamesTornChange table (S.meaning store.new) rid)) }

    // each ask of `fresh` is counted, and may be made; one that is refused gave nothing
    ensures fault { IfStore result (CallFault S.read_gives S.write_gives S.fresh_gives (λ asks. EachTables (S.meaning store.old) (S.meaning store.new) (λ _ places tables. MayAsk (run_plan commands.now tables) places asks) × GivesFewer asks (S.meaning store.old) (S.meaning store.new)) store.old store.new) }
    ensures after { ReadsGrow (S.meaning store.old) (S.meaning store.new) }

    // a scan that lists nothing by its arguments reads nothing
    ensures idle { All IsIdle commands.now → store.new ≡ store.old }
    ensures rest { S.rest store.new ≡ S.rest store.old }
{
    // The records that are never given out lie in the store: its size says so.
    let _size = store.size();
    match run_commands(alloc, store, commands)? {
        Outcome::Done(answers) => Ok(Outcome::Done(answers)),
        Outcome::Refused { command, cause } => {
            store.undo();
            Ok(Outcome::Refused { command, cause })
        }
    }
}

/// Runs the commands up to the first that is refused, and takes nothing back.
fn run_commands<S: RecordStore>(
    alloc: Global,
    store: &mut S,
    commands: &Commands,
) -> Result<Outcome, Walk<S::Fault>>
    requires commands { AreCommands 8 commands.now }
    requires short { All IsShort commands.now }
    requires size { 4112 ≤ (S.meaning store.old).size }
    requires fixed { 4112 ≤ (S.meaning store.old).fixed }
    ensures runs { Runs S.read_gives S.write_gives S.fresh_gives S.meaning (Stands (S.meaning store.old)) (DueBy (run_plan commands.now)) (RanTo commands.now (S.meaning store.new)) (128 * length commands.now) store.old store.new result }
    ensures tears { IfTorn result (λ rid. OfCommand commands.now (λ table. NamesTornChange table (S.meaning store.new) rid)) }
    ensures idle { All IsIdle commands.now → store.new ≡ store.old }
    ensures unrefused { All IsIdle commands.now → IfRefused result ⊥ }
    ensures rest { S.rest store.new ≡ S.rest store.old }
{
    let mut answers = Vec::new(alloc);
    if answers.reserve(commands.len()).is_err() {
        return Err(Walk::NoMemory);
    }
    for (i, command) in commands.as_slice().iter().enumerate() {
        match run_command(alloc, store, command)? {
            Ok(answer) => {
                if answers.push(answer).is_err() {
                    return Err(Walk::NoMemory);
                }
            }
            Err(cause) => {
                let command = i as u32 + 1;
                return Ok(Outcome::Refused { command, cause });
            }
        }
    }
    Ok(Outcome::Done(Sequence::from_vec(answers)))
}

/// Runs a block of commands that read alone. After a fault what was read may have grown.
pub fn exec_snap<S: RecordRead>(
    alloc: Global,
    store: &mut S,
    commands: &Commands,
) -> Result<Outcome, Walk<S::Fault>>
    requires commands { AreCommands 8 commands.now }
    requires short { All IsShort commands.now }
    requires reads { All ReadsAlone commands.now }
    requires size { 4112 ≤ (S.meaning store.old).size }
    ensures outcome { IfOk result (λ outcome. EachTables (S.meaning store.old) (S.meaning store.new) (λ _ _ tables. outcome ≡ outcome_of commands.now tables)) }
    ensures torn { IfTorn result (λ _. EachTables (S.meaning store.old) (S.meaning store.new) (λ _ _ _. ⊥)) }
    ensures tears { IfTorn result (λ rid. OfCommand commands.now (λ table. NamesTorn table (S.meaning store.old) (S.meaning store.new) rid)) }
    ensures fault { IfStore result (ReadFault S.read_gives store.old store.new) }
    ensures calls { Reads S.read_gives store.old store.new }
    ensures after { OnlyReads (S.meaning store.old) (S.meaning store.new) }

    // a scan that lists nothing by its arguments reads nothing
    ensures idle { All IsIdle commands.now → store.new ≡ store.old }
    ensures rest { S.rest store.new ≡ S.rest store.old }
{
    read_commands(alloc, store, commands)
}

/// Runs the commands up to the first that is refused.
fn read_commands<S: RecordRead>(
    alloc: Global,
    store: &mut S,
    commands: &Commands,
) -> Result<Outcome, Walk<S::Fault>>
    requires commands { AreCommands 8 commands.now }
    requires short { All IsShort commands.now }
    requires reads { All ReadsAlone commands.now }
    requires size { 4112 ≤ (S.meaning store.old).size }
    ensures looks { Looks S.read_gives S.meaning (Stands (S.meaning store.old)) (SawTo commands.now) store.old store.new result }
    ensures tears { IfTorn result (λ rid. OfCommand commands.now (λ table. NamesTorn table (S.meaning store.old) (S.meaning store.new) rid)) }
    ensures idle { All IsIdle commands.now → store.new ≡ store.old }
    ensures rest { S.rest store.new ≡ S.rest store.old }
{
    let mut answers = Vec::new(alloc);
    if answers.reserve(commands.len()).is_err() {
        return Err(Walk::NoMemory);
    }
    for (i, command) in commands.as_slice().iter().enumerate() {
        match read_command(alloc, store, command)? {
            Ok(answer) => {
                if answers.push(answer).is_err() {
                    return Err(Walk::NoMemory);
                }
            }
            Err(cause) => {
                let command = i as u32 + 1;
                return Ok(Outcome::Refused { command, cause });
            }
        }
    }
    Ok(Outcome::Done(Sequence::from_vec(answers)))
}
