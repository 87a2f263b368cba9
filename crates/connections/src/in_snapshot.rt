//! Calls on rows in a snapshot that is open at a pass, which goes on.

ghost use Rattle.std.specs.Prelude.{◌≡◌, ◌⊎◌, ◌<◌, IfErr};
ghost use Rattle.connections.specs.Calls.{IsOfCall};
ghost use Rattle.connections.specs.Connection.{HoldsTables, IsSeenOf};
ghost use Rattle.connections.specs.Rows.{InSnapshot, IsUnlawful, told_of};
ghost use Rattle.connections.specs.declared.fault.CallFault.TheVariants.{NoMemory};
ghost use Rattle.record_store.specs.Walks.{IfTorn};
ghost use Rattle.stored_tables.specs.Answers.{IsScanned};
ghost use Rattle.stored_tables.specs.OneRow.{IsRowAt};
ghost use Rattle.stored_tables.specs.RowLists.{IsFoundBy};

use crate::fault::CallFault;
use engine_answers::NoFault;
use record_store::Walk;
use replay_model::{Columns, Pairs};
use std::alloc::Global;
use stored_tables::{RowsLawful, find_rows, get_row, keeps_tables, list_rows};
use txn_engine::{Engine, Pass, SnapshotOver};

// The row of a table at a key.
pub(crate) fn get_in_snapshot(
    pass: &mut Pass<RowsLawful>,
    engine: &Engine<RowsLawful>,
    table: u32,
    key: u64,
) -> Result<Option<Columns>, CallFault>
    requires pass { IsSeenOf engine.now pass.old }
    requires tables { HoldsTables engine.now }
    requires table { table < 8 }
    ensures did { InSnapshot ⊥ ⊥ (IsRowAt table key) result pass.old pass.new }
    ensures seen { IsSeenOf engine.now pass.new }
    ensures fault { IfErr result IsOfCall }
{
    keeps_tables();
    let mut snapshot = SnapshotOver::resume(pass, engine);
    let told = get_row(&mut snapshot, table, key);
    snapshot.leave();
    answer_of(pass, engine, told)
}

// The first rows of a part of a table.
pub(crate) fn list_in_snapshot(
    alloc: Global,
    pass: &mut Pass<RowsLawful>,
    engine: &Engine<RowsLawful>,
    table: u32,
    lo: u64,
    hi: u64,
    limit: u32,
) -> Result<Pairs, CallFault>
    requires pass { IsSeenOf engine.now pass.old }
    requires tables { HoldsTables engine.now }
    requires table { table < 8 }
    ensures did { InSnapshot (Unit {0}) ((limit ≡ 0) ⊎ (hi < lo)) (IsScanned table lo hi limit) result pass.old pass.new }
    ensures seen { IsSeenOf engine.now pass.new }
    ensures fault { IfErr result IsOfCall }
{
    keeps_tables();
    let mut snapshot = SnapshotOver::resume(pass, engine);
    let told = list_rows(alloc, &mut snapshot, table, lo, hi, limit);
    snapshot.leave();
    answer_of(pass, engine, told)
}

// The first rows of a table by a column.
pub(crate) fn find_in_snapshot(
    alloc: Global,
    pass: &mut Pass<RowsLawful>,
    engine: &Engine<RowsLawful>,
    table: u32,
    column: u32,
    lo: u64,
    hi: u64,
    limit: u32,
) -> Result<Option<Pairs>, CallFault>
    requires pass { IsSeenOf engine.now pass.old }
    requires tables { HoldsTables engine.now }
    requires table { table < 8 }
    ensures did { InSnapshot (Unit {0}) ⊥ (IsFoundBy table column lo hi limit) result pass.old pass.new }
    ensures seen { IsSeenOf engine.now pass.new }
    ensures fault { IfErr result IsOfCall }
{
    keeps_tables();
    let mut snapshot = SnapshotOver::resume(pass, engine);
    let told = find_rows(alloc, &mut snapshot, table, column, lo, hi, limit);
    snapshot.leave();
    answer_of(pass, engine, told)
}

// What a snapshot answers behind what tables answered. They are not torn: its end shows lawful ones that agree with what it has read.
fn answer_of<T>(
    pass: &mut Pass<RowsLawful>,
    engine: &Engine<RowsLawful>,
    told: Result<T, Walk<NoFault>>,
) -> Result<T, CallFault>
    requires pass { IsSeenOf engine.now pass.old }
    requires torn { IfTorn told (λ _. IsUnlawful pass.old) }
    ensures told { told_of result ≡ told }
    ensures kept { pass.new ≡ pass.old }
    ensures fault { IfErr result (λ f. f ≡ NoMemory) }
{
    match told {
        Ok(value) => Ok(value),
        Err(walk) => match walk {
            Walk::NoMemory => Err(CallFault::NoMemory),
            Walk::Torn(_) => {
                SnapshotOver::resume(pass, engine).finish();
                unreachable!()
            }
            Walk::Store(fault) => match fault {},
        },
    }
}
