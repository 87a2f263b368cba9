//! The loading of an input's rows and indexes.

ghost use Rattle.std.specs.Prelude.{◌≡◌, ◌+◌, ◌<◌, ◌≤◌, [], All, AllPairs, None, OnOk, length};
ghost use Rattle.replay_model.specs.Input.{IsWellFormed, IsColumn, IsIndex, RowsDiffer, AreIndexes};
ghost use Rattle.replay_model.specs.TableMap.{loaded, index_of};
ghost use Rattle.lane_runner.specs.Using.{MayUse};
ghost use Rattle.lane_runner.specs.Holding.{Holds, Awaits, HasPlaces, HasRecords, KeepsShared};
ghost use Rattle.lane_runner.specs.Loading.{Loads, HasLoaded, PutsRow, DeclaresIndex, EntersIndex, LacksRows, IsBlank, AreRowsOf, AreIndexesOf, FindRecords, row_more};
ghost use Rattle.lane_runner.specs.Room.{HasRoom, clock_after};

use crate::alone_block::{close, run_commands};
use crate::alone_txn::end_alone;
use histories::{next_state_is_overlay, write_before_is_lawful};
use replay_model::{Columns, Command, Input, NoMemory, Sequence};
use std::alloc::Global;
use stored_tables::{
    RowsLawful, declare_index, empty_stands, fits_more, fits_records, keeps_tables, rows_pack,
};
use txn_engine::{Alone, BeginFault, Engine, Seat};

/// Puts a row, as a transaction of its own.
fn put_row(
    alloc: Global,
    engine: &Engine<RowsLawful>,
    alone: &mut Alone<RowsLawful>,
    table: u32,
    key: u64,
    values: Columns,
) -> Result<(), NoMemory>
    requires pass { MayUse engine.now alone.old.pass }
    requires holds { Holds alone.old.pass }
    requires table { table < 8 }
    requires places { HasPlaces engine.now }
    requires records { HasRecords alone.old.pass (row_more table) }
    requires room { HasRoom alone.old.pass.clock 1 }
    ensures puts { OnOk result (PutsRow table key values alone.old.pass alone.new.pass) }
    ensures shared { alone.new.shared ≡ alone.old.shared }
    ensures clock { OnOk result (alone.new.pass.clock ≤ clock_after alone.old.pass.clock 1) }
{
    rows_pack();
    let mut commands = Sequence::new(alloc);
    commands.push(Command::Put { table, key, values })?;
    run_commands(alloc, engine, alone, &commands)?;
    Ok(())
}

/// Puts rows, one behind the other.
fn put_rows(
    alloc: Global,
    engine: &Engine<RowsLawful>,
    alone: &mut Alone<RowsLawful>,
    rows: &[(u32, u64, Columns)],
    indexes: &[(u32, u32)],
) -> Result<(), NoMemory>
    requires pass { MayUse engine.now alone.old.pass }
    requires loaded { HasLoaded (loaded [] indexes.now) 0 alone.old.pass alone.old.pass }
    requires rows { AreRowsOf rows.now }
    requires differ { RowsDiffer rows.now }
    requires places { HasPlaces engine.now }
    requires records { FindRecords rows.now indexes.now engine.now.fixed engine.now.size.records }
    requires room { HasRoom alone.old.pass.clock (length rows.now) }
    ensures loaded { OnOk result (HasLoaded (loaded rows.now indexes.now) (length rows.now) alone.old.pass alone.new.pass) }
    ensures shared { alone.new.shared ≡ alone.old.shared }
    ensures clock { OnOk result (alone.new.pass.clock ≤ clock_after alone.old.pass.clock (length rows.now)) }
{
    rows_pack();
    for row in rows {
        put_row(alloc, engine, alone, row.0, row.1, row.2)?;
    }
    Ok(())
}

/// Commits the declaration of an index of a table without rows and indexes.
fn commit_index(
    alloc: Global,
    engine: &Engine<RowsLawful>,
    alone: &mut Alone<RowsLawful>,
    table: u32,
    column: u32,
) -> Result<(), NoMemory>
    requires pass { MayUse engine.now alone.old.pass }
    requires lacks { LacksRows table alone.old.pass }
    requires table { table < 8 }
    requires column { IsColumn column }
    requires places { HasPlaces engine.now }
    requires room { HasRoom alone.old.pass.clock 1 }
    ensures enters { OnOk result (EntersIndex table column alone.old alone.new) }
    ensures shared { KeepsShared alone.old alone.new }
    ensures awaits { OnOk result (Awaits alone.new) }
{
    keeps_tables();
    fits_records();
    rows_pack();
    next_state_is_overlay();
    // The number of records is in its range, and the seat is alone.
    engine.records();
    alone.shared();
    let mut txn = match alone.begin(engine, 0) {
        Ok(txn) => txn,
        Err(BeginFault::ClockOut) => unreachable!(),
        Err(BeginFault::NoMemory) => return Err(NoMemory),
    };
    let told = declare_index(alloc, &mut txn, table, column);
    txn.leave();
    let (_stamp, declared) = end_alone(engine, alone, told)?;
    // What it has read is what the log left, and there the table has no row and no index.
    if !declared {
        unreachable!();
    }
    Ok(())
}

/// Declares an index of a table without rows and indexes, as a transaction of its own.
fn declare(
    alloc: Global,
    engine: &Engine<RowsLawful>,
    alone: &mut Alone<RowsLawful>,
    table: u32,
    column: u32,
) -> Result<(), NoMemory>
    requires pass { MayUse engine.now alone.old.pass }
    requires lacks { LacksRows table alone.old.pass }
    requires table { table < 8 }
    requires column { IsColumn column }
    requires places { HasPlaces engine.now }
    requires room { HasRoom alone.old.pass.clock 1 }
    ensures declares { OnOk result (DeclaresIndex table column alone.old.pass alone.new.pass) }
    ensures shared { alone.new.shared ≡ alone.old.shared }
    ensures clock { OnOk result (alone.new.pass.clock ≤ clock_after alone.old.pass.clock 1) }
{
    commit_index(alloc, engine, alone, table, column)?;
    close(engine, alone);
    Ok(())
}

/// Declares indexes, one behind the other.
fn declare_indexes(
    alloc: Global,
    engine: &Engine<RowsLawful>,
    alone: &mut Alone<RowsLawful>,
    indexes: &[(u32, u32)],
) -> Result<(), NoMemory>
    requires pass { MayUse engine.now alone.old.pass }
    requires blank { IsBlank alone.old.pass }
    requires indexes { AreIndexesOf indexes.now }
    requires places { HasPlaces engine.now }
    requires room { HasRoom alone.old.pass.clock (length indexes.now) }
    ensures loaded { OnOk result (HasLoaded (loaded [] indexes.now) 0 alone.old.pass alone.new.pass) }
    ensures shared { alone.new.shared ≡ alone.old.shared }
    ensures clock { OnOk result (alone.new.pass.clock ≤ clock_after alone.old.pass.clock (length indexes.now)) }
{
    write_before_is_lawful::<RowsLawful>();
    empty_stands();
    rows_pack();
    for &(table, column) in indexes {
        declare(alloc, engine, alone, table, column)?;
    }
    Ok(())
}

/// Loads an input at a new seat that is alone: declares its indexes, and then puts its rows, in their order, each as a transaction of
/// its own behind which it collects. After `NoMemory` some of them may be there.
pub fn load_rows(
    alloc: Global,
    engine: &Engine<RowsLawful>,
    alone: &mut Alone<RowsLawful>,
    input: &Input,
) -> Result<(), NoMemory>
    requires pass { MayUse engine.now alone.old.pass }
    requires blank { IsBlank alone.old.pass }
    requires input { IsWellFormed input.now }
    requires rows { AreRowsOf input.now.rows }
    requires places { HasPlaces engine.now }
    requires records { FindRecords input.now.rows input.now.indexes engine.now.fixed engine.now.size.records }
    requires room { HasRoom alone.old.pass.clock (length input.now.rows + length input.now.indexes) }
    ensures loads { OnOk result (Loads input.now alone.old.pass alone.new.pass) }
    ensures shared { alone.new.shared ≡ alone.old.shared }
    ensures clock { OnOk result (alone.new.pass.clock ≤ clock_after alone.old.pass.clock (length input.now.rows + length input.now.indexes)) }
{
    fits_more();
    rows_pack();
    // The number of records is in its range.
    engine.records();
    declare_indexes(alloc, engine, alone, input.indexes.as_slice())?;
    put_rows(
        alloc,
        engine,
        alone,
        input.rows.as_slice(),
        input.indexes.as_slice(),
    )?;
    Ok(())
}
