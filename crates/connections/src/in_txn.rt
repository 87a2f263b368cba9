//! Calls on rows in a transaction that is open at a pass. It goes on behind an answer; behind a fault it has ended without an entry.

ghost use Rattle.std.specs.Prelude.{◌≡◌, ◌⊎◌, ◌<◌, OnOk, OnErr, IfErr};
ghost use Rattle.connections.specs.Calls.{IsOfCall};
ghost use Rattle.connections.specs.Connection.{AreNumbersOf, HoldsTables, IsOpenOf};
ghost use Rattle.connections.specs.Handing.{TakesFirst};
ghost use Rattle.number_queue.specs.Passes.{AreSameLimits};
ghost use Rattle.connections.specs.Rows.{DeclaresAt, GoesOn, InTxn, IsDoomed, IsOvertaken, LooksAt, PutsAt, RemovesAt};
ghost use Rattle.record_store.specs.Walks.{IfTorn};
ghost use Rattle.seat_post.specs.declared.phase.Phase.TheVariants.{Open};
ghost use Rattle.stored_tables.specs.Answers.{IsScanned};
ghost use Rattle.stored_tables.specs.OneRow.{IsRowAt};
ghost use Rattle.stored_tables.specs.RowLists.{IsFoundBy};
ghost use Rattle.replay_model.specs.Input.{IsColumn};
ghost use Rattle.txn_engine.specs.Pass.{IsIdleOf, engine_of};

use crate::fault::CallFault;
use crate::handing::take_in;
use number_queue::NumberPass;
use record_store::{RecordStore, Walk};
use replay_model::{Columns, Pairs};
use std::alloc::Global;
use stored_tables::{
    RowsLawful, declare_index, find_rows, get_row, keeps_tables, list_rows, put_row,
    remove_and_reclaim,
};
use txn_engine::{CommitFault, Conflict, Engine, Pass, TxnFault, TxnOver};

// The row of a table at a key.
pub(crate) fn get_in_txn(
    pass: &mut Pass<RowsLawful>,
    engine: &Engine<RowsLawful>,
    table: u32,
    key: u64,
) -> Result<Option<Columns>, CallFault>
    requires pass { IsOpenOf engine.now pass.old }
    requires tables { HoldsTables engine.now }
    requires table { table < 8 }
    ensures did { InTxn (LooksAt ⊥ ⊥ (IsRowAt table key)) result pass.old pass.new }
    ensures open_there { OnOk result (IsOpenOf engine.now pass.new) }
    ensures idle { OnErr result (IsIdleOf engine.now pass.new) }
    ensures fault { IfErr result IsOfCall }
{
    keeps_tables();
    let mut txn = TxnOver::resume(pass, engine);
    let told = get_row(&mut txn, table, key);
    txn.leave();
    go_on(pass, engine, told)
}

// Takes numbers of records where there are few, and sets the row of a table at a key.
pub(crate) fn take_and_put(
    pass: &mut Pass<RowsLawful>,
    engine: &Engine<RowsLawful>,
    numbers: &mut NumberPass,
    table: u32,
    key: u64,
    row: &Columns,
) -> Result<(), CallFault>
    requires pass { IsOpenOf engine.now pass.old }
    requires tables { HoldsTables engine.now }
    requires numbers { AreNumbersOf engine.now numbers.old }
    requires table { table < 8 }
    ensures did { TakesFirst (InTxn (PutsAt table key row.now) result) pass.old pass.new numbers.old numbers.new }
    ensures open_there { OnOk result (IsOpenOf engine.now pass.new) }
    ensures idle { OnErr result (IsIdleOf engine.now pass.new) }
    ensures fault { IfErr result IsOfCall }
    ensures limits { AreSameLimits numbers.old numbers.new }
{
    take_in(pass, engine, numbers);
    put_in_txn(pass, engine, table, key, row)
}

// Sets the row of a table at a key.
fn put_in_txn(
    pass: &mut Pass<RowsLawful>,
    engine: &Engine<RowsLawful>,
    table: u32,
    key: u64,
    row: &Columns,
) -> Result<(), CallFault>
    requires pass { IsOpenOf engine.now pass.old }
    requires tables { HoldsTables engine.now }
    requires table { table < 8 }
    ensures did { InTxn (PutsAt table key row.now) result pass.old pass.new }
    ensures open_there { OnOk result (IsOpenOf engine.now pass.new) }
    ensures idle { OnErr result (IsIdleOf engine.now pass.new) }
    ensures fault { IfErr result IsOfCall }
{
    keeps_tables();
    let mut txn = TxnOver::resume(pass, engine);
    let told = put_row(&mut txn, table, key, row);
    txn.leave();
    go_on(pass, engine, told)
}

// Takes the row of a table at a key out.
pub(crate) fn remove_in_txn(
    pass: &mut Pass<RowsLawful>,
    engine: &Engine<RowsLawful>,
    table: u32,
    key: u64,
) -> Result<bool, CallFault>
    requires pass { IsOpenOf engine.now pass.old }
    requires tables { HoldsTables engine.now }
    requires table { table < 8 }
    ensures did { InTxn (RemovesAt table key) result pass.old pass.new }
    ensures open_there { OnOk result (IsOpenOf engine.now pass.new) }
    ensures idle { OnErr result (IsIdleOf engine.now pass.new) }
    ensures fault { IfErr result IsOfCall }
{
    keeps_tables();
    let mut txn = TxnOver::resume(pass, engine);
    let told = remove_and_reclaim(&mut txn, table, key);
    txn.leave();
    go_on(pass, engine, told)
}

// The first rows of a part of a table.
pub(crate) fn list_in_txn(
    alloc: Global,
    pass: &mut Pass<RowsLawful>,
    engine: &Engine<RowsLawful>,
    table: u32,
    lo: u64,
    hi: u64,
    limit: u32,
) -> Result<Pairs, CallFault>
    requires pass { IsOpenOf engine.now pass.old }
    requires tables { HoldsTables engine.now }
    requires table { table < 8 }
    ensures did { InTxn (LooksAt (Unit {0}) ((limit ≡ 0) ⊎ (hi < lo)) (IsScanned table lo hi limit)) result pass.old pass.new }
    ensures open_there { OnOk result (IsOpenOf engine.now pass.new) }
    ensures idle { OnErr result (IsIdleOf engine.now pass.new) }
    ensures fault { IfErr result IsOfCall }
{
    keeps_tables();
    let mut txn = TxnOver::resume(pass, engine);
    let told = list_rows(alloc, &mut txn, table, lo, hi, limit);
    txn.leave();
    go_on(pass, engine, told)
}

// The first rows of a table by a column.
pub(crate) fn find_in_txn(
    alloc: Global,
    pass: &mut Pass<RowsLawful>,
    engine: &Engine<RowsLawful>,
    table: u32,
    column: u32,
    lo: u64,
    hi: u64,
    limit: u32,
) -> Result<Option<Pairs>, CallFault>
    requires pass { IsOpenOf engine.now pass.old }
    requires tables { HoldsTables engine.now }
    requires table { table < 8 }
    ensures did { InTxn (LooksAt (Unit {0}) ⊥ (IsFoundBy table column lo hi limit)) result pass.old pass.new }
    ensures open_there { OnOk result (IsOpenOf engine.now pass.new) }
    ensures idle { OnErr result (IsIdleOf engine.now pass.new) }
    ensures fault { IfErr result IsOfCall }
{
    keeps_tables();
    let mut txn = TxnOver::resume(pass, engine);
    let told = find_rows(alloc, &mut txn, table, column, lo, hi, limit);
    txn.leave();
    go_on(pass, engine, told)
}

// Declares an index of a table on a column.
pub(crate) fn declare_in_txn(
    alloc: Global,
    pass: &mut Pass<RowsLawful>,
    engine: &Engine<RowsLawful>,
    table: u32,
    column: u32,
) -> Result<bool, CallFault>
    requires pass { IsOpenOf engine.now pass.old }
    requires tables { HoldsTables engine.now }
    requires table { table < 8 }
    requires column { IsColumn column }
    ensures did { InTxn (DeclaresAt table column) result pass.old pass.new }
    ensures open_there { OnOk result (IsOpenOf engine.now pass.new) }
    ensures idle { OnErr result (IsIdleOf engine.now pass.new) }
    ensures fault { IfErr result IsOfCall }
{
    keeps_tables();
    let mut txn = TxnOver::resume(pass, engine);
    let told = declare_index(alloc, &mut txn, table, column);
    txn.leave();
    go_on(pass, engine, told)
}

// How a transaction goes on behind what tables answered. A fault ends it. Where the tables are torn, no lawful ones agree with what it has
// read: another transaction has overtaken it, its reads do not commit, and the commit tells the conflict.
fn go_on<T>(
    pass: &mut Pass<RowsLawful>,
    engine: &Engine<RowsLawful>,
    told: Result<T, Walk<TxnFault>>,
) -> Result<T, CallFault>
    requires engine { engine_of pass.old ≡ engine.now }
    requires open_there { pass.old.phase ≡ Open }
    requires torn { IfTorn told (λ _. IsDoomed pass.old) }
    ensures goes_on { GoesOn told pass.old pass.new result }
    ensures idle { OnErr result (IsIdleOf engine.now pass.new) }
    ensures no_entry { OnErr result (pass.new.log ≡ pass.old.log) }
    ensures fault { IfErr result IsOfCall }
{
    match told {
        Ok(value) => Ok(value),
        Err(Walk::Store(fault)) => {
            TxnOver::resume(pass, engine).abort();
            Err(CallFault::from(fault))
        }
        Err(Walk::NoMemory) => {
            TxnOver::resume(pass, engine).abort();
            Err(CallFault::NoMemory)
        }
        Err(Walk::Torn(_)) => Err(CallFault::Conflict(conflict_of(pass, engine))),
    }
}

// The conflict that refuses the commit of a transaction whose reads do not commit.
fn conflict_of(pass: &mut Pass<RowsLawful>, engine: &Engine<RowsLawful>) -> Conflict
    requires engine { engine_of pass.old ≡ engine.now }
    requires open_there { pass.old.phase ≡ Open }
    requires doomed { IsDoomed pass.old }
    ensures overtaken { IsOvertaken pass.old pass.new result }
    ensures idle { IsIdleOf engine.now pass.new }
    ensures no_entry { pass.new.log ≡ pass.old.log }
{
    let mut txn = TxnOver::resume(pass, engine);
    txn.undo();
    match txn.commit() {
        Err(CommitFault::Conflict(conflict)) => conflict,
        _ => unreachable!(),
    }
}
