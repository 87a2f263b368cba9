//! How a row leaves a table.

ghost use Rattle.std.specs.Prelude.{◌≡◌, ◌≤◌, ◌<◌, IfOk, IfSome, None};
ghost use Rattle.record_store.specs.Goes.{GoesByCalls};
ghost use Rattle.record_store.specs.Walks.{IfTorn, OnlyReads};
ghost use Rattle.replay_model.specs.Input.{IsColumn};
ghost use Rattle.replay_model.specs.declared.command.Command.TheVariants.{Del};
ghost use Rattle.stored_tables.specs.Answers.{DueBy, Has, IndexLeft, Leaves, Stands, leave_moves};
ghost use Rattle.stored_tables.specs.OneRow.{TakesOut};
ghost use Rattle.stored_tables.specs.Plan.{plan};
ghost use Rattle.stored_tables.specs.Runs.{Runs};
ghost use Rattle.stored_tables.specs.Tears.{NamesTornChange};

use crate::head::index_of;
use crate::reading::{Found, find_row};
use crate::steps::{drop_row, remove_entry, remove_pair};
use ordered_index::Key;
use record_store::{RecordStore, Walk};
use replay_model::Columns;

/// A row that was taken out, and the column of its table's index.
#[derive(Clone, Copy)]
pub struct Taken {
    pub row: Columns,
    pub index: Option<u32>,
}

/// Takes the row at a key out, and answers what it was, if there was one.
pub fn take_row<S: RecordStore>(
    store: &mut S,
    table: u32,
    key: u64,
) -> Result<Option<Taken>, Walk<S::Fault>>
    requires table { table < 8 }
    requires size { 4112 ≤ (S.meaning store.old).size }
    requires fixed { 4112 ≤ (S.meaning store.old).fixed }
    ensures runs { Runs S.read_gives S.write_gives S.fresh_gives S.meaning (Stands (S.meaning store.old)) (DueBy (plan (Del table key))) (TakesOut table key (S.meaning store.new)) 4 store.old store.new result }
    ensures tears { IfTorn result (NamesTornChange table (S.meaning store.new)) }
    ensures asks_nothing { GoesByCalls S.read_gives S.write_gives S.fresh_gives S.meaning (λ _. ⊥) 0 store.old store.new result }

    // nothing is written where there is no row
    ensures kept { IfOk result (λ taken. taken ≡ None → OnlyReads (S.meaning store.old) (S.meaning store.new)) }
    ensures column { IfOk result (λ taken. IfSome taken (λ taken. IfSome taken.index IsColumn)) }
    ensures rest { S.rest store.new ≡ S.rest store.old }
{
    let Some(found) = find_row(store, table, key)? else {
        return Ok(None);
    };
    let index = index_of(store, table)?;
    leave_row(store, table, key, index, &found)?;
    Ok(Some(Taken {
        row: found.row,
        index,
    }))
}

/// Takes a row out: of its table's index, of the chain, of the tree by keys, and its record.
pub fn leave_row<S: RecordStore>(
    store: &mut S,
    table: u32,
    key: u64,
    index: Option<u32>,
    found: &Found,
) -> Result<(), Walk<S::Fault>>
    requires table { table < 8 }
    requires fixed { 4112 ≤ (S.meaning store.old).fixed }
    requires rid { found.now.rid < (S.meaning store.old).size }
    requires column { IfSome index IsColumn }
    ensures runs { Runs S.read_gives S.write_gives S.fresh_gives S.meaning (Has (S.meaning store.old) table key index found.now) (DueBy (λ _. leave_moves table key index found.now.row)) (λ _. Leaves table key index found.now.row (S.meaning store.new)) 4 store.old store.new result }
    ensures tears { IfTorn result (NamesTornChange table (S.meaning store.new)) }
    ensures asks_nothing { GoesByCalls S.read_gives S.write_gives S.fresh_gives S.meaning (λ _. ⊥) 0 store.old store.new result }
    ensures rest { S.rest store.new ≡ S.rest store.old }
{
    leave_index(store, table, key, index, found)?;
    remove_pair(store, table, key)?;
    remove_entry(store, table, Key { high: key, low: 0 })?;
    drop_row(store, found.rid)
}

/// Takes a row's entry out of its table's index, if there is one.
fn leave_index<S: RecordStore>(
    store: &mut S,
    table: u32,
    key: u64,
    index: Option<u32>,
    found: &Found,
) -> Result<(), Walk<S::Fault>>
    requires table { table < 8 }
    requires fixed { 4112 ≤ (S.meaning store.old).fixed }
    requires column { IfSome index IsColumn }
    ensures runs { Runs S.read_gives S.write_gives S.fresh_gives S.meaning (Has (S.meaning store.old) table key index found.now) (DueBy (λ _. leave_moves table key index found.now.row)) (λ _. IndexLeft table key index found.now (S.meaning store.old) (S.meaning store.new)) 1 store.old store.new result }
    ensures tears { IfTorn result (NamesTornChange table (S.meaning store.new)) }
    ensures asks_nothing { GoesByCalls S.read_gives S.write_gives S.fresh_gives S.meaning (λ _. ⊥) 0 store.old store.new result }
    ensures rest { S.rest store.new ≡ S.rest store.old }
{
    let Some(column) = index else {
        return Ok(());
    };
    let high = found.row.column(column);
    remove_entry(store, table + 8, Key { high, low: key })
}
