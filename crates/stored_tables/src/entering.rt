//! How a row enters a table.

ghost use Rattle.std.specs.Prelude.{◌≡◌, ◌≤◌, ◌<◌, ◌^◌, IfSome};
ghost use Rattle.record_store.specs.Walks.{IfTorn};
ghost use Rattle.replay_model.specs.Input.{IsColumn};
ghost use Rattle.stored_tables.specs.Answers.{Lacks, Enters, DueBy, enter_moves};
ghost use Rattle.stored_tables.specs.Runs.{Runs};
ghost use Rattle.stored_tables.specs.Tears.{NamesTornChange};

use crate::steps::{add_row, insert_entry, put_pair};
use ordered_index::Key;
use record_store::{RecordStore, Walk};
use replay_model::Columns;

/// Adds a row at a key that has none: to a new record, to the table's chain, to its tree by keys and to its index.
pub fn enter_row<S: RecordStore>(
    store: &mut S,
    table: u32,
    key: u64,
    index: Option<u32>,
    row: &Columns,
) -> Result<(), Walk<S::Fault>>
    requires table { table < 8 }
    requires fixed { 4112 ≤ (S.meaning store.old).fixed }
    requires column { IfSome index IsColumn }
    ensures runs { Runs S.read_gives S.write_gives S.fresh_gives S.meaning (Lacks (S.meaning store.old) table key index) (DueBy (λ _. enter_moves table key index row.now)) (λ _. Enters table key index row.now (S.meaning store.new)) 105 store.old store.new result }
    ensures tears { IfTorn result (NamesTornChange table (S.meaning store.new)) }
    ensures rest { S.rest store.new ≡ S.rest store.old }
{
    let rid = add_row(store, row)?;
    put_pair(store, table, key, rid)?;
    insert_entry(store, table, Key { high: key, low: 0 }, rid)?;
    let Some(column) = index else {
        return Ok(());
    };
    let high = row.column(column);
    insert_entry(store, table + 8, Key { high, low: key }, rid)
}
