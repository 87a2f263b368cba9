//! How a row gets other columns.

ghost use Rattle.std.specs.Prelude.{◌≡◌, ◌≤◌, ◌<◌, IfSome};
ghost use Rattle.record_store.specs.Walks.{IfTorn};
ghost use Rattle.replay_model.specs.Input.{IsColumn};
ghost use Rattle.stored_tables.specs.Answers.{Has, Changes, DueBy};
ghost use Rattle.stored_tables.specs.Plan.{moves_entry};
ghost use Rattle.stored_tables.specs.Runs.{Runs};
ghost use Rattle.stored_tables.specs.Tears.{NamesTornChange};

use crate::reading::Found;
use crate::steps::{insert_entry, remove_entry, write_row};
use ordered_index::Key;
use record_store::{RecordStore, Walk};
use replay_model::Columns;

/// Writes other columns to a row. Its entry in the table's index moves where it has another value in the column of the index.
pub fn change_row<S: RecordStore>(
    store: &mut S,
    table: u32,
    key: u64,
    index: Option<u32>,
    found: &Found,
    row: &Columns,
) -> Result<(), Walk<S::Fault>>
    requires table { table < 8 }
    requires fixed { 4112 ≤ (S.meaning store.old).fixed }
    requires rid { found.now.rid < (S.meaning store.old).size }
    requires column { IfSome index IsColumn }
    ensures runs { Runs S.read_gives S.write_gives S.fresh_gives S.meaning (Has (S.meaning store.old) table key index found.now) (DueBy (λ _. moves_entry table key index found.now.row row.now)) (λ _. Changes table key index found.now.row row.now (S.meaning store.new)) 53 store.old store.new result }
    ensures tears { IfTorn result (NamesTornChange table (S.meaning store.new)) }
    ensures rest { S.rest store.new ≡ S.rest store.old }
{
    let rid = found.rid;
    write_row(store, rid, row)?;
    let Some(column) = index else {
        return Ok(());
    };
    let was = found.row.column(column);
    let high = row.column(column);
    if was == high {
        return Ok(());
    }
    remove_entry(
        store,
        table + 8,
        Key {
            high: was,
            low: key,
        },
    )?;
    insert_entry(store, table + 8, Key { high, low: key }, rid)
}
