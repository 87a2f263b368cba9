//! Indexes declared.

ghost use Rattle.std.specs.Prelude.{◌≡◌, ◌<◌, ◌≤◌, IfOk, OnErr, false};
ghost use Rattle.record_store.specs.Calls.{Calls, CallFault};
ghost use Rattle.record_store.specs.Walks.{IfTorn, IfStore, OnlyReads, ReadsGrow};
ghost use Rattle.record_store.specs.Writes.{WritesAtMost};
ghost use Rattle.replay_model.specs.Input.{IsColumn};
ghost use Rattle.stored_tables.specs.Answers.{Stands};
ghost use Rattle.stored_tables.specs.Declare.{Declares, TellsRows};
ghost use Rattle.stored_tables.specs.Runs.{Looks};
ghost use Rattle.stored_tables.specs.Tables.{EachTables};
ghost use Rattle.stored_tables.specs.Tears.{NamesTorn};

use crate::head::{head_cells, index_of};
use crate::places::{head_of, root_of};
use ordered_index::Key;
use record_store::{RecordRead, RecordStore, Walk};
use std::alloc::Global;

/// Declares an index of a table on a column, where the table has no row and no index, and answers whether it did. After `false`
/// or a refusal nothing was written. It never asks for a new record.
pub fn declare_index<S: RecordStore>(
    alloc: Global,
    store: &mut S,
    table: u32,
    column: u32,
) -> Result<bool, Walk<S::Fault>>
    requires table { table < 8 }
    requires column { IsColumn column }
    requires fixed { 4112 ≤ (S.meaning store.old).fixed }
    ensures declared { IfOk result (λ declared. EachTables (S.meaning store.old) (S.meaning store.new) (λ state places tables. Declares table column (S.meaning store.new) declared state (places, tables))) }
    ensures torn { IfTorn result (λ _. EachTables (S.meaning store.old) (S.meaning store.new) (λ _ _ _. ⊥)) }
    ensures tears { IfTorn result (NamesTorn table (S.meaning store.old) (S.meaning store.new)) }
    ensures fault { IfStore result (CallFault S.read_gives S.write_gives S.fresh_gives (λ _. ⊥) store.old store.new) }

    // `fresh` is never asked
    ensures calls { Calls S.read_gives S.write_gives S.fresh_gives store.old 0 store.new }
    ensures few { WritesAtMost 1 (S.meaning store.old) (S.meaning store.new) }
    ensures after { ReadsGrow (S.meaning store.old) (S.meaning store.new) }
    ensures refused { OnErr result (OnlyReads (S.meaning store.old) (S.meaning store.new)) }
    ensures unchanged { IfOk result (λ declared. declared ≡ false → OnlyReads (S.meaning store.old) (S.meaning store.new)) }
    ensures rest { S.rest store.new ≡ S.rest store.old }
{
    // The records that are never given out lie in the store: its size says so.
    let _size = store.size();
    match index_of(store, table)? {
        Some(_index) => Ok(false),
        None => {
            if has_row(alloc, store, table)? {
                return Ok(false);
            }
            store.write(head_of(table), Some(head_cells(column)))?;
            Ok(true)
        }
    }
}

/// Whether a table has a row.
fn has_row<S: RecordRead>(alloc: Global, store: &mut S, table: u32) -> Result<bool, Walk<S::Fault>>
    requires table { table < 8 }
    requires size { 4112 ≤ (S.meaning store.old).size }
    ensures looks { Looks S.read_gives S.meaning (Stands (S.meaning store.old)) (TellsRows table) store.old store.new result }
    ensures tears { IfTorn result (NamesTorn table (S.meaning store.old) (S.meaning store.new)) }
    ensures rest { S.rest store.new ≡ S.rest store.old }
{
    let lo = Key { high: 0, low: 0 };
    let hi = Key {
        high: u64::MAX,
        low: u64::MAX,
    };
    let mut entries = Vec::new(alloc);
    ordered_index::scan(store, root_of(table), lo, hi, 1, &mut entries)?;
    if entries.as_slice().is_empty() {
        Ok(false)
    } else {
        Ok(true)
    }
}
