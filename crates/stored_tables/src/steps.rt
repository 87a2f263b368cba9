//! Changes of one spot: a row's record, a pair of a table's chain, an entry of a tree.

ghost use Rattle.std.specs.Prelude.{◌≡◌, ℕ, ◌<◌, ◌≤◌, IfOk, OnOk, None, Some, length};
ghost use Rattle.record_store.specs.Goes.{GoesByCalls};
ghost use Rattle.record_store.specs.Walks.{IfTorn};
ghost use Rattle.stored_tables.specs.Answers.{LacksRow, AddsRow, HasRow, Rewrites, DropsRow, ChainHas, TreeHas};
ghost use Rattle.stored_tables.specs.Moved.{Step};
ghost use Rattle.stored_tables.specs.Places.{Places};
ghost use Rattle.stored_tables.specs.Plan.{IsDue};
ghost use Rattle.stored_tables.specs.Plan.Move.{pair_put, pair_removed, entry_inserted, entry_removed};
ghost use Rattle.stored_tables.specs.Runs.{Runs};
ghost use Rattle.stored_tables.specs.Tables.{row_words};
ghost use Rattle.stored_tables.specs.Tears.{IsTreeOf, NamesTornChange};

use crate::places::{base_of, root_of};
use crate::row::row_cells;
use ordered_index::Key;
use record_store::{RecordStore, Walk};
use replay_model::Columns;

/// Writes a row to a new record.
pub fn add_row<S: RecordStore>(store: &mut S, row: &Columns) -> Result<u32, Walk<S::Fault>>
    requires { 4112 ≤ (S.meaning store.old).fixed }
    ensures runs { (table key : ℕ) → Runs S.read_gives S.write_gives S.fresh_gives S.meaning (LacksRow (S.meaning store.old) table key) (λ asks _ _. asks ≤ 1) (λ rid. AddsRow table key rid (row_words row.now) (S.meaning store.old) (S.meaning store.new)) 1 store.old store.new result }
    ensures never_torn { IfTorn result (λ _. ⊥) }
    ensures stored { IfOk result (λ rid. rid < (S.meaning store.old).size) }
    ensures six { OnOk result (length row.now ≡ 6) }
    ensures rest { S.rest store.new ≡ S.rest store.old }
{
    let rid = store.fresh()?;
    store.write(rid, Some(row_cells(row)))?;
    Ok(rid)
}

/// Writes other columns to a row's record.
pub fn write_row<S: RecordStore>(
    store: &mut S,
    rid: u32,
    row: &Columns,
) -> Result<(), Walk<S::Fault>>
    requires { rid < (S.meaning store.old).size }
    ensures runs { (table key : ℕ) → Runs S.read_gives S.write_gives S.fresh_gives S.meaning (HasRow (S.meaning store.old) table key rid) (λ _ _ _. ⊥) (λ _ asked state places. (asked ≡ 0) × Rewrites table key rid (row_words row.now) (S.meaning store.old) (S.meaning store.new) state places) 1 store.old store.new result }
    ensures never_torn { IfTorn result (λ _. ⊥) }
    ensures six { length row.now ≡ 6 }
    ensures rest { S.rest store.new ≡ S.rest store.old }
{
    store.write(rid, Some(row_cells(row)))?;
    Ok(())
}

/// Deletes a row's record.
pub fn drop_row<S: RecordStore>(store: &mut S, rid: u32) -> Result<(), Walk<S::Fault>>
    requires { rid < (S.meaning store.old).size }
    ensures runs { (table key : ℕ) → Runs S.read_gives S.write_gives S.fresh_gives S.meaning (HasRow (S.meaning store.old) table key rid) (λ _ _ _. ⊥) (λ _ asked state places. (asked ≡ 0) × DropsRow table key (S.meaning store.old) (S.meaning store.new) state places) 1 store.old store.new result }
    ensures never_torn { IfTorn result (λ _. ⊥) }
    ensures asks_nothing { GoesByCalls S.read_gives S.write_gives S.fresh_gives S.meaning (λ _. ⊥) 0 store.old store.new result }
    ensures rest { S.rest store.new ≡ S.rest store.old }
{
    store.write(rid, None)?;
    Ok(())
}

/// Puts a pair of a key and its row's record into a table's chain, where the key is not there.
pub fn put_pair<S: RecordStore>(
    store: &mut S,
    table: u32,
    key: u64,
    rid: u32,
) -> Result<(), Walk<S::Fault>>
    requires table { table < 8 }
    requires fixed { 4112 ≤ (S.meaning store.old).fixed }
    requires rid { rid < (S.meaning store.old).size }
    ensures runs { Runs S.read_gives S.write_gives S.fresh_gives S.meaning (ChainHas (S.meaning store.old) table key None) (λ asks _ places. IsDue (pair_put table key) places asks) (λ _. Step rid (pair_put table key) (S.meaning store.old) (S.meaning store.new)) 2 store.old store.new result }
    ensures tears { IfTorn result (NamesTornChange table (S.meaning store.new)) }
    ensures rest { S.rest store.new ≡ S.rest store.old }
{
    hash_index::put(store, base_of(table), key, rid)
}

/// Removes the pair of a key from a table's chain. Where the key is not there, the record told is that of its bucket.
pub fn remove_pair<S: RecordStore>(
    store: &mut S,
    table: u32,
    key: u64,
) -> Result<(), Walk<S::Fault>>
    requires table { table < 8 }
    requires fixed { 4112 ≤ (S.meaning store.old).fixed }
    ensures runs { (rid : ℕ) → Runs S.read_gives S.write_gives S.fresh_gives S.meaning (ChainHas (S.meaning store.old) table key (Some rid)) (λ _ _ _. ⊥) (λ _. Step rid (pair_removed table key) (S.meaning store.old) (S.meaning store.new)) 1 store.old store.new result }
    ensures tears { IfTorn result (NamesTornChange table (S.meaning store.new)) }
    ensures asks_nothing { GoesByCalls S.read_gives S.write_gives S.fresh_gives S.meaning (λ _. ⊥) 0 store.old store.new result }
    ensures rest { S.rest store.new ≡ S.rest store.old }
{
    let base = base_of(table);
    if hash_index::remove(store, base, key)? {
        Ok(())
    } else {
        Err(Walk::Torn(hash_index::bucket_at(base, key)))
    }
}

/// Inserts an entry into a tree, where its key is not there. Where it is, the record told is the tree's root.
pub fn insert_entry<S: RecordStore>(
    store: &mut S,
    tree: u32,
    key: Key,
    rid: u32,
) -> Result<(), Walk<S::Fault>>
    requires tree { tree < 16 }
    requires fixed { 4112 ≤ (S.meaning store.old).fixed }
    requires rid { rid < (S.meaning store.old).size }
    ensures runs { Runs S.read_gives S.write_gives S.fresh_gives S.meaning (TreeHas (S.meaning store.old) tree key None) (λ asks _ places. IsDue (entry_inserted tree key) places asks) (λ _. Step rid (entry_inserted tree key) (S.meaning store.old) (S.meaning store.new)) 51 store.old store.new result }
    ensures tears { (table : ℕ) → IsTreeOf table tree → IfTorn result (NamesTornChange table (S.meaning store.new)) }
    ensures rest { S.rest store.new ≡ S.rest store.old }
{
    let root = root_of(tree);
    if ordered_index::insert(store, root, key, rid)? {
        Ok(())
    } else {
        Err(Walk::Torn(root))
    }
}

/// Removes an entry from a tree. Where its key is not there, the record told is the tree's root.
pub fn remove_entry<S: RecordStore>(
    store: &mut S,
    tree: u32,
    key: Key,
) -> Result<(), Walk<S::Fault>>
    requires tree { tree < 16 }
    requires fixed { 4112 ≤ (S.meaning store.old).fixed }
    ensures runs { (rid : ℕ) → Runs S.read_gives S.write_gives S.fresh_gives S.meaning (TreeHas (S.meaning store.old) tree key (Some rid)) (λ _ _ _. ⊥) (λ _. Step rid (entry_removed tree key) (S.meaning store.old) (S.meaning store.new)) 1 store.old store.new result }
    ensures tears { (table : ℕ) → IsTreeOf table tree → IfTorn result (NamesTornChange table (S.meaning store.new)) }
    ensures asks_nothing { GoesByCalls S.read_gives S.write_gives S.fresh_gives S.meaning (λ _. ⊥) 0 store.old store.new result }
    ensures rest { S.rest store.new ≡ S.rest store.old }
{
    let root = root_of(tree);
    if ordered_index::remove(store, root, key)? {
        Ok(())
    } else {
        Err(Walk::Torn(root))
    }
}
