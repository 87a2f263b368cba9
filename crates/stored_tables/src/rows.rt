//! Rows of a table by themselves, for callers that run no block: no call takes anything back, so what was written before stays, also
//! where a call has no answer.

ghost use Rattle.std.specs.Prelude.{◌≡◌, ◌⊎◌, ℕ, ◌-◌, ◌^◌, ◌<◌, ◌≤◌, [], All, nat_le, true, false, IfOk, IfNone, IfSome, Some};
ghost use Rattle.record_store.specs.Goes.{GoesByCalls};
ghost use Rattle.record_store.specs.Walks.{IfNoMemory, IfTorn, OnlyReads};
ghost use Rattle.replay_model.specs.declared.command.Command.TheVariants.{Put, Del};
ghost use Rattle.stored_tables.specs.Answers.{DueBy, IsScanned, Stands};
ghost use Rattle.stored_tables.specs.OneRow.{IsRowAt, SetsRow, TakesRow};
ghost use Rattle.stored_tables.specs.Places.{index_tree};
ghost use Rattle.stored_tables.specs.Plan.{plan};
ghost use Rattle.stored_tables.specs.Reclaim.{Clears, ClearsBy, GivesLeaf};
ghost use Rattle.stored_tables.specs.RowLists.{IsPage, comes_behind};
ghost use Rattle.stored_tables.specs.Runs.{Looks, Runs};
ghost use Rattle.stored_tables.specs.Tears.{NamesTorn, NamesTornChange};

use crate::command;
use crate::leaving::take_row;
use crate::reading::{find_row, scan_rows};
use crate::reclaiming::{reclaim_leaf, reclaim_leaves};
use ordered_index::{Freed, Key};
use record_store::{RecordRead, RecordStore, Walk};
use replay_model::{Columns, Pairs, Sequence};
use std::alloc::Global;

/// The row of a table at a key, if there is one. It never answers `NoMemory`.
pub fn get_row<S: RecordRead>(
    store: &mut S,
    table: u32,
    key: u64,
) -> Result<Option<Columns>, Walk<S::Fault>>
    requires table { table < 8 }
    requires size { 4112 ≤ (S.meaning store.old).size }
    ensures looks { Looks S.read_gives S.meaning (Stands (S.meaning store.old)) (IsRowAt table key) store.old store.new result }
    ensures tears { IfTorn result (NamesTorn table (S.meaning store.old) (S.meaning store.new)) }
    ensures memory { IfNoMemory result ⊥ }
    ensures rest { S.rest store.new ≡ S.rest store.old }
{
    match find_row(store, table, key)? {
        Some(found) => Ok(Some(found.row)),
        None => Ok(None),
    }
}

/// The first `limit` rows of a table whose keys lie from `lo` to `hi`, by rising key.
pub fn list_rows<S: RecordRead>(
    alloc: Global,
    store: &mut S,
    table: u32,
    lo: u64,
    hi: u64,
    limit: u32,
) -> Result<Pairs, Walk<S::Fault>>
    requires table { table < 8 }
    requires size { 4112 ≤ (S.meaning store.old).size }
    ensures looks { Looks S.read_gives S.meaning (Stands (S.meaning store.old)) (IsScanned table lo hi limit) store.old store.new result }
    ensures tears { IfTorn result (NamesTorn table (S.meaning store.old) (S.meaning store.new)) }
    ensures nothing { (limit ≡ 0) ⊎ (hi < lo) → store.new ≡ store.old }
    ensures rest { S.rest store.new ≡ S.rest store.old }
{
    scan_rows(alloc, store, table, lo, hi, limit)
}

/// The first `limit` rows of a table whose keys come behind this one, by rising key; from the first row on where it is `None`. So the rows of
/// a table are its pages: the next one comes behind the last key of a page that has `limit` rows.
pub fn page_rows<S: RecordRead>(
    alloc: Global,
    store: &mut S,
    table: u32,
    behind: Option<u64>,
    limit: u32,
) -> Result<Pairs, Walk<S::Fault>>
    requires table { table < 8 }
    requires size { 4112 ≤ (S.meaning store.old).size }
    ensures looks { Looks S.read_gives S.meaning (Stands (S.meaning store.old)) (IsPage table behind limit) store.old store.new result }
    ensures tears { IfTorn result (NamesTorn table (S.meaning store.old) (S.meaning store.new)) }

    // a page of no rows reads nothing, nor does one behind the greatest key
    ensures nothing { (limit ≡ 0) ⊎ (behind ≡ Some (2 ^ 64 - 1)) → store.new ≡ store.old }
    ensures rest { S.rest store.new ≡ S.rest store.old }
{
    match first_behind(behind) {
        Some(lo) => scan_rows(alloc, store, table, lo, u64::MAX, limit),
        None => Ok(Sequence::from_vec(Vec::new(alloc))),
    }
}

/// The first number that comes behind this one, if there is one of 64 bits.
fn first_behind(behind: Option<u64>) -> Option<u64>
    ensures some { IfSome result (λ lo. (n : ℕ) → comes_behind behind n ≡ nat_le lo n) }
    ensures not_last { IfSome result (λ _. behind ≡ Some (2 ^ 64 - 1) → ⊥) }
    ensures none { IfNone result (behind ≡ Some (2 ^ 64 - 1)) }
{
    match behind {
        None => Some(0),
        Some(key) => key.checked_add(1),
    }
}

/// Sets the row at a key, whether there is one or not. It asks for new records as the command does.
pub fn put_row<S: RecordStore>(
    store: &mut S,
    table: u32,
    key: u64,
    row: &Columns,
) -> Result<(), Walk<S::Fault>>
    requires table { table < 8 }
    requires fixed { 4112 ≤ (S.meaning store.old).fixed }
    ensures runs { Runs S.read_gives S.write_gives S.fresh_gives S.meaning (Stands (S.meaning store.old)) (DueBy (plan (Put table key row.now))) (λ _. SetsRow table key row.now (S.meaning store.new)) 128 store.old store.new result }
    ensures tears { IfTorn result (NamesTornChange table (S.meaning store.new)) }
    ensures rest { S.rest store.new ≡ S.rest store.old }
{
    // The records that are never given out lie in the store: its size says so.
    let _size = store.size();
    // A put is never refused.
    let _ran = command::put_row(store, table, key, row)?;
    Ok(())
}

/// Takes the row at a key out, and answers whether there was one. Without one nothing is written. It asks for no new record.
pub fn remove_row<S: RecordStore>(
    store: &mut S,
    table: u32,
    key: u64,
) -> Result<bool, Walk<S::Fault>>
    requires table { table < 8 }
    requires fixed { 4112 ≤ (S.meaning store.old).fixed }
    ensures runs { Runs S.read_gives S.write_gives S.fresh_gives S.meaning (Stands (S.meaning store.old)) (DueBy (plan (Del table key))) (λ taken. TakesRow table key (S.meaning store.new) taken) 4 store.old store.new result }
    ensures tears { IfTorn result (NamesTornChange table (S.meaning store.new)) }
    ensures asks_nothing { GoesByCalls S.read_gives S.write_gives S.fresh_gives S.meaning (λ _. ⊥) 0 store.old store.new result }

    // nothing is written where there is no row
    ensures kept { IfOk result (λ taken. taken ≡ false → OnlyReads (S.meaning store.old) (S.meaning store.new)) }
    ensures rest { S.rest store.new ≡ S.rest store.old }
{
    // The records that are never given out lie in the store: its size says so.
    let _size = store.size();
    let taken = take_row(store, table, key)?;
    Ok(taken.is_some())
}

/// Takes the row at a key out, and answers whether there was one, as `remove_row` does; then it gives the leaves back that the row left
/// empty. Without a row nothing is written. It asks for no new record.
pub fn remove_and_reclaim<S: RecordStore>(
    store: &mut S,
    table: u32,
    key: u64,
) -> Result<bool, Walk<S::Fault>>
    requires table { table < 8 }
    requires fixed { 4112 ≤ (S.meaning store.old).fixed }
    ensures runs { Runs S.read_gives S.write_gives S.fresh_gives S.meaning (Stands (S.meaning store.old)) (DueBy (plan (Del table key))) (Clears table key (S.meaning store.new)) 10 store.old store.new result }

    // what `remove_row` does, and then what the two calls below do
    ensures halves { IfOk result (λ taken. taken ≡ true → ClearsBy S.read_gives S.write_gives S.fresh_gives S.meaning table key store.old store.new) }
    ensures tears { IfTorn result (NamesTornChange table (S.meaning store.new)) }
    ensures asks_nothing { GoesByCalls S.read_gives S.write_gives S.fresh_gives S.meaning (λ _. ⊥) 0 store.old store.new result }

    // nothing is written where there is no row
    ensures kept { IfOk result (λ taken. taken ≡ false → OnlyReads (S.meaning store.old) (S.meaning store.new)) }
    ensures rest { S.rest store.new ≡ S.rest store.old }
{
    // The records that are never given out lie in the store: its size says so.
    let _size = store.size();
    let Some(taken) = take_row(store, table, key)? else {
        return Ok(false);
    };
    reclaim_leaves(store, table, key, &taken)?;
    Ok(true)
}

/// Gives the leaf back where the entry of a key is, or would be, in a table's tree by keys, if it is empty and the node above it names three
/// leaves or more. It answers the records that are absent from then on. No row changes, and it asks for no new record.
pub fn reclaim_row<S: RecordStore>(
    store: &mut S,
    table: u32,
    key: u64,
) -> Result<Freed, Walk<S::Fault>>
    requires table { table < 8 }
    requires fixed { 4112 ≤ (S.meaning store.old).fixed }
    ensures runs { Runs S.read_gives S.write_gives S.fresh_gives S.meaning (Stands (S.meaning store.old)) (λ _ _ _. ⊥) (λ freed asked state held. (asked ≡ 0) × GivesLeaf table (record { high = key; low = 0 }) freed.items (S.meaning store.old) (S.meaning store.new) state held) 3 store.old store.new result }
    ensures tears { IfTorn result (NamesTornChange table (S.meaning store.new)) }
    ensures asks_nothing { GoesByCalls S.read_gives S.write_gives S.fresh_gives S.meaning (λ _. ⊥) 0 store.old store.new result }
    ensures stored { IfOk result (λ freed. All (λ rid. rid < (S.meaning store.old).size) freed.items) }
    ensures kept { IfOk result (λ freed. freed.items ≡ [] → OnlyReads (S.meaning store.old) (S.meaning store.new)) }
    ensures rest { S.rest store.new ≡ S.rest store.old }
{
    reclaim_leaf(store, table, Key { high: key, low: 0 })
}

/// The same of the entry of a row with this value in the index of its table. Without an index nothing is written.
pub fn reclaim_entry<S: RecordStore>(
    store: &mut S,
    table: u32,
    value: u64,
    key: u64,
) -> Result<Freed, Walk<S::Fault>>
    requires table { table < 8 }
    requires fixed { 4112 ≤ (S.meaning store.old).fixed }
    ensures runs { Runs S.read_gives S.write_gives S.fresh_gives S.meaning (Stands (S.meaning store.old)) (λ _ _ _. ⊥) (λ freed asked state held. (asked ≡ 0) × GivesLeaf (index_tree table) (record { high = value; low = key }) freed.items (S.meaning store.old) (S.meaning store.new) state held) 3 store.old store.new result }
    ensures tears { IfTorn result (NamesTornChange table (S.meaning store.new)) }
    ensures asks_nothing { GoesByCalls S.read_gives S.write_gives S.fresh_gives S.meaning (λ _. ⊥) 0 store.old store.new result }
    ensures stored { IfOk result (λ freed. All (λ rid. rid < (S.meaning store.old).size) freed.items) }
    ensures kept { IfOk result (λ freed. freed.items ≡ [] → OnlyReads (S.meaning store.old) (S.meaning store.new)) }
    ensures rest { S.rest store.new ≡ S.rest store.old }
{
    reclaim_leaf(
        store,
        table + 8,
        Key {
            high: value,
            low: key,
        },
    )
}
