//! Rows read: one by its key, and lists of them by their keys or by an index.

ghost use Rattle.std.specs.Prelude.{◌≡◌, ◌⊎◌, ℕ, ◌<◌, ◌≤◌, IfOk, IfSome, All, List, [], Some};
ghost use Rattle.record_store.specs.States.{EachState};
ghost use Rattle.record_store.specs.Walks.{IfNoMemory, IfTorn};
ghost use Rattle.replay_model.specs.Effect.{scanned, found};
ghost use Rattle.stored_tables.specs.Answers.{Stands, IsFound, IsIndexed, IsScanned, IsSearched};
ghost use Rattle.plain_data.specs.State.{overlay};
ghost use Rattle.replay_model.specs.TableMap.{Row};
ghost use Rattle.stored_tables.specs.Lists.{Lists};
ghost use Rattle.stored_tables.specs.RowLists.{IsFoundBy};
ghost use Rattle.ordered_index.specs.Tree.{In};
ghost use Rattle.stored_tables.specs.Rows.{entry_records, part_in};
ghost use Rattle.stored_tables.specs.Tables.{row_words};
ghost use Rattle.stored_tables.specs.Runs.{Looks};
ghost use Rattle.stored_tables.specs.Tears.{IsNoRow, NamesTorn};

use crate::head::index_of;
use crate::places::{base_of, root_of};
use crate::row::read_row;
use ordered_index::Key;
use plain_data::Cells;
use record_store::{RecordRead, Walk};
use replay_model::{Columns, Pairs, Sequence};
use std::alloc::Global;

/// A row and its record.
#[derive(Clone, Copy)]
pub struct Found {
    pub rid: u32,
    pub row: Columns,
}

/// The row of a table at a key, if there is one.
pub fn find_row<S: RecordRead>(
    store: &mut S,
    table: u32,
    key: u64,
) -> Result<Option<Found>, Walk<S::Fault>>
    requires table { table < 8 }
    requires size { 4112 ≤ (S.meaning store.old).size }
    ensures looks { Looks S.read_gives S.meaning (Stands (S.meaning store.old)) (IsFound table key) store.old store.new result }
    ensures tears { IfTorn result (NamesTorn table (S.meaning store.old) (S.meaning store.new)) }
    ensures stored { IfOk result (λ found. IfSome found (λ found. found.rid < (S.meaning store.old).size)) }
    ensures memory { IfNoMemory result ⊥ }
    ensures rest { S.rest store.new ≡ S.rest store.old }
{
    let Some(rid) = hash_index::get(store, base_of(table), key)? else {
        return Ok(None);
    };
    let row = row_at(store, rid)?;
    Ok(Some(Found { rid, row }))
}

/// The row in a record.
fn row_at<S: RecordRead>(store: &mut S, rid: u32) -> Result<Columns, Walk<S::Fault>>
    requires { rid < (S.meaning store.old).size }
    ensures looks { Looks S.read_gives S.meaning (λ state (words : List ℕ). overlay (S.meaning store.old).writes state rid ≡ Some (row_words words)) (λ row state words. row ≡ words) store.old store.new result }
    ensures tears { IfTorn result (λ torn. (torn ≡ rid) × EachState (S.meaning store.old) (S.meaning store.new) (IsNoRow rid)) }
    ensures memory { IfNoMemory result ⊥ }
    ensures rest { S.rest store.new ≡ S.rest store.old }
{
    let mut cells = Cells::new([0; 32]);
    if !store.read_into(rid, &mut cells)? {
        return Err(Walk::Torn(rid));
    }
    match read_row(&cells) {
        Some(row) => Ok(row),
        None => Err(Walk::Torn(rid)),
    }
}

/// The first `limit` rows of a table whose keys lie from `lo` to `hi`, by rising key.
pub fn scan_rows<S: RecordRead>(
    alloc: Global,
    store: &mut S,
    table: u32,
    lo: u64,
    hi: u64,
    limit: u32,
) -> Result<Pairs, Walk<S::Fault>>
    requires table { table < 8 }
    requires size { 4112 ≤ (S.meaning store.old).size }
    ensures looks { Looks S.read_gives S.meaning (Stands (S.meaning store.old)) (IsScanned table lo hi limit) store.old store.new result }
    ensures tears { IfTorn result (NamesTorn table (S.meaning store.old) (S.meaning store.new)) }
    ensures nothing { (limit ≡ 0) ⊎ (hi < lo) → store.new ≡ store.old }
    ensures rest { S.rest store.new ≡ S.rest store.old }
{
    let lo = Key { high: lo, low: 0 };
    let hi = Key {
        high: hi,
        low: u64::MAX,
    };
    let mut entries = Vec::new(alloc);
    ordered_index::scan(store, root_of(table), lo, hi, limit, &mut entries)?;
    read_rows(alloc, store, &entries, KeyPart::High)
}

/// The first `limit` rows of a table whose column, that of its index, lies from `lo` to `hi`, by that column and then by key.
fn search_rows<S: RecordRead>(
    alloc: Global,
    store: &mut S,
    table: u32,
    column: u32,
    lo: u64,
    hi: u64,
    limit: u32,
) -> Result<Pairs, Walk<S::Fault>>
    requires table { table < 8 }
    requires size { 4112 ≤ (S.meaning store.old).size }
    ensures looks { Looks S.read_gives S.meaning (λ state held. Stands (S.meaning store.old) state held × IsIndexed table (Some column) state held) (IsSearched table column lo hi limit) store.old store.new result }
    ensures tears { IfTorn result (NamesTorn table (S.meaning store.old) (S.meaning store.new)) }
    ensures nothing { (limit ≡ 0) ⊎ (hi < lo) → store.new ≡ store.old }
    ensures rest { S.rest store.new ≡ S.rest store.old }
{
    let lo = Key { high: lo, low: 0 };
    let hi = Key {
        high: hi,
        low: u64::MAX,
    };
    let mut entries = Vec::new(alloc);
    ordered_index::scan(store, root_of(table + 8), lo, hi, limit, &mut entries)?;
    read_rows(alloc, store, &entries, KeyPart::Low)
}

/// The first `limit` rows of a table whose column lies from `lo` to `hi`, by rising column and then by rising key; or `None` where the
/// table's index is not on that column, or it has none.
pub fn find_rows<S: RecordRead>(
    alloc: Global,
    store: &mut S,
    table: u32,
    column: u32,
    lo: u64,
    hi: u64,
    limit: u32,
) -> Result<Option<Pairs>, Walk<S::Fault>>
    requires table { table < 8 }
    requires size { 4112 ≤ (S.meaning store.old).size }
    ensures looks { Looks S.read_gives S.meaning (Stands (S.meaning store.old)) (IsFoundBy table column lo hi limit) store.old store.new result }
    ensures tears { IfTorn result (NamesTorn table (S.meaning store.old) (S.meaning store.new)) }
    ensures rest { S.rest store.new ≡ S.rest store.old }
{
    match index_of(store, table)? {
        Some(indexed) if indexed == column => {
            let pairs = search_rows(alloc, store, table, column, lo, hi, limit)?;
            Ok(Some(pairs))
        }
        _ => Ok(None),
    }
}

/// Which part of an entry's key is the key of its row.
#[derive(Clone, Copy)]
enum KeyPart {
    High,
    Low,
}

/// The row's key in an entry's.
fn part_of(key: Key, part: KeyPart) -> u64
    ensures { result ≡ part_in part key }
{
    match part {
        KeyPart::High => key.high,
        KeyPart::Low => key.low,
    }
}

/// The rows of these records, each with its key.
fn read_rows<S: RecordRead>(
    alloc: Global,
    store: &mut S,
    entries: &[(Key, u32)],
    part: KeyPart,
) -> Result<Pairs, Walk<S::Fault>>
    requires { All (λ entry. entry.1 < (S.meaning store.old).size) entries.now }
    ensures looks { Looks S.read_gives S.meaning (λ state (rows : List (ℕ × Row)). Lists (overlay (S.meaning store.old).writes state) (part_in part) entries.now rows) (λ pairs _ rows. pairs ≡ rows) store.old store.new result }
    ensures tears { IfTorn result (λ rid. In rid (entry_records entries.now) × EachState (S.meaning store.old) (S.meaning store.new) (IsNoRow rid)) }
    ensures nothing { entries.now ≡ [] → store.new ≡ store.old }
    ensures rest { S.rest store.new ≡ S.rest store.old }
{
    let mut pairs = Vec::new(alloc);
    if pairs.reserve(entries.len()).is_err() {
        return Err(Walk::NoMemory);
    }
    for &(key, rid) in entries {
        let row = row_at(store, rid)?;
        if pairs.push((part_of(key, part), row)).is_err() {
            return Err(Walk::NoMemory);
        }
    }
    Ok(Sequence::from_vec(pairs))
}
