//! The rows of tables in a store, read page by page.

ghost use Rattle.std.specs.Prelude.{◌≡◌, ◌<◌, ◌≤◌, length, IfOk, IsNone, IfSome};
ghost use Rattle.record_store.specs.Calls.{Reads, ReadFault};
ghost use Rattle.record_store.specs.Walks.{IfTorn, IfStore, OnlyReads};
ghost use Rattle.stored_tables.specs.Answers.{Stands};
ghost use Rattle.stored_tables.specs.RowLists.{comes_behind};
ghost use Rattle.stored_tables.specs.Runs.{Looks};
ghost use Rattle.stored_tables.specs.Tables.{EachTables};
ghost use Rattle.typed_tables.specs.Listing.{AreListed, AreRows, IsListed, last_key};

use record_store::{RecordRead, Walk};
use replay_model::{Pairs, Sequence};
use std::alloc::Global;
use stored_tables::page_rows;

/// How many rows a page has, but the last of a table, which has fewer.
const PAGE: usize = 256;

/// The rows of each of the first tables, so many of them, by rising key. Nothing is written. What was read may have grown after a fault.
pub fn list_tables<S: RecordRead>(
    alloc: Global,
    store: &mut S,
    count: u32,
) -> Result<Vec<Pairs>, Walk<S::Fault>>
    requires count { count ≤ 8 }
    requires size { 4112 ≤ (S.meaning store.old).size }
    ensures rows { IfOk result (λ rows. EachTables (S.meaning store.old) (S.meaning store.new) (λ _ _ tables. AreRows count tables rows.items)) }
    ensures count { IfOk result (λ rows. length rows.items ≡ count) }
    ensures torn { IfTorn result (λ _. EachTables (S.meaning store.old) (S.meaning store.new) (λ _ _ _. ⊥)) }
    ensures fault { IfStore result (ReadFault S.read_gives store.old store.new) }
    ensures calls { Reads S.read_gives store.old store.new }
    ensures after { OnlyReads (S.meaning store.old) (S.meaning store.new) }
    ensures rest { S.rest store.new ≡ S.rest store.old }
{
    list_first(alloc, store, count)
}

/// The rows of each of the first tables.
fn list_first<S: RecordRead>(
    alloc: Global,
    store: &mut S,
    count: u32,
) -> Result<Vec<Pairs>, Walk<S::Fault>>
    requires count { count ≤ 8 }
    requires size { 4112 ≤ (S.meaning store.old).size }
    ensures looks { Looks S.read_gives S.meaning (Stands (S.meaning store.old)) (λ rows. AreListed count rows.items) store.old store.new result }
    ensures count { IfOk result (λ rows. length rows.items ≡ count) }
    ensures rest { S.rest store.new ≡ S.rest store.old }
{
    let mut rows = Vec::new(alloc);
    if rows.reserve(count as usize).is_err() {
        return Err(Walk::NoMemory);
    }
    for table in 0..count {
        let pairs = list_table(alloc, store, table)?;
        if rows.push(pairs).is_err() {
            return Err(Walk::NoMemory);
        }
    }
    Ok(rows)
}

/// All rows of a table, by rising key.
fn list_table<S: RecordRead>(
    alloc: Global,
    store: &mut S,
    table: u32,
) -> Result<Pairs, Walk<S::Fault>>
    requires table { table < 8 }
    requires size { 4112 ≤ (S.meaning store.old).size }
    ensures looks { Looks S.read_gives S.meaning (Stands (S.meaning store.old)) (IsListed table) store.old store.new result }
    ensures rest { S.rest store.new ≡ S.rest store.old }
{
    let mut pairs = Vec::new(alloc);
    let mut behind = None;
    loop {
        let page = page_rows(alloc, store, table, behind, PAGE as u32)?;
        if pairs.extend_from_slice(page.as_slice()).is_err() {
            return Err(Walk::NoMemory);
        }
        let Some(last) = last_of(&page) else {
            return Ok(Sequence::from_vec(pairs));
        };
        if !is_behind(behind, last) {
            return Err(Walk::Torn(tree_of(table)));
        }
        behind = Some(last);
    }
}

/// The root of a table's tree by keys.
fn tree_of(table: u32) -> u32
    requires { table < 8 }
{
    512 * table + 511
}

/// Whether a key comes behind another; each comes behind none.
fn is_behind(behind: Option<u64>, key: u64) -> bool
    ensures { result ≡ comes_behind behind key }
{
    match behind {
        None => true,
        Some(other) => other < key,
    }
}

/// The last key of a page that is full. Nothing comes behind one that is not.
fn last_of(page: &Pairs) -> Option<u64>
    ensures none { IsNone result → length page.now < 256 }
    ensures some { IfSome result (λ last. (256 ≤ length page.now) × (last ≡ last_key page.now)) }
{
    let len = page.len();
    if len < PAGE {
        return None;
    }
    let &(last, _) = page.get(len - 1);
    Some(last)
}
