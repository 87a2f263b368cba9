//! Rows read in the order of their keys.

ghost use Rattle.std.specs.Prelude.{◌≡◌, ◌⊎◌, ℕ, ◌<◌, ◌≤◌, List, ◌++◌, None, OnOk, OnErr};
ghost use Rattle.record_store.specs.Calls.{Reads, ReadFault};
ghost use Rattle.record_store.specs.Walks.{IfTorn, IfStore, OnlyReads};
ghost use Rattle.stored_tables.specs.Tables.{EachTables};
ghost use Rattle.stored_tables.specs.Tears.{NamesTorn};
ghost use Rattle.typed_tables.specs.Typed.{AllTyped, AreTyped, IfForeign, IsFirstForeign, IsForeignIn, walked};

use crate::fault::TypedFault;
use crate::typed_row::Row;
use record_store::{RecordRead, Walk};
use replay_model::Pairs;
use std::alloc::Global;
use stored_tables::list_rows;

/// Appends the first `limit` rows of a typed table whose keys lie from `lo` to `hi`, by rising key. A row among them whose columns are
/// those of no row of this type is answered in place of them all. After a refusal `out` is as it was.
pub fn typed_scan<R: Row, S: RecordRead>(
    alloc: Global,
    store: &mut S,
    table: u32,
    lo: u64,
    hi: u64,
    limit: u32,
    out: &mut Vec<(u64, R)>,
) -> Result<(), TypedFault<S::Fault>>
    requires table { table < 8 }
    requires size { 4112 ≤ (S.meaning store.old).size }
    ensures rows { OnOk result ((rows : List (ℕ × R)) × (out.new.items ≡ out.old.items ++ rows) × EachTables (S.meaning store.old) (S.meaning store.new) (λ _ _ tables. AreTyped R.row_of R.columns_of table lo hi limit rows tables)) }

    // the first of the rows to be given whose columns are refused
    ensures foreign { IfForeign result (λ key columns. EachTables (S.meaning store.old) (S.meaning store.new) (λ _ _ tables. IsFirstForeign R.row_of table lo hi limit key columns tables)) }
    ensures refused { IfForeign result (λ _ columns. R.row_of columns ≡ None) }
    ensures err { OnErr result (out.new.items ≡ out.old.items) }
    ensures torn { IfTorn (walked result) (λ _. EachTables (S.meaning store.old) (S.meaning store.new) (λ _ _ _. ⊥)) }
    ensures tears { IfTorn (walked result) (NamesTorn table (S.meaning store.old) (S.meaning store.new)) }
    ensures fault { IfStore (walked result) (ReadFault S.read_gives store.old store.new) }
    ensures calls { Reads S.read_gives store.old store.new }
    ensures after { OnlyReads (S.meaning store.old) (S.meaning store.new) }

    // a scan that lists nothing by its arguments reads nothing
    ensures nothing { (limit ≡ 0) ⊎ (hi < lo) → store.new ≡ store.old }
    ensures rest { S.rest store.new ≡ S.rest store.old }
{
    let pairs = list_rows(alloc, store, table, lo, hi, limit)?;
    read_all(&pairs, out)
}

/// Appends the rows of these columns, or nothing where some are refused.
pub fn read_all<R: Row, F>(pairs: &Pairs, out: &mut Vec<(u64, R)>) -> Result<(), TypedFault<F>>
    ensures typed { OnOk result ((rows : List (ℕ × R)) × (out.new.items ≡ out.old.items ++ rows) × AllTyped R.row_of R.columns_of pairs.now rows) }
    ensures err { OnErr result (out.new.items ≡ out.old.items) }
    ensures foreign { IfForeign result (λ key columns. IsForeignIn R.row_of pairs.now key columns) }
    ensures not_torn { IfTorn (walked result) (λ _. ⊥) }
    ensures no_fault { IfStore (walked result) (λ _. ⊥) }
{
    if out.reserve(pairs.len()).is_err() {
        return Err(TypedFault::Walk(Walk::NoMemory));
    }
    let kept = out.len();
    let read = read_typed(pairs, out);
    if read.is_err() {
        out.truncate(kept);
    }
    read
}

/// Appends the rows of these columns, up to the first that are refused.
fn read_typed<R: Row, F>(pairs: &Pairs, out: &mut Vec<(u64, R)>) -> Result<(), TypedFault<F>>
    ensures typed { OnOk result ((rows : List (ℕ × R)) × (out.new.items ≡ out.old.items ++ rows) × AllTyped R.row_of R.columns_of pairs.now rows) }
    ensures grown { OnErr result ((rows : List (ℕ × R)) × (out.new.items ≡ out.old.items ++ rows)) }
    ensures foreign { IfForeign result (λ key columns. IsForeignIn R.row_of pairs.now key columns) }
    ensures not_torn { IfTorn (walked result) (λ _. ⊥) }
    ensures no_fault { IfStore (walked result) (λ _. ⊥) }
{
    for &(key, columns) in pairs.as_slice() {
        let Some(row) = R::decode(&columns) else {
            return Err(TypedFault::Foreign { key, columns });
        };
        if out.push((key, row)).is_err() {
            return Err(TypedFault::Walk(Walk::NoMemory));
        }
    }
    Ok(())
}
