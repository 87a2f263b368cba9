//! Rows read by an index.

ghost use Rattle.std.specs.Prelude.{◌≡◌, ℕ, ◌<◌, ◌≤◌, List, ◌++◌, true, false, None, IfOk, OnErr};
ghost use Rattle.record_store.specs.Walks.{IfTorn};
ghost use Rattle.replay_model.specs.Effect.{found};
ghost use Rattle.stored_tables.specs.Answers.{Stands};
ghost use Rattle.stored_tables.specs.Runs.{Looks};
ghost use Rattle.stored_tables.specs.Tables.{EachTables};
ghost use Rattle.stored_tables.specs.Tears.{NamesTorn};
ghost use Rattle.typed_tables.specs.Typed.{AllTyped, IfForeign, IsForeignIn, TellsIndex, walked};

use crate::fault::TypedFault;
use crate::scanning::read_all;
use crate::typed_row::Row;
use record_store::RecordRead;
use std::alloc::Global;
use stored_tables::find_rows;

/// Appends the first `limit` rows of a typed table whose column lies from `lo` to `hi`, by rising column and then by rising key, and
/// answers whether the table's index is on that column. Where it is not, or there is none, nothing is appended. A row among them whose
/// columns are those of no row of this type is answered in place of them all. After a refusal `out` is as it was.
pub fn typed_find<R: Row, S: RecordRead>(
    alloc: Global,
    store: &mut S,
    table: u32,
    column: u32,
    lo: u64,
    hi: u64,
    limit: u32,
    out: &mut Vec<(u64, R)>,
) -> Result<bool, TypedFault<S::Fault>>
    requires table { table < 8 }
    requires size { 4112 ≤ (S.meaning store.old).size }
    ensures looks { Looks S.read_gives S.meaning (Stands (S.meaning store.old)) (TellsIndex table column) store.old store.new (walked result) }
    ensures tears { IfTorn (walked result) (NamesTorn table (S.meaning store.old) (S.meaning store.new)) }
    ensures rows { IfOk result (λ indexed. indexed ≡ true → (rows : List (ℕ × R)) × (out.new.items ≡ out.old.items ++ rows) × EachTables (S.meaning store.old) (S.meaning store.new) (λ _ _ tables. AllTyped R.row_of R.columns_of (found table column lo hi limit tables) rows)) }
    ensures none { IfOk result (λ indexed. indexed ≡ false → out.new.items ≡ out.old.items) }

    // the first of the rows to be given whose columns are refused
    ensures foreign { IfForeign result (λ key columns. EachTables (S.meaning store.old) (S.meaning store.new) (λ _ _ tables. IsForeignIn R.row_of (found table column lo hi limit tables) key columns)) }
    ensures refused { IfForeign result (λ _ columns. R.row_of columns ≡ None) }
    ensures err { OnErr result (out.new.items ≡ out.old.items) }
    ensures rest { S.rest store.new ≡ S.rest store.old }
{
    let Some(pairs) = find_rows(alloc, store, table, column, lo, hi, limit)? else {
        return Ok(false);
    };
    match read_all(&pairs, out) {
        Ok(()) => Ok(true),
        Err(fault) => Err(fault),
    }
}
