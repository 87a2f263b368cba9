//! One row changed.

ghost use Rattle.std.specs.Prelude.{◌≡◌, ◌<◌, ◌≤◌, IfOk, IfNone, IfSome, None, Some};
ghost use Rattle.record_store.specs.Walks.{IfTorn, OnlyReads};
ghost use Rattle.replay_model.specs.TableMap.{value_at};
ghost use Rattle.stored_tables.specs.Answers.{Stands};
ghost use Rattle.stored_tables.specs.Runs.{Runs};
ghost use Rattle.stored_tables.specs.Tables.{EachTables};
ghost use Rattle.stored_tables.specs.Tears.{NamesTornChange};
ghost use Rattle.typed_tables.specs.Typed.{DueByChange, IfForeign, Updates, UpdatesTyped, walked};

use crate::fault::TypedFault;
use crate::getting::typed_get;
use crate::putting::typed_put;
use crate::typed_row::Row;
use record_store::RecordStore;

/// Changes the row of a typed table at a key, and answers it as it stands then; or `None` where there is no row, and then nothing is
/// written. The change is given the row that stands there, once. Indexes and all other rows stay. It asks for new records as the
/// command `put` does.
///
/// A row whose columns are those of no row of this type is answered as foreign, and stays. After another fault what was read and written
/// may have grown; what was written before stays.
pub fn typed_update<R: Row, S: RecordStore, C: FnOnce(R) -> R>(
    store: &mut S,
    table: u32,
    key: u64,
    change: C,
) -> Result<Option<R>, TypedFault<S::Fault>>
    requires table { table < 8 }
    requires fixed { 4112 ≤ (S.meaning store.old).fixed }
    requires callable { C.IsAlwaysCallable change }
    ensures updated { IfOk result (λ row. IfSome row (λ changed. Updates R.row_of R.columns_of (C.post change) table key changed (S.meaning store.old) (S.meaning store.new))) }
    ensures missing { IfOk result (λ row. IfNone row (EachTables (S.meaning store.old) (S.meaning store.new) (λ _ _ tables. value_at tables table key ≡ None))) }

    // the columns of the row that stands there are those of no row of this type
    ensures foreign { IfForeign result (λ at columns. (at ≡ key) × (R.row_of columns ≡ None) × EachTables (S.meaning store.old) (S.meaning store.new) (λ _ _ tables. value_at tables table key ≡ Some columns)) }

    // whatever it answers: its calls on the store, how often it asked for a new record, where each fault comes from, and how many records
    // it writes
    ensures runs { Runs S.read_gives S.write_gives S.fresh_gives S.meaning (Stands (S.meaning store.old)) (DueByChange R.columns_of (C.post change) table key) (UpdatesTyped R.columns_of (C.post change) table key (S.meaning store.new)) 128 store.old store.new (walked result) }
    ensures tears { IfTorn (walked result) (NamesTornChange table (S.meaning store.new)) }

    // nothing is written where there is no row, or a foreign one
    ensures kept { IfOk result (λ row. IfNone row (OnlyReads (S.meaning store.old) (S.meaning store.new))) }
    ensures foreign_kept { IfForeign result (λ _ _. OnlyReads (S.meaning store.old) (S.meaning store.new)) }
    ensures rest { S.rest store.new ≡ S.rest store.old }
{
    // The records that are never given out lie in the store: its size says so.
    let _size = store.size();
    let Some(row) = typed_get::<R, S>(store, table, key)? else {
        return Ok(None);
    };
    let changed = change(row);
    typed_put(store, table, key, &changed)?;
    Ok(Some(changed))
}
