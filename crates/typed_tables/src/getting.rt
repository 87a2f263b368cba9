//! One row read.

ghost use Rattle.std.specs.Prelude.{◌≡◌, ◌<◌, ◌≤◌, IfOk, None, Some, option_map};
ghost use Rattle.std.specs.FinMap.{get};
ghost use Rattle.record_store.specs.Calls.{Reads, ReadFault};
ghost use Rattle.record_store.specs.Walks.{IfTorn, IfStore, IfNoMemory, OnlyReads};
ghost use Rattle.replay_model.specs.TableMap.{value_at};
ghost use Rattle.stored_tables.specs.Tables.{EachTables};
ghost use Rattle.stored_tables.specs.Tears.{NamesTorn};
ghost use Rattle.typed_tables.specs.Typed.{typed_table, IfForeign, walked};

use crate::fault::TypedFault;
use crate::typed_row::Row;
use record_store::RecordRead;
use stored_tables::get_row;

/// The row of a typed table at a key, if there is one. It never answers `NoMemory`, and writes nothing.
pub fn typed_get<R: Row, S: RecordRead>(
    store: &mut S,
    table: u32,
    key: u64,
) -> Result<Option<R>, TypedFault<S::Fault>>
    requires table { table < 8 }
    requires size { 4112 ≤ (S.meaning store.old).size }
    ensures row { IfOk result (λ row. EachTables (S.meaning store.old) (S.meaning store.new) (λ _ _ tables. get (typed_table R.row_of table tables) key ≡ option_map (λ r. Some r) row)) }

    // its columns are those that stand there
    ensures columns { IfOk result (λ row. EachTables (S.meaning store.old) (S.meaning store.new) (λ _ _ tables. value_at tables table key ≡ option_map R.columns_of row)) }

    // the columns of the row that stands there are those of no row of this type
    ensures foreign { IfForeign result (λ at columns. (at ≡ key) × (R.row_of columns ≡ None) × EachTables (S.meaning store.old) (S.meaning store.new) (λ _ _ tables. value_at tables table key ≡ Some columns)) }
    ensures memory { IfNoMemory (walked result) ⊥ }
    ensures torn { IfTorn (walked result) (λ _. EachTables (S.meaning store.old) (S.meaning store.new) (λ _ _ _. ⊥)) }
    ensures tears { IfTorn (walked result) (NamesTorn table (S.meaning store.old) (S.meaning store.new)) }
    ensures fault { IfStore (walked result) (ReadFault S.read_gives store.old store.new) }
    ensures calls { Reads S.read_gives store.old store.new }
    ensures after { OnlyReads (S.meaning store.old) (S.meaning store.new) }
    ensures rest { S.rest store.new ≡ S.rest store.old }
{
    let Some(columns) = get_row(store, table, key)? else {
        return Ok(None);
    };
    match R::decode(&columns) {
        Some(row) => Ok(Some(row)),
        None => Err(TypedFault::Foreign { key, columns }),
    }
}
