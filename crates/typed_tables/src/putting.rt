//! One row set.

ghost use Rattle.std.specs.Prelude.{◌≡◌, ◌<◌, ◌≤◌, OnOk};
ghost use Rattle.record_store.specs.Walks.{IfTorn};
ghost use Rattle.replay_model.specs.declared.command.Command.TheVariants.{Put};
ghost use Rattle.stored_tables.specs.Answers.{DueBy, Stands};
ghost use Rattle.stored_tables.specs.Plan.{plan};
ghost use Rattle.stored_tables.specs.Runs.{Runs};
ghost use Rattle.stored_tables.specs.Tables.{EachTables};
ghost use Rattle.stored_tables.specs.Tears.{NamesTornChange};
ghost use Rattle.typed_tables.specs.Typed.{IfForeign, LeavesTyped, SetsTyped, walked};

use crate::fault::TypedFault;
use crate::typed_row::Row;
use record_store::RecordStore;
use stored_tables::put_row;

/// Sets the row of a typed table at a key, whether there is one or not, and one of this type or not. Indexes and all other rows stay.
/// It asks for new records as the command `put` does.
///
/// After a fault what was read and written may have grown; what was written before stays.
pub fn typed_put<R: Row, S: RecordStore>(
    store: &mut S,
    table: u32,
    key: u64,
    row: &R,
) -> Result<(), TypedFault<S::Fault>>
    requires table { table < 8 }
    requires fixed { 4112 ≤ (S.meaning store.old).fixed }
    ensures put { OnOk result (EachTables (S.meaning store.old) (S.meaning store.new) (λ state _ tables. LeavesTyped R.row_of R.columns_of table key row.now (S.meaning store.new) state tables)) }
    ensures never_foreign { IfForeign result (λ _ _. ⊥) }

    // whatever it answers: its calls on the store, how often it asked for a new record, where each fault comes from, and how many records
    // it writes
    ensures runs { Runs S.read_gives S.write_gives S.fresh_gives S.meaning (Stands (S.meaning store.old)) (DueBy (plan (Put table key (R.columns_of row.now)))) (SetsTyped table key (R.columns_of row.now) (S.meaning store.new)) 128 store.old store.new (walked result) }
    ensures tears { IfTorn (walked result) (NamesTornChange table (S.meaning store.new)) }
    ensures rest { S.rest store.new ≡ S.rest store.old }
{
    put_row(store, table, key, &row.encode())?;
    Ok(())
}
