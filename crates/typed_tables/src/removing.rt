//! One row taken out.

ghost use Rattle.std.specs.Prelude.{◌≡◌, ℕ, ◌<◌, ◌≤◌, false, IfOk};
ghost use Rattle.std.specs.FinMap.{remove};
ghost use Rattle.record_store.specs.Goes.{GoesByCalls};
ghost use Rattle.record_store.specs.Walks.{IfTorn, OnlyReads};
ghost use Rattle.replay_model.specs.TableMap.{TableMap, without};
ghost use Rattle.replay_model.specs.declared.command.Command.TheVariants.{Del};
ghost use Rattle.stored_tables.specs.Answers.{DueBy, Stands};
ghost use Rattle.stored_tables.specs.Plan.{plan};
ghost use Rattle.stored_tables.specs.Runs.{Runs};
ghost use Rattle.stored_tables.specs.Tables.{EachTables};
ghost use Rattle.stored_tables.specs.Tears.{NamesTornChange};
ghost use Rattle.typed_tables.specs.Typed.{IfForeign, Removes, TakesTyped, typed_table, walked};

use crate::fault::TypedFault;
use crate::typed_row::Row;
use record_store::RecordStore;
use stored_tables::remove_row;

/// Takes the row at a key out of a table, whatever its columns are, and answers whether there was one. Indexes and all other rows stay,
/// and where there was none everything stays. It asks for no new record.
///
/// After a fault what was read and written may have grown; what was written before stays.
pub fn typed_remove<S: RecordStore>(
    store: &mut S,
    table: u32,
    key: u64,
) -> Result<bool, TypedFault<S::Fault>>
    requires table { table < 8 }
    requires fixed { 4112 ≤ (S.meaning store.old).fixed }
    ensures removed { IfOk result (λ removed. EachTables (S.meaning store.old) (S.meaning store.new) (λ state _ tables. Removes table key (S.meaning store.new) removed state tables)) }
    ensures never_foreign { IfForeign result (λ _ _. ⊥) }

    // whatever it answers: its calls on the store, where each fault comes from, and how many records it writes
    ensures runs { Runs S.read_gives S.write_gives S.fresh_gives S.meaning (Stands (S.meaning store.old)) (DueBy (plan (Del table key))) (TakesTyped table key (S.meaning store.new)) 4 store.old store.new (walked result) }
    ensures tears { IfTorn (walked result) (NamesTornChange table (S.meaning store.new)) }

    // `fresh` is never asked, whatever the state is
    ensures asks_nothing { GoesByCalls S.read_gives S.write_gives S.fresh_gives S.meaning (λ _. ⊥) 0 store.old store.new (walked result) }

    // nothing is written where there is no row
    ensures kept { IfOk result (λ removed. removed ≡ false → OnlyReads (S.meaning store.old) (S.meaning store.new)) }
    ensures rest { S.rest store.new ≡ S.rest store.old }
{
    let removed = remove_row(store, table, key)?;
    Ok(removed)
}

/// A law, which does nothing: without the row at a key a typed table, whatever its rows are, is the one before with that key removed.
pub fn typed_without<R: Row>()
    ensures { (table key : ℕ) (tables : TableMap) → typed_table R.row_of table (without tables table key) ≡ remove (typed_table R.row_of table tables) key }
{}
