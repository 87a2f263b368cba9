//! The states that the program keeps.

ghost use Rattle.record_store.specs.Limits.{record_limit};
ghost use Rattle.replay_model.specs.TableMap.{TableMap};
ghost use Rattle.stored_tables.specs.Kept.{KeepsTables};
ghost use Rattle.stored_tables.specs.Laws.{no_tables, no_places};
ghost use Rattle.stored_tables.specs.Tables.{StandsForSome};
ghost use Rattle.stored_tables.specs.Empty.{stands_empty};

use histories::Keeps;

/// Keeps exactly the states that stand for some tables.
pub struct RowsLawful;

impl Keeps for RowsLawful {
    ghost kept = { λ state. (tables : TableMap) × StandsForSome record_limit state tables };

    ghost keeps_empty = { (no_tables, (no_places, stands_empty record_limit)) };
}

/// In a store of so many records the states that are kept are those that stand for some tables there. Since a state stands for one
/// tables at most, at whatever size, they are the same tables.
pub fn keeps_tables()
    ensures { KeepsTables ⟦<RowsLawful as Keeps>⟧.kept }
{}
