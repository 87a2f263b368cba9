//! The tables that the states of the records stand for.

ghost use Rattle.lane_runner.specs.Rows.{stands};

use history_replay::Stands;

/// Says which tables a state stands for: one for which it stands for any is one that `RowsLawful` keeps.
pub struct RowTables;

impl Stands for RowTables {
    ghost stands = { stands };
}
