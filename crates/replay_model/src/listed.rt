//! Rows of a table listed by one of their columns, for a search by its index.

ghost use Rattle.std.specs.Prelude.{◌≡◌, ℕ, IfOk, OnOk, OnErr, None, Some};
ghost use Rattle.std.specs.FinMap.{get};
ghost use Rattle.replay_model.specs.Listed.{where_value, IsRelisted};
ghost use Rattle.replay_model.specs.Effect.{by_column};
ghost use Rattle.replay_model.specs.Input.{IsColumn};

use crate::columns::Columns;
use crate::outcome::Pairs;
use crate::row_map::SortedRows;
use plain_data::NoMemory;
use std::alloc::Global;

/// The index of a table: its column, and the table's rows, by their values in that column and by their keys.
#[derive(Drop)]
pub struct Listed {
    pub table: u32,
    pub column: u32,
    pub rows: SortedRows,
}

impl Listed {
    /// Sets the row at a key, where this one was before, if any. Only a value that the key did not have may want memory.
    pub fn enter(&mut self, key: u64, was: &Option<Columns>, row: Columns) -> Result<(), NoMemory>
        requires column { IsColumn self.old.column }
        requires was { (value : ℕ) → get self.old.rows (value, key) ≡ where_value self.old.column was.now value }
        ensures ok { OnOk result (IsRelisted self.old.column key (Some row) self.old.rows self.new.rows) }
        ensures err { OnErr result (self.new.rows ≡ self.old.rows) }
        ensures same { (self.new.table ≡ self.old.table) × (self.new.column ≡ self.old.column) }
    {
        let value = row.column(self.column);
        self.rows.put(value, key, row)?;
        if let Some(old) = *was {
            let former = old.column(self.column);
            if former != value {
                let _ = self.rows.remove(former, key);
            }
        }
        Ok(())
    }

    /// Takes out the row at a key.
    pub fn leave(&mut self, key: u64, row: Columns)
        requires column { IsColumn self.old.column }
        requires was { (value : ℕ) → get self.old.rows (value, key) ≡ where_value self.old.column (Some row) value }
        ensures left { IsRelisted self.old.column key None self.old.rows self.new.rows }
        ensures same { (self.new.table ≡ self.old.table) × (self.new.column ≡ self.old.column) }
    {
        let _ = self.rows.remove(row.column(self.column), key);
    }
}

/// Rows by a column and their keys.
pub fn listed_by(alloc: Global, pairs: &Pairs, column: u32) -> Result<SortedRows, NoMemory>
    requires { IsColumn column }
    ensures { IfOk result (λ sorted. sorted ≡ by_column column pairs.now) }
{
    let mut sorted = SortedRows::new(alloc);
    for i in (0..pairs.len()).rev() {
        let &(key, row) = pairs.get(i);
        sorted.put(row.column(column), key, row)?;
    }
    Ok(sorted)
}
