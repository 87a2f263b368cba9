//! Rows, with a set of their places.

ghost use Rattle.std.specs.Prelude.{◌≡◌, [], length};

use crate::fault::{Kind, Stop};
use replay_model::{Columns, Rows};
use std::alloc::Global;
use std::collections::BTreeSet;
use std::marker::Model;

/// Rows of different places, a table and a key each. Adding one does not walk the rows before it.
#[derive(Drop)]
pub struct KeyedRows {
    rows: Rows,
    /// A key and its table: keys differ sooner than tables do.
    places: BTreeSet<(u64, u32)>,
}

impl Model for KeyedRows {
    ghost use Rattle.std.specs.Prelude.{ℕ, List};
    ghost use Rattle.txn_script.specs.RowPlaces.{AreTheirPlaces};

    ghost Value = { List (ℕ × ℕ × List ℕ) };

    ghost view = { λ a. a.rows };

    ghost invariant = { λ a. AreTheirPlaces a.places a.rows };
}

impl KeyedRows {
    ghost use Rattle.txn_script.specs.Reading.{Gives, row_added};

    /// No rows; takes no memory yet.
    pub fn new(alloc: Global) -> Self
        ensures { result ≡ [] }
    {
        KeyedRows {
            rows: Rows::new(alloc),
            places: BTreeSet::new(alloc),
        }
    }

    /// The rows with one more, which is refused where there is one at its place.
    pub fn with(self, table: u32, key: u64, row: Columns) -> Result<Self, Stop>
        ensures { Gives (λ rows. rows) result (row_added self table key row) }
    {
        let KeyedRows {
            mut rows,
            mut places,
        } = self;
        if !places.insert((key, table))? {
            return Err(Stop::Refused(Kind::Twice));
        }
        rows.push((table, key, row))?;
        Ok(KeyedRows { rows, places })
    }

    /// How many there are.
    pub fn len(&self) -> usize
        ensures { result ≡ length self.now }
    {
        self.rows.len()
    }

    /// The rows, in the order in which they were added.
    pub fn into_rows(self) -> Rows
        ensures { result ≡ self }
    {
        let KeyedRows { rows, places: _ } = self;
        rows
    }
}
