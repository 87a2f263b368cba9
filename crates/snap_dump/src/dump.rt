//! What a dump holds.

ghost use Rattle.std.specs.Prelude.{◌≡◌, ◌≤◌, ◌++◌, length, map, IfOk, OnOk};
ghost use Rattle.snap_dump.specs.Tagged.{StandInOrder, tag, tagged};

use replay_model::{NoMemory, Pairs, Rows};
use std::alloc::Global;

/// The rows of all tables at a stamp, by table and then by key.
#[derive(Drop)]
pub struct Dump {
    pub stamp: u64,
    pub rows: Rows,
    pub ghost in_order: { StandInOrder rows },
}

/// The rows of tables, one list for each from table 0 on, with their tables.
pub(crate) fn rows_of(alloc: Global, lists: &[Pairs]) -> Result<Rows, NoMemory>
    requires { length lists.now ≤ 8 }
    ensures { IfOk result (λ rows. rows ≡ tagged 0 lists.now) }
{
    let mut rows = Rows::new(alloc);
    for (table, pairs) in lists.iter().enumerate() {
        push_rows(&mut rows, table as u32, pairs)?;
    }
    Ok(rows)
}

/// Appends the rows of a table.
fn push_rows(rows: &mut Rows, table: u32, pairs: &Pairs) -> Result<(), NoMemory>
    ensures { OnOk result (rows.new ≡ rows.old ++ map (tag table) pairs.now) }
{
    for &(key, columns) in pairs.as_slice() {
        rows.push((table, key, columns))?;
    }
    Ok(())
}
