//! What the eight tables of the tests look like.

ghost use Rattle.std.specs.Prelude.{◌≤◌};

use replay_model::{Indexes, Input, Lanes, Names, NoMemory, Rows, Tables, is_well_formed};
use std::alloc::Global;
use std::test::Fail;

/// How many columns a table has.
pub fn columns_of(table: u32) -> u32
    ensures first { 1 ≤ result }
    ensures last { result ≤ 6 }
{
    match table % 3 {
        0 => 1,
        1 => 2,
        _ => 6,
    }
}

/// The column of a table's index, or 0 where the table has none.
pub fn index_of(table: u32) -> u32
    ensures { result ≤ 6 }
{
    match table {
        1 => 2,
        2 => 4,
        3 | 7 => 1,
        _ => 0,
    }
}

/// Plain tables without rows, with these indexes.
pub fn plain_tables(alloc: Global) -> Result<Tables, Fail> {
    let mut input = Input {
        tables: Names::new(alloc),
        rows: Rows::new(alloc),
        indexes: Indexes::new(alloc),
        lanes: Lanes::new(alloc),
    };
    let tables = load(alloc, &mut input);
    drop(input);
    tables
}

/// Declares the tables and their indexes, and loads them.
fn load(alloc: Global, input: &mut Input) -> Result<Tables, Fail> {
    declare(input)?;
    if !is_well_formed(alloc, input)? {
        return Err("the input is not well formed".into());
    }
    Ok(Tables::loaded(alloc, input)?)
}

/// Declares the tables and their indexes.
fn declare(input: &mut Input) -> Result<(), NoMemory> {
    for table in 0..8u32 {
        input.tables.push(b"t", columns_of(table))?;
        if index_of(table) != 0 {
            input.indexes.push((table, index_of(table)))?;
        }
    }
    Ok(())
}
