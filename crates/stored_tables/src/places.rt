//! Where the chains, trees and heads of tables begin.

ghost use Rattle.std.specs.Prelude.{◌≡◌, ◌<◌, ◌≤◌, ◌+◌};
ghost use Rattle.stored_tables.specs.Places as places;

/// How many records tables have at places of their own, from record 0 on. Rows, and further nodes of chains and trees, have greater numbers.
pub const FIXED_RECORDS: u32 = 4112;

/// The first bucket of a table's chain.
pub fn base_of(table: u32) -> u32
    requires { table < 8 }
    ensures base { result ≡ places.base_of table }
    ensures below { result + 512 ≤ 4096 }
{
    512 * table
}

/// The root of a tree: those of tables 0 to 7 by keys, then those of their indexes.
pub fn root_of(tree: u32) -> u32
    requires { tree < 16 }
    ensures root { result ≡ places.root_of tree }
    ensures below { result < 4112 }
{
    if tree < 8 {
        512 * tree + 511
    } else {
        4096 + tree
    }
}

/// The head of a table's index.
pub fn head_of(table: u32) -> u32
    requires { table < 8 }
    ensures head { result ≡ places.head_of table }
    ensures below { result < 4104 }
{
    4096 + table
}
