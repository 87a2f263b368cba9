//! Finding a table, and its index, among at most eight of each.

ghost use Rattle.std.specs.Prelude.{◌≡◌, ◌<◌, ◌≤◌, ◌==◌, ◌&&◌, length, IfSome};
ghost use Rattle.std.specs.List.{list_any};
ghost use Rattle.txn_script.specs.Reading.{number_in, has_index, is_found};

use crate::keyword::Keyword;
use crate::numbers::Numbers;
use replay_model::{Indexes, Names};

/// The number of a table's name.
pub fn number_in(tables: &Names, name: &[u8]) -> Option<u32>
    requires { length tables.now ≤ 8 }
    ensures number { result ≡ number_in tables.now name.now }
    ensures below { IfSome result (λ table. table < length tables.now) }
{
    for i in 0..tables.len() {
        if name == tables.get(i) {
            return Some(i as u32);
        }
    }
    None
}

/// Whether a table has an index.
pub fn has_index(indexes: &Indexes, table: u32) -> bool
    ensures { result ≡ has_index indexes.now table }
{
    indexes.as_slice().iter().any(|index| index.0 == table)
}

/// Whether there is the index that a search names.
pub fn is_found(indexes: &Indexes, table: u32, keyword: Keyword, numbers: &Numbers) -> bool
    ensures { result ≡ is_found indexes.now table keyword numbers.now }
{
    match keyword {
        Keyword::Find => has_index_on(indexes, table, numbers.get(0)),
        _ => true,
    }
}

/// Whether a table has an index on this column.
fn has_index_on(indexes: &Indexes, table: u32, column: u64) -> bool
    ensures { result ≡ list_any (λ index. index.0 == table && index.1 == column) indexes.now }
{
    indexes
        .as_slice()
        .iter()
        .any(|index| index.0 == table && index.1 as u64 == column)
}
