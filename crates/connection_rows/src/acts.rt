//! Calls of a connection, as data.

use crate::told::{Told, row, tell};
use connections::Connection;
use std::alloc::Global;

/// A call of a connection, with its numbers.
#[derive(Clone, Copy)]
pub enum Act {
    /// A transaction begins at this reading.
    Begin(u64),
    Commit,
    Abort,
    Snapshot,
    Finish,
    /// The row of this table at this key.
    Get(u32, u64),
    /// A row with these two columns is put there.
    Put(u32, u64, (u64, u64)),
    Remove(u32, u64),
    /// Rows of this table from one key to another, so many at most.
    List(u32, (u64, u64), u32),
    /// Rows of this table by this column, from one value to another, so many at most.
    Find(u32, u32, (u64, u64), u32),
    /// An index of this table on this column.
    Declare(u32, u32),
    Collect,
    Hear(u64),
    /// A stamp is drawn at this reading.
    Tick(u64),
    Commits,
    Refusals,
    Close,
}

/// Makes a call, and tells what it answers.
pub fn make(alloc: Global, connection: &mut Connection, act: Act) -> Told {
    match act {
        Act::Begin(_) | Act::Commit | Act::Abort | Act::Snapshot | Act::Finish => {
            make_end(connection, act)
        }
        Act::Get(..) | Act::Put(..) | Act::Remove(..) => make_at_key(connection, act),
        Act::List(..) | Act::Find(..) | Act::Declare(..) => make_at_table(alloc, connection, act),
        _ => make_at_rest(connection, act),
    }
}

// Begins or ends a transaction or a snapshot.
fn make_end(connection: &mut Connection, act: Act) -> Told {
    match act {
        Act::Begin(reading) => tell(connection.begin(reading)),
        Act::Commit => tell(connection.commit()),
        Act::Abort => tell(connection.abort()),
        Act::Snapshot => tell(connection.snapshot()),
        _ => tell(connection.finish()),
    }
}

// Looks at a row, or changes it.
fn make_at_key(connection: &mut Connection, act: Act) -> Told {
    match act {
        Act::Get(table, key) => tell(connection.get(table, key)),
        Act::Put(table, key, (first, second)) => {
            tell(connection.put(table, key, &row(first, second)))
        }
        Act::Remove(table, key) => tell(connection.remove(table, key)),
        _ => Told::Done,
    }
}

// Looks at rows of a table, or declares its index.
fn make_at_table(alloc: Global, connection: &mut Connection, act: Act) -> Told {
    match act {
        Act::List(table, (lo, hi), limit) => tell(connection.list(alloc, table, lo, hi, limit)),
        Act::Find(table, column, (lo, hi), limit) => {
            tell(connection.find(alloc, table, column, lo, hi, limit))
        }
        Act::Declare(table, column) => tell(connection.declare_index(alloc, table, column)),
        _ => Told::Done,
    }
}

// What is done while nothing is open, what is asked at any time, and the end.
fn make_at_rest(connection: &mut Connection, act: Act) -> Told {
    match act {
        Act::Collect => tell(connection.collect()),
        Act::Hear(number) => tell(connection.hear(number)),
        Act::Tick(reading) => tell(connection.tick(reading)),
        Act::Commits => tell(connection.commits()),
        Act::Refusals => tell(connection.refusals()),
        _ => {
            connection.close();
            Told::Done
        }
    }
}
