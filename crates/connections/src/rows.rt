//! Rows of the tables, in a transaction or a snapshot.

ghost use Rattle.connections.specs.EachCall.{DeclareIndex, FindRows, Get, ListRows, Put, Remove};

use crate::connection::Connection;
use crate::fault::CallFault;
use crate::in_snapshot::{find_in_snapshot, get_in_snapshot, list_in_snapshot};
use crate::in_txn::{
    declare_in_txn, find_in_txn, get_in_txn, list_in_txn, remove_in_txn, take_and_put,
};
use crate::opened::Opened;
use replay_model::{Columns, Pairs};
use std::alloc::Global;

/// How many tables there are.
const TABLES: u32 = 8;

/// How many columns a row has.
const COLUMNS: u32 = 6;

impl Connection {
    /// The row of a table (0 to 7) at a key, if there is one, in a transaction or a snapshot.
    ///
    /// A transaction that is refused has ended without a trace, and the connection takes `abort` alone: so it is of each call on rows.
    /// In a snapshot it always answers.
    pub fn get(&mut self, table: u32, key: u64) -> Result<Option<Columns>, CallFault>
        ensures { Get table key self.old self.new result }
    {
        match self.opened {
            Opened::Transaction => {
                if table >= TABLES {
                    return Err(CallFault::Range);
                }
                let Some(pass) = &mut self.pass else {
                    unreachable!();
                };
                match get_in_txn(pass, &self.engine, table, key) {
                    Ok(row) => Ok(row),
                    Err(fault) => {
                        self.opened = Opened::Spoiled;
                        Err(fault)
                    }
                }
            }
            Opened::Snapshot => {
                if table >= TABLES {
                    return Err(CallFault::Range);
                }
                let Some(pass) = &mut self.pass else {
                    unreachable!();
                };
                get_in_snapshot(pass, &self.engine, table, key)
            }
            _ => Err(CallFault::Misused),
        }
    }

    /// Sets the row of a table at a key, whether there is one or not, in a transaction. Where it has few numbers of records left it takes
    /// some first that other connections have given. `RecordsOut`: neither it nor they have one.
    pub fn put(&mut self, table: u32, key: u64, row: &Columns) -> Result<(), CallFault>
        ensures { Put table key row.now self.old self.new result }
    {
        if self.opened != Opened::Transaction {
            return Err(CallFault::Misused);
        }
        if table >= TABLES {
            return Err(CallFault::Range);
        }
        let Some(pass) = &mut self.pass else {
            unreachable!();
        };
        match take_and_put(pass, &self.engine, &mut self.numbers, table, key, row) {
            Ok(()) => Ok(()),
            Err(fault) => {
                self.opened = Opened::Spoiled;
                Err(fault)
            }
        }
    }

    /// Takes the row of a table at a key out, and answers whether there was one, in a transaction.
    pub fn remove(&mut self, table: u32, key: u64) -> Result<bool, CallFault>
        ensures { Remove table key self.old self.new result }
    {
        if self.opened != Opened::Transaction {
            return Err(CallFault::Misused);
        }
        if table >= TABLES {
            return Err(CallFault::Range);
        }
        let Some(pass) = &mut self.pass else {
            unreachable!();
        };
        match remove_in_txn(pass, &self.engine, table, key) {
            Ok(taken) => Ok(taken),
            Err(fault) => {
                self.opened = Opened::Spoiled;
                Err(fault)
            }
        }
    }

    /// The first `limit` rows of a table whose keys lie from `lo` to `hi`, both included, by rising key, in a transaction or a snapshot.
    /// In a snapshot only `NoMemory` may refuse it, and the snapshot goes on. Room for `limit` rows is asked for first.
    pub fn list(
        &mut self,
        alloc: Global,
        table: u32,
        lo: u64,
        hi: u64,
        limit: u32,
    ) -> Result<Pairs, CallFault>
        ensures { ListRows table lo hi limit self.old self.new result }
    {
        match self.opened {
            Opened::Transaction => {
                if table >= TABLES {
                    return Err(CallFault::Range);
                }
                let Some(pass) = &mut self.pass else {
                    unreachable!();
                };
                match list_in_txn(alloc, pass, &self.engine, table, lo, hi, limit) {
                    Ok(rows) => Ok(rows),
                    Err(fault) => {
                        self.opened = Opened::Spoiled;
                        Err(fault)
                    }
                }
            }
            Opened::Snapshot => {
                if table >= TABLES {
                    return Err(CallFault::Range);
                }
                let Some(pass) = &mut self.pass else {
                    unreachable!();
                };
                list_in_snapshot(alloc, pass, &self.engine, table, lo, hi, limit)
            }
            _ => Err(CallFault::Misused),
        }
    }

    /// The first `limit` rows of a table whose column (1 to 6) lies from `lo` to `hi`, both included, by rising column and then by rising
    /// key, in a transaction or a snapshot; `None` where the table's index is not on that column, or it has none. In a snapshot only
    /// `NoMemory` may refuse it, and the snapshot goes on. Room for `limit` rows is asked for first.
    pub fn find(
        &mut self,
        alloc: Global,
        table: u32,
        column: u32,
        lo: u64,
        hi: u64,
        limit: u32,
    ) -> Result<Option<Pairs>, CallFault>
        ensures { FindRows table column lo hi limit self.old self.new result }
    {
        match self.opened {
            Opened::Transaction => {
                if table >= TABLES || column < 1 || column > COLUMNS {
                    return Err(CallFault::Range);
                }
                let Some(pass) = &mut self.pass else {
                    unreachable!();
                };
                match find_in_txn(alloc, pass, &self.engine, table, column, lo, hi, limit) {
                    Ok(rows) => Ok(rows),
                    Err(fault) => {
                        self.opened = Opened::Spoiled;
                        Err(fault)
                    }
                }
            }
            Opened::Snapshot => {
                if table >= TABLES || column < 1 || column > COLUMNS {
                    return Err(CallFault::Range);
                }
                let Some(pass) = &mut self.pass else {
                    unreachable!();
                };
                find_in_snapshot(alloc, pass, &self.engine, table, column, lo, hi, limit)
            }
            _ => Err(CallFault::Misused),
        }
    }

    /// Declares an index of a table on a column (1 to 6), where the table has no row and no index, and answers whether it did, in a
    /// transaction.
    pub fn declare_index(
        &mut self,
        alloc: Global,
        table: u32,
        column: u32,
    ) -> Result<bool, CallFault>
        ensures { DeclareIndex table column self.old self.new result }
    {
        if self.opened != Opened::Transaction {
            return Err(CallFault::Misused);
        }
        if table >= TABLES || column < 1 || column > COLUMNS {
            return Err(CallFault::Range);
        }
        let Some(pass) = &mut self.pass else {
            unreachable!();
        };
        match declare_in_txn(alloc, pass, &self.engine, table, column) {
            Ok(declared) => Ok(declared),
            Err(fault) => {
                self.opened = Opened::Spoiled;
                Err(fault)
            }
        }
    }
}
