//! A store and plain tables, over which the same blocks run.
//!
//! Who makes a large value lends it to a function that may end early, and then hands it to `drop`: where a name goes out of scope, each
//! field of its value is let go in the proof of the function itself, once for each way out, which is dear.

ghost use Rattle.std.specs.Prelude.{◌<◌, ◌≤◌, All};
ghost use Rattle.record_store.specs.Limits.{record_limit};
ghost use Rattle.replay_model.specs.Input.{AreCommands, NamesColumn};
ghost use Rattle.replay_model.specs.Report.{table_named};
ghost use Rattle.stored_tables.specs.Answers.{IsShort, ReadsAlone};

use crate::script::Script;
use crate::shapes::{index_of, plain_tables};
use crate::store::Store;
use replay_model::{Block, Columns, Command, Commands, Tables, run_one};
use std::alloc::Global;
use std::test::Fail;

/// Tables in a store, and plain ones that are to be the same.
#[derive(Drop)]
pub struct Beside {
    store: Store,
    pub tables: Tables,
}

impl Beside {
    /// No rows, and the indexes of the eight tables.
    pub fn new(alloc: Global, records: u32) -> Result<Self, Fail>
        requires least { 4112 ≤ records }
        requires most { records ≤ record_limit }
    {
        let tables = plain_tables(alloc)?;
        let mut store = Store::new(alloc, records);
        match declare(alloc, &mut store) {
            Ok(()) => Ok(Beside { store, tables }),
            Err(fail) => {
                drop(store);
                drop(tables);
                Err(fail)
            }
        }
    }

    /// Runs a block over both, and answers whether it was done.
    pub fn run(&mut self, alloc: Global, script: Script) -> Result<bool, Fail> {
        let done = self.run_block(alloc, script.block());
        drop(script);
        done
    }

    fn run_block(&mut self, alloc: Global, block: &Block) -> Result<bool, Fail>
        requires commands { AreCommands 8 block.now.commands }
        requires short { All IsShort block.now.commands }
    {
        let due = run_one(alloc, block, &mut self.tables)?;
        let done = self.store.run(alloc, &block.commands, &due);
        drop(due);
        done
    }

    /// How many records the last block read.
    pub fn records_read(&self) -> usize {
        self.store.records_read()
    }

    /// Runs a command that reads over both.
    fn look(&mut self, alloc: Global, command: Command) -> Result<(), Fail>
        requires table { table_named command < 8 }
        requires column { NamesColumn command }
        requires short { IsShort command }
        requires reads { ReadsAlone command }
    {
        let block = Block {
            snap: true,
            lane: 1,
            number: 1,
            commands: Commands::from_vec(vec![in alloc; command]?),
        };
        let looked = self.look_block(alloc, &block);
        drop(block);
        looked
    }

    fn look_block(&mut self, alloc: Global, block: &Block) -> Result<(), Fail>
        requires commands { AreCommands 8 block.now.commands }
        requires short { All IsShort block.now.commands }
        requires reads { All ReadsAlone block.now.commands }
    {
        let due = run_one(alloc, block, &mut self.tables)?;
        let looked = self.store.look(alloc, &block.commands, &due);
        drop(due);
        looked
    }

    /// Reads all tables back, and answers how many rows they have.
    pub fn read_back(&mut self, alloc: Global) -> Result<usize, Fail> {
        let mut rows = 0;
        for table in 0..8u32 {
            rows = usize::saturating_add(rows, self.read_table(alloc, table)?);
        }
        Ok(rows)
    }

    /// Reads a table back: each row, and lists that overlap and begin and end where the table does.
    fn read_table(&mut self, alloc: Global, table: u32) -> Result<usize, Fail>
        requires { table < 8 }
    {
        let rows = self.tables.pairs(alloc, table)?;
        let count = rows.len();
        let read = self.read_rows(alloc, table, rows.as_slice());
        drop(rows);
        read?;
        Ok(count)
    }

    /// Reads a table back that has these rows.
    fn read_rows(&mut self, alloc: Global, table: u32, rows: &[(u64, Columns)]) -> Result<(), Fail>
        requires { table < 8 }
    {
        self.scan(alloc, table, 0, 256)?;
        self.find(alloc, table, 0, u64::MAX)?;
        for (i, (key, row)) in rows.iter().enumerate() {
            let limit = if i % 128 == 0 { 256 } else { 2 };
            self.scan(alloc, table, *key, limit)?;
            self.read_row(alloc, table, *key, row)?;
        }
        Ok(())
    }

    /// Reads a row back by its key and by the index of its table.
    fn read_row(&mut self, alloc: Global, table: u32, key: u64, row: &Columns) -> Result<(), Fail>
        requires { table < 8 }
    {
        let column = (key % 6) as u32 + 1;
        self.look(alloc, Command::Get { table, key, column })?;
        let indexed = index_of(table);
        if indexed == 0 {
            return Ok(());
        }
        let value = row.column(indexed);
        self.find(alloc, table, value, value.saturating_add(8))
    }

    /// Lists a table from a key on.
    fn scan(&mut self, alloc: Global, table: u32, lo: u64, limit: u64) -> Result<(), Fail>
        requires table { table < 8 }
        requires limit { limit ≤ 256 }
    {
        let hi = u64::MAX;
        let scan = Command::Scan {
            table,
            lo,
            hi,
            limit,
        };
        self.look(alloc, scan)
    }

    /// Lists a table by its index.
    fn find(&mut self, alloc: Global, table: u32, lo: u64, hi: u64) -> Result<(), Fail>
        requires { table < 8 }
    {
        let find = Command::Find {
            table,
            column: index_of(table),
            lo,
            hi,
            limit: 256,
        };
        self.look(alloc, find)
    }
}

/// Declares the indexes of the eight tables.
fn declare(alloc: Global, store: &mut Store) -> Result<(), Fail> {
    for table in 0..8u32 {
        let column = index_of(table);
        if column != 0 && !store.declare(alloc, table, column)? {
            return Err("an index was not declared".into());
        }
    }
    Ok(())
}
