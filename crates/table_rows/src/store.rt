//! A map of records in memory that has tables.

ghost use Rattle.std.specs.Prelude.{◌≡◌, ◌<◌, ◌≤◌, All};
ghost use Rattle.record_store.specs.Limits.{record_limit};
ghost use Rattle.replay_model.specs.Input.{AreCommands, IsColumn};
ghost use Rattle.stored_tables.specs.Answers.{IsShort, ReadsAlone};

use crate::counted::Counted;
use crate::outcomes::{compare, is_done};
use record_store::{MapFault, RecordRead, RecordStore, Walk};
use replay_model::{Cells, Command, Commands, Outcome};
use std::alloc::Global;
use std::mem::replace;
use std::test::Fail;
use stored_tables::{declare_index, exec_snap, exec_txn};

/// A map and the number of its records.
#[derive(Drop)]
pub struct Store {
    map: Counted,
    size: u32,
    ghost first_new: { map.map.fixed ≡ 4112 },
    ghost sized: { map.map.size ≡ size },
    ghost least: { 4112 ≤ size },
    ghost most: { size ≤ record_limit },
}

impl Store {
    /// So many records, all absent.
    pub fn new(alloc: Global, size: u32) -> Self
        requires least { 4112 ≤ size }
        requires most { size ≤ record_limit }
    {
        let map = Counted::new(alloc, size);
        Store { map, size }
    }

    /// Declares an index, and answers whether it did.
    pub fn declare(
        &mut self,
        alloc: Global,
        table: u32,
        column: u32,
    ) -> Result<bool, Walk<MapFault>>
        requires table { table < 8 }
        requires column { IsColumn column }
    {
        declare_index(alloc, &mut self.map, table, column)
    }

    /// Runs a transaction, which has to come to this outcome, and answers whether it was done; one that is refused leaves the store as
    /// it was before.
    pub fn run(&mut self, alloc: Global, commands: &Commands, due: &Outcome) -> Result<bool, Fail>
        requires commands { AreCommands 8 commands.now }
        requires short { All IsShort commands.now }
    {
        if is_done(due) {
            self.come_to(alloc, commands, due)?;
            return Ok(true);
        }
        self.run_refused(alloc, commands, due)?;
        Ok(false)
    }

    /// Runs a transaction, which has to come to this outcome.
    pub fn come_to(&mut self, alloc: Global, commands: &Commands, due: &Outcome) -> Result<(), Fail>
        requires commands { AreCommands 8 commands.now }
        requires short { All IsShort commands.now }
    {
        self.map.begin();
        let got = exec_txn(alloc, &mut self.map, commands)?;
        compare(got, due)?;
        self.is_read_once(commands)
    }

    /// How many records the last block read.
    pub fn records_read(&self) -> usize {
        self.map.count()
    }

    /// Refuses a block of one command that reads alone and read a record again.
    fn is_read_once(&self, commands: &Commands) -> Result<(), Fail> {
        if is_reading(commands) && self.map.is_read_again() {
            return Err("a command that reads alone read a record again".into());
        }
        Ok(())
    }

    /// Runs a transaction that is refused, and so empties the store, which goes on as it was before. After an `Err` it may have any
    /// records.
    fn run_refused(&mut self, alloc: Global, commands: &Commands, due: &Outcome) -> Result<(), Fail>
        requires commands { AreCommands 8 commands.now }
        requires short { All IsShort commands.now }
    {
        let mut kept = Store::new(alloc, self.size);
        let emptied = self.empty_by(alloc, commands, due, &mut kept);
        drop(replace(self, kept));
        emptied
    }

    /// Copies the store, and runs a transaction that is refused and so empties it.
    fn empty_by(
        &mut self,
        alloc: Global,
        commands: &Commands,
        due: &Outcome,
        copy: &mut Store,
    ) -> Result<(), Fail>
        requires commands { AreCommands 8 commands.now }
        requires short { All IsShort commands.now }
    {
        copy.copy_all(self)?;
        self.come_to(alloc, commands, due)?;
        if !self.is_empty()? {
            return Err("a refused block left a record".into());
        }
        Ok(())
    }

    /// Runs commands that read alone, which have to come to this outcome.
    pub fn look(&mut self, alloc: Global, commands: &Commands, due: &Outcome) -> Result<(), Fail>
        requires commands { AreCommands 8 commands.now }
        requires short { All IsShort commands.now }
        requires reads { All ReadsAlone commands.now }
    {
        self.map.begin();
        let got = exec_snap(alloc, &mut self.map, commands)?;
        compare(got, due)?;
        self.is_read_once(commands)
    }

    /// Copies the records of another store.
    fn copy_all(&mut self, other: &mut Store) -> Result<(), MapFault> {
        for rid in 0..self.size {
            self.copy_from(other, rid)?;
        }
        Ok(())
    }

    /// Copies a record of another store.
    fn copy_from(&mut self, other: &mut Store, rid: u32) -> Result<(), MapFault> {
        if rid >= self.size {
            return Ok(());
        }
        match other.read(rid)? {
            Some(cells) => self.map.write(rid, Some(cells)),
            None => Ok(()),
        }
    }

    /// Whether no record is present.
    fn is_empty(&mut self) -> Result<bool, MapFault> {
        for rid in 0..self.size {
            if self.read(rid)?.is_some() {
                return Ok(false);
            }
        }
        Ok(true)
    }

    /// A record, if the store has it and it is present.
    fn read(&mut self, rid: u32) -> Result<Option<Cells>, MapFault> {
        if rid >= self.size {
            return Ok(None);
        }
        self.map.read(rid)
    }
}

/// Whether a block has one command, and this one reads alone.
fn is_reading(commands: &Commands) -> bool {
    commands.len() == 1
        && matches!(
            commands.as_slice().first(),
            Some(Command::Get { .. } | Command::Scan { .. } | Command::Find { .. })
        )
}
