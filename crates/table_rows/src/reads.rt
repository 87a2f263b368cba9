//! Commands that run one by one, beside the plain tables; of those that read alone none reads a record twice.

ghost use Rattle.std.specs.Prelude.{◌<◌};
ghost use Rattle.replay_model.specs.Input.{NamesColumn};
ghost use Rattle.replay_model.specs.Report.{table_named};
ghost use Rattle.stored_tables.specs.Answers.{IsShort};

use crate::beside::Beside;
use crate::script::Script;
use crate::shapes::index_of;
use replay_model::{Columns, Command};
use std::alloc::Global;
use std::test::Fail;

/// The rows of each table, which have the numbers from 0.
const ROWS: u64 = 1024;

/// A command on a row.
#[derive(Clone, Copy)]
enum Act {
    /// Sets the row to its columns at this turn.
    Put(u64),
    Ins,
    Del,
    /// Adds to the column of the index, or to the first.
    Add(u64),
    Sub(u64),
    Get,
    /// Lists 100 rows from this one on.
    Scan,
    /// Lists 100 rows by the index; refused where there is none.
    Find,
}

use Act::{Add, Del, Find, Get, Ins, Put, Scan, Sub};

/// A row of a table.
#[derive(Clone, Copy)]
struct Row {
    table: u32,
    number: u64,
    ghost known: { table < 8 },
}

impl Row {
    /// Its key: one behind the other, all in one bucket, or far apart.
    fn key(self) -> u64 {
        let step = match self.table {
            0 | 3 => 1,
            1 => 511,
            _ => 0x9e37_79b9_7f4a_7c15,
        };
        self.number.wrapping_mul(step)
    }

    /// Its columns, which order the rows otherwise than their keys; they are others at another turn.
    fn columns(self, turn: u64) -> Columns {
        let column = |factor: u64| (self.number.wrapping_mul(factor) ^ turn) & 0xfff;
        Columns::new([
            column(3),
            column(5),
            column(7),
            column(9),
            column(11),
            column(13),
        ])
    }

    /// The row that has this number behind the rows of the table.
    fn beyond(self) -> Row {
        let number = self.number.wrapping_add(ROWS);
        Row {
            table: self.table,
            number,
        }
    }

    fn command(self, act: Act) -> Command
        ensures table { table_named result < 8 }
        ensures column { NamesColumn result }
        ensures short { IsShort result }
    {
        let (table, key) = (self.table, self.key());
        let column = index_of(table).max(1);
        match act {
            Put(turn) => {
                let values = self.columns(turn);
                Command::Put { table, key, values }
            }
            Ins => {
                let values = self.columns(0);
                Command::Ins { table, key, values }
            }
            Del => Command::Del { table, key },
            Add(by) => Command::Add {
                table,
                key,
                column,
                by,
            },
            Sub(by) => Command::Sub {
                table,
                key,
                column,
                by,
            },
            Get => Command::Get {
                table,
                key,
                column: 1,
            },
            Scan => Command::Scan {
                table,
                lo: key,
                hi: u64::MAX,
                limit: 100,
            },
            Find => Command::Find {
                table,
                column,
                lo: self.number & 0xfff,
                hi: u64::MAX,
                limit: 100,
            },
        }
    }
}

/// Adds the rows of a table.
fn fill(alloc: Global, beside: &mut Beside, table: u32) -> Result<(), Fail>
    requires { table < 8 }
{
    for block in 0..ROWS / 64 {
        let script = adding(alloc, table, block)?;
        if !beside.run(alloc, script)? {
            return Err("a block was refused".into());
        }
    }
    Ok(())
}

/// A block that adds 64 rows of a table.
fn adding(alloc: Global, table: u32, block: u64) -> Result<Script, Fail>
    requires { table < 8 }
{
    let mut script = Script::new(alloc);
    let filled = add_all(&mut script, table, block);
    script.if_filled(filled)
}

/// Appends the commands that add 64 rows of a table.
fn add_all(script: &mut Script, table: u32, block: u64) -> Result<(), Fail>
    requires { table < 8 }
{
    for i in 0..64u64 {
        let number = block << 6 | i;
        script.push(Row { table, number }.command(Ins))?;
    }
    Ok(())
}

/// Runs a command, and answers whether it was done; then it has to have read something.
fn run(alloc: Global, beside: &mut Beside, command: Command) -> Result<bool, Fail>
    requires table { table_named command < 8 }
    requires column { NamesColumn command }
    requires short { IsShort command }
{
    let mut script = Script::new(alloc);
    let filled = script.push(command);
    let done = beside.run(alloc, script.if_filled(filled)?)?;
    if done && beside.records_read() == 0 {
        return Err("a command read nothing".into());
    }
    Ok(done)
}

/// Runs commands on a row, of which each has to be done, or each has to be refused.
fn run_each(
    alloc: Global,
    beside: &mut Beside,
    row: Row,
    acts: &[Act],
    is_done: bool,
) -> Result<(), Fail> {
    for act in acts {
        if run(alloc, beside, row.command(*act))? != is_done {
            return Err("a command was refused that has to be done, or the other way round".into());
        }
    }
    Ok(())
}

/// Commands on a row that is there and on one that is not: rows are put, added and taken out, and entries of the index move and stay.
fn change(alloc: Global, beside: &mut Beside, row: Row) -> Result<(), Fail> {
    run_each(alloc, beside, row.beyond(), &[Put(0), Del, Ins], true)?;
    let acts = [
        Put(0),
        Put(1),
        Put(0xaaa),
        Add(0),
        Add(1),
        Add(1 << 40),
        Sub(1),
        Sub(1 << 39),
        Sub(0),
        Get,
        Scan,
    ];
    run_each(alloc, beside, row, &acts, true)?;
    if index_of(row.table) != 0 {
        run_each(alloc, beside, row, &[Find], true)?;
    }
    Ok(())
}

/// Commands that are refused.
fn refuse(alloc: Global, beside: &mut Beside, row: Row) -> Result<(), Fail> {
    run_each(alloc, beside, row, &[Ins], false)?;
    run_each(alloc, beside, row.beyond(), &[Del, Add(1), Sub(1)], false)?;
    run_each(alloc, beside, row, &[Add(u64::MAX), Sub(u64::MAX)], false)?;
    if index_of(row.table) == 0 {
        run_each(alloc, beside, row, &[Find], false)?;
    }
    Ok(())
}

/// Fills four tables, and runs commands on rows of each.
fn run_all(alloc: Global, beside: &mut Beside) -> Result<(), Fail> {
    for table in 0..4u32 {
        fill(alloc, beside, table)?;
        refuse(alloc, beside, Row { table, number: 7 })?;
        for i in 0..40u64 {
            let number = i.wrapping_mul(29) & 1023;
            change(alloc, beside, Row { table, number })?;
        }
    }
    Ok(())
}

#[test]
fn no_command_that_reads_alone_reads_a_record_twice(rt: HostRuntime) -> Result<(), Fail> {
    let mut beside = Beside::new(rt.alloc(), 30_000)?;
    let ran = run_all(rt.alloc(), &mut beside);
    drop(beside);
    ran
}
