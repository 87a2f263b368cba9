//! Generated blocks over a store and over plain tables.

ghost use Rattle.std.specs.Prelude.{◌<◌};
ghost use Rattle.replay_model.specs.Input.{NamesColumn};
ghost use Rattle.replay_model.specs.Report.{table_named};
ghost use Rattle.stored_tables.specs.Answers.{IsShort};

use crate::beside::Beside;
use crate::draws::Source;
use crate::script::Script;
use crate::shapes::index_of;
use replay_model::{Command, Tables};
use std::alloc::Global;
use std::test::Fail;

/// A command that lists or reads.
fn reading(source: &mut Source, table: u32, key: u64) -> Command
    requires { table < 8 }
    ensures table { table_named result < 8 }
    ensures column { NamesColumn result }
    ensures short { IsShort result }
{
    let limit = if source.one_in(4) {
        256
    } else {
        source.below(30)
    };
    match source.below(4) {
        0 => {
            let column = source.column(table);
            Command::Get { table, key, column }
        }
        1 => {
            let (lo, hi) = (source.value(), source.value());
            let indexed = index_of(table);
            let column = if source.one_in(9) { 6 } else { indexed };
            Command::Find {
                table,
                column,
                lo,
                hi,
                limit,
            }
        }
        _ => {
            let hi = source.key();
            Command::Scan {
                table,
                lo: key,
                hi,
                limit,
            }
        }
    }
}

/// A command that is fine where the row is there, or where there may be one.
fn changing(source: &mut Source, table: u32, key: u64) -> Command
    requires { table < 8 }
    ensures table { table_named result < 8 }
    ensures column { NamesColumn result }
    ensures short { IsShort result }
{
    let column = source.column(table);
    let by = if source.one_in(4) {
        source.value()
    } else {
        source.below(3)
    };
    let values = source.row(table);
    match source.below(6) {
        0 | 1 => Command::Del { table, key },
        2 => Command::Put { table, key, values },
        3 | 4 => Command::Add {
            table,
            key,
            column,
            by,
        },
        _ => Command::Sub {
            table,
            key,
            column,
            by,
        },
    }
}

/// A command that is fine where the row is not there.
fn adding(source: &mut Source, table: u32, key: u64) -> Command
    requires { table < 8 }
    ensures table { table_named result < 8 }
    ensures column { NamesColumn result }
    ensures short { IsShort result }
{
    let values = source.row(table);
    if source.one_in(2) {
        Command::Put { table, key, values }
    } else {
        Command::Ins { table, key, values }
    }
}

/// A command that is mostly fine over these tables.
fn drawn(source: &mut Source, tables: &Tables) -> Command
    ensures table { table_named result < 8 }
    ensures column { NamesColumn result }
    ensures short { IsShort result }
{
    let (table, key) = (source.table(), source.key());
    if source.one_in(3) {
        return reading(source, table, key);
    }
    let is_there = tables.get(table, key).is_some();
    if is_there != source.one_in(20) {
        changing(source, table, key)
    } else {
        adding(source, table, key)
    }
}

/// A block of one to eight commands.
fn block(alloc: Global, source: &mut Source, tables: &Tables) -> Result<Script, Fail> {
    let mut script = Script::new(alloc);
    let filled = push_all(&mut script, source, tables);
    script.if_filled(filled)
}

/// Appends one to eight commands.
fn push_all(script: &mut Script, source: &mut Source, tables: &Tables) -> Result<(), Fail> {
    for _ in 0..source.below(8) + 1 {
        script.push(drawn(source, tables))?;
    }
    Ok(())
}

/// Runs 250 blocks, and answers how many were done.
fn run_blocks(alloc: Global, source: &mut Source, beside: &mut Beside) -> Result<u32, Fail> {
    let mut done = 0u32;
    for _ in 0..250u32 {
        let script = block(alloc, source, &beside.tables)?;
        if beside.run(alloc, script)? {
            done = done.saturating_add(1);
        }
    }
    Ok(done)
}

/// Runs them and reads all tables back: many are done, many are refused, and there are many rows.
fn run_part(alloc: Global, source: &mut Source, beside: &mut Beside) -> Result<(), Fail> {
    let done = run_blocks(alloc, source, beside)?;
    let rows = beside.read_back(alloc)?;
    if done < 100 || done > 200 || rows < 300 {
        return Err("the blocks are too much alike".into());
    }
    Ok(())
}

/// Runs twelve parts.
fn run_parts(alloc: Global, beside: &mut Beside) -> Result<(), Fail> {
    let mut source = Source { state: 7 };
    for _ in 0..12u32 {
        run_part(alloc, &mut source, beside)?;
    }
    Ok(())
}

#[test]
fn generated_blocks_come_to_the_same(rt: HostRuntime) -> Result<(), Fail> {
    let mut beside = Beside::new(rt.alloc(), 12_000)?;
    let ran = run_parts(rt.alloc(), &mut beside);
    drop(beside);
    ran
}
