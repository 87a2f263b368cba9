//! Tables that fill, and are emptied again.

ghost use Rattle.std.specs.Prelude.{◌<◌};
ghost use Rattle.replay_model.specs.Input.{NamesColumn};
ghost use Rattle.replay_model.specs.Report.{table_named};
ghost use Rattle.stored_tables.specs.Answers.{IsShort};

use crate::beside::Beside;
use crate::script::Script;
use crate::shapes::index_of;
use replay_model::{Columns, Command};
use std::alloc::Global;
use std::test::Fail;

/// How a table fills.
#[derive(Clone, Copy)]
struct Filling {
    table: u32,
    /// How far keys are apart.
    step: u64,
    /// The number of blocks of 64 rows, less one. It has ones alone in binary, so an odd stride meets each row.
    last: u64,
    /// In which stride the rows are added, and in which they are taken out.
    adds: u64,
    drops: u64,
    /// How many blocks of rows the other tables have.
    others: u64,
    ghost known: { table < 8 },
}

/// What is done to each row.
#[derive(Clone, Copy)]
enum Change {
    Adds,
    Moves,
    Drops,
}

impl Filling {
    /// The change of the row that comes at this place.
    fn command(&self, change: Change, place: u64) -> Command
        ensures table { table_named result < 8 }
        ensures column { NamesColumn result }
        ensures short { IsShort result }
    {
        let number = match change {
            Change::Adds => self.number(self.adds, place),
            Change::Moves => place,
            Change::Drops => self.number(self.drops, place),
        };
        let table = self.table;
        let key = number.wrapping_mul(self.step);
        match change {
            Change::Adds => {
                let values = row_of(number);
                Command::Ins { table, key, values }
            }
            Change::Moves => {
                let column = index_of(table).max(1);
                let by = (place & 3) << 40;
                Command::Add {
                    table,
                    key,
                    column,
                    by,
                }
            }
            Change::Drops => Command::Del { table, key },
        }
    }

    /// The number of the row that comes at this place of a stride.
    fn number(&self, stride: u64, place: u64) -> u64 {
        place.wrapping_mul(stride) & (self.last << 6 | 63)
    }

    /// A block of 64 changes.
    fn block(&self, alloc: Global, change: Change, block: u64) -> Result<Script, Fail> {
        let mut script = Script::new(alloc);
        let filled = self.push_all(&mut script, change, block);
        script.if_filled(filled)
    }

    /// Appends the changes of a block.
    fn push_all(&self, script: &mut Script, change: Change, block: u64) -> Result<(), Fail> {
        for i in 0..64u64 {
            script.push(self.command(change, block << 6 | i))?;
        }
        Ok(())
    }

    /// Changes the rows of these blocks.
    fn change(
        &self,
        alloc: Global,
        beside: &mut Beside,
        change: Change,
        blocks: (u64, u64),
    ) -> Result<(), Fail> {
        for i in blocks.0..blocks.1 {
            let script = self.block(alloc, change, i)?;
            if !beside.run(alloc, script)? {
                return Err("a block was refused".into());
            }
        }
        Ok(())
    }
}

/// A row whose columns order the rows otherwise than their keys.
fn row_of(number: u64) -> Columns {
    let column = |factor: u64| number.wrapping_mul(factor) & 0xfff;
    Columns::new([
        column(3),
        column(5),
        column(7),
        column(9),
        column(11),
        column(13),
    ])
}

/// Fills the table, moves its entries, takes half of the rows out and then the others; the first 64 rows are added again.
fn fill(alloc: Global, beside: &mut Beside, filling: &Filling) -> Result<(), Fail> {
    let blocks = filling.last.saturating_add(1);
    let half = blocks / 2;
    let steps = [
        (Change::Adds, 0, blocks, blocks),
        (Change::Moves, 0, blocks, blocks),
        (Change::Drops, 0, half, half),
        (Change::Drops, half, blocks, 0),
        (Change::Adds, 0, 1, 1),
    ];
    for (change, from, to, left) in steps {
        filling.change(alloc, beside, change, (from, to))?;
        let rows = beside.read_back(alloc)?;
        if rows as u64 != left.wrapping_add(filling.others).wrapping_mul(64) {
            return Err("the tables have another number of rows".into());
        }
    }
    Ok(())
}

/// Fills one table behind the other.
fn fill_all(alloc: Global, beside: &mut Beside, fillings: &[Filling]) -> Result<(), Fail> {
    for filling in fillings {
        fill(alloc, beside, filling)?;
    }
    Ok(())
}

#[test]
fn tables_fill_and_are_emptied(rt: HostRuntime) -> Result<(), Fail> {
    let fillings = [
        Filling {
            table: 0,
            step: 1,
            last: 7,
            adds: 1,
            drops: 1,
            others: 0,
        },
        Filling {
            table: 1,
            step: 511,
            last: 3,
            adds: 255,
            drops: 3,
            others: 1,
        },
        Filling {
            table: 2,
            step: 0x0040_0000_0000_0001,
            last: 15,
            adds: 77,
            drops: 1023,
            others: 2,
        },
        Filling {
            table: 7,
            step: 0x9e37_79b9_7f4a_7c15,
            last: 255,
            adds: 1,
            drops: 5,
            others: 3,
        },
    ];
    let mut beside = Beside::new(rt.alloc(), 102_416)?;
    let filled = fill_all(rt.alloc(), &mut beside, &fillings);
    drop(beside);
    filled
}
