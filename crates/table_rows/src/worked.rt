//! Worked rows: one block, and indexes that are declared.

ghost use Rattle.std.specs.Prelude.{◌<◌};
ghost use Rattle.replay_model.specs.Input.{NamesColumn};
ghost use Rattle.replay_model.specs.Report.{table_named};
ghost use Rattle.stored_tables.specs.Answers.{IsShort};

use crate::script::Script;
use crate::store::Store;
use replay_model::{Answer, Answers, Cause, Columns, Command, NoMemory, Outcome, Pairs};
use std::alloc::Global;
use std::test::Fail;

/// A call on table 0, and what is due of it.
#[derive(Clone, Copy)]
enum Call {
    /// Adds a row at key 1 with 5 and this number, and reads its first column.
    Adds(u64),
    /// Takes that row out.
    Drops,
    /// A search by the second column is refused, since there is no index; so the store is emptied.
    IsUnindexed,
    /// It finds nothing, or that row with this number.
    Finds(Option<u64>),
    /// An index is declared on a column, or not.
    Declares(u32, bool),
}

use Call::{Adds, Declares, Drops, Finds, IsUnindexed};

impl Call {
    /// The commands of the call.
    fn script(self, alloc: Global) -> Result<Script, Fail> {
        let mut script = Script::new(alloc);
        let filled = self.push_all(&mut script);
        script.if_filled(filled)
    }

    /// Appends the commands of the call.
    fn push_all(self, script: &mut Script) -> Result<(), Fail> {
        let (table, key) = (0, 1);
        match self {
            Adds(second) => {
                let values = row(second);
                script.push(Command::Ins { table, key, values })?;
                let column = 1;
                script.push(Command::Get { table, key, column })
            }
            Drops => script.push(Command::Del { table, key }),
            _ => script.push(searching()),
        }
    }

    /// The outcome that is due.
    fn due(self, alloc: Global) -> Result<Outcome, NoMemory> {
        if let IsUnindexed = self {
            return Ok(Outcome::Refused {
                command: 1,
                cause: Cause::Unindexed,
            });
        }
        let mut answers = Answers::new(alloc);
        match self.answer(alloc, &mut answers) {
            Ok(()) => Ok(Outcome::Done(answers)),
            Err(no_memory) => {
                drop(answers);
                Err(no_memory)
            }
        }
    }

    /// Appends the answers that are due where the commands are done.
    fn answer(self, alloc: Global, answers: &mut Answers) -> Result<(), NoMemory> {
        match self {
            Adds(_) => {
                answers.push(Answer::Nothing)?;
                answers.push(Answer::Value(5))
            }
            Finds(second) => answers.push(found(alloc, second)?),
            _ => answers.push(Answer::Nothing),
        }
    }
}

fn row(second: u64) -> Columns {
    Columns::new([5, second, 0, 0, 0, 0])
}

fn searching() -> Command
    ensures table { table_named result < 8 }
    ensures column { NamesColumn result }
    ensures short { IsShort result }
{
    Command::Find {
        table: 0,
        column: 2,
        lo: 0,
        hi: 9,
        limit: 5,
    }
}

/// A list of the row, if there is one.
fn found(alloc: Global, second: Option<u64>) -> Result<Answer, NoMemory> {
    let mut pairs = Pairs::new(alloc);
    if let Some(second) = second {
        pairs.push((1, row(second)))?;
    }
    Ok(Answer::Pairs(pairs))
}

/// Makes a call.
fn make(alloc: Global, store: &mut Store, call: Call) -> Result<(), Fail> {
    if let Declares(column, is_due) = call {
        if column < 1 || column > 6 || store.declare(alloc, 0, column)? != is_due {
            return Err("declaring an index answered another thing".into());
        }
        return Ok(());
    }
    let script = call.script(alloc)?;
    let ran = run(alloc, store, &script, call);
    drop(script);
    ran
}

/// Runs the commands of a call, which have to come to what is due.
fn run(alloc: Global, store: &mut Store, script: &Script, call: Call) -> Result<(), Fail> {
    let due = call.due(alloc)?;
    let ran = store.come_to(alloc, &script.block().commands, &due);
    drop(due);
    ran
}

/// Makes these calls one behind the other.
fn make_each(alloc: Global, store: &mut Store, calls: &[Call]) -> Result<(), Fail> {
    for call in calls {
        make(alloc, store, *call)?;
    }
    Ok(())
}

/// Makes these calls on a small store.
fn make_all(alloc: Global, calls: &[Call]) -> Result<(), Fail> {
    let mut store = Store::new(alloc, 4200);
    let made = make_each(alloc, &mut store, calls);
    drop(store);
    made
}

#[test]
fn a_row_is_added_and_read(rt: HostRuntime) -> Result<(), Fail> {
    make_all(rt.alloc(), &[Adds(0)])
}

#[test]
fn an_index_is_declared_once(rt: HostRuntime) -> Result<(), Fail> {
    let calls = [
        IsUnindexed,
        Declares(2, true),
        Declares(2, false),
        Declares(1, false),
        Finds(None),
        Adds(8),
        Finds(Some(8)),
    ];
    make_all(rt.alloc(), &calls)
}

#[test]
fn a_table_with_a_row_gets_no_index(rt: HostRuntime) -> Result<(), Fail> {
    let calls = [
        Adds(8),
        Declares(2, false),
        IsUnindexed,
        Adds(8),
        Drops,
        Declares(2, true),
        Finds(None),
        Adds(9),
        Finds(Some(9)),
    ];
    make_all(rt.alloc(), &calls)
}
