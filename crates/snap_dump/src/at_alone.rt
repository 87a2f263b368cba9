//! Dumps that are left when the lanes have run, made by the seat that is alone.

ghost use Rattle.std.specs.Prelude.{◌≡◌, ◌-◌, ◌≤◌, OnOk, length};
ghost use Rattle.lane_runner.specs.Using.{MayUse};
ghost use Rattle.lane_runner.specs.Blocks.{AddsOthers};
ghost use Rattle.lane_runner.specs.Room.{HasRoom, clock_after};
ghost use Rattle.snap_dump.specs.Dumps.{DumpsMade, KeepsOthers, how_many};

use crate::at_seat::dump_at;
use crate::dump::Dump;
use replay_model::NoMemory;
use std::alloc::Global;
use stored_tables::RowsLawful;
use txn_engine::{Alone, Engine};

/// Makes the dumps that are left, each after a tick with the reading 0.
pub(crate) fn dump_rest(
    alloc: Global,
    engine: &Engine<RowsLawful>,
    alone: &mut Alone<RowsLawful>,
    due: u32,
    made: &mut Vec<Dump>,
) -> Result<(), NoMemory>
    requires pass { MayUse engine.now alone.old.pass }
    requires within { length made.old.items ≤ due }
    requires room { HasRoom alone.old.pass.clock (due - length made.old.items) }
    ensures others { OnOk result (AddsOthers alone.old.pass alone.new.pass) }
    ensures made { OnOk result (DumpsMade alone.old.pass alone.new.pass made.old.items made.new.items) }
    ensures all { OnOk result (length made.new.items ≡ due) }
    ensures keeps { OnOk result (KeepsOthers alone.old.pass alone.new.pass) }
    ensures beside { OnOk result (alone.new.beside ≡ alone.old.beside) }
    ensures clock { OnOk result (alone.new.pass.clock ≤ clock_after alone.old.pass.clock (how_many made.old.items made.new.items)) }
{
    let left = due - made.len() as u32;
    for _ in 0..left {
        let dump = dump_at(alloc, engine, alone, 0)?;
        made.push(dump)?;
    }
    Ok(())
}
