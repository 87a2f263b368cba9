//! A dump that is made at a seat.

ghost use Rattle.std.specs.Prelude.{◌≡◌, ◌≤◌, IfOk, OnErr};
ghost use Rattle.lane_runner.specs.Using.{MayUse};
ghost use Rattle.lane_runner.specs.Lanes.{AddsSome};
ghost use Rattle.lane_runner.specs.Room.{HasRoom, clock_after};
ghost use Rattle.snap_dump.specs.Dumps.{Dumps, KeepsOthers};

use crate::dump::{Dump, rows_of};
use lane_runner::untorn;
use replay_model::NoMemory;
use std::alloc::Global;
use stored_tables::{RowsLawful, fits_more, fits_records, keeps_tables};
use txn_engine::{Engine, Seat};
use typed_tables::list_tables;

/// Dumps the eight tables as they stand at the minimum of the published stamps, after a tick with this reading: at a pass, or at the seat
/// that is alone. Want of memory leaves an entry that is no block's.
pub fn dump_at<S: Seat<Kept = RowsLawful>>(
    alloc: Global,
    engine: &Engine<RowsLawful>,
    seat: &mut S,
    reading: u64,
) -> Result<Dump, NoMemory>
    requires pass { MayUse engine.now (S.pass seat.old) }
    requires room { HasRoom (S.pass seat.old).clock 1 }
    ensures dumps { IfOk result (Dumps (S.pass seat.old) (S.pass seat.new)) }
    ensures fault { OnErr result (AddsSome (S.pass seat.old) (S.pass seat.new)) }
    ensures keeps { KeepsOthers (S.pass seat.old) (S.pass seat.new) }
    ensures beside { S.beside seat.new ≡ S.beside seat.old }
    ensures clock { (S.pass seat.new).clock ≤ clock_after (S.pass seat.old).clock 1 }
{
    keeps_tables();
    fits_records();
    fits_more();
    // The fixed records are among all, whose number is in its range.
    engine.fixed();
    engine.records();
    let Ok(_) = seat.tick(engine, reading) else {
        unreachable!();
    };
    let mut snapshot = seat.snapshot(engine);
    let told = list_tables(alloc, &mut snapshot, 8);
    let stamp = snapshot.finish();
    // A kept state agrees with what was read, so the tables are not torn.
    let lists = untorn(told)?;
    let rows = rows_of(alloc, &lists)?;
    Ok(Dump { stamp, rows })
}
