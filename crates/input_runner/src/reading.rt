//! The rows that a log leaves, read by the seat that is alone.

ghost use Rattle.std.specs.Prelude.{◌≡◌, ◌≤◌, Contains, IfOk};
ghost use Rattle.histories.specs.History.{Lawful};
ghost use Rattle.history_replay.specs.Results.{StandsForSome, LeaveTables};
ghost use Rattle.replay_model.specs.TableMap.{TableMap};
ghost use Rattle.stamp_base.specs.Limits.{greatest_clock};
ghost use Rattle.stored_tables.specs.Places.{fixed_records};
ghost use Rattle.txn_engine.specs.Pass.{IsIdleOf};
ghost use Rattle.typed_tables.specs.Listing.{AreRows};
ghost use Rattle.input_runner.specs.Reading.{AddsSnapshot, clock_read};
ghost use Rattle.lane_runner.specs.Rows.{stands};

use histories::lawful_has_states;
use lane_runner::untorn;
use replay_model::{NoMemory, Pairs};
use std::alloc::Global;
use stored_tables::{RowsLawful, fits_records, keeps_tables};
use txn_engine::{Alone, Engine, Seat};
use typed_tables::list_tables;

/// Reads the rows of the first tables, so many of them, as the log leaves them: by one snapshot behind all transactions. The log is
/// told to be lawful with it. Want of memory leaves the entry of the snapshot too.
pub fn read_tables(
    alloc: Global,
    engine: &Engine<RowsLawful>,
    alone: &mut Alone<RowsLawful>,
    count: u32,
) -> Result<Vec<Pairs>, NoMemory>
    requires pass { IsIdleOf engine.now alone.old.pass }
    requires count { count ≤ 8 }
    requires size { fixed_records ≤ engine.now.size.records }
    requires room { clock_read alone.old.pass ≤ greatest_clock }
    ensures rows { IfOk result (λ rows. (tables : TableMap) → LeaveTables stands (Contains alone.new.pass.log) tables → AreRows count tables rows.items) }
    ensures adds { AddsSnapshot alone.old.pass alone.new.pass }
    ensures lawful { Lawful (StandsForSome stands) alone.new.pass.shared.size.records alone.new.pass.log }
{
    keeps_tables();
    fits_records();
    lawful_has_states::<RowsLawful>();
    // The seat is alone.
    alone.shared();
    let Ok(_stamp) = alone.tick(engine, 0) else {
        unreachable!();
    };
    let mut snapshot = alone.snapshot(engine);
    let told = list_tables(alloc, &mut snapshot, count);
    snapshot.finish();
    alone.tell(engine);
    // A kept state agrees with what was read, so the tables are not torn.
    untorn(told)
}
