//! Snapshots of a connection.

ghost use Rattle.std.specs.Prelude.{◌≡◌};
ghost use Rattle.connections.specs.Connection.{IsSeenOf, StandsForRows};
ghost use Rattle.connections.specs.EachCall.{Finish, Snapshot};
ghost use Rattle.txn_engine.specs.Pass.{IsIdleOf};
ghost use Rattle.txn_engine.specs.Snapshot.{Begins, Finishes};

use crate::connection::Connection;
use crate::fault::CallFault;
use crate::opened::Opened;
use stored_tables::RowsLawful;
use txn_engine::{Engine, Pass, Seat, SnapshotOver};

impl Connection {
    /// Begins a snapshot: rows as they stand at one stamp, below that of each transaction that commits from then on.
    pub fn snapshot(&mut self) -> Result<(), CallFault>
        ensures { Snapshot self.old self.new result }
    {
        if self.opened != Opened::Nothing {
            return Err(CallFault::Misused);
        }
        let Some(pass) = &mut self.pass else {
            unreachable!();
        };
        snapshot_at(pass, &self.engine);
        self.opened = Opened::Snapshot;
        Ok(())
    }

    /// Ends the snapshot, and gives the stamp at which it read.
    pub fn finish(&mut self) -> Result<u64, CallFault>
        ensures { Finish self.old self.new result }
    {
        if self.opened != Opened::Snapshot {
            return Err(CallFault::Misused);
        }
        let Some(pass) = &mut self.pass else {
            unreachable!();
        };
        self.opened = Opened::Nothing;
        Ok(finish_at(pass, &self.engine))
    }
}

// Begins a snapshot, and leaves it open at the pass.
fn snapshot_at(pass: &mut Pass<RowsLawful>, engine: &Engine<RowsLawful>)
    requires pass { IsIdleOf engine.now pass.old }
    ensures begins { Begins pass.old pass.new }
    ensures seen { IsSeenOf engine.now pass.new }
{
    pass.snapshot(engine).leave();
}

// Ends the snapshot that is open at the pass.
pub(crate) fn finish_at(pass: &mut Pass<RowsLawful>, engine: &Engine<RowsLawful>) -> u64
    requires pass { IsSeenOf engine.now pass.old }
    ensures finishes { Finishes StandsForRows pass.old pass.new result }
    ensures idle { IsIdleOf engine.now pass.new }
{
    SnapshotOver::resume(pass, engine).finish()
}
