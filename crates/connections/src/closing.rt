//! The end of a connection.

ghost use Rattle.std.specs.Prelude.{◌≡◌};
ghost use Rattle.connections.specs.Closing.{Closes, EndsOpened, TellsLawful};
ghost use Rattle.connections.specs.Connection.{IsAt};
ghost use Rattle.txn_engine.specs.Joining.{IsLast};
ghost use Rattle.txn_engine.specs.Pass.{IsIdleOf};

use crate::connection::Connection;
use crate::handing::give_all;
use crate::opened::Opened;
use crate::snapshots::finish_at;
use crate::transactions::abort_at;
use stored_tables::RowsLawful;
use txn_engine::{Engine, Pass, Seat};

impl Connection {
    /// Ends whatever is open, without a trace of a transaction, and the seat: the others of the engine do not wait for it any more, and
    /// may take its numbers of records. Each later call answers `Misused`; to close it again changes nothing. Where the seat has taken in all
    /// others, as that of an engine of one seat has, its log is one lawful history: as if one transaction had run after another.
    pub fn close(&mut self)
        ensures { Closes self.old self.new }
    {
        let Some(mut pass) = self.pass.take() else {
            return;
        };
        end_at(&mut pass, &self.engine, self.opened);
        tell_at(&mut pass, &self.engine);
        give_all(&mut pass, &mut self.numbers);
        self.retired = Some(pass.retire(&self.engine));
        self.opened = Opened::Closed;
    }
}

// Ends what is open at the pass.
fn end_at(pass: &mut Pass<RowsLawful>, engine: &Engine<RowsLawful>, opened: Opened)
    requires pass { IsAt opened engine.now pass.old }
    ensures ends { EndsOpened opened pass.old pass.new }
    ensures idle { IsIdleOf engine.now pass.new }
    ensures still_last { IsLast pass.old → IsLast pass.new }
{
    match opened {
        Opened::Transaction => abort_at(pass, engine),
        Opened::Snapshot => {
            finish_at(pass, engine);
        }
        _ => {}
    }
}

// Loads `min_wts`, at which the engine tells that the log is lawful where no other seat is open.
fn tell_at(pass: &mut Pass<RowsLawful>, engine: &Engine<RowsLawful>)
    requires pass { IsIdleOf engine.now pass.old }
    ensures tells { TellsLawful pass.old pass.new }
    ensures idle { IsIdleOf engine.now pass.new }
{
    pass.tell_alone();
    pass.tell(engine);
}
