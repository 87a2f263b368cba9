//! A connection.

ghost use Rattle.std.specs.Prelude.{◌≡◌, length};
ghost use Rattle.connections.specs.Calls.{Tells, is_there};
ghost use Rattle.connections.specs.Connection.{IsConnection};

use crate::fault::CallFault;
use crate::opened::Opened;
use number_queue::NumberPass;
use std::marker::Model;
use std::sync::Arc;
use stored_tables::RowsLawful;
use txn_engine::{Engine, Pass, Retired};

/// A seat of an engine whose records are tables of rows, and what is open there.
///
/// No call asks anything of its caller: one that does not fit what is open answers `Misused`, and a number out of its range `Range`; nothing
/// has changed then. Whether it fits is tested first. A connection moves between threads; one that is let go without `close` holds the
/// others of its engine back.
#[derive(Drop)]
pub struct Connection {
    pub(crate) engine: Arc<Engine<RowsLawful>>,
    /// The seat, until it is closed.
    pub(crate) pass: Option<Pass<RowsLawful>>,
    /// What it leaves, from then on.
    pub(crate) retired: Option<Retired<RowsLawful>>,
    pub(crate) opened: Opened,
    /// What it hands record numbers round with.
    pub(crate) numbers: NumberPass,
}

impl Model for Connection {
    ghost use Rattle.std.specs.Arc.{arc_value};
    ghost use Rattle.connections.specs.Connection.{ConnectionView, IsConnection};

    ghost Value = { ConnectionView };

    ghost view = { λ c. record { engine = arc_value c.engine; numbers = c.numbers; opened = c.opened; pass = c.pass; retired = c.retired } };

    ghost invariant = { λ c. IsConnection (record { engine = arc_value c.engine; numbers = c.numbers; opened = c.opened; pass = c.pass; retired = c.retired }) };
}

impl Connection {
    /// What is open.
    pub fn opened(&self) -> Opened
        ensures value { result ≡ self.now.opened }
        ensures kept { IsConnection self.now }
    {
        self.opened
    }

    /// How many of its transactions committed.
    pub fn commits(&self) -> Result<u64, CallFault>
        ensures { Tells (is_there self.now.opened) (λ p. p.commits) self.now result }
    {
        match &self.pass {
            Some(pass) => Ok(pass.commits()),
            None => Err(CallFault::Misused),
        }
    }

    /// How many of its transactions were refused: by a conflict, or since no place or no record was left.
    pub fn refusals(&self) -> Result<u64, CallFault>
        ensures { Tells (is_there self.now.opened) (λ p. p.refusals) self.now result }
    {
        match &self.pass {
            Some(pass) => Ok(pass.refusals()),
            None => Err(CallFault::Misused),
        }
    }

    /// How many numbers of records it has for new rows. Those of other connections, and those that lie between them for
    /// whoever needs some, are not among them.
    pub fn spare_records(&self) -> Result<u32, CallFault>
        ensures { Tells (is_there self.now.opened) (λ p. length p.spare) self.now result }
    {
        match &self.pass {
            Some(pass) => Ok(pass.spare()),
            None => Err(CallFault::Misused),
        }
    }

    /// How many versions that it has committed are queued: `collect` is still to take back what is older than these.
    pub fn queued(&self) -> Result<usize, CallFault>
        ensures { Tells (is_there self.now.opened) (λ p. length p.queue) self.now result }
    {
        match &self.pass {
            Some(pass) => Ok(pass.queued()),
            None => Err(CallFault::Misused),
        }
    }
}
