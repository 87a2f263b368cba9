//! Transactions of a connection.

ghost use Rattle.std.specs.Prelude.{◌≡◌, OnOk, OnErr};
ghost use Rattle.connections.specs.Connection.{IsOpenOf};
ghost use Rattle.connections.specs.EachCall.{Abort, Begin, Commit};
ghost use Rattle.connections.specs.Handing.{ThenGives};
ghost use Rattle.number_queue.specs.Passes.{AreSameLimits};
ghost use Rattle.connections.specs.Transactions.{AbortsTxn, BeginsTxn, CommitsTxn};
ghost use Rattle.txn_engine.specs.Pass.{IsIdleOf};

use crate::connection::Connection;
use crate::fault::CallFault;
use crate::handing::{KEPT, give};
use crate::opened::Opened;
use number_queue::NumberPass;
use stored_tables::{RowsLawful, keeps_tables};
use txn_engine::{BeginFault, CommitFault, Engine, Pass, Seat, TxnOver};

impl Connection {
    /// Begins a transaction, with the next clock at this reading, in any unit, or at a later one where a number of a record waits for it.
    /// `ClockOut`: no clock is left. `NoMemory`: there was no room to note one more version. Nothing has changed then.
    pub fn begin(&mut self, reading: u64) -> Result<(), CallFault>
        ensures { Begin reading self.old self.new result }
    {
        if self.opened != Opened::Nothing {
            return Err(CallFault::Misused);
        }
        let Some(pass) = &mut self.pass else {
            unreachable!();
        };
        let reading = reading.max(self.numbers.reading());
        match begin_at(pass, &self.engine, reading) {
            Ok(()) => {
                self.opened = Opened::Transaction;
                Ok(())
            }
            Err(fault) => Err(fault),
        }
    }

    /// Commits the transaction, and gives its stamp as a number. Whatever else it answers than `Misused`, the transaction has ended: after
    /// `Conflict` and `PlacesOut` without a trace. Numbers of records that it has too many of go to the other connections.
    pub fn commit(&mut self) -> Result<u64, CallFault>
        ensures { Commit self.old self.new result }
    {
        if self.opened != Opened::Transaction {
            return Err(CallFault::Misused);
        }
        let Some(pass) = &mut self.pass else {
            unreachable!();
        };
        self.opened = Opened::Nothing;
        commit_and_give(pass, &self.engine, &mut self.numbers)
    }

    /// Ends the transaction without a trace; one that a fault has ended is given up.
    pub fn abort(&mut self) -> Result<(), CallFault>
        ensures { Abort self.old self.new result }
    {
        match self.opened {
            Opened::Transaction => {
                let Some(pass) = &mut self.pass else {
                    unreachable!();
                };
                abort_at(pass, &self.engine);
                give(pass, &mut self.numbers, KEPT);
                self.opened = Opened::Nothing;
                Ok(())
            }
            Opened::Spoiled => {
                let Some(pass) = &mut self.pass else {
                    unreachable!();
                };
                give(pass, &mut self.numbers, KEPT);
                self.opened = Opened::Nothing;
                Ok(())
            }
            _ => Err(CallFault::Misused),
        }
    }
}

// Begins a transaction, and leaves it open at the pass.
fn begin_at(
    pass: &mut Pass<RowsLawful>,
    engine: &Engine<RowsLawful>,
    reading: u64,
) -> Result<(), CallFault>
    requires pass { IsIdleOf engine.now pass.old }
    ensures begins { BeginsTxn reading result pass.old pass.new }
    ensures open_there { OnOk result (IsOpenOf engine.now pass.new) }
    ensures idle { OnErr result (IsIdleOf engine.now pass.new) }
{
    match pass.begin(engine, reading) {
        Ok(txn) => {
            txn.leave();
            Ok(())
        }
        Err(BeginFault::ClockOut) => Err(CallFault::ClockOut),
        Err(BeginFault::NoMemory) => Err(CallFault::NoMemory),
    }
}

// Commits the transaction that is open at the pass, and gives the numbers that it has too many of.
fn commit_and_give(
    pass: &mut Pass<RowsLawful>,
    engine: &Engine<RowsLawful>,
    numbers: &mut NumberPass,
) -> Result<u64, CallFault>
    requires pass { IsOpenOf engine.now pass.old }
    ensures commits { ThenGives (CommitsTxn result) pass.old pass.new numbers.old numbers.new }
    ensures idle { IsIdleOf engine.now pass.new }
    ensures limits { AreSameLimits numbers.old numbers.new }
{
    let answer = commit_at(pass, engine);
    give(pass, numbers, KEPT);
    answer
}

// Commits the transaction that is open at the pass.
fn commit_at(pass: &mut Pass<RowsLawful>, engine: &Engine<RowsLawful>) -> Result<u64, CallFault>
    requires pass { IsOpenOf engine.now pass.old }
    ensures commits { CommitsTxn result pass.old pass.new }
    ensures idle { IsIdleOf engine.now pass.new }
{
    keeps_tables();
    // The number of records is in its range.
    engine.records();
    match TxnOver::resume(pass, engine).commit() {
        Ok(committed) => Ok(committed.stamp.number()),
        Err(CommitFault::Conflict(conflict)) => Err(CallFault::Conflict(conflict)),
        Err(CommitFault::PlacesOut) => Err(CallFault::PlacesOut),
    }
}

// Ends the transaction that is open at the pass.
pub(crate) fn abort_at(pass: &mut Pass<RowsLawful>, engine: &Engine<RowsLawful>)
    requires pass { IsOpenOf engine.now pass.old }
    ensures aborts { AbortsTxn pass.old pass.new }
    ensures idle { IsIdleOf engine.now pass.new }
{
    TxnOver::resume(pass, engine).abort();
}
