//! What a connection does while nothing is open.

ghost use Rattle.std.specs.Prelude.{Ok};
ghost use Rattle.connections.specs.EachCall.{Collect, Hear, Tick};
ghost use Rattle.connections.specs.Handing.{ThenGives};
ghost use Rattle.number_queue.specs.Passes.{AreSameLimits};
ghost use Rattle.connections.specs.Resting.{Collects, Hears, Ticks};
ghost use Rattle.txn_engine.specs.Collecting.{CollectsPass};
ghost use Rattle.txn_engine.specs.Pass.{IsIdleOf};

use crate::connection::Connection;
use crate::fault::CallFault;
use crate::handing::{KEPT, give};
use crate::opened::Opened;
use number_queue::NumberPass;
use stamp_base::{Stamp, is_stamp};
use stored_tables::RowsLawful;
use txn_engine::{Collected, Engine, Pass, Seat};

impl Connection {
    /// Takes back versions that no reader can reach any more, as far as the other seats have come, and tells what became of them.
    pub fn collect(&mut self) -> Result<Collected, CallFault>
        ensures { Collect self.old self.new result }
    {
        if self.opened != Opened::Nothing {
            return Err(CallFault::Misused);
        }
        let Some(pass) = &mut self.pass else {
            unreachable!();
        };
        Ok(collect_and_give(pass, &self.engine, &mut self.numbers))
    }

    /// Hears a stamp, as a number: each later stamp of this connection is above it. `Range`: the number is that of no stamp.
    pub fn hear(&mut self, number: u64) -> Result<(), CallFault>
        ensures { Hear number self.old self.new result }
    {
        if self.opened != Opened::Nothing {
            return Err(CallFault::Misused);
        }
        if !is_stamp(number) {
            return Err(CallFault::Range);
        }
        let Some(pass) = &mut self.pass else {
            unreachable!();
        };
        hear_at(pass, &self.engine, Stamp::from_number(number));
        Ok(())
    }

    /// Draws a stamp that no transaction gets, with the next clock at this reading, and gives it as a number: the others of the engine
    /// do not wait for what is below it. `ClockOut`: no clock is left, and nothing has changed.
    pub fn tick(&mut self, reading: u64) -> Result<u64, CallFault>
        ensures { Tick reading self.old self.new result }
    {
        if self.opened != Opened::Nothing {
            return Err(CallFault::Misused);
        }
        let Some(pass) = &mut self.pass else {
            unreachable!();
        };
        tick_at(pass, &self.engine, reading)
    }
}

// Collects at a pass, and gives the numbers that it has too many of.
fn collect_and_give(
    pass: &mut Pass<RowsLawful>,
    engine: &Engine<RowsLawful>,
    numbers: &mut NumberPass,
) -> Collected
    requires pass { IsIdleOf engine.now pass.old }
    ensures collects { ThenGives (Collects (Ok result)) pass.old pass.new numbers.old numbers.new }
    ensures idle { IsIdleOf engine.now pass.new }
    ensures limits { AreSameLimits numbers.old numbers.new }
{
    let collected = collect_at(pass, engine);
    give(pass, numbers, KEPT);
    collected
}

// Collects at a pass.
fn collect_at(pass: &mut Pass<RowsLawful>, engine: &Engine<RowsLawful>) -> Collected
    requires pass { IsIdleOf engine.now pass.old }
    ensures collects { CollectsPass pass.old pass.new result }
    ensures idle { IsIdleOf engine.now pass.new }
{
    pass.collect(engine)
}

// Hears a stamp at a pass.
fn hear_at(pass: &mut Pass<RowsLawful>, engine: &Engine<RowsLawful>, stamp: Stamp)
    requires pass { IsIdleOf engine.now pass.old }
    ensures hears { Hears stamp (Ok tt) pass.old pass.new }
    ensures idle { IsIdleOf engine.now pass.new }
{
    pass.hear(engine, stamp);
}

// Draws a stamp at a pass.
fn tick_at(
    pass: &mut Pass<RowsLawful>,
    engine: &Engine<RowsLawful>,
    reading: u64,
) -> Result<u64, CallFault>
    requires pass { IsIdleOf engine.now pass.old }
    ensures ticks { Ticks reading result pass.old pass.new }
    ensures idle { IsIdleOf engine.now pass.new }
{
    match pass.tick(engine, reading) {
        Ok(stamp) => Ok(stamp.number()),
        Err(_) => Err(CallFault::ClockOut),
    }
}
