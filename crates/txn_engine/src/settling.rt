//! Settling: a seat brings each record's list to one version, while no other is open.
ghost use Rattle.std.specs.Prelude.{◌≡◌};
ghost use Rattle.txn_engine.specs.Alone.{with_pass};
ghost use Rattle.txn_engine.specs.Pass.{IsIdle, IsAlone, engine_of};
ghost use Rattle.txn_engine.specs.Settling.{SettlesPass};

use crate::alone::Alone;
use crate::engine::Engine;
use crate::pass::Pass;
use clock_stamps::ClockOut;
use core_rule::Keeps;
use seat_post::Settled;

impl<J: Keeps> Pass<J> {
    /// Brings the list of each record to one version, by rising number. Where the first version of a list is committed or deleted,
    /// the rest is cut off; else the value that is visible is written again, at a stamp of the next clock, and the rest is cut off.
    /// Each such writing adds one entry to the log. After `Ok` each record has one linked version. No memory is asked for.
    ///
    /// Where neither the record's inline place nor a usable one is free, the writing takes the reserved place, which is free between
    /// calls, and the record is at once written again into its inline place, which has been freed by then.
    ///
    /// `ClockOut` comes only where the clock has come to its end and a writing again is due for a record; the records before that
    /// are settled then.
    pub fn settle(&mut self, engine: &Engine<J>) -> Result<Settled, ClockOut>
        requires engine { engine_of self.old ≡ engine.now }
        requires idle { IsIdle self.old }
        requires alone { IsAlone self.old }
        ensures settles { SettlesPass J.kept self.old self.new result }
    {
        self.post.settle(&engine.core)
    }
}

impl<J: Keeps> Alone<J> {
    /// Brings the list of each record to one version, as its pass does.
    pub fn settle(&mut self, engine: &Engine<J>) -> Result<Settled, ClockOut>
        requires engine { engine_of self.old.pass ≡ engine.now }
        requires idle { IsIdle self.old.pass }
        ensures after { self.new ≡ with_pass self.old self.new.pass }
        ensures settles { SettlesPass J.kept self.old.pass self.new.pass result }
    {
        self.pass.settle(engine)
    }
}
