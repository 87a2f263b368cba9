ghost use Rattle.std.specs.Prelude.{◌≡◌};
ghost use Rattle.outside_io.specs.Readings.{ReadsIfAsked};

use crate::Clock;

/// A clock that is asked, or one that is left alone, in whose place 0 is read.
#[derive(Clone, Copy, Debug, Drop)]
pub struct Chosen<C> {
    /// The clock.
    pub clock: C,
    /// Whether it is asked.
    pub asked: bool,
}

impl<C: Clock> Clock for Chosen<C> {
    ghost reads = { λ before reading after. (after.asked ≡ before.asked)
        × ReadsIfAsked C.reads before.asked before.clock reading after.clock };

    fn now(&mut self) -> u64 {
        if self.asked { self.clock.now() } else { 0 }
    }
}
