ghost use Rattle.std.specs.Prelude.{◌≡◌};
ghost use Rattle.std.specs.Time.{instant_nanos};
ghost use Rattle.outside_io.specs.Readings.{nanos_between};

use crate::Clock;
use std::time::{self, Instant};

/// The machine's monotonic clock, read in nanoseconds since this clock was made. A count that 64 bits can't hold, after some 584
/// years, is read as `u64::MAX`. Where the machine's clock can't be read, now or when this one was made, the reading is 0.
#[derive(Clone, Copy, Drop)]
pub struct RealClock<R> {
    system: R,
    start: Option<Instant>,
}

impl<R: time::Clock> RealClock<R> {
    /// A clock that begins at 0 now, over the runtime's clock.
    pub fn new(system: R) -> RealClock<R> {
        let start = Instant::now(&system).ok();
        RealClock { system, start }
    }

    fn nanos(&self) -> Option<u64> {
        let now = Instant::now(&self.system).ok()?;
        Some(nanos_between(self.start?, now))
    }
}

impl<R: time::Clock + Send + Drop> Clock for RealClock<R> {
    fn now(&mut self) -> u64 {
        self.nanos().unwrap_or(0)
    }
}

/// The nanoseconds from one time to a later one.
fn nanos_between(start: Instant, now: Instant) -> u64
    ensures { result ≡ nanos_between (instant_nanos start) (instant_nanos now) }
{
    let nanos = now.duration_since(start).as_nanos();
    u64::try_from(nanos).unwrap_or(u64::MAX)
}
