ghost use Rattle.std.specs.Prelude.{◌≡◌};
ghost use Rattle.outside_io.specs.Readings.{first_reading, after_reading};

use crate::Clock;
use std::marker::Model;

/// A clock that gives chosen readings, for tests. It is seen as the readings left, the last of which it keeps.
#[derive(Debug, Drop)]
pub struct ListClock {
    readings: Vec<u64>,
    given: usize,
}

impl Model for ListClock {
    ghost use Rattle.std.specs.Prelude.{ℕ, ◌≤◌, List, length, drop};

    ghost Value = { List ℕ };

    ghost view = { λ clock. drop clock.given clock.readings.items };

    ghost invariant = { λ clock. clock.given ≤ length clock.readings.items };
}

impl ListClock {
    /// A clock that gives these readings in turn, and then its last one; where there are none, it always gives 0.
    pub fn new(readings: Vec<u64>) -> ListClock
        ensures { result ≡ readings.items }
    {
        ListClock { readings, given: 0 }
    }
}

impl Clock for ListClock {
    ghost reads = { λ before reading after. (reading ≡ first_reading before) × (after ≡ after_reading before) };

    fn now(&mut self) -> u64 {
        let left = &self.readings[self.given..];
        let reading = left.first().copied().unwrap_or(0);
        if left.len() > 1 {
            self.given += 1;
        }
        reading
    }
}
