//! Promoting a version: what is visible of a record is written again into its inline place.
ghost use Rattle.std.specs.Prelude.{◌≡◌, ◌<◌};
ghost use Rattle.txn_engine.specs.Pass.{IsIdle, next_clock, engine_of};
ghost use Rattle.txn_engine.specs.Promoting.{boost_after, Promotes};

use crate::engine::Engine;
use crate::pass::Pass;
use crate::transacting::BOOST;
use clock_stamps::ClockOut;
use core_rule::Keeps;
use engine_answers::{PromoteFault, Promotion};
use validate_core::Conflict;

impl<J: Keeps> Pass<J> {
    /// Writes what is visible of a record into its inline place, as a transaction of its own. `Inline` comes exactly where the
    /// visible version stands there and is present, `Absent` exactly where it is deleted, and else `Occupied` exactly where the
    /// exchange on that place found it not free. It takes no memory, and puts nothing into the queue.
    pub fn promote(
        &mut self,
        engine: &Engine<J>,
        rid: u32,
        reading: u64,
    ) -> Result<Promotion, PromoteFault>
        requires engine { engine_of self.old ≡ engine.now }
        requires idle { IsIdle self.old }
        requires rid { rid < self.old.shared.size.records }
        ensures promotes { Promotes J.kept rid (next_clock self.old reading) self.old self.new result }
    {
        // The seat is in its range.
        self.post.number();
        let told = self
            .post
            .promote(&engine.core, rid, reading.saturating_add(self.boost));
        self.boost = next_boost(&told, self.boost);
        told
    }
}

// The boost of the clock after an answer.
fn next_boost(told: &Result<Promotion, PromoteFault>, boost: u64) -> u64
    ensures { result ≡ boost_after told.now boost }
{
    match told {
        Ok(Promotion::Promoted(_)) => 0,
        Err(PromoteFault::Conflict(_)) => BOOST,
        Ok(_) | Err(PromoteFault::ClockOut) => boost,
    }
}
