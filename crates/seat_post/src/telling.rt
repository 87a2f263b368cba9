//! Telling that the log of a post is a lawful history where it is alone.
ghost use Rattle.std.specs.Prelude.{◌≡◌, ◌≤◌};
ghost use Rattle.histories.specs.History.{Lawful};
ghost use Rattle.word_layout.specs.Name.{min_write};
ghost use Rattle.core_rule.specs.Paths.{load};
ghost use Rattle.seat_post.specs.Observing.{with_load};
ghost use Rattle.seat_post.specs.Seats.{IsAloneAt};

use crate::phase::Phase;
use crate::post::Post;
use core_rule::{Core, Keeps};

impl<J: Keeps> Post<J> {
    /// Loads `min_wts`.
    pub fn tell(&mut self, core: &Core<J>)
        requires core { self.old.shared ≡ core.now }
        requires idle { self.old.phase ≡ Phase.Idle }
        ensures value { self.new ≡ record self.old { met = self.new.met; observed = self.new.observed } }
        ensures load { self.new.observed ≡ with_load self.old.observed (load min_write self.new.met) }
        ensures not_back { self.old.met ≤ self.new.met }
        ensures lawful { IsAloneAt self.old.shared.size self.old.seat self.old.others → Lawful J.kept self.old.shared.size.records self.old.log }
    {
        core.load_min_write(&mut self.hand);
    }
}
