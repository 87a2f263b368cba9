//! Taking back the versions that no reader can reach any more, at a post.
ghost use Rattle.std.specs.Prelude.{◌≡◌, ◌≤◌, []};
ghost use Rattle.stamp_base.specs.Stamp.{bound_of_clock};
ghost use Rattle.rapid_gc.specs.Bounds.{AreAsBefore, MakesSingle};
ghost use Rattle.rapid_gc.specs.Queues.{AllBelow};
ghost use Rattle.seat_post.specs.Collecting.{AreQueued, CollectsPost};
ghost use Rattle.seat_post.specs.Observing.{Grows};
ghost use Rattle.seat_post.specs.Post.{IsAlonePost, collected_at, observing, removing};

use crate::phase::Phase;
use crate::post::Post;
use core_rule::{Core, Keeps};
use rapid_gc::{Collected, Queue, collect};

impl<J: Keeps> Post<J> {
    /// Collects below the items of a queue, each of a commit entry of the log.
    pub fn collect(&mut self, core: &Core<J>, queue: &mut Queue) -> Collected
        requires core { self.old.shared ≡ core.now }
        requires idle { self.old.phase ≡ Phase.Idle }
        requires queued { AreQueued self.old.shared.size.records self.old.log queue.old.items }
        requires below { AllBelow (bound_of_clock self.old.clock) queue.old.items }
        ensures after { self.new ≡ removing (observing (collected_at self.old self.new.met self.new.bounds) self.new.observed) self.new.gone }
        ensures grows { Grows self.old.observed self.new.observed }
        ensures met { self.old.met ≤ self.new.met }
        ensures within { self.new.met ≤ self.new.published }
        ensures collects { CollectsPost self.old self.new queue.old.items queue.new.items result }
        ensures room { queue.old.room ≤ queue.new.room }
        ensures bounds { AreAsBefore queue.old.items self.old.bounds.counts self.new.bounds.counts }
        ensures tops { self.new.bounds.tops ≡ self.old.bounds.tops }
        // A post that is alone meets what it has published, keeps no item, and leaves one version where the newest is queued.
        ensures seen { IsAlonePost self.old → self.new.met ≡ self.new.published }
        ensures alone { IsAlonePost self.old → queue.new.items ≡ [] }
        ensures single { IsAlonePost self.old → MakesSingle queue.old.items self.old.bounds.tops self.new.bounds.counts }
    {
        collect(core, &mut self.hand, queue)
    }
}
