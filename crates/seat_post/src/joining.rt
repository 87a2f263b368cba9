//! Retiring at a post, and taking in the hands of seats that have retired.
ghost use Rattle.std.specs.Prelude.{◌≡◌, ◌≤◌, []};
ghost use Rattle.stamp_base.specs.Limits.{end_of_stamps};
ghost use Rattle.core_rule.specs.Offers.{made_within};
ghost use Rattle.seat_post.specs.Snapshot.{first_snapshot};
ghost use Rattle.seat_post.specs.Joining.{IsDone, joined_at};
ghost use Rattle.seat_post.specs.Post.{shared_of, post_view};

use crate::phase::Phase;
use crate::post::Post;
use clock_stamps::retire;
use core_rule::{Core, Hand, Keeps};

impl<J: Keeps> Post<J> {
    /// Publishes that the seat is not open any more, and gives its hand.
    pub fn retire(self, core: &Core<J>) -> Hand<J>
        requires core { self.shared ≡ core.now }
        requires idle { self.phase ≡ Phase.Idle }
        ensures hand { post_view result Phase.Idle self.stamp self.reads self.versions self.writes ≡ record self { published = end_of_stamps; placed = []; snapshot = first_snapshot end_of_stamps } }
        ensures done { IsDone result }
    {
        let Post {
            mut hand,
            phase: _,
            stamp: _,
            sets: _,
            room: _,
        } = self;
        retire(core, &mut hand);
        hand
    }

    /// Takes in the hand of a seat that has retired.
    pub fn join(&mut self, core: &Core<J>, other: Hand<J>)
        requires core { self.old.shared ≡ core.now }
        requires idle { self.old.phase ≡ Phase.Idle }
        requires done { IsDone other }
        requires same { shared_of other ≡ core.now }
        ensures { self.new ≡ record (joined_at self.old other) { snapshot = self.new.snapshot } }
    {
        core.join(&mut self.hand, other);
    }

    /// Tells that no more seats were made than the table has.
    pub fn tell_made(&self)
        ensures { made_within self.now.shared.size.seats self.now.others.splitting ≤ self.now.shared.size.seats }
    {
        self.hand.tell_made();
    }
}
