//! Sharing a seat at its post: it is announced, and makes the posts of the other seats.
ghost use Rattle.std.specs.Prelude.{◌≡◌, ◌<◌, ◌≤◌};
ghost use Rattle.core_rule.specs.Offers.{MayOffer, made_of};
ghost use Rattle.word_layout.specs.Name.{published_write, min_write};
ghost use Rattle.word_layout.specs.Size.{IsUsable};
ghost use Rattle.seat_post.specs.Observing.{RaisesTo};
ghost use Rattle.seat_post.specs.Seats.{IsAloneAt};
ghost use Rattle.seat_post.specs.Sharing.{announced_at, one_more, made_next, Visits};

use crate::phase::Phase;
use crate::post::Post;
use crate::rewriting::Room;
use clock_stamps::{idle, raise_min_write};
use core_rule::{Core, Keeps};
use std::alloc::Global;
use version_pool::visit;

impl<J: Keeps> Post<J> {
    /// Publishes the bound of its clock, and raises `min_wts` to it, which no other seat holds back.
    pub fn announce(&mut self, core: &Core<J>)
        requires core { self.old.shared ≡ core.now }
        requires idle { self.old.phase ≡ Phase.Idle }
        requires alone { IsAloneAt self.old.shared.size self.old.seat self.old.others }
        ensures value { self.new ≡ record (announced_at self.old) { placed = self.new.placed; snapshot = self.new.snapshot; observed = self.new.observed } }
        ensures raised { RaisesTo published_write min_write self.old.shared.size.seats self.old.seat self.new.published self.new.met self.old.observed self.new.observed }
        ensures not_back { self.old.met ≤ self.new.met }
    {
        idle(core, &mut self.hand);
        raise_min_write(core, &mut self.hand);
    }

    /// Makes the next seat.
    pub fn split(&mut self, alloc: Global, core: &Core<J>, room: Room) -> Post<J>
        requires core { self.old.shared ≡ core.now }
        requires idle { self.old.phase ≡ Phase.Idle }
        requires makes { MayOffer self.old.others.splitting }
        requires room { made_of self.old.others.splitting < core.now.size.seats }
        ensures after { self.new ≡ record (one_more self.old) { snapshot = self.new.snapshot } }
        ensures made { result ≡ record (made_next self.old) { snapshot = result.snapshot } }
    {
        let hand = core.split(&mut self.hand);
        Post::new(alloc, hand, room)
    }

    /// Takes this usable place of the pool if it is free, and gives it back: its next search for a place begins behind it.
    pub fn visit(&mut self, core: &Core<J>, place: u32)
        requires core { self.old.shared ≡ core.now }
        requires idle { self.old.phase ≡ Phase.Idle }
        requires usable { IsUsable core.now.size place }
        ensures { Visits place self.old self.new }
    {
        visit(core, &mut self.hand, place);
    }
}
