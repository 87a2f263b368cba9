//! Steps that take back the versions older than a committed one.
ghost use Rattle.std.specs.Prelude.{◌≡◌, ◌<◌, ◌≤◌, suc, None, Some};
ghost use Rattle.word_layout.specs.Size.{places};
ghost use Rattle.core_rule.specs.View.{locked, above_floor, seeks, passes, found, floored, cut_off, freeing, no_item, collects};
ghost use Rattle.core_rule.specs.Collecting.{HasEntry, record_in, version_in, number_in};
ghost use Rattle.core_rule.specs.Hands.{IsReady, Steps};
ghost use Rattle.core_rule.specs.Kinds.{take_lock, load_floor, seek_head, seek_stamp, seek_next, raise_floor, cut, unlock, drop, follow, free_place};

use crate::hand::Hand;
use crate::shared::Core;
use histories::Keeps;
use std::marker::Brand;

impl<J: Keeps> Core<J> {
    /// Takes the lock of a record, to collect below the version of this stamp. Gives what the lock held: 0 where it was
    /// free, and otherwise the number of the other seat that holds it, plus 1.
    pub fn take_lock(&self, hand: &mut Hand<J>, rid: u32, stamp: u64) -> u64
        requires ready { IsReady self.now hand.old }
        requires record { rid < self.now.size.records }
        requires none { hand.old.view.work.item ≡ no_item }
        requires early { stamp ≤ hand.old.view.reached }
        requires entered { HasEntry rid stamp hand.old.view.log }
        ensures { Steps J.kept (take_lock rid stamp) hand.old result hand.new }
    {
        let word = self.layout.lock(rid);
        let number = u64::from(hand.number) + 1;
        self.compare_exchange::<Brand, _>(&mut hand.seat, word, 0, number, &(rid, stamp))
    }

    /// Loads the floor of a record under its lock.
    pub fn load_floor(&self, hand: &mut Hand<J>, rid: u32) -> u64
        requires ready { IsReady self.now hand.old }
        requires record { rid < self.now.size.records }
        requires at { hand.old.view.work.item ≡ collects rid (version_in hand.old.view.work.item) locked }
        ensures { Steps J.kept (load_floor rid (version_in hand.old.view.work.item)) hand.old result hand.new }
    {
        let word = self.layout.floor(rid);
        self.load::<Brand, _>(&mut hand.seat, word, &())
    }

    /// Begins the search for the version: loads the head of its record's list.
    pub fn seek_head(&self, hand: &mut Hand<J>, rid: u32) -> u64
        requires ready { IsReady self.now hand.old }
        requires record { rid < self.now.size.records }
        requires at { hand.old.view.work.item ≡ collects rid (version_in hand.old.view.work.item) above_floor }
        ensures { Steps J.kept (seek_head rid (version_in hand.old.view.work.item)) hand.old result hand.new }
    {
        let word = self.layout.head(rid);
        self.load::<Brand, _>(&mut hand.seat, word, &())
    }

    /// Loads the write stamp at the place where the search stands.
    pub fn seek_stamp(&self, hand: &mut Hand<J>, place: u32) -> u64
        requires ready { IsReady self.now hand.old }
        requires place { place < places self.now.size }
        requires at { hand.old.view.work.item ≡ collects (record_in hand.old.view.work.item) (version_in hand.old.view.work.item) (seeks place (number_in hand.old.view.work.item)) }
        ensures { Steps J.kept (seek_stamp (record_in hand.old.view.work.item) (version_in hand.old.view.work.item) place (number_in hand.old.view.work.item)) hand.old result hand.new }
    {
        let word = self.layout.wts(place);
        self.load::<Brand, _>(&mut hand.seat, word, &())
    }

    /// Goes on from a later version to the next older one.
    pub fn seek_next(&self, hand: &mut Hand<J>, place: u32) -> u64
        requires ready { IsReady self.now hand.old }
        requires place { place < places self.now.size }
        requires at { hand.old.view.work.item ≡ collects (record_in hand.old.view.work.item) (version_in hand.old.view.work.item) (passes place (number_in hand.old.view.work.item)) }
        ensures { Steps J.kept (seek_next (record_in hand.old.view.work.item) (version_in hand.old.view.work.item) place (number_in hand.old.view.work.item)) hand.old result hand.new }
    {
        let word = self.layout.next(place);
        self.load::<Brand, _>(&mut hand.seat, word, &())
    }

    /// Raises the floor of the record to the version that was found.
    pub fn raise_floor(&self, hand: &mut Hand<J>, rid: u32, stamp: u64, place: u32)
        requires ready { IsReady self.now hand.old }
        requires record { rid < self.now.size.records }
        requires at { hand.old.view.work.item ≡ collects rid stamp (found place) }
        ensures { Steps J.kept (raise_floor rid stamp place) hand.old stamp hand.new }
    {
        let word = self.layout.floor(rid);
        self.store::<Brand, _>(&mut hand.seat, word, stamp, &());
    }

    /// Cuts off what is older than the version, and gives the link to the first of it, 0 where there is nothing.
    pub fn cut(&self, hand: &mut Hand<J>, place: u32) -> u64
        requires ready { IsReady self.now hand.old }
        requires place { place < places self.now.size }
        requires at { hand.old.view.work.item ≡ collects (record_in hand.old.view.work.item) (version_in hand.old.view.work.item) (floored place) }
        ensures { Steps J.kept (cut (record_in hand.old.view.work.item) (version_in hand.old.view.work.item) place) hand.old result hand.new }
    {
        let word = self.layout.next(place);
        self.swap::<Brand>(&mut hand.seat, word, 0)
    }

    /// Unlocks the record after the cut.
    pub fn unlock(&self, hand: &mut Hand<J>, rid: u32)
        requires ready { IsReady self.now hand.old }
        requires record { rid < self.now.size.records }
        requires at { hand.old.view.work.item ≡ collects rid (version_in hand.old.view.work.item) (cut_off (number_in hand.old.view.work.item)) }
        ensures { Steps J.kept (unlock rid (version_in hand.old.view.work.item) (number_in hand.old.view.work.item)) hand.old 0 hand.new }
    {
        let word = self.layout.lock(rid);
        self.store::<Brand, _>(&mut hand.seat, word, 0, &());
    }

    /// Unlocks the record where the version is below its floor.
    pub fn drop_item(&self, hand: &mut Hand<J>, rid: u32)
        requires ready { IsReady self.now hand.old }
        requires record { rid < self.now.size.records }
        requires at { hand.old.view.work.item ≡ collects rid (version_in hand.old.view.work.item) locked }
        ensures { Steps J.kept (drop rid (version_in hand.old.view.work.item)) hand.old 0 hand.new }
    {
        let lock = self.layout.lock(rid);
        self.store::<Brand, _>(&mut hand.seat, lock, 0, &());
    }

    /// Loads the link of the first place that was cut off and is not yet freed.
    pub fn follow(&self, hand: &mut Hand<J>, place: u32) -> u64
        requires ready { IsReady self.now hand.old }
        requires place { place < places self.now.size }
        requires at { hand.old.view.work.item ≡ collects (record_in hand.old.view.work.item) (version_in hand.old.view.work.item) (freeing (suc place) None) }
        ensures { Steps J.kept (follow (record_in hand.old.view.work.item) (version_in hand.old.view.work.item) (suc place)) hand.old result hand.new }
    {
        let word = self.layout.next(place);
        self.load::<Brand, _>(&mut hand.seat, word, &())
    }

    /// Frees the place whose link was loaded.
    pub fn free_place(&self, hand: &mut Hand<J>, place: u32)
        requires ready { IsReady self.now hand.old }
        requires place { place < places self.now.size }
        requires at { hand.old.view.work.item ≡ collects (record_in hand.old.view.work.item) (version_in hand.old.view.work.item) (freeing (number_in hand.old.view.work.item) (Some place)) }
        ensures { Steps J.kept (free_place (record_in hand.old.view.work.item) (version_in hand.old.view.work.item) (number_in hand.old.view.work.item) place) hand.old 0 hand.new }
    {
        let status = self.layout.status(place);
        self.store::<Brand, _>(&mut hand.seat, status, 0, &());
    }
}
