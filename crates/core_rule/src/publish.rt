//! Steps on a seat's own published words.
ghost use Rattle.std.specs.Prelude.{◌≡◌, ◌+◌, ◌<◌, ◌≤◌, [], Some};
ghost use Rattle.stamp_base.specs.Stamp.{stamp_of, seat_of, bound_of_clock};
ghost use Rattle.core_rule.specs.Views.{AllOf};
ghost use Rattle.core_rule.specs.Hands.{IsHandOf, IsReady, Steps};
ghost use Rattle.core_rule.specs.Searching.{Ends};
ghost use Rattle.core_rule.specs.Kinds.{publish_stamp, publish_idle, retire_write, publish_bound, retire_read};
ghost use Rattle.stamp_base.specs.Limits.{end_of_stamps, greatest_clock};

use crate::hand::Hand;
use crate::shared::Core;
use histories::Keeps;
use stamp_base::{END, GREATEST_CLOCK, SEATS, Stamp};
use std::marker::Brand;

impl<J: Keeps> Core<J> {
    /// Draws the stamp of this clock and the hand's seat, and publishes it.
    pub fn publish_stamp(&self, hand: &mut Hand<J>, clock: u64) -> Stamp
        requires ready { IsReady self.now hand.old }
        requires later { hand.old.view.clock.clock < clock }
        requires in_range { clock ≤ greatest_clock }
        requires ends { Ends hand.old.view.work }
        ensures stamp { result ≡ stamp_of clock hand.old.view.number }
        ensures seat { seat_of result ≡ hand.old.view.number }
        ensures above { AllOf (λ known. known < result) hand.old.view.clock.known }
        ensures step { Steps J.kept (publish_stamp clock) hand.old result hand.new }
    {
        let stamp = Stamp::make(clock, hand.number);
        let write_word = self.layout.published_write(hand.number);
        self.store::<Brand, _>(&mut hand.seat, write_word, stamp.number(), &());
        hand.clock = clock;
        hand.published = stamp.number();
        stamp
    }

    /// Publishes the bound of a seat that has nothing in flight. What was in flight has ended.
    pub fn publish_idle(&self, hand: &mut Hand<J>) -> u64
        requires ready { IsReady self.now hand.old }
        requires rises { hand.old.view.published.write < bound_of_clock hand.old.view.clock.clock }
        requires ends { Ends hand.old.view.work }
        ensures bound { result ≡ bound_of_clock hand.old.view.clock.clock }
        ensures step { Steps J.kept publish_idle hand.old result hand.new }
    {
        let bound = hand.clock * 256 + u64::from(SEATS);
        let write_word = self.layout.published_write(hand.number);
        self.store::<Brand, _>(&mut hand.seat, write_word, bound, &());
        hand.published = bound;
        bound
    }

    /// Publishes END as write stamp.
    pub fn retire_write(&self, hand: &mut Hand<J>)
        requires hand_of { IsHandOf self.now hand.old }
        requires holds_none { hand.old.view.places.held ≡ [] }
        requires ends { Ends hand.old.view.work }
        ensures { Steps J.kept retire_write hand.old end_of_stamps hand.new }
    {
        let write_word = self.layout.published_write(hand.number);
        self.store::<Brand, _>(&mut hand.seat, write_word, END, &());
        hand.published = END;
    }

    /// Publishes one less than the `min_wts` that was loaded as read stamp, and gives it.
    pub fn publish_bound(&self, hand: &mut Hand<J>, loaded: u64) -> u64
        requires hand_of { IsHandOf self.now hand.old }
        requires loaded { hand.old.view.loaded_bound ≡ Some loaded }
        requires positive { 0 < loaded }
        requires ends { Ends hand.old.view.work }
        ensures bound { result + 1 ≡ loaded }
        ensures step { Steps J.kept publish_bound hand.old result hand.new }
    {
        let bound = loaded - 1;
        let read_word = self.layout.published_read(hand.number);
        self.store::<Brand, _>(&mut hand.seat, read_word, bound, &());
        hand.bound = bound;
        bound
    }

    /// Publishes END as read stamp.
    pub fn retire_read(&self, hand: &mut Hand<J>)
        requires hand_of { IsHandOf self.now hand.old }
        requires ends { Ends hand.old.view.work }
        ensures { Steps J.kept retire_read hand.old end_of_stamps hand.new }
    {
        let read_word = self.layout.published_read(hand.number);
        self.store::<Brand, _>(&mut hand.seat, read_word, END, &());
        hand.bound = END;
    }
}
