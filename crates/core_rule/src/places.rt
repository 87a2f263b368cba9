//! Steps on the places for versions.
ghost use Rattle.std.specs.Prelude.{◌≡◌, ◌<◌, ◌↔◌, IsTrue};
ghost use Rattle.word_layout.specs.Size.{places};
ghost use Rattle.word_layout.specs.Name.{cell, word_of};
ghost use Rattle.core_rule.specs.Views.{Has};
ghost use Rattle.core_rule.specs.Hands.{IsReady, Takes, LooksAt, Steps};
ghost use Rattle.core_rule.specs.Holding.{filled_place, filled_cells, IsFilling};
ghost use Rattle.core_rule.specs.Kinds.{take, look_at, fill_stamp, fill_reset, fill_cell, meet_cell, give};
ghost use Rattle.word_layout.specs.Limits.{cells_of_value};

use crate::hand::Hand;
use crate::shared::Core;
use histories::Keeps;
use stamp_base::Stamp;
use std::marker::Brand;

/// The status of a free place, and of a held one.
const FREE: u64 = 0;

const HELD: u64 = 1;

impl<J: Keeps> Core<J> {
    /// Takes a place if it is free.
    pub fn take(&self, hand: &mut Hand<J>, place: u32) -> bool
        requires ready { IsReady self.now hand.old }
        requires place { place < places self.now.size }
        ensures { Takes J.kept place hand.old result hand.new }
    {
        let word = self.layout.status(place);
        let found = self.compare_exchange::<Brand, _>(&mut hand.seat, word, FREE, HELD, &place);
        let taken = found == FREE;
        if taken && place >= self.layout.records() && place + 1 < self.layout.places() {
            hand.last_pool = Some(place);
        }
        taken
    }

    /// Looks at a place, and answers whether it is free. Where it is not, that counts as an exchange that was lost.
    pub fn look_at(&self, hand: &mut Hand<J>, place: u32) -> bool
        requires ready { IsReady self.now hand.old }
        requires place { place < places self.now.size }
        ensures { LooksAt J.kept place hand.old result hand.new }
    {
        let word = self.layout.status(place);
        let found = self.load::<Brand, _>(&mut hand.seat, word, &place);
        found == FREE
    }

    /// Stores the write stamp of a version in a held place. What was filled there before counts no more.
    pub fn fill_stamp(&self, hand: &mut Hand<J>, place: u32, stamp: Stamp)
        requires ready { IsReady self.now hand.old }
        requires holds { Has place hand.old.view.places.held }
        ensures { Steps J.kept (fill_stamp place stamp) hand.old stamp hand.new }
    {
        let seat = &mut hand.seat;
        let word = self.layout.wts(place);
        self.store::<Brand, _>(seat, word, stamp.number(), &place);
    }

    /// Stores 0 as read stamp, in the place that is being filled.
    pub fn fill_reset(&self, hand: &mut Hand<J>, place: u32)
        requires ready { IsReady self.now hand.old }
        requires in_work { IsFilling hand.old.view.places.fills }
        requires place { place ≡ filled_place hand.old.view.places.fills }
        requires holds { Has place hand.old.view.places.held }
        ensures { Steps J.kept fill_reset hand.old 0 hand.new }
    {
        let seat = &mut hand.seat;
        let word = self.layout.rts(place);
        self.store::<Brand, _>(seat, word, 0, &());
    }

    /// The word of the first cell of a held place. Its other cells stand in the words behind that one.
    pub fn first_cell(&self, hand: &Hand<J>, place: u32) -> u32
        requires ready { IsReady self.now hand.now }
        requires holds { Has place hand.now.view.places.held }
        ensures { result ≡ word_of self.now.size (cell place 0) }
    {
        let _number = hand.number;
        self.layout.cell(place, 0)
    }

    /// Stores the next cell of the value, in the place that is being filled, whose first cell stands in the word `first`.
    pub fn fill_cell(&self, hand: &mut Hand<J>, first: u32, index: u32, value: u64)
        requires ready { IsReady self.now hand.old }
        requires in_work { IsFilling hand.old.view.places.fills }
        requires first { first ≡ word_of self.now.size (cell (filled_place hand.old.view.places.fills) 0) }
        requires holds { Has (filled_place hand.old.view.places.fills) hand.old.view.places.held }
        requires index { index ≡ filled_cells hand.old.view.places.fills }
        requires room { index < cells_of_value }
        ensures { Steps J.kept (fill_cell value) hand.old value hand.new }
    {
        let seat = &mut hand.seat;
        let word = first + index;
        self.store::<Brand, _>(seat, word, value, &());
    }

    /// Loads that cell. Where it shows this value already, it counts as stored.
    pub fn meet_cell(&self, hand: &mut Hand<J>, first: u32, index: u32, value: u64) -> u64
        requires ready { IsReady self.now hand.old }
        requires in_work { IsFilling hand.old.view.places.fills }
        requires first { first ≡ word_of self.now.size (cell (filled_place hand.old.view.places.fills) 0) }
        requires holds { Has (filled_place hand.old.view.places.fills) hand.old.view.places.held }
        requires index { index ≡ filled_cells hand.old.view.places.fills }
        requires room { index < cells_of_value }
        ensures { Steps J.kept (meet_cell value) hand.old result hand.new }
    {
        let seat = &mut hand.seat;
        let word = first + index;
        self.load::<Brand, _>(seat, word, &value)
    }

    /// Gives a held place back.
    pub fn give(&self, hand: &mut Hand<J>, place: u32)
        requires ready { IsReady self.now hand.old }
        requires holds { Has place hand.old.view.places.held }
        ensures { Steps J.kept (give place) hand.old 0 hand.new }
    {
        let seat = &mut hand.seat;
        let word = self.layout.status(place);
        self.store::<Brand, _>(seat, word, FREE, &place);
    }
}
