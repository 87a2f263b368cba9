//! The hand of a seat, and what the transaction in flight there has read and written.
ghost use Rattle.std.specs.Prelude.{◌≡◌, ◌+◌, ◌<◌, ◌≤◌, ◌↔◌, max, ℕ, [], length, IsSome, IsErr, IfOk, OnOk, OnErr};
ghost use Rattle.stamp_base.specs.Stamp.{stamp_of, clock_of, bound_of_clock};
ghost use Rattle.stamp_base.specs.Limits.{greatest_clock};
ghost use Rattle.word_layout.specs.Size.{IsSize};
ghost use Rattle.record_store.specs.Limits.{record_limit};
ghost use Rattle.record_store.specs.Meaning.{value_at};
ghost use Rattle.core_rule.specs.View.{resting, nothing_reserved};
ghost use Rattle.core_rule.specs.Snapshots.{AreAllWhole};
ghost use Rattle.core_rule.specs.Deciding.{written_values};
ghost use Rattle.core_rule.specs.Hands.{IsReady};
ghost use Rattle.core_rule.specs.Searching.{Ends};
ghost use Rattle.core_rule.specs.Stamps.{adopted};
ghost use Rattle.clock_stamps.specs.Clocks.{drawn_clock};
ghost use Rattle.seat_post.specs.FirstRead.{first_record};
ghost use Rattle.seat_post.specs.Logs.{IsAbove};
ghost use Rattle.word_layout.specs.Name.{published_write};
ghost use Rattle.core_rule.specs.Paths.{load};
ghost use Rattle.seat_post.specs.Observing.{with_load};
ghost use Rattle.seat_post.specs.Post.{PostView, shared_of, post_view, opened, drawn_at, with_clock, observing};

use crate::phase::Phase;
use crate::rewriting::Room;
use clock_stamps::{ClockOut, draw, hear, sync};
use core_rule::{Core, Hand, Keeps};
use plain_data::Cells;
use stamp_base::Stamp;
use std::alloc::Global;
use std::marker::Model;
use validate_core::Sets;

/// The hand of a seat, how far its transaction is, and what that has read and written.
///
/// The room is that of a promotion.
#[derive(Drop)]
pub struct Post<J> {
    pub(crate) hand: Hand<J>,
    pub(crate) phase: Phase,
    pub(crate) stamp: Stamp,
    pub(crate) sets: Sets,
    pub(crate) room: Room,
}

impl<J> Model for Post<J> {
    ghost use Rattle.seat_post.specs.Post.{PostView, post_of, IsPost};

    ghost Value = { PostView };

    ghost view = { λ p. post_of p.hand p.phase p.stamp p.sets };

    ghost invariant = { λ p. IsPost p.hand p.phase p.stamp p.sets };
}

impl<J> Post<J> {
    /// The post of a hand that has nothing in flight.
    pub fn new(alloc: Global, hand: Hand<J>, room: Room) -> Self
        requires ready { IsReady (shared_of hand) hand }
        requires holds_none { hand.view.places.held ≡ [] }
        requires none_reserved { hand.view.counts.in_reserved ≡ nothing_reserved }
        requires ends { Ends hand.view.work }
        requires whole { hand.view.flight ≡ resting → AreAllWhole hand.view.work.reads }
        ensures { result ≡ post_view hand Phase.Idle 0 [] [] [] }
    {
        hand.number();
        Post {
            hand,
            phase: Phase::Idle,
            stamp: Stamp::make(0, 0),
            sets: Sets::new(alloc),
            room,
        }
    }

    /// How far the transaction is.
    pub fn phase(&self) -> Phase
        ensures { result ≡ self.now.phase }
    {
        self.phase
    }

    /// The number of the seat.
    pub fn number(&self) -> u32
        ensures value { result ≡ self.now.seat }
        ensures within { result < self.now.shared.size.seats }
        ensures size { IsSize self.now.shared.size }
    {
        self.hand.number()
    }

    /// The clock of the seat.
    pub fn clock(&self) -> u64
        ensures value { result ≡ self.now.clock }
        ensures within { result ≤ greatest_clock }
    {
        self.hand.clock()
    }

    /// The stamp of the transaction.
    pub fn stamp(&self) -> Stamp
        ensures { result ≡ self.now.stamp }
    {
        self.stamp
    }

    /// The number of the record that was read first.
    pub fn first_read(&self) -> Option<u32>
        ensures { result ≡ first_record self.now.reads }
    {
        if self.sets.count_reads() == 0 {
            return None;
        }
        Some(self.sets.read_at(0).rid())
    }

    /// What is written.
    pub fn sets(&self) -> &Sets
        ensures value { written_values result.now.writes ≡ self.now.writes }
        ensures within { (rid : ℕ) → IsSome (value_at self.now.writes rid) → rid < self.now.shared.size.records }
        ensures count { length result.now.writes ≡ length self.now.writes }
        ensures few { length self.now.writes ≤ record_limit }
    {
        &self.sets
    }
}

impl<J: Keeps> Post<J> {
    /// Draws the stamp of a transaction.
    pub fn open(&mut self, core: &Core<J>, reading: u64) -> Result<Stamp, ClockOut>
        requires core { self.old.shared ≡ core.now }
        requires idle { self.old.phase ≡ Phase.Idle }
        requires commits { IsAbove self.old.log (bound_of_clock self.old.clock) }
        ensures ok { OnOk result (self.new ≡ opened self.old (drawn_clock self.old.clock reading)) }
        ensures stamp { IfOk result (λ stamp. stamp ≡ stamp_of (drawn_clock self.old.clock reading) self.old.seat) }
        ensures clock_out { IsErr result ↔ (drawn_clock self.old.clock reading ≡ greatest_clock + 1) }
        ensures err { OnErr result (self.new ≡ self.old) }
    {
        let stamp = draw(core, &mut self.hand, reading)?;
        // What is stored is the number of a stamp.
        stamp.number();
        self.phase = Phase::Open;
        self.stamp = stamp;
        Ok(stamp)
    }

    /// Draws a stamp that no transaction gets.
    pub fn tick(&mut self, core: &Core<J>, reading: u64) -> Result<Stamp, ClockOut>
        requires core { self.old.shared ≡ core.now }
        requires idle { self.old.phase ≡ Phase.Idle }
        ensures ok { OnOk result (self.new ≡ drawn_at self.old (drawn_clock self.old.clock reading)) }
        ensures stamp { IfOk result (λ stamp. stamp ≡ stamp_of (drawn_clock self.old.clock reading) self.old.seat) }
        ensures clock_out { IsErr result ↔ (drawn_clock self.old.clock reading ≡ greatest_clock + 1) }
        ensures err { OnErr result (self.new ≡ self.old) }
    {
        let stamp = draw(core, &mut self.hand, reading)?;
        Ok(stamp)
    }

    /// Adopts the clock of a stamp where that is greater.
    pub fn hear(&mut self, core: &Core<J>, stamp: Stamp)
        requires core { self.old.shared ≡ core.now }
        ensures value { self.new ≡ observing (with_clock self.old (max self.old.clock (clock_of stamp))) (with_load self.old.observed (load (published_write self.old.seat) self.old.published)) }
    {
        hear(core, &mut self.hand, stamp);
    }

    /// Loads another seat's published word, and adopts what it shows.
    pub fn sync(&mut self, core: &Core<J>, other: u32)
        requires core { self.old.shared ≡ core.now }
        requires seat { other < core.now.size.seats }
        ensures value { (word : ℕ) × (self.new ≡ observing (with_clock self.old (adopted self.old.clock word)) (with_load self.old.observed (load (published_write other) word))) }
    {
        sync(core, &mut self.hand, other);
    }
}
