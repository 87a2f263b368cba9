//! Steps that look at published words and at the minima, and that raise a minimum.
ghost use Rattle.std.specs.Prelude.{◌≡◌, ◌<◌};
ghost use Rattle.core_rule.specs.Stamps.{adopted};
ghost use Rattle.core_rule.specs.Hands.{IsHandOf, IsReady, Steps};
ghost use Rattle.core_rule.specs.Kinds.{adopt_clock, hear, scan_writes, scan_reads, load_min_write, load_min_read, raise_min_write, raise_min_read, scan_from};

use crate::hand::Hand;
use crate::shared::Core;
use histories::Keeps;
use stamp_base::{END, GREATEST_ADOPTED_CLOCK, Stamp};
use std::marker::Brand;

/// The clock of a seat after a look at what another has published.
fn adopted_clock(clock: u64, published: u64) -> u64
    ensures { result ≡ adopted clock published }
{
    if published == END {
        clock
    } else {
        clock.max((published / 256).min(GREATEST_ADOPTED_CLOCK))
    }
}

impl<J: Keeps> Core<J> {
    /// Loads the published write word of a seat, and advances the clock to it.
    pub fn adopt_clock(&self, hand: &mut Hand<J>, other: u32) -> u64
        requires ready { IsReady self.now hand.old }
        requires seat { other < self.now.size.seats }
        ensures { Steps J.kept (adopt_clock other) hand.old result hand.new }
    {
        let write_word = self.layout.published_write(other);
        let found = self.load::<Brand, _>(&mut hand.seat, write_word, &other);
        hand.clock = adopted_clock(hand.clock, found);
        found
    }

    /// Hears a stamp, at a load of the own published write word: the clock advances to that of the stamp.
    pub fn hear(&self, hand: &mut Hand<J>, stamp: Stamp) -> u64
        requires { IsReady self.now hand.old }
        ensures { Steps J.kept (hear stamp) hand.old result hand.new }
    {
        let write_word = self.layout.published_write(hand.number);
        let found = self.load::<Brand, _>(&mut hand.seat, write_word, &stamp);
        hand.clock = hand.clock.max(stamp.clock());
        found
    }

    /// Loads the published write word of the next seat, for `min_wts`. At seat 0 the raise begins anew.
    pub fn scan_writes(&self, hand: &mut Hand<J>, seat: u32) -> u64
        requires ready { IsReady self.now hand.old }
        requires next { (scan_from seat hand.old.view.raises.writes).next ≡ seat }
        requires seat { seat < self.now.size.seats }
        ensures { Steps J.kept (scan_writes seat) hand.old result hand.new }
    {
        let write_word = self.layout.published_write(seat);
        self.load::<Brand, _>(&mut hand.seat, write_word, &seat)
    }

    /// Loads the published read word of the next seat, for `min_rts`. At seat 0 the raise begins anew.
    pub fn scan_reads(&self, hand: &mut Hand<J>, seat: u32) -> u64
        requires ready { IsReady self.now hand.old }
        requires next { (scan_from seat hand.old.view.raises.reads).next ≡ seat }
        requires seat { seat < self.now.size.seats }
        ensures { Steps J.kept (scan_reads seat) hand.old result hand.new }
    {
        let read_word = self.layout.published_read(seat);
        self.load::<Brand, _>(&mut hand.seat, read_word, &seat)
    }

    /// Loads `min_wts`, for the own published read word.
    pub fn load_min_write(&self, hand: &mut Hand<J>) -> u64
        requires { IsReady self.now hand.old }
        ensures { Steps J.kept load_min_write hand.old result hand.new }
    {
        let min_write = self.layout.min_write();
        self.load::<Brand, _>(&mut hand.seat, min_write, &())
    }

    /// Loads `min_rts`, which is at most the own published read word. A retired seat may load it too. What a snapshot has read so
    /// far of one record is alike.
    pub fn load_min_read(&self, hand: &mut Hand<J>) -> u64
        requires { IsHandOf self.now hand.old }
        ensures { Steps J.kept load_min_read hand.old result hand.new }
    {
        let min_read = self.layout.min_read();
        self.load::<Brand, _>(&mut hand.seat, min_read, &())
    }

    /// Raises `min_wts` to the least of the words that were loaded for it, and gives what it was before.
    pub fn raise_min_write(&self, hand: &mut Hand<J>, least: u64) -> u64
        requires ready { IsReady self.now hand.old }
        requires whole { hand.old.view.raises.writes.next ≡ self.now.size.seats }
        requires least { least ≡ hand.old.view.raises.writes.least }
        ensures { Steps J.kept raise_min_write hand.old result hand.new }
    {
        let min_write = self.layout.min_write();
        self.fetch_max::<Brand, _>(&mut hand.seat, min_write, least, &())
    }

    /// Raises `min_rts` to the least of the words that were loaded for it, and gives what it was before.
    pub fn raise_min_read(&self, hand: &mut Hand<J>, least: u64) -> u64
        requires ready { IsReady self.now hand.old }
        requires whole { hand.old.view.raises.reads.next ≡ self.now.size.seats }
        requires least { least ≡ hand.old.view.raises.reads.least }
        ensures { Steps J.kept raise_min_read hand.old result hand.new }
    {
        let min_read = self.layout.min_read();
        self.fetch_max::<Brand, _>(&mut hand.seat, min_read, least, &())
    }
}
