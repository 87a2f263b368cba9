//! Drawing, publishing and adopting clocks.
ghost use Rattle.std.specs.Prelude.{◌≡◌, ◌+◌, ◌<◌, ◌≤◌, ◌↔◌, ℕ, [], max, IsErr, IfOk, OnOk, OnErr};
ghost use Rattle.stamp_base.specs.Stamp.{stamp_of, seat_of, clock_of, bound_of_clock};
ghost use Rattle.core_rule.specs.Stamps.{adopted};
ghost use Rattle.core_rule.specs.Views.{AllOf};
ghost use Rattle.core_rule.specs.Hands.{IsReady, StaysReady};
ghost use Rattle.core_rule.specs.Searching.{Ends};
ghost use Rattle.clock_stamps.specs.Calls.{BecomesRetired};
ghost use Rattle.clock_stamps.specs.Clocks.{drawn_clock, drawn, rests, synchronised, heard, closed};
ghost use Rattle.stamp_base.specs.Limits.{greatest_adopted_clock, greatest_clock};

use core_rule::{Core, Hand, Keeps};
use stamp_base::{GREATEST_ADOPTED_CLOCK, GREATEST_CLOCK, SEATS, Stamp};
use std::error::Error;
use std::fmt;

/// The error of [`draw`]: the clock of a seat has come to its end.
#[derive(Clone, Copy, Debug, PartialEq, Eq, Hash)]
pub struct ClockOut;

impl fmt::Display for ClockOut {
    ghost use Rattle.std.specs.Prelude.{codes, Some};

    ghost output = { λ _. Some (codes "clock out") };

    fn fmt<W: fmt::Write>(&self, f: &mut fmt::Formatter<W>) -> fmt::Result {
        f.write_str("clock out")
    }
}

impl Error for ClockOut {}

fn next_clock(clock: u64, reading: u64) -> u64
    requires { clock ≤ greatest_clock }
    ensures { result ≡ drawn_clock clock reading }
{
    (clock + 1).max(reading.min(GREATEST_ADOPTED_CLOCK))
}

/// Draws the stamp of the next clock, and publishes it as the seat's write stamp. A reading, in any unit, moves the
/// clock on, but not beyond 2^55. What was in flight before has ended.
pub fn draw<J: Keeps>(core: &Core<J>, hand: &mut Hand<J>, reading: u64) -> Result<Stamp, ClockOut>
    requires ready { IsReady core.now hand.old }
    requires ends { Ends hand.old.view.work }
    ensures stamp { IfOk result (λ t. t ≡ stamp_of (drawn_clock hand.old.view.clock.clock reading) hand.old.view.number) }
    ensures seat { IfOk result (λ t. seat_of t ≡ hand.old.view.number) }
    ensures above_known { IfOk result (λ t. AllOf (λ known. known < t) hand.old.view.clock.known) }
    ensures above_published { IfOk result (λ t. hand.old.view.published.write < t) }
    ensures published { IfOk result (λ t. hand.new.view.published.write ≡ t) }
    ensures view { OnOk result (hand.new.view ≡ drawn hand.old.view (drawn_clock hand.old.view.clock.clock reading)) }
    ensures clock_out { IsErr result ↔ (drawn_clock hand.old.view.clock.clock reading ≡ greatest_clock + 1) }
    ensures unchanged { OnErr result (hand.new ≡ hand.old) }
    ensures ready { StaysReady core.now hand.old hand.new }
{
    let clock = next_clock(hand.clock(), reading);
    if clock > GREATEST_CLOCK {
        return Err(ClockOut);
    }
    Ok(core.publish_stamp(hand, clock))
}

/// Publishes a bound above every stamp of the seat's clock, whatever their seats, and below the seat's next stamp, where
/// it is greater than what is published. What was in flight has ended.
pub fn idle<J: Keeps>(core: &Core<J>, hand: &mut Hand<J>)
    requires ready { IsReady core.now hand.old }
    requires ends { Ends hand.old.view.work }
    ensures published { hand.new.view.published.write ≡ max hand.old.view.published.write (bound_of_clock hand.old.view.clock.clock) }
    ensures rises { hand.old.view.published.write < bound_of_clock hand.old.view.clock.clock → hand.new.view ≡ rests hand.old.view }
    ensures unchanged { bound_of_clock hand.old.view.clock.clock ≤ hand.old.view.published.write → hand.new ≡ hand.old }
    ensures ready { StaysReady core.now hand.old hand.new }
{
    if hand.published_write() < hand.clock() * 256 + u64::from(SEATS) {
        core.publish_idle(hand);
    }
}

/// Loads the published write word of a seat, and adopts its clock where that is greater, but not beyond 2^55. The word
/// of a seat that is not open is not adopted.
pub fn sync<J: Keeps>(core: &Core<J>, hand: &mut Hand<J>, other: u32)
    requires ready { IsReady core.now hand.old }
    requires seat { other < core.now.size.seats }
    ensures adopted { (word : ℕ) × (hand.new.view ≡ synchronised hand.old.view other word) }
    ensures capped { hand.new.view.clock.clock ≤ max hand.old.view.clock.clock greatest_adopted_clock }
    ensures not_back { hand.old.view.clock.clock ≤ hand.new.view.clock.clock }
    ensures ready { StaysReady core.now hand.old hand.new }
{
    core.adopt_clock(hand, other);
}

/// Hears a stamp: adopts its clock where that is greater, so that the next stamp is above it.
pub fn hear<J: Keeps>(core: &Core<J>, hand: &mut Hand<J>, stamp: Stamp)
    requires { IsReady core.now hand.old }
    ensures clock { hand.new.view.clock.clock ≡ max hand.old.view.clock.clock (clock_of stamp) }
    ensures view { hand.new.view ≡ heard hand.old.view stamp }
    ensures ready { StaysReady core.now hand.old hand.new }
{
    core.hear(hand, stamp);
}

/// Publishes END as write stamp and as read stamp. The hand makes no call after it, and can be joined.
pub fn retire<J: Keeps>(core: &Core<J>, hand: &mut Hand<J>)
    requires ready { IsReady core.now hand.old }
    requires holds_none { hand.old.view.places.held ≡ [] }
    requires ends { Ends hand.old.view.work }
    ensures view { hand.new.view ≡ closed hand.old.view }
    ensures retired { BecomesRetired core.now hand.old hand.new }
{
    core.retire_write(hand);
    core.retire_read(hand);
}
