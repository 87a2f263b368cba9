//! Clocks, stamps and minima.
ghost use Rattle.std.specs.Prelude.{◌≡◌, ◌<◌, [], IfOk};
ghost use Rattle.core_rule.specs.Hands.{IsHandOf, IsReady, IsRetired};
ghost use Rattle.core_rule.specs.Searching.{Ends};

use crate::due::{hold, is_shown, same};
use crate::tables::{first_seat, two_seats};
use clock_stamps::{
    ClockOut, draw, hear, idle, publish_read, raise_min_read, raise_min_write, retire, sync,
};
use core_rule::{AnyState, Core, Hand};
use stamp_base::{GREATEST_CLOCK, Stamp};
use std::test::*;
use std::thread::{Threads, join};

// A call at a seat, and what is due of it.
#[derive(Clone, Copy)]
enum Step {
    // A reading, and the number of the stamp that is drawn; none where the clock is out.
    Draws(u64, Option<u64>),
    Hears(Stamp),
    // The clock of the first seat is looked at.
    Syncs,
    Idles,
    // What the minima are then, and the read stamp that is published.
    RaisesWrite(u64),
    RaisesRead(u64),
    PublishesRead(u64),
    // What the seat has.
    HasClock(u64),
    HasPublished(u64),
}

use Step::{
    Draws, HasClock, HasPublished, Hears, Idles, PublishesRead, RaisesRead, RaisesWrite, Syncs,
};

// Draws a stamp, and gives its number; none where the clock is out.
fn draw_number(core: &Core<AnyState>, hand: &mut Hand<AnyState>, reading: u64) -> Option<u64>
    requires ready { IsReady core.now hand.old }
    requires ends { Ends hand.old.view.work }
    ensures ready { IsReady core.now hand.new }
    ensures ends { Ends hand.new.view.work }
{
    match draw(core, hand, reading) {
        Ok(stamp) => Some(stamp.number()),
        Err(ClockOut) => None,
    }
}

// Publishes a bound where that rises. What `idle` says of the hand goes by cases, so what the next call asks for is said here.
fn idles(core: &Core<AnyState>, hand: &mut Hand<AnyState>)
    requires ready { IsReady core.now hand.old }
    requires ends { Ends hand.old.view.work }
    ensures ready { IsReady core.now hand.new }
    ensures ends { Ends hand.new.view.work }
{
    idle(core, hand);
}

// Whether a call answers what is due.
fn holds(core: &Core<AnyState>, hand: &mut Hand<AnyState>, step: &Step) -> bool
    requires ready { IsReady core.now hand.old }
    requires ends { Ends hand.old.view.work }
    requires seats { 0 < core.now.size.seats }
    ensures ready { IsReady core.now hand.new }
    ensures ends { Ends hand.new.view.work }
{
    match *step {
        Draws(reading, due) => draw_number(core, hand, reading) == due,
        Hears(stamp) => {
            hear(core, hand, stamp);
            true
        }
        Syncs => {
            sync(core, hand, 0);
            true
        }
        Idles => {
            idles(core, hand);
            true
        }
        RaisesWrite(due) => raise_min_write(core, hand) == due,
        RaisesRead(due) => raise_min_read(core, hand) == due,
        PublishesRead(due) => publish_read(core, hand) == due,
        HasClock(due) => hand.clock() == due,
        HasPublished(due) => hand.published_write() == due,
    }
}

// Whether calls at a seat answer what is due, each in its turn.
fn all_hold(core: &Core<AnyState>, hand: &mut Hand<AnyState>, steps: &[Step]) -> bool
    requires ready { IsReady core.now hand.old }
    requires ends { Ends hand.old.view.work }
    requires seats { 0 < core.now.size.seats }
    ensures ready { IsReady core.now hand.new }
    ensures ends { Ends hand.new.view.work }
{
    let mut all = true;
    for step in steps {
        all = holds(core, hand, step) && all;
    }
    all
}

#[test]
fn two_seats_raise_the_minima(rt: HostRuntime) -> Result<(), Fail> {
    let (core, mut first, mut second) = two_seats(rt.alloc(), 6, 4)?;
    let steps = [Draws(10, Some(2_560))];
    hold(&rt, all_hold(&core, &mut first, &steps), 0);
    let steps = [
        Draws(20, Some(5_121)),
        RaisesWrite(2_560),
        PublishesRead(2_559),
        RaisesRead(0),
    ];
    hold(&rt, all_hold(&core, &mut second, &steps), 1);
    let steps = [RaisesWrite(2_560), PublishesRead(2_559), RaisesRead(2_559)];
    hold(&rt, all_hold(&core, &mut first, &steps), 2);
    Ok(())
}

#[test]
fn a_clock_at_its_end_draws_no_stamp(rt: HostRuntime) -> Result<(), Fail> {
    hold(&rt, is_shown(rt.alloc(), &ClockOut, "clock out")?, 0);
    let (core, mut hand) = first_seat(rt.alloc(), 1, 1, 1)?;
    let steps = [
        Hears(Stamp::make(GREATEST_CLOCK, 0)),
        Draws(0, None),
        Draws(0, None),
        HasClock(GREATEST_CLOCK),
        HasPublished(1),
    ];
    hold(&rt, all_hold(&core, &mut hand, &steps), 1);
    Ok(())
}

#[test]
fn clocks_follow_readings_and_each_other(rt: HostRuntime) -> Result<(), Fail> {
    let (core, mut first, mut second) = two_seats(rt.alloc(), 6, 4)?;
    let steps = [
        Draws(10, Some(2_560)),
        Draws(10, Some(2_816)),
        Idles,
        HasPublished(11 * 256 + 64),
        Idles,
        HasPublished(11 * 256 + 64),
    ];
    hold(&rt, all_hold(&core, &mut first, &steps), 0);
    let steps = [Syncs, HasClock(11), Draws(0, Some(12 * 256 + 1))];
    hold(&rt, all_hold(&core, &mut second, &steps), 1);
    let steps = [
        Draws(u64::MAX, Some(1 << 63)),
        Hears(Stamp::make((1 << 55) + 9, 1)),
        Draws(u64::MAX, Some(((1 << 55) + 10) * 256)),
    ];
    hold(&rt, all_hold(&core, &mut first, &steps), 2);
    let steps = [Syncs, HasClock(1 << 55)];
    hold(&rt, all_hold(&core, &mut second, &steps), 3);
    Ok(())
}

// What a thread has drawn and raised.
#[derive(Drop)]
struct Trace {
    stamps: [u64; 8],
    minima: [u64; 8],
}

// Raises the write minimum, publishes the bound below it, and raises the read minimum; gives the first.
fn raise_both(core: &Core<AnyState>, hand: &mut Hand<AnyState>) -> u64
    requires ready { IsReady core.now hand.old }
    requires ends { Ends hand.old.view.work }
    ensures ready { IsReady core.now hand.new }
    ensures ends { Ends hand.new.view.work }
{
    let least = raise_min_write(core, hand);
    publish_read(core, hand);
    raise_min_read(core, hand);
    least
}

// Draws a stamp and raises both minima, eight times.
fn draw_and_raise(
    core: &Core<AnyState>,
    mut hand: Hand<AnyState>,
) -> Result<(Hand<AnyState>, Trace), ClockOut>
    requires ready { IsReady core.now hand }
    requires ends { Ends hand.view.work }
    ensures ready { IfOk result (λ done. IsReady core.now done.0) }
    ensures ends { IfOk result (λ done. Ends done.0.view.work) }
{
    let mut trace = Trace {
        stamps: [0; 8],
        minima: [0; 8],
    };
    for turn in 0..8 {
        trace.stamps[turn] = draw_number(core, &mut hand, 0).ok_or(ClockOut)?;
        trace.minima[turn] = raise_both(core, &mut hand);
    }
    Ok((hand, trace))
}

// Draws one more stamp at each of two seats, and gives the lesser number.
fn draw_last(
    core: &Core<AnyState>,
    mut first: Hand<AnyState>,
    mut second: Hand<AnyState>,
) -> Result<u64, ClockOut>
    requires first_ready { IsReady core.now first }
    requires second_ready { IsReady core.now second }
    requires first_ends { Ends first.view.work }
    requires second_ends { Ends second.view.work }
{
    let by_first = draw_number(core, &mut first, 0).ok_or(ClockOut)?;
    let by_second = draw_number(core, &mut second, 0).ok_or(ClockOut)?;
    Ok(by_first.min(by_second))
}

// What two seats draw and raise, each in its own thread, and the lesser number of those that they draw last.
fn draw_in_threads<R: Threads>(
    rt: &R,
    core: &Core<AnyState>,
    first: Hand<AnyState>,
    second: Hand<AnyState>,
) -> Result<(Trace, Trace, u64), ClockOut>
    requires first_ready { IsReady core.now first }
    requires second_ready { IsReady core.now second }
    requires first_ends { Ends first.view.work }
    requires second_ends { Ends second.view.work }
{
    let (left, right) = join(
        rt,
        move || draw_and_raise(core, first),
        move || draw_and_raise(core, second),
    );
    let (first, left) = left?;
    let (second, right) = right?;
    let last = draw_last(core, first, second)?;
    Ok((left, right, last))
}

// Whether no stamp was drawn by both.
fn draw_apart(left: &Trace, right: &Trace) -> bool {
    let mut stamps = left.stamps.iter();
    !stamps.any(|stamp| right.stamps.contains(stamp))
}

// Whether no minimum is above this number.
fn stays_below(trace: &Trace, number: u64) -> bool {
    trace.minima.iter().all(|minimum| *minimum <= number)
}

#[test]
fn threads_draw_different_stamps_above_the_minima(rt: HostRuntime) -> Result<(), Fail> {
    let (core, first, second) = two_seats(rt.alloc(), 6, 4)?;
    let (left, right, last) = draw_in_threads(&rt, &core, first, second)?;
    hold(&rt, draw_apart(&left, &right), 0);
    hold(&rt, stays_below(&left, last), 1);
    hold(&rt, stays_below(&right, last), 2);
    Ok(())
}

// A seat that hears a stamp of clock 7 and retires.
fn hear_and_retire(core: &Core<AnyState>, mut hand: Hand<AnyState>) -> Hand<AnyState>
    requires ready { IsReady core.now hand }
    requires ends { Ends hand.view.work }
    requires holds_none { hand.view.places.held ≡ [] }
    ensures hand_of { IsHandOf core.now result }
    ensures retired { IsRetired result.view }
    ensures ends { Ends result.view.work }
{
    hear(core, &mut hand, Stamp::make(7, 0));
    retire(core, &mut hand);
    hand
}

#[test]
fn the_word_of_a_retired_seat_is_not_adopted(rt: HostRuntime) -> Result<(), Fail> {
    let (core, first, mut second) = two_seats(rt.alloc(), 6, 4)?;
    let first = hear_and_retire(&core, first);
    hold(&rt, all_hold(&core, &mut second, &[Syncs, HasClock(0)]), 0);
    core.join(&mut second, first);
    same(&rt, second.clock(), 7, 1);
    Ok(())
}
