//! A transaction of the first pass in flight, while another pass makes calls.
ghost use Rattle.std.specs.Prelude.{◌≡◌, false, All};
ghost use Rattle.txn_engine.specs.Pass.{IsIdleOf};

use crate::calls::{Act, Done, Step, Told, act_in, ended, make_all};
use crate::coming::{meet, shared, take_one, take_two};
use crate::due::{hold, same};
use crate::opening::{decide, end, link, open, publish, stop};
use histories::AnyState;
use std::alloc::{AllocError, Global};
use std::process::Abort;
use txn_engine::{Alone, ClockOut, Engine, Pass, Settled};

/// A transaction of the first pass that begins at reading 10, and the calls of the others in the meantime.
#[derive(Clone, Copy)]
pub struct Flight<'a> {
    /// What the transaction does.
    pub act: Act,
    /// Whether the calls come between its install and its decide; else between its begin and what it does.
    pub is_linked: bool,
    pub calls: &'a [Step],
    /// What its end has to tell.
    pub due: Told,
    /// The calls of the others behind it.
    pub later: &'a [Step],
}

// The calls come first, and then what the transaction does; whether it began.
fn fly_open<R: Abort>(
    rt: &R,
    engine: &Engine<AnyState>,
    first: &mut Pass<AnyState>,
    others: &mut Vec<Pass<AnyState>>,
    flight: &Flight<'_>,
) -> bool
    requires first { IsIdleOf engine.now first.old }
    requires others { All (IsIdleOf engine.now) others.old.items }
    ensures first { IsIdleOf engine.now first.new }
    ensures others { All (IsIdleOf engine.now) others.new.items }
{
    let Ok(mut txn) = open(first, engine, 10) else {
        return false;
    };
    same(rt, txn.stamp().number(), 2_560, 9);
    make_all(rt, engine, others, flight.calls);
    let done = act_in(&mut txn, flight.act, true);
    same(rt, ended(done, end(txn)), flight.due, 0);
    true
}

// The calls come while its versions are linked; whether it began.
fn fly_linked<R: Abort>(
    rt: &R,
    engine: &Engine<AnyState>,
    first: &mut Pass<AnyState>,
    others: &mut Vec<Pass<AnyState>>,
    flight: &Flight<'_>,
) -> bool
    requires first { IsIdleOf engine.now first.old }
    requires others { All (IsIdleOf engine.now) others.old.items }
    ensures first { IsIdleOf engine.now first.new }
    ensures others { All (IsIdleOf engine.now) others.new.items }
{
    let Ok(mut txn) = open(first, engine, 10) else {
        return false;
    };
    same(rt, txn.stamp().number(), 2_560, 9);
    let done = act_in(&mut txn, flight.act, true);
    let Ok(linked) = link(txn) else {
        hold(rt, false, 1);
        return true;
    };
    make_all(rt, engine, others, flight.calls);
    let Ok(decided) = decide(linked) else {
        hold(rt, false, 2);
        return true;
    };
    same(rt, ended(done, Ok(publish(decided))), flight.due, 3);
    true
}

// Flies, and again where the begin is refused memory: all is as before then.
fn fly<R: Abort>(
    rt: &R,
    engine: &Engine<AnyState>,
    first: &mut Pass<AnyState>,
    others: &mut Vec<Pass<AnyState>>,
    flight: &Flight<'_>,
)
    requires first { IsIdleOf engine.now first.old }
    requires others { All (IsIdleOf engine.now) others.old.items }
    ensures first { IsIdleOf engine.now first.new }
    ensures others { All (IsIdleOf engine.now) others.new.items }
{
    let flown = if flight.is_linked {
        fly_linked(rt, engine, first, others, flight)
            || fly_linked(rt, engine, first, others, flight)
    } else {
        fly_open(rt, engine, first, others, flight) || fly_open(rt, engine, first, others, flight)
    };
    hold(rt, flown, 4);
    make_all(rt, engine, others, flight.later);
}

// The transactions of two passes, where the earlier one overwrites what the later one has read and commits first.
fn cross<R: Abort>(
    rt: &R,
    engine: &Engine<AnyState>,
    first: &mut Pass<AnyState>,
    second: &mut Pass<AnyState>,
    due: (Told, Told),
)
    requires first { IsIdleOf engine.now first.old }
    requires second { IsIdleOf engine.now second.old }
    ensures first { IsIdleOf engine.now first.new }
    ensures second { IsIdleOf engine.now second.new }
{
    let Ok(mut early) = open(first, engine, 10) else {
        hold(rt, false, 0);
        return;
    };
    let Ok(mut late) = open(second, engine, 20) else {
        hold(rt, false, 1);
        stop(early);
        return;
    };
    same(
        rt,
        (early.stamp().number(), late.stamp().number()),
        (2_560, 5_121),
        6,
    );
    same(
        rt,
        act_in(&mut late, Act::Read(5), true),
        Done::Read(None),
        2,
    );
    same(
        rt,
        act_in(&mut early, Act::Write(5), true),
        Done::Nothing,
        3,
    );
    same(rt, ended(Done::Nothing, end(early)), due.0, 4);
    same(rt, ended(Done::Nothing, end(late)), due.1, 5);
}

/// Settles what is left, where a seat is alone.
pub fn settled(engine: &Engine<AnyState>, alone: &mut Alone<AnyState>) -> Result<Settled, ClockOut>
    requires { IsIdleOf engine.now alone.old.pass }
    ensures { IsIdleOf engine.now alone.new.pass }
{
    alone.settle(engine)
}

// The first pass, alone again, settles what is left.
fn settle<R: Abort>(rt: &R, engine: &Engine<AnyState>, alone: &mut Alone<AnyState>, due: Settled)
    requires { IsIdleOf engine.now alone.old.pass }
{
    same(rt, alone.last().number(), 5_120, 5);
    same(rt, settled(engine, alone), Ok(due), 6);
    same(rt, alone.last().number(), 5_376, 7);
    same(rt, alone.rescan(engine), 0, 8);
}

/// Plays a flight, and gives its pass and the others.
pub fn fly_on<R: Abort>(
    rt: &R,
    engine: &Engine<AnyState>,
    alone: Alone<AnyState>,
    flight: &Flight<'_>,
) -> (Pass<AnyState>, Vec<Pass<AnyState>>)
    requires seat { IsIdleOf engine.now alone.pass }
    requires not_shared { alone.shared ≡ false }
    ensures first { IsIdleOf engine.now result.0 }
    ensures others { All (IsIdleOf engine.now) result.1.items }
{
    let mut passes = shared(alone, engine);
    let mut first = take_one(rt, &mut passes, engine);
    fly(rt, engine, &mut first, &mut passes, flight);
    (first, passes)
}

/// Plays a flight, and then brings the seats together and settles what is left.
pub fn fly_and_settle<R: Abort>(
    rt: &R,
    alloc: Global,
    engine: &Engine<AnyState>,
    alone: Alone<AnyState>,
    flight: &Flight<'_>,
    due: Settled,
) -> Result<(), AllocError>
    requires seat { IsIdleOf engine.now alone.pass }
    requires not_shared { alone.shared ≡ false }
{
    let (first, others) = fly_on(rt, engine, alone, flight);
    let mut alone = meet(rt, alloc, engine, first, others)?;
    settle(rt, engine, &mut alone, due);
    Ok(())
}

/// Plays two transactions that cross.
pub fn cross_on<R: Abort>(
    rt: &R,
    engine: &Engine<AnyState>,
    alone: Alone<AnyState>,
    due: (Told, Told),
)
    requires seat { IsIdleOf engine.now alone.pass }
    requires not_shared { alone.shared ≡ false }
{
    let mut passes = shared(alone, engine);
    let (mut first, mut second) = take_two(rt, &mut passes, engine);
    cross(rt, engine, &mut first, &mut second, due);
}
