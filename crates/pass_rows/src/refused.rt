//! Calls that may be refused memory: a transaction in which one is refused is aborted, and the pass goes on.
ghost use Rattle.std.specs.Prelude.{◌≡◌, false};
ghost use Rattle.txn_engine.specs.Pass.{IsIdleOf};

use crate::calls::{Act, Done, Told, act_in, commit, is_refused};
use crate::coming::{shared, take_one, take_two};
use crate::due::{hold, same};
use crate::opening::{decide, link, open, publish, stop};
use crate::play::{Piece, play};
use histories::AnyState;
use std::process::Abort;
use std::test::Fail;
use txn_engine::{Alone, Conflict, Engine, Pass, TxnFault};

// A new transaction reads record 0, which is absent, and commits.
fn go_on<R: Abort>(rt: &R, engine: &Engine<AnyState>, pass: &mut Pass<AnyState>)
    requires { IsIdleOf engine.now pass.old }
    ensures { IsIdleOf engine.now pass.new }
{
    let told = commit(engine, pass, 0, Act::Read(0), false);
    let has_read = matches!(told, Told::Committed(_, Done::Read(None), 0, 0));
    hold(rt, has_read, 0);
}

// A transaction does this, and tells what is due where it is not refused memory, and else the pass goes on; whether it was not.
fn make<R: Abort>(
    rt: &R,
    engine: &Engine<AnyState>,
    pass: &mut Pass<AnyState>,
    reading: u64,
    act: Act,
    due: Told,
) -> bool
    requires { IsIdleOf engine.now pass.old }
    ensures { IsIdleOf engine.now pass.new }
{
    let told = commit(engine, pass, reading, act, false);
    if told == Told::NoMemory {
        go_on(rt, engine, pass);
        return false;
    }
    same(rt, told, due, 1);
    true
}

// Links a version of record 5 in a transaction of the first pass, which the second one meets, and publishes it. Whether the second one
// was not refused memory; none where the first one was.
fn meet_pending<R: Abort>(
    rt: &R,
    engine: &Engine<AnyState>,
    first: &mut Pass<AnyState>,
    second: &mut Pass<AnyState>,
) -> Option<bool>
    requires first { IsIdleOf engine.now first.old }
    requires second { IsIdleOf engine.now second.old }
    ensures first { IsIdleOf engine.now first.new }
    ensures second { IsIdleOf engine.now second.new }
{
    let Ok(mut txn) = open(first, engine, 10) else {
        return None;
    };
    if is_refused(act_in(&mut txn, Act::Write(5), false)) {
        stop(txn);
        return None;
    }
    let Ok(linked) = link(txn) else {
        hold(rt, false, 2);
        return None;
    };
    let pending = Told::Stopped(Conflict::Pending { rid: 5, wts: 2_560 });
    let has_met = make(rt, engine, second, 20, Act::Read(5), pending);
    let Ok(decided) = decide(linked) else {
        hold(rt, false, 3);
        return None;
    };
    same(rt, publish(decided).stamp.number(), 2_560, 4);
    Some(has_met)
}

/// Two passes, of which the second one meets a pending version of the first, and reads it once it is published.
pub fn meet_pending_on<R: Abort>(rt: &R, engine: &Engine<AnyState>, alone: Alone<AnyState>)
    requires seat { IsIdleOf engine.now alone.pass }
    requires not_shared { alone.shared ≡ false }
{
    let mut passes = shared(alone, engine);
    let (mut first, mut second) = take_two(rt, &mut passes, engine);
    let read = Told::Committed(269_825, Done::Read(Some(9)), 0, 0);
    match meet_pending(rt, engine, &mut first, &mut second) {
        None => go_on(rt, engine, &mut first),
        Some(false) => {}
        Some(true) => {
            make(rt, engine, &mut second, 30, Act::Read(5), read);
        }
    }
}

/// A pass asks for new numbers in two transactions.
pub fn ask_twice_on<R: Abort>(rt: &R, engine: &Engine<AnyState>, alone: Alone<AnyState>)
    requires seat { IsIdleOf engine.now alone.pass }
    requires not_shared { alone.shared ≡ false }
{
    let mut passes = shared(alone, engine);
    let mut pass = take_one(rt, &mut passes, engine);
    let given = Done::Given(Ok(2), Err(TxnFault::RecordsOut));
    let first = Told::Committed(256, given, 0, 0);
    let second = Told::Committed(512, given, 0, 0);
    if make(rt, engine, &mut pass, 0, Act::Fresh, first) {
        make(rt, engine, &mut pass, 0, Act::Fresh, second);
    }
}

#[test]
fn a_refused_transaction_beside_a_pending_version_is_aborted(rt: HostRuntime) -> Result<(), Fail> {
    play(&rt, rt.alloc(), 2, (6, 6, 4), Piece::MeetsPending)
}

#[test]
fn a_refused_transaction_that_asks_for_numbers_is_aborted(rt: HostRuntime) -> Result<(), Fail> {
    play(&rt, rt.alloc(), 1, (3, 2, 4), Piece::AsksTwice)
}
