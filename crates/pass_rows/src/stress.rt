//! Four passes in four threads on few records.
ghost use Rattle.std.specs.Prelude.{◌≡◌, false, All};
ghost use Rattle.txn_engine.specs.Pass.{IsIdleOf};

use crate::checker::{READ, SNAPSHOT, Touch, lawful};
use crate::coming::{meet, shared, take_one};
use crate::due::hold;
use crate::noting::{Draws, note_all, touch};
use crate::opening::{end, open, open_alone, stop, stop_alone};
use crate::play::{Piece, play};
use histories::AnyState;
use std::alloc::{AllocError, Global};
use std::process::Abort;
use std::sync::{Mutex, Wait};
use std::test::Fail;
use std::thread::{Threads, for_each_mut};
use txn_engine::{Alone, Engine, Pass, Seat};

/// How many rounds each thread makes.
const ROUNDS: u64 = 20_000;

/// How many records there are; the first half is fixed.
const RECORDS: u32 = 8;

// A transaction; whether it committed.
fn transact(
    engine: &Engine<AnyState>,
    pass: &mut Pass<AnyState>,
    draws: &mut Draws,
    round: u64,
    touches: &mut Vec<Touch>,
) -> bool
    requires { IsIdleOf engine.now pass.old }
    ensures { IsIdleOf engine.now pass.new }
{
    // Each value that is written has a number of its own.
    let number = round
        .wrapping_mul(64)
        .wrapping_add(u64::from(pass.seat()))
        .wrapping_mul(4)
        .wrapping_add(1);
    let Ok(mut txn) = open(pass, engine, round) else {
        return false;
    };
    let stamp = txn.stamp().number();
    if touch(&mut txn, draws, RECORDS, stamp, number, touches) {
        end(txn).is_ok()
    } else {
        stop(txn);
        false
    }
}

// A snapshot of all records.
fn read_snapshot(engine: &Engine<AnyState>, pass: &mut Pass<AnyState>, touches: &mut Vec<Touch>)
    requires { IsIdleOf engine.now pass.old }
    ensures { IsIdleOf engine.now pass.new }
{
    let mut snapshot = pass.snapshot(engine);
    let stamp = snapshot.stamp();
    note_all(&mut snapshot, stamp, SNAPSHOT, RECORDS, touches);
    snapshot.finish();
}

// A snapshot, a promotion or a look at the clock of another seat, now and then.
fn aside(
    engine: &Engine<AnyState>,
    pass: &mut Pass<AnyState>,
    draws: &mut Draws,
    round: u64,
    touches: &mut Vec<Touch>,
)
    requires { IsIdleOf engine.now pass.old }
    ensures { IsIdleOf engine.now pass.new }
{
    let rid = draws.below(RECORDS);
    let other = draws.below(4);
    match draws.below(16) {
        0 => read_snapshot(engine, pass, touches),
        1 => {
            if rid < engine.records() {
                let _ = pass.promote(engine, rid, round);
            }
        }
        2 => {
            if other < engine.seats() {
                pass.sync(engine, other);
            }
        }
        _ => {}
    }
}

// A transaction and what goes before and behind it. What is not committed is not kept among the touches.
fn go_round(
    engine: &Engine<AnyState>,
    pass: &mut Pass<AnyState>,
    draws: &mut Draws,
    round: u64,
    touches: &mut Vec<Touch>,
)
    requires { IsIdleOf engine.now pass.old }
    ensures { IsIdleOf engine.now pass.new }
{
    aside(engine, pass, draws, round, touches);
    let before = touches.len();
    if !transact(engine, pass, draws, round, touches) {
        touches.truncate(before);
    }
    pass.collect(engine);
}

// All rounds of a thread, and what its commits and snapshots touched.
fn work(alloc: Global, engine: &Engine<AnyState>, pass: &mut Pass<AnyState>) -> Vec<Touch>
    requires { IsIdleOf engine.now pass.old }
    ensures { IsIdleOf engine.now pass.new }
{
    let state = u64::from(pass.seat());
    let mut draws = Draws { state };
    let mut touches = Vec::new(alloc);
    for round in 0..ROUNDS {
        go_round(engine, pass, &mut draws, round, &mut touches);
    }
    touches
}

// Puts what a thread touched to what the others did.
fn put<R: Wait>(rt: &R, all: &Mutex<Vec<Touch>>, mut touches: Vec<Touch>) {
    let _ = all.lock(rt).append(&mut touches);
}

// Runs all passes, each in a thread, and gives what they touched.
fn run_all<R: Threads + Wait + Sync>(
    rt: &R,
    alloc: Global,
    engine: &Engine<AnyState>,
    passes: &mut Vec<Pass<AnyState>>,
) -> Vec<Touch>
    requires { All (IsIdleOf engine.now) passes.old.items }
    ensures { All (IsIdleOf engine.now) passes.new.items }
{
    let all = Mutex::new(Vec::new(alloc));
    let shared = &all;
    for_each_mut(
        rt,
        passes.as_mut_slice(),
        4,
        &|_i: usize, pass: &mut Pass<AnyState>|
            requires { IsIdleOf engine.now pass.old }
            ensures { IsIdleOf engine.entry.now pass.new }
        {
            let touches = work(alloc, engine, pass);
            put(rt, shared, touches);
        },
    );
    all.into_inner()
}

// Reads what the seat that is alone sees, and notes it.
fn note_left(engine: &Engine<AnyState>, alone: &mut Alone<AnyState>, touches: &mut Vec<Touch>)
    requires { IsIdleOf engine.now alone.old.pass }
    ensures { IsIdleOf engine.now alone.new.pass }
{
    let Ok(mut txn) = open_alone(alone, engine, 0) else {
        return;
    };
    let stamp = txn.stamp().number();
    note_all(&mut txn, stamp, READ, RECORDS, touches);
    stop_alone(txn);
}

// Runs all passes and brings them together; the seat that is alone then reads what is left.
fn run_and_meet<R: Threads + Wait + Abort + Sync>(
    rt: &R,
    alloc: Global,
    engine: &Engine<AnyState>,
    mut passes: Vec<Pass<AnyState>>,
) -> Result<Vec<Touch>, AllocError>
    requires { All (IsIdleOf engine.now) passes.items }
{
    let mut touches = run_all(rt, alloc, engine, &mut passes);
    let first = take_one(rt, &mut passes, engine);
    let mut alone = meet(rt, alloc, engine, first, passes)?;
    alone.tell(engine);
    note_left(engine, &mut alone, &mut touches);
    Ok(touches)
}

/// Four passes run, and what they touched is lawful.
pub fn run_and_check<R: Threads + Wait + Abort + Sync>(
    rt: &R,
    alloc: Global,
    engine: &Engine<AnyState>,
    alone: Alone<AnyState>,
) -> Result<(), AllocError>
    requires seat { IsIdleOf engine.now alone.pass }
    requires not_shared { alone.shared ≡ false }
{
    let passes = shared(alone, engine);
    let mut touches = run_and_meet(rt, alloc, engine, passes)?;
    let writes = lawful(alloc, &mut touches, RECORDS)?;
    hold(rt, writes.is_some_and(|count| count > 100), 0);
    Ok(())
}

#[test]
fn each_transaction_reads_what_the_one_before_it_left(rt: HostRuntime) -> Result<(), Fail> {
    play(
        &rt,
        rt.alloc(),
        4,
        (RECORDS, RECORDS / 2, 1_000),
        Piece::Stress,
    )?;
    println!(rt; "done")?;
    Ok(())
}
