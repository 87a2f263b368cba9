//! Two passes in two threads, whose transactions are in flight at the same time.
ghost use Rattle.std.specs.Prelude.{◌≡◌, false, All};
ghost use Rattle.txn_engine.specs.Pass.{IsIdleOf};

use crate::calls::{Act, Done, act_in};
use crate::coming::{shared, take_one};
use crate::due::{hold, same};
use crate::meeting::Meeting;
use crate::opening::{end, open, stop};
use crate::play::{Piece, play};
use crate::values::value;
use histories::AnyState;
use plain_data::Cells;
use record_store::{RecordRead, RecordStore};
use std::process;
use std::sync::atomic::{AtomicU64, Ordering};
use std::test::Fail;
use std::thread::{Threads, for_each_mut};
use txn_engine::{Alone, Engine, Pass};

/// What the threads came to: how many met the other, which committed (1 the first, 2 the second), and how many were refused.
#[derive(Drop)]
struct Tally {
    met: AtomicU64,
    committed: AtomicU64,
    refusals: AtomicU64,
}

// The reading at which a thread begins.
fn reading(is_first: bool) -> u64 {
    if is_first { 10 } else { 20 }
}

// The record that a thread writes.
fn own(is_first: bool) -> u32 {
    if is_first { 1_001 } else { 70_000 }
}

// Whether a record reads as this.
fn has<F: Drop, S: RecordRead<Fault = F>>(store: &mut S, rid: u32, due: Option<Cells>) -> bool
    ensures { S.rest store.new ≡ S.rest store.old }
{
    if rid >= store.size() {
        return false;
    }
    let Some(value) = store.read(rid).ok() else {
        return false;
    };
    value == due
}

/// Reads one record, which is absent, and writes another.
pub fn touch<F: Drop, S: RecordStore<Fault = F>>(store: &mut S, read: u32, write: u32) -> bool
    ensures { S.rest store.new ≡ S.rest store.old }
{
    if !has(store, read, None) || write >= store.size() {
        return false;
    }
    store.write(write, value(Some(9))).is_ok()
}

// Reads a record and writes another, in a transaction that commits once the other thread's has read and written too. It tells whether
// that came, and whether it committed.
fn transact(
    engine: &Engine<AnyState>,
    pass: &mut Pass<AnyState>,
    is_first: bool,
    read: u32,
    place: &Meeting,
) -> (bool, bool)
    requires { IsIdleOf engine.now pass.old }
    ensures { IsIdleOf engine.now pass.new }
{
    let Ok(mut txn) = open(pass, engine, reading(is_first)) else {
        return (false, false);
    };
    let done = act_in(&mut txn, Act::Touch(read, own(is_first)), false);
    let met = place.come(is_first) && done == Done::Held(true);
    (met, end(txn).is_ok())
}

// Runs the transaction of a thread, and counts what came of it.
fn run(
    engine: &Engine<AnyState>,
    pass: &mut Pass<AnyState>,
    reads: (u32, u32),
    place: &Meeting,
    tally: &Tally,
)
    requires { IsIdleOf engine.now pass.old }
    ensures { IsIdleOf engine.now pass.new }
{
    let is_first = pass.seat() == 0;
    let (read, own) = if is_first { (reads.0, 1) } else { (reads.1, 2) };
    let (met, committed) = transact(engine, pass, is_first, read, place);
    tally.met.fetch_add(u64::from(met), Ordering::SeqCst);
    if committed {
        tally.committed.fetch_add(own, Ordering::SeqCst);
    }
    tally.refusals.fetch_add(pass.refusals(), Ordering::SeqCst);
}

// Runs both passes, each in a thread.
fn run_both<R: Threads + Sync>(
    rt: &R,
    engine: &Engine<AnyState>,
    passes: &mut Vec<Pass<AnyState>>,
    reads: (u32, u32),
) -> Tally
    requires { All (IsIdleOf engine.now) passes.old.items }
    ensures { All (IsIdleOf engine.now) passes.new.items }
{
    let meeting = Meeting::new();
    let place = &meeting;
    let tally = Tally {
        met: AtomicU64::new(0),
        committed: AtomicU64::new(0),
        refusals: AtomicU64::new(0),
    };
    let all = &tally;
    for_each_mut(
        rt,
        passes.as_mut_slice(),
        2,
        &|_i: usize, pass: &mut Pass<AnyState>|
            requires { IsIdleOf engine.now pass.old }
            ensures { IsIdleOf engine.entry.now pass.new }
        { run(engine, pass, reads, place, all) },
    );
    tally
}

// What is left of a write.
fn left(committed: bool) -> Option<Cells> {
    if committed { value(Some(9)) } else { None }
}

/// Whether what both have left reads as that, where these committed.
pub fn is_left<F: Drop, S: RecordRead<Fault = F>>(store: &mut S, first: bool, second: bool) -> bool
    ensures { S.rest store.new ≡ S.rest store.old }
{
    has(store, own(true), left(first)) && has(store, own(false), left(second))
}

// Whether what both have left reads as that, in a later transaction.
fn reads_back(engine: &Engine<AnyState>, pass: &mut Pass<AnyState>, committed: (bool, bool)) -> bool
    requires { IsIdleOf engine.now pass.old }
{
    let Ok(mut txn) = open(pass, engine, 30) else {
        return false;
    };
    let done = act_in(&mut txn, Act::Left(committed.0, committed.1), false);
    stop(txn);
    done == Done::Held(true)
}

// Both have met, and whether both committed is what is due; what was not committed was refused and is not there.
fn look_back<R: process::Abort>(
    rt: &R,
    engine: &Engine<AnyState>,
    pass: &mut Pass<AnyState>,
    tally: &Tally,
    due: bool,
)
    requires { IsIdleOf engine.now pass.old }
{
    let committed = tally.committed.load(Ordering::SeqCst);
    let (first, second) = (committed % 2 == 1, committed >= 2);
    same(rt, tally.met.load(Ordering::SeqCst), 2, 0);
    hold(rt, (first && second) == due, 1);
    let refusals = u64::from(!first) + u64::from(!second);
    same(rt, tally.refusals.load(Ordering::SeqCst), refusals, 2);
    hold(rt, reads_back(engine, pass, (first, second)), 3);
}

/// Two passes run, and whether both commit has to be what is due.
pub fn both_commit<R: Threads + process::Abort + Sync>(
    rt: &R,
    engine: &Engine<AnyState>,
    alone: Alone<AnyState>,
    reads: (u32, u32),
    due: bool,
)
    requires seat { IsIdleOf engine.now alone.pass }
    requires not_shared { alone.shared ≡ false }
{
    let mut passes = shared(alone, engine);
    let tally = run_both(rt, engine, &mut passes, reads);
    let mut first = take_one(rt, &mut passes, engine);
    look_back(rt, engine, &mut first, &tally, due);
}

#[test]
fn both_commit_on_records_of_their_own(rt: HostRuntime) -> Result<(), Fail> {
    play(
        &rt,
        rt.alloc(),
        2,
        (70_001, 70_001, 8),
        Piece::Both(2, 3, true),
    )
}

#[test]
fn both_do_not_commit_where_each_reads_what_the_other_writes(rt: HostRuntime) -> Result<(), Fail> {
    let crossed = Piece::Both(own(false), own(true), false);
    play(&rt, rt.alloc(), 2, (70_001, 70_001, 8), crossed)
}
