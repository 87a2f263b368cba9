//! Engines of the greatest sizes, and transactions that touch every record.
ghost use Rattle.std.specs.Prelude.{◌≡◌, false, All, IfOk};
ghost use Rattle.txn_engine.specs.Pass.{IsIdleOf};

use crate::calls::{Act, Done, act_in};
use crate::coming::{meet, shared, take_one};
use crate::deeds::{Deed, transact};
use crate::due::{hold, same};
use crate::opening::{end, open};
use crate::play::{Piece, play};
use crate::values::value;
use histories::AnyState;
use plain_data::Cells;
use record_store::{MOST_RECORDS, RecordRead, RecordStore};
use stamp_base::SEATS;
use std::alloc::{AllocError, Global};
use std::process;
use std::test::Fail;
use std::thread::{Threads, for_each_mut};
use txn_engine::{Alone, AloneFault, Engine, Pass, Seat};

/// The greatest number of places beside those of the records.
const MOST_SPARE: u32 = 262_144;

// The value of a record: its number and this one; none at 0.
fn due(rid: u32, plus: u32) -> Option<Cells> {
    if plus == 0 {
        None
    } else {
        value(Some(u64::from(rid) + u64::from(plus)))
    }
}

// Whether a record reads as this.
fn has<F: Drop, S: RecordRead<Fault = F>>(store: &mut S, rid: u32, plus: u32) -> bool
    ensures { S.rest store.new ≡ S.rest store.old }
{
    if rid >= store.size() {
        return false;
    }
    let Some(value) = store.read(rid).ok() else {
        return false;
    };
    value == due(rid, plus)
}

// Whether a record reads as this, is written, and then reads as that.
fn change<F: Drop, S: RecordStore<Fault = F>>(store: &mut S, rid: u32, from: u32, to: u32) -> bool
    ensures { S.rest store.new ≡ S.rest store.old }
{
    if !has(store, rid, from) || rid >= store.size() {
        return false;
    }
    store.write(rid, due(rid, to)).is_ok() && has(store, rid, to)
}

/// The first record from this one up to that one that is not changed, or that one.
pub fn change_all<F: Drop, S: RecordStore<Fault = F>>(
    store: &mut S,
    first: u32,
    last: u32,
    from: u32,
    to: u32,
) -> u32
    ensures { S.rest store.new ≡ S.rest store.old }
{
    for rid in first..last {
        if !change(store, rid, from, to) {
            return rid;
        }
    }
    last
}

// The first record up to this one that does not read as this, or that one.
fn look_all<F: Drop, S: RecordRead<Fault = F>>(store: &mut S, last: u32, plus: u32) -> u32
    ensures { S.rest store.new ≡ S.rest store.old }
{
    for rid in 0..last {
        if !has(store, rid, plus) {
            return rid;
        }
    }
    last
}

// The first record from this one up to that one that is not given out as a new one, by rising number, or that one.
fn take_all<F: Drop, S: RecordStore<Fault = F>>(store: &mut S, first: u32, last: u32) -> u32
    ensures { S.rest store.new ≡ S.rest store.old }
{
    for rid in first..last {
        if store.fresh().ok() != Some(rid) {
            return rid;
        }
    }
    last
}

/// Writes every record.
pub fn fill<R: process::Abort, F: Drop, S: RecordStore<Fault = F>>(rt: &R, store: &mut S)
    ensures { S.rest store.new ≡ S.rest store.old }
{
    same(
        rt,
        change_all(store, 0, MOST_RECORDS, 0, 1),
        MOST_RECORDS,
        0,
    );
}

// Changes the records from this one up to that one, in one transaction of a pass, which has to commit.
fn refill<R: process::Abort>(
    rt: &R,
    engine: &Engine<AnyState>,
    pass: &mut Pass<AnyState>,
    first: u32,
    last: u32,
    from: u32,
)
    requires { IsIdleOf engine.now pass.old }
    ensures { IsIdleOf engine.now pass.new }
{
    let Ok(mut txn) = open(pass, engine, 0) else {
        hold(rt, false, 2);
        return;
    };
    same(
        rt,
        act_in(&mut txn, Act::Change(first, last, from), false),
        Done::Changed(last),
        2,
    );
    hold(rt, end(txn).is_ok(), 3);
}

// Reads every record by a snapshot.
fn read_snapshot<R: process::Abort>(rt: &R, engine: &Engine<AnyState>, pass: &mut Pass<AnyState>)
    requires { IsIdleOf engine.now pass.old }
    ensures { IsIdleOf engine.now pass.new }
{
    let mut snapshot = pass.snapshot(engine);
    same(
        rt,
        look_all(&mut snapshot, MOST_RECORDS, 1),
        MOST_RECORDS,
        4,
    );
    snapshot.finish();
}

// Changes the record of each pass, in a thread for each.
fn change_own<R: Threads + process::Abort + Sync>(
    rt: &R,
    engine: &Engine<AnyState>,
    passes: &mut Vec<Pass<AnyState>>,
)
    requires { All (IsIdleOf engine.now) passes.old.items }
    ensures { All (IsIdleOf engine.now) passes.new.items }
{
    for_each_mut(
        rt,
        passes.as_mut_slice(),
        64,
        &|_i: usize, pass: &mut Pass<AnyState>|
            requires { IsIdleOf engine.now pass.old }
            ensures { IsIdleOf engine.entry.now pass.new }
        {
            let rid = pass.seat().wrapping_add(130_000);
            refill(rt, engine, pass, rid, rid.wrapping_add(1), 2);
        },
    );
}

/// Whether records that each pass changed, and some that the first one alone changed, read as what is left of them.
pub fn is_left<F: Drop, S: RecordRead<Fault = F>>(store: &mut S) -> bool
    ensures { S.rest store.new ≡ S.rest store.old }
{
    has(store, 0, 2)
        && has(store, 130_000, 2)
        && has(store, 130_001, 3)
        && has(store, 130_063, 3)
        && has(store, 130_064, 2)
        && has(store, 199_999, 2)
}

// Reads what all have left, once they have come together.
fn look_back<R: process::Abort>(rt: &R, engine: &Engine<AnyState>, alone: &mut Alone<AnyState>)
    requires { IsIdleOf engine.now alone.old.pass }
    ensures { IsIdleOf engine.now alone.new.pass }
{
    transact(rt, engine, alone, Deed::Look, false, 9);
    same(rt, alone.last().number(), 768, 7);
    same(rt, alone.rescan(engine), 0, 8);
}

// Writes every record by the seat that is alone, and shares it.
fn fill_and_share<R: process::Abort>(
    rt: &R,
    engine: &Engine<AnyState>,
    mut alone: Alone<AnyState>,
) -> Vec<Pass<AnyState>>
    requires seat { IsIdleOf engine.now alone.pass }
    requires not_shared { alone.shared ≡ false }
    ensures { All (IsIdleOf engine.now) result.items }
{
    let told = transact(rt, engine, &mut alone, Deed::Fill, true, 0);
    same(rt, told, Some((0, MOST_RECORDS)), 1);
    same(rt, alone.collect(engine).places, MOST_RECORDS, 5);
    shared(alone, engine)
}

// The first pass reads and changes every record, and each other one its own; then all come together.
fn change_and_meet<R: Threads + process::Abort + Sync>(
    rt: &R,
    alloc: Global,
    engine: &Engine<AnyState>,
    mut passes: Vec<Pass<AnyState>>,
) -> Result<Alone<AnyState>, AllocError>
    requires { All (IsIdleOf engine.now) passes.items }
    ensures { IfOk result (λ alone. IsIdleOf engine.now alone.pass) }
{
    let mut first = take_one(rt, &mut passes, engine);
    read_snapshot(rt, engine, &mut first);
    refill(rt, engine, &mut first, 0, MOST_RECORDS, 1);
    change_own(rt, engine, &mut passes);
    meet(rt, alloc, engine, first, passes)
}

/// All seats touch all records.
pub fn touch_all<R: Threads + process::Abort + Sync>(
    rt: &R,
    alloc: Global,
    engine: &Engine<AnyState>,
    alone: Alone<AnyState>,
) -> Result<(), AllocError>
    requires seat { IsIdleOf engine.now alone.pass }
    requires not_shared { alone.shared ≡ false }
{
    let passes = fill_and_share(rt, engine, alone);
    let mut alone = change_and_meet(rt, alloc, engine, passes)?;
    look_back(rt, engine, &mut alone);
    Ok(())
}

#[test]
fn sixty_four_seats_touch_two_hundred_thousand_records(rt: HostRuntime) -> Result<(), Fail> {
    let size = (MOST_RECORDS, MOST_RECORDS, MOST_SPARE);
    play(&rt, rt.alloc(), SEATS, size, Piece::Largest)
}

// Counts record 0 up by so many commits, with a collection behind each hundredth.
fn count_up<R: process::Abort>(
    rt: &R,
    engine: &Engine<AnyState>,
    pass: &mut Pass<AnyState>,
    commits: u32,
)
    requires { IsIdleOf engine.now pass.old }
    ensures { IsIdleOf engine.now pass.new }
{
    for count in 0..commits {
        refill(rt, engine, pass, 0, 1, count);
        if count % 100 == 99 {
            pass.collect(engine);
        }
    }
}

/// A pass commits so many times.
pub fn commit_often<R: process::Abort>(
    rt: &R,
    engine: &Engine<AnyState>,
    alone: Alone<AnyState>,
    commits: u32,
)
    requires seat { IsIdleOf engine.now alone.pass }
    requires not_shared { alone.shared ≡ false }
{
    let mut passes = shared(alone, engine);
    let mut pass = take_one(rt, &mut passes, engine);
    count_up(rt, engine, &mut pass, commits);
    same(rt, pass.last().number(), u64::from(commits) * 256, 0);
}

#[test]
fn a_pass_commits_again_and_again(rt: HostRuntime) -> Result<(), Fail> {
    play(&rt, rt.alloc(), 1, (1, 1, 101), Piece::Commits(300_000))
}

/// The records from here on are given out as new ones.
const FIXED: u32 = 190_000;

/// Takes all new records, and gives them a value if the transaction is to commit.
pub fn take_new<R: process::Abort, S: RecordStore<Fault = AloneFault>>(
    rt: &R,
    store: &mut S,
    commits: bool,
)
    ensures { S.rest store.new ≡ S.rest store.old }
{
    same(rt, take_all(store, FIXED, MOST_RECORDS), MOST_RECORDS, 0);
    same(rt, store.fresh(), Err(AloneFault::RecordsOut), 1);
    if commits {
        same(
            rt,
            change_all(store, FIXED, MOST_RECORDS, 0, 1),
            MOST_RECORDS,
            2,
        );
    }
}

/// Deletes them, while none is given out.
pub fn delete_new<R: process::Abort, S: RecordStore<Fault = AloneFault>>(rt: &R, store: &mut S)
    ensures { S.rest store.new ≡ S.rest store.old }
{
    same(rt, store.fresh(), Err(AloneFault::RecordsOut), 3);
    same(
        rt,
        change_all(store, FIXED, MOST_RECORDS, 1, 0),
        MOST_RECORDS,
        4,
    );
    same(rt, store.fresh(), Err(AloneFault::RecordsOut), 5);
}

// Does this with all new records in one transaction, which has to begin and to commit.
fn commit_new<R: process::Abort>(
    rt: &R,
    engine: &Engine<AnyState>,
    alone: &mut Alone<AnyState>,
    deed: Deed,
    step: usize,
)
    requires { IsIdleOf engine.now alone.old.pass }
    ensures { IsIdleOf engine.now alone.new.pass }
{
    let told = transact(rt, engine, alone, deed, true, step);
    hold(rt, told.is_some(), 6);
}

/// Every spare number is given out, and again after deletions.
pub fn give_out_all<R: process::Abort>(
    rt: &R,
    engine: &Engine<AnyState>,
    mut alone: Alone<AnyState>,
)
    requires { IsIdleOf engine.now alone.pass }
{
    transact(rt, engine, &mut alone, Deed::Take(false), false, 0);
    commit_new(rt, engine, &mut alone, Deed::Take(true), 0);
    commit_new(rt, engine, &mut alone, Deed::Delete, 3);
    transact(rt, engine, &mut alone, Deed::Take(false), false, 0);
    same(rt, alone.last().number(), 4 * 256, 7);
}

#[test]
fn every_spare_number_is_given_out(rt: HostRuntime) -> Result<(), Fail> {
    // One place for each writing, and the reserved one.
    let size = (MOST_RECORDS, FIXED, 20_001);
    play(&rt, rt.alloc(), 1, size, Piece::Spare)
}
