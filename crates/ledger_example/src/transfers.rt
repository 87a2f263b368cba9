//! Transactions of a ledger.
ghost use Rattle.std.specs.Prelude.{◌≡◌, All};
ghost use Rattle.ledger_example.specs.Tables.{HoldsTables};
ghost use Rattle.txn_engine.specs.Pass.{IsIdleOf};

use crate::accounts::{Transfer, add_up, make_transfer, open_all};
use crate::{ACCOUNTS, FIRST};
use histories::AnyState;
use record_store::Walk;
use std::alloc::Global;
use std::thread::{Threads, for_each_mut};
use txn_engine::{Alone, CommitFault, Conflict, Engine, Pass, Seat, TxnFault};
use typed_tables::TypedFault;

// How many transfers a thread makes, and how often it tries each at most.
const TRANSFERS: u32 = 200;

const MOST_TRIES: u32 = 1_000;

/// Opens all accounts in one transaction of the seat that is alone; whether it committed.
pub fn fill(engine: &Engine<AnyState>, alone: &mut Alone<AnyState>) -> bool
    requires seat { IsIdleOf engine.now alone.old.pass }
    requires tables { HoldsTables engine.now }
    ensures seat { IsIdleOf engine.now alone.new.pass }
    ensures shared { alone.new.shared ≡ alone.old.shared }
{
    let Ok(mut txn) = alone.begin(engine, 0) else {
        return false;
    };
    if open_all(&mut txn, ACCOUNTS, FIRST).is_err() {
        txn.abort();
        return false;
    }
    txn.commit().is_ok()
}

// How a try of a transfer ends.
enum Tried {
    // It committed.
    Done,
    // Another transaction is in the way.
    Stopped(Conflict),
    // An account is not there, what was read is no lawful table, or it wanted for a clock, a place or memory.
    Refused,
}

// Makes a transfer in one transaction.
fn try_once(
    engine: &Engine<AnyState>,
    pass: &mut Pass<AnyState>,
    moved: Transfer,
    reading: u64,
) -> Tried
    requires seat { IsIdleOf engine.now pass.old }
    requires tables { HoldsTables engine.now }
    ensures { IsIdleOf engine.now pass.new }
{
    let Ok(mut txn) = pass.begin(engine, reading) else {
        return Tried::Refused;
    };
    match make_transfer(&mut txn, moved) {
        Ok(true) => match txn.commit() {
            Ok(_) => Tried::Done,
            Err(CommitFault::Conflict(conflict)) => Tried::Stopped(conflict),
            Err(CommitFault::PlacesOut) => Tried::Refused,
        },
        Err(TypedFault::Walk(Walk::Store(TxnFault::Conflict(conflict)))) => {
            txn.abort();
            Tried::Stopped(conflict)
        }
        _ => {
            txn.abort();
            Tried::Refused
        }
    }
}

// Tries a transfer again until it commits, so often at most: after a conflict, and where no place is left, nothing has changed. The next
// try is at a stamp above that in the way. Whether it committed.
fn try_until(
    engine: &Engine<AnyState>,
    pass: &mut Pass<AnyState>,
    moved: Transfer,
    reading: u64,
) -> bool
    requires seat { IsIdleOf engine.now pass.old }
    requires tables { HoldsTables engine.now }
    ensures { IsIdleOf engine.now pass.new }
{
    for _ in 0..MOST_TRIES {
        match try_once(engine, pass, moved, reading) {
            Tried::Done => return true,
            Tried::Stopped(conflict) => pass.hear(engine, conflict.stamp()),
            Tried::Refused => {}
        }
        pass.collect(engine);
    }
    false
}

// The transfers of one thread. Each takes back the versions that no reader can reach any more.
fn work(engine: &Engine<AnyState>, pass: &mut Pass<AnyState>)
    requires seat { IsIdleOf engine.now pass.old }
    requires tables { HoldsTables engine.now }
    ensures { IsIdleOf engine.now pass.new }
{
    let first = pass.seat();
    for turn in 0..TRANSFERS {
        let moved = Transfer {
            from: u64::from(first.wrapping_add(turn) % ACCOUNTS),
            to: u64::from(first.wrapping_mul(3).wrapping_add(turn / 2) % ACCOUNTS),
            amount: 1 + u64::from(turn % 7),
        };
        try_until(engine, pass, moved, u64::from(turn));
        pass.collect(engine);
    }
}

/// Each pass makes its transfers in a thread of its own.
pub fn run_all<R: Threads + Sync>(
    rt: &R,
    engine: &Engine<AnyState>,
    passes: &mut Vec<Pass<AnyState>>,
)
    requires seats { All (IsIdleOf engine.now) passes.old.items }
    requires tables { HoldsTables engine.now }
    ensures { All (IsIdleOf engine.now) passes.new.items }
{
    for_each_mut(
        rt,
        passes.as_mut_slice(),
        4,
        &|_i: usize, pass: &mut Pass<AnyState>|
            requires seat { IsIdleOf engine.now pass.old }
            requires tables { HoldsTables engine.now }
            ensures { IsIdleOf engine.entry.now pass.new }
        {
            work(engine, pass);
        },
    );
}

/// What all accounts have, by a snapshot of the last pass, which is taken off the list; none where there is no pass. Whatever the stamp of
/// the snapshot, each state that it may see has all of a transfer or nothing.
pub fn sum(
    alloc: Global,
    engine: &Engine<AnyState>,
    passes: &mut Vec<Pass<AnyState>>,
) -> Option<u64>
    requires seats { All (IsIdleOf engine.now) passes.old.items }
    requires tables { HoldsTables engine.now }
{
    let mut pass = passes.pop()?;
    let mut snapshot = pass.snapshot(engine);
    let sum = add_up(alloc, &mut snapshot, ACCOUNTS);
    snapshot.finish();
    sum.ok()
}
