//! Calls that do not fit what is open: each answers `Misused`, and nothing has changed.

use crate::acts::Act::{
    self, Abort, Begin, Close, Collect, Commit, Commits, Declare, Find, Finish, Get, Hear, List,
    Put, Refusals, Remove, Tick,
};
use crate::told::Told::{self, Done, Fault, Number};
use crate::walk::{Step, fill, opened, walk};
use Opened::{Closed, Nothing, Spoiled, Transaction};
use connections::{CallFault, Connection, Opened};
use std::alloc::Global;
use std::process;

const MISUSED: Told = Fault(CallFault::Misused);

// Calls that fit what is open are left out of each of these.
const AT_ROWS: [Act; 6] = [
    Get(0, 1),
    Put(0, 1, (1, 1)),
    Remove(0, 1),
    List(0, (0, 9), 9),
    Find(0, 1, (0, 9), 9),
    Declare(0, 1),
];

const CHANGES: [Act; 3] = [Put(0, 1, (1, 1)), Remove(0, 1), Declare(0, 1)];

const BEGINS: [Act; 5] = [Begin(30), Act::Snapshot, Collect, Hear(1), Tick(30)];

const ENDS: [Act; 3] = [Commit, Abort, Finish];

const ASKS: [Act; 2] = [Commits, Refusals];

// Each of the calls answers `Misused`, and the same is open.
fn are_misused<R: process::Abort>(
    rt: &R,
    alloc: Global,
    connections: &mut [Connection],
    acts: &[Act],
    open: Opened,
) {
    for act in acts {
        walk(rt, alloc, connections, &[(0, *act, MISUSED, open)]);
    }
}

#[test]
fn nothing_is_open(rt: HostRuntime) {
    let mut connections = opened(&rt, rt.alloc(), 1, 1, 4);
    let steps: [Step; 1] = [(0, Begin(10), Done, Transaction)];
    are_misused(&rt, rt.alloc(), &mut connections, &AT_ROWS, Nothing);
    are_misused(&rt, rt.alloc(), &mut connections, &ENDS, Nothing);
    walk(&rt, rt.alloc(), &mut connections, &steps);
}

#[test]
fn a_transaction_is_open(rt: HostRuntime) {
    let mut connections = opened(&rt, rt.alloc(), 1, 1, 4);
    let steps: [Step; 2] = [
        (0, Begin(10), Done, Transaction),
        (0, Put(0, 1, (70, 0)), Done, Transaction),
    ];
    walk(&rt, rt.alloc(), &mut connections, &steps);
    are_misused(&rt, rt.alloc(), &mut connections, &BEGINS, Transaction);
    are_misused(&rt, rt.alloc(), &mut connections, &[Finish], Transaction);
    let steps: [Step; 2] = [
        (0, Commit, Number(2_560), Nothing),
        (0, Commits, Number(1), Nothing),
    ];
    walk(&rt, rt.alloc(), &mut connections, &steps);
}

// The fault has counted its refusal, and the call that is left counts no other.
#[test]
fn a_fault_has_ended_a_transaction(rt: HostRuntime) {
    let mut connections = opened(&rt, rt.alloc(), 1, 0, 4);
    let begins: [Step; 1] = [(0, Begin(10), Done, Transaction)];
    walk(&rt, rt.alloc(), &mut connections, &begins);
    fill(&rt, rt.alloc(), &mut connections, 27);
    let steps: [Step; 1] = [(
        0,
        Put(0, 28, (70, 0)),
        Fault(CallFault::RecordsOut),
        Spoiled,
    )];
    walk(&rt, rt.alloc(), &mut connections, &steps);
    are_misused(&rt, rt.alloc(), &mut connections, &AT_ROWS, Spoiled);
    are_misused(&rt, rt.alloc(), &mut connections, &BEGINS, Spoiled);
    are_misused(
        &rt,
        rt.alloc(),
        &mut connections,
        &[Commit, Finish],
        Spoiled,
    );
    let steps: [Step; 3] = [
        (0, Refusals, Number(1), Spoiled),
        (0, Abort, Done, Nothing),
        (0, Refusals, Number(1), Nothing),
    ];
    walk(&rt, rt.alloc(), &mut connections, &steps);
}

#[test]
fn a_snapshot_is_open(rt: HostRuntime) {
    let mut connections = opened(&rt, rt.alloc(), 1, 1, 4);
    let steps: [Step; 2] = [
        (0, Tick(10), Number(2_560), Nothing),
        (0, Act::Snapshot, Done, Opened::Snapshot),
    ];
    walk(&rt, rt.alloc(), &mut connections, &steps);
    are_misused(
        &rt,
        rt.alloc(),
        &mut connections,
        &CHANGES,
        Opened::Snapshot,
    );
    are_misused(&rt, rt.alloc(), &mut connections, &BEGINS, Opened::Snapshot);
    are_misused(
        &rt,
        rt.alloc(),
        &mut connections,
        &[Commit, Abort],
        Opened::Snapshot,
    );
    let steps: [Step; 1] = [(0, Finish, Number(2_559), Nothing)];
    walk(&rt, rt.alloc(), &mut connections, &steps);
}

// Closing ends the transaction that is open, and takes no call of a closed connection but itself.
#[test]
fn a_connection_is_closed(rt: HostRuntime) {
    let mut connections = opened(&rt, rt.alloc(), 2, 1, 4);
    let steps: [Step; 3] = [
        (0, Begin(10), Done, Transaction),
        (0, Put(0, 1, (70, 0)), Done, Transaction),
        (0, Close, Done, Closed),
    ];
    walk(&rt, rt.alloc(), &mut connections, &steps);
    are_misused(&rt, rt.alloc(), &mut connections, &AT_ROWS, Closed);
    are_misused(&rt, rt.alloc(), &mut connections, &BEGINS, Closed);
    are_misused(&rt, rt.alloc(), &mut connections, &ENDS, Closed);
    are_misused(&rt, rt.alloc(), &mut connections, &ASKS, Closed);
    let steps: [Step; 3] = [
        (0, Close, Done, Closed),
        (1, Begin(20), Done, Transaction),
        (1, Get(0, 1), Told::Row(None), Transaction),
    ];
    walk(&rt, rt.alloc(), &mut connections, &steps);
}
