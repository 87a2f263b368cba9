//! Each call once where it fits.

use crate::acts::Act::{
    Abort, Begin, Close, Collect, Commit, Commits, Declare, Find, Finish, Get, Hear, List, Put,
    Refusals, Remove, Snapshot, Tick,
};
use crate::told::Told::{Done, NoIndex, Number, Row, Rows, Was};
use crate::told::{collected, has, row};
use crate::walk::{Step, opened, walk};
use Opened::{Closed, Nothing, Transaction};
use connections::Opened;

// A row and the key that it stands at.
fn at(key: u64, first: u64, second: u64) -> Option<(u64, replay_model::Columns)> {
    Some((key, row(first, second)))
}

#[test]
fn rows_are_put_got_removed_and_listed(rt: HostRuntime) {
    let mut connections = opened(&rt, rt.alloc(), 2, 16, 16);
    let steps: [Step; 15] = [
        (0, Begin(10), Done, Transaction),
        (0, Get(3, 5), Row(None), Transaction),
        (0, Put(3, 5, (50, 7)), Done, Transaction),
        (0, Put(3, 2, (20, 7)), Done, Transaction),
        (0, Put(3, u64::MAX, (9, 9)), Done, Transaction),
        (0, Put(3, 5, (51, 8)), Done, Transaction),
        (0, Get(3, 5), has(51, 8), Transaction),
        (
            0,
            List(3, (0, u64::MAX), 9),
            Rows(3, at(2, 20, 7), at(u64::MAX, 9, 9)),
            Transaction,
        ),
        (
            0,
            List(3, (3, 5), 9),
            Rows(1, at(5, 51, 8), at(5, 51, 8)),
            Transaction,
        ),
        (0, List(3, (0, 5), 0), Rows(0, None, None), Transaction),
        (0, Remove(3, 2), Was(true), Transaction),
        (0, Remove(3, 2), Was(false), Transaction),
        (
            0,
            List(3, (0, u64::MAX), 1),
            Rows(1, at(5, 51, 8), at(5, 51, 8)),
            Transaction,
        ),
        (
            0,
            List(4, (0, u64::MAX), 9),
            Rows(0, None, None),
            Transaction,
        ),
        (0, Commit, Number(2_560), Nothing),
    ];
    walk(&rt, rt.alloc(), &mut connections, &steps);
}

#[test]
fn rows_are_found_by_an_index(rt: HostRuntime) {
    let mut connections = opened(&rt, rt.alloc(), 1, 16, 16);
    let steps: [Step; 12] = [
        (0, Begin(10), Done, Transaction),
        (0, Find(7, 2, (0, 99), 9), NoIndex, Transaction),
        (0, Declare(7, 2), Was(true), Transaction),
        (0, Declare(7, 1), Was(false), Transaction),
        (0, Put(7, 1, (0, 70)), Done, Transaction),
        (0, Put(7, 2, (0, 5)), Done, Transaction),
        (0, Put(7, 3, (0, 70)), Done, Transaction),
        (0, Commit, Number(2_560), Nothing),
        (0, Begin(20), Done, Transaction),
        (
            0,
            Find(7, 2, (0, 99), 9),
            Rows(3, at(2, 0, 5), at(3, 0, 70)),
            Transaction,
        ),
        (
            0,
            Find(7, 2, (6, 70), 1),
            Rows(1, at(1, 0, 70), at(1, 0, 70)),
            Transaction,
        ),
        (0, Find(7, 1, (0, 99), 9), NoIndex, Transaction),
    ];
    walk(&rt, rt.alloc(), &mut connections, &steps);
}

// What of one row is committed is seen by the other connection, and what is aborted is not.
#[test]
fn an_aborted_transaction_leaves_no_trace(rt: HostRuntime) {
    let mut connections = opened(&rt, rt.alloc(), 2, 16, 16);
    let steps: [Step; 14] = [
        (0, Begin(10), Done, Transaction),
        (0, Put(0, 1, (70, 0)), Done, Transaction),
        (0, Commit, Number(2_560), Nothing),
        (1, Begin(20), Done, Transaction),
        (1, Get(0, 1), has(70, 0), Transaction),
        (1, Put(0, 1, (71, 0)), Done, Transaction),
        (1, Abort, Done, Nothing),
        (0, Begin(30), Done, Transaction),
        (0, Get(0, 1), has(70, 0), Transaction),
        (0, Commit, Number(7_680), Nothing),
        (0, Commits, Number(2), Nothing),
        (1, Commits, Number(0), Nothing),
        (0, Refusals, Number(0), Nothing),
        (1, Refusals, Number(0), Nothing),
    ];
    walk(&rt, rt.alloc(), &mut connections, &steps);
}

// A snapshot reads one below the least stamp that any connection may still commit at, and goes on beside a transaction of the other one.
#[test]
fn a_snapshot_reads_below_all_that_commit_from_then_on(rt: HostRuntime) {
    let mut connections = opened(&rt, rt.alloc(), 2, 16, 16);
    let steps: [Step; 16] = [
        (0, Begin(10), Done, Transaction),
        (0, Declare(1, 1), Was(true), Transaction),
        (0, Put(1, 4, (70, 0)), Done, Transaction),
        (0, Commit, Number(2_560), Nothing),
        (0, Tick(100), Number(25_600), Nothing),
        (1, Tick(90), Number(23_041), Nothing),
        (0, Snapshot, Done, Opened::Snapshot),
        (0, Get(1, 4), has(70, 0), Opened::Snapshot),
        (1, Begin(95), Done, Transaction),
        (1, Remove(1, 4), Was(true), Transaction),
        (1, Commit, Number(24_321), Nothing),
        (0, Get(1, 4), has(70, 0), Opened::Snapshot),
        (
            0,
            List(1, (0, 9), 9),
            Rows(1, at(4, 70, 0), at(4, 70, 0)),
            Opened::Snapshot,
        ),
        (
            0,
            Find(1, 1, (0, 99), 9),
            Rows(1, at(4, 70, 0), at(4, 70, 0)),
            Opened::Snapshot,
        ),
        (0, Find(1, 2, (0, 99), 9), NoIndex, Opened::Snapshot),
        (0, Finish, Number(23_040), Nothing),
    ];
    walk(&rt, rt.alloc(), &mut connections, &steps);
}

// The older version of a row is taken back once both connections are past the later one; a closed one holds nothing back.
#[test]
fn older_versions_are_taken_back(rt: HostRuntime) {
    let mut connections = opened(&rt, rt.alloc(), 2, 16, 16);
    let steps: [Step; 13] = [
        (0, Begin(10), Done, Transaction),
        (0, Put(0, 1, (70, 0)), Done, Transaction),
        (0, Commit, Number(2_560), Nothing),
        (0, Begin(20), Done, Transaction),
        (0, Put(0, 1, (71, 0)), Done, Transaction),
        (0, Commit, Number(5_120), Nothing),
        // the row, its bucket and its leaf, and the row once more
        (0, Collect, collected(0, 0, 4, 0), Nothing),
        (1, Close, Done, Closed),
        (1, Close, Done, Closed),
        (0, Tick(30), Number(7_680), Nothing),
        // from the newest version on: an older one of the row, and the first one of each record
        (0, Collect, collected(3, 1, 0, 4), Nothing),
        (0, Hear(25_601), Done, Nothing),
        (0, Tick(0), Number(25_856), Nothing),
    ];
    walk(&rt, rt.alloc(), &mut connections, &steps);
}
