//! Numbers at their limits and past them.

use crate::acts::Act::{self, Begin, Declare, Find, Finish, Get, Hear, List, Put, Remove};
use crate::told::Told::{self, Done, Fault, NoIndex, Row, Rows, Was};
use crate::told::has;
use crate::walk::{Step, opened, walk};
use Opened::{Nothing, Transaction};
use connections::{CallFault, Opened, open};

const RANGE: Told = Fault(CallFault::Range);

const MISUSED: Told = Fault(CallFault::Misused);

// What is out of range leaves the transaction as it is, and what is the last in range is done.
#[test]
fn tables_and_columns_of_a_transaction(rt: HostRuntime) {
    let mut connections = opened(&rt, rt.alloc(), 1, 8, 8);
    let steps: [Step; 20] = [
        (0, Get(8, 0), MISUSED, Nothing),
        (0, Begin(10), Done, Transaction),
        (0, Get(8, 0), RANGE, Transaction),
        (0, Get(u32::MAX, 0), RANGE, Transaction),
        (0, Get(7, u64::MAX), Row(None), Transaction),
        (0, Put(8, 0, (1, 1)), RANGE, Transaction),
        (0, Remove(8, 0), RANGE, Transaction),
        (0, Remove(7, u64::MAX), Was(false), Transaction),
        (0, List(8, (0, 9), 9), RANGE, Transaction),
        (
            0,
            List(7, (0, u64::MAX), 9),
            Rows(0, None, None),
            Transaction,
        ),
        (0, Find(8, 1, (0, 9), 9), RANGE, Transaction),
        (0, Find(7, 0, (0, 9), 9), RANGE, Transaction),
        (0, Find(7, 7, (0, 9), 9), RANGE, Transaction),
        (0, Find(7, 1, (0, 9), 9), NoIndex, Transaction),
        (0, Declare(8, 1), RANGE, Transaction),
        (0, Declare(7, 0), RANGE, Transaction),
        (0, Declare(7, 7), RANGE, Transaction),
        (0, Declare(7, 6), Was(true), Transaction),
        (0, Put(7, u64::MAX, (u64::MAX, 1)), Done, Transaction),
        (0, Get(7, u64::MAX), has(u64::MAX, 1), Transaction),
    ];
    walk(&rt, rt.alloc(), &mut connections, &steps);
}

#[test]
fn tables_and_columns_of_a_snapshot(rt: HostRuntime) {
    let mut connections = opened(&rt, rt.alloc(), 1, 8, 8);
    let steps: [Step; 8] = [
        (0, Act::Snapshot, Done, Opened::Snapshot),
        (0, Get(8, 0), RANGE, Opened::Snapshot),
        (0, List(8, (0, 9), 9), RANGE, Opened::Snapshot),
        (0, Find(8, 1, (0, 9), 9), RANGE, Opened::Snapshot),
        (0, Find(7, 0, (0, 9), 9), RANGE, Opened::Snapshot),
        (0, Find(7, 7, (0, 9), 9), RANGE, Opened::Snapshot),
        (0, Find(7, 6, (0, 9), 9), NoIndex, Opened::Snapshot),
        (0, Put(8, 0, (1, 1)), MISUSED, Opened::Snapshot),
    ];
    walk(&rt, rt.alloc(), &mut connections, &steps);
}

// A stamp has a clock up to 2 ^ 56 - 2 and a seat up to 63.
#[test]
fn stamps_that_are_heard(rt: HostRuntime) {
    let mut connections = opened(&rt, rt.alloc(), 1, 1, 4);
    let steps: [Step; 6] = [
        (0, Hear(63), Done, Nothing),
        (0, Hear(64), RANGE, Nothing),
        (0, Hear(18_446_744_073_709_551_168), RANGE, Nothing),
        (0, Hear(18_446_744_073_709_551_360), RANGE, Nothing),
        (0, Hear(u64::MAX), RANGE, Nothing),
        (0, Hear(18_446_744_073_709_551_167), Done, Nothing),
    ];
    walk(&rt, rt.alloc(), &mut connections, &steps);
}

// Seats from 1 to 64, rows up to 195,888 less 32 for each seat, places up to 262,144.
#[test]
fn sizes_of_an_engine(rt: HostRuntime) {
    let out: [(u32, u32, u32); 7] = [
        (0, 1, 1),
        (65, 1, 1),
        (1, 195_857, 1),
        (64, 193_841, 1),
        (1, u32::MAX, 0),
        (1, 1, 262_145),
        (u32::MAX, 1, 1),
    ];
    for (seats, rows, spare) in out {
        let fault = open(rt.alloc(), seats, rows, spare).err();
        assert_eq!(rt; fault, Some(CallFault::Range), "{seats} {rows} {spare}");
    }
    opened(&rt, rt.alloc(), 64, 193_840, 262_144);
    opened(&rt, rt.alloc(), 1, 195_856, 1);
    opened(&rt, rt.alloc(), 64, 0, 0);
    opened(&rt, rt.alloc(), 1, 0, 1);
}
