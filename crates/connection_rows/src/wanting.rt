//! Want of records, of places and of clocks.

use crate::acts::Act::{Abort, Begin, Collect, Commit, Commits, Get, Hear, Put, Refusals, Tick};
use crate::told::Told::{Done, Fault, Number, Row};
use crate::told::{collected, has};
use crate::walk::{Step, fill, opened, walk};
use Opened::{Nothing, Spoiled, Transaction};
use connections::{CallFault, Opened};

// A connection that is alone has 32 records more than were asked for, and of these 33 each row takes one; five are for the leaves of the tree.
// A transaction that a fault has ended takes `abort` alone; a new one sees nothing of it.
#[test]
fn no_record_is_left(rt: HostRuntime) {
    let mut connections = opened(&rt, rt.alloc(), 1, 1, 4);
    let begins: [Step; 1] = [(0, Begin(10), Done, Transaction)];
    walk(&rt, rt.alloc(), &mut connections, &begins);
    fill(&rt, rt.alloc(), &mut connections, 28);
    let steps: [Step; 8] = [
        (
            0,
            Put(0, 29, (71, 0)),
            Fault(CallFault::RecordsOut),
            Spoiled,
        ),
        (0, Get(0, 1), Fault(CallFault::Misused), Spoiled),
        (0, Commit, Fault(CallFault::Misused), Spoiled),
        (0, Abort, Done, Nothing),
        (0, Refusals, Number(1), Nothing),
        (0, Begin(20), Done, Transaction),
        (0, Get(0, 1), Row(None), Transaction),
        (0, Commit, Number(5_120), Nothing),
    ];
    walk(&rt, rt.alloc(), &mut connections, &steps);
}

// The first version of a row takes three places, one for its bucket and one for its leaf too, and one is held back. Then there is none for
// a later version, until the versions are taken back that were there before. Behind the refusal the clock reads 1,024 more.
#[test]
fn no_place_is_left(rt: HostRuntime) {
    let mut connections = opened(&rt, rt.alloc(), 1, 1, 4);
    let steps: [Step; 15] = [
        (0, Begin(10), Done, Transaction),
        (0, Put(0, 1, (70, 0)), Done, Transaction),
        (0, Commit, Number(2_560), Nothing),
        (0, Begin(20), Done, Transaction),
        (0, Put(0, 1, (71, 0)), Done, Transaction),
        (0, Commit, Fault(CallFault::PlacesOut), Nothing),
        (0, Refusals, Number(1), Nothing),
        (0, Tick(30), Number(269_824), Nothing),
        (0, Collect, collected(3, 0, 0, 3), Nothing),
        (0, Begin(40), Done, Transaction),
        (0, Get(0, 1), has(70, 0), Transaction),
        (0, Put(0, 1, (72, 0)), Done, Transaction),
        (0, Commit, Number(272_384), Nothing),
        (0, Commits, Number(2), Nothing),
        (0, Refusals, Number(1), Nothing),
    ];
    walk(&rt, rt.alloc(), &mut connections, &steps);
}

// Behind the greatest stamp no other is drawn.
#[test]
fn no_clock_is_left(rt: HostRuntime) {
    let mut connections = opened(&rt, rt.alloc(), 1, 1, 4);
    let steps: [Step; 4] = [
        (
            0,
            Tick(u64::MAX),
            Number(9_223_372_036_854_775_808),
            Nothing,
        ),
        (0, Hear(18_446_744_073_709_551_104), Done, Nothing),
        (0, Tick(0), Fault(CallFault::ClockOut), Nothing),
        (0, Begin(0), Fault(CallFault::ClockOut), Nothing),
    ];
    walk(&rt, rt.alloc(), &mut connections, &steps);
}
