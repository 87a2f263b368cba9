//! Transactions of two connections that are in each other's way.

use crate::acts::Act::{Begin, Commit, Get, Hear, Put, Refusals};
use crate::told::Told::{Done, Fault, Number};
use crate::told::has;
use crate::walk::{Step, opened, walk};
use Opened::{Nothing, Transaction};
use connections::{CallFault, Conflict, Opened};

// The first record that is given out: that of the row.
const ROW: u32 = 4_112;

// The stamp of the read in the way is heard, and then the second try comes behind it.
#[test]
fn a_later_read_is_in_the_way(rt: HostRuntime) {
    let mut connections = opened(&rt, rt.alloc(), 2, 16, 16);
    let read = CallFault::Conflict(Conflict::ReadLater {
        rid: ROW,
        wts: 2_560,
        rts: 1_280_001,
    });
    let steps: [Step; 16] = [
        (0, Begin(10), Done, Transaction),
        (0, Put(0, 1, (70, 0)), Done, Transaction),
        (0, Commit, Number(2_560), Nothing),
        (0, Begin(30), Done, Transaction),
        (1, Begin(5_000), Done, Transaction),
        (1, Get(0, 1), has(70, 0), Transaction),
        (1, Commit, Number(1_280_001), Nothing),
        (0, Put(0, 1, (71, 0)), Done, Transaction),
        (0, Commit, Fault(read), Nothing),
        (0, Refusals, Number(1), Nothing),
        (0, Hear(1_280_001), Done, Nothing),
        (0, Begin(0), Done, Transaction),
        (0, Get(0, 1), has(70, 0), Transaction),
        (0, Put(0, 1, (71, 0)), Done, Transaction),
        (0, Commit, Number(1_280_256), Nothing),
        (1, Refusals, Number(0), Nothing),
    ];
    walk(&rt, rt.alloc(), &mut connections, &steps);
}

// The version that was read has been overtaken by a later one.
#[test]
fn a_later_version_is_in_the_way(rt: HostRuntime) {
    let mut connections = opened(&rt, rt.alloc(), 2, 16, 16);
    let overtaken = CallFault::Conflict(Conflict::Overtaken {
        rid: ROW,
        seen: 2_560,
        now: 12_801,
    });
    let steps: [Step; 14] = [
        (0, Begin(10), Done, Transaction),
        (0, Put(0, 1, (70, 0)), Done, Transaction),
        (0, Commit, Number(2_560), Nothing),
        (0, Begin(60), Done, Transaction),
        (0, Get(0, 1), has(70, 0), Transaction),
        (1, Begin(50), Done, Transaction),
        (1, Put(0, 1, (71, 0)), Done, Transaction),
        (1, Commit, Number(12_801), Nothing),
        (0, Put(0, 1, (72, 0)), Done, Transaction),
        (0, Commit, Fault(overtaken), Nothing),
        (0, Hear(12_801), Done, Nothing),
        (0, Begin(70), Done, Transaction),
        (0, Get(0, 1), has(71, 0), Transaction),
        (0, Commit, Number(280_064), Nothing),
    ];
    walk(&rt, rt.alloc(), &mut connections, &steps);
}
