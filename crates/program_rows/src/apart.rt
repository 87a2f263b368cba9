//! Runs of several workers at once: the stamp of a block tells at which pass it was run, and by which clock.

use crate::calls::{answered_along, answered_by, append, bytes_of};
use crate::due::{hold, same};
use cicada_top::Status;
use lane_futures::Turns;
use lane_threads::Workers;
use outside_io::{Gate, ListClock};
use replay_model::Placed;
use std::alloc::{AllocError, Global};
use std::hint::spin_loop;
use std::sync::atomic::{AtomicU64, Ordering};
use std::test::Fail;

/// How often a gate that holds up looks whether it may open, before it is overdue.
const TURNS: u32 = 100_000_000;

/// Waits until a count is so much. Where it is overdue, that is counted.
fn wait_for(count: &AtomicU64, due: u64, overdue: &AtomicU64) {
    for _ in 0..TURNS {
        if count.load(Ordering::SeqCst) >= due {
            return;
        }
        spin_loop();
    }
    let _ = overdue.fetch_add(1, Ordering::SeqCst);
}

/// A gate that holds up the first block of each lane until so many of these have come, which no one worker can have run.
#[derive(Drop)]
struct AtOnce {
    due: u64,
    come: AtomicU64,
    overdue: AtomicU64,
}

impl AtOnce {
    fn new(due: u64) -> AtOnce {
        AtOnce {
            due,
            come: AtomicU64::new(0),
            overdue: AtomicU64::new(0),
        }
    }

    fn is_overdue(&self) -> bool {
        self.overdue.load(Ordering::SeqCst) > 0
    }
}

impl Gate for AtOnce {
    fn before_commit(&self, _lane: u32, number: u32) {
        if number == 1 {
            let _ = self.come.fetch_add(1, Ordering::SeqCst);
            wait_for(&self.come, self.due, &self.overdue);
        }
    }

    fn after_outcome(&self, _lane: u32, _number: u32) {}
}

/// So many lanes of so many blocks, each of which adds to the row of its lane, so that none is in the way of another.
fn own_rows(alloc: Global, lanes: u32, blocks: u32) -> Result<Vec<u8>, Fail> {
    let mut text = bytes_of(alloc, "cicada 1/table a/")?;
    for lane in 1..=lanes {
        append(&mut text, &format!(in alloc; "row a {lane} 0/")?)?;
    }
    for lane in 1..=lanes {
        append(&mut text, "lane/")?;
        for _ in 0..blocks {
            append(&mut text, &format!(in alloc; "txn/add a {lane} 1/end/")?)?;
        }
    }
    append(&mut text, "done/")?;
    Ok(text)
}

/// The number of each block that was run at a seat, in the order of their stamps.
fn numbers_at(alloc: Global, order: &[Placed], seat: u64) -> Result<Vec<u32>, AllocError> {
    let mut numbers = Vec::new(alloc);
    for placed in order {
        if placed.stamp % 256 == seat {
            numbers.push(placed.number)?;
        }
    }
    Ok(numbers)
}

/// Each of the two workers has taken four lanes of two blocks before a block of it commits, and runs them by turns.
#[test]
fn each_of_two_workers_takes_four_lanes_at_a_time(rt: HostRuntime) -> Result<(), Fail> {
    let alloc = rt.alloc();
    let gate = AtOnce::new(2);
    let text = own_rows(alloc, 8, 2)?;
    let answer = answered_along(&rt, alloc, "--workers|2", text, &gate, &mut Turns)?;
    same(&rt, answer.status, Status::Done, 0);
    hold(&rt, !gate.is_overdue(), 1);
    for seat in 0..2u64 {
        let numbers = numbers_at(alloc, &answer.order, seat)?;
        same(
            &rt,
            numbers.as_slice(),
            [1, 1, 1, 1, 2, 2, 2, 2].as_slice(),
            2,
        );
    }
    Ok(())
}

/// 64 clocks, of which each has a reading of its own: 1,000, 2,000 and so on.
fn clocks_apart(alloc: Global) -> Result<Vec<ListClock>, AllocError> {
    let mut clocks = Vec::new(alloc);
    for clock in 1..=64u64 {
        clocks.push(ListClock::new(Vec::from_slice(alloc, &[clock * 1000])?))?;
    }
    Ok(clocks)
}

/// The stamps of blocks.
fn stamps_of(alloc: Global, order: &[Placed]) -> Result<Vec<u64>, AllocError> {
    let mut stamps = Vec::new(alloc);
    for placed in order {
        stamps.push(placed.stamp)?;
    }
    Ok(stamps)
}

/// Each of the four workers runs one block, whose stamp has the reading of its clock and its seat.
#[test]
fn each_worker_asks_its_own_clock(rt: HostRuntime) -> Result<(), Fail> {
    let alloc = rt.alloc();
    let gate = AtOnce::new(4);
    let text = own_rows(alloc, 4, 1)?;
    let clocks = clocks_apart(alloc)?;
    assert!(rt; clocks.len() == 64);
    let answer = answered_by(&rt, alloc, "--workers|4|--clock|real", text, clocks, &gate)?;
    same(&rt, answer.status, Status::Done, 0);
    hold(&rt, !gate.is_overdue(), 1);
    let stamps = stamps_of(alloc, &answer.order)?;
    same(
        &rt,
        stamps.as_slice(),
        [256_000, 512_001, 768_002, 1_024_003].as_slice(),
        2,
    );
    Ok(())
}

/// A gate that holds up the first try of the first lane until the others have so many outcomes each, and their last blocks until that lane
/// has its outcome.
#[derive(Drop)]
struct OthersAhead {
    outcomes: [AtomicU64; 2],
    first: AtomicU64,
    overdue: AtomicU64,
}

/// How many outcomes the second lane and the third have before the first lane goes on. Each has one block more. A pass that was refused
/// draws a clock of 1,024 at least, so both are ahead of that, and the third is ahead of what is heard of the second.
const AHEAD: [u64; 2] = [1100, 2200];

impl OthersAhead {
    fn new() -> OthersAhead {
        OthersAhead {
            outcomes: [AtomicU64::new(0), AtomicU64::new(0)],
            first: AtomicU64::new(0),
            overdue: AtomicU64::new(0),
        }
    }

    fn is_overdue(&self) -> bool {
        self.overdue.load(Ordering::SeqCst) > 0
    }
}

impl Gate for OthersAhead {
    fn before_commit(&self, lane: u32, number: u32) {
        match lane {
            1 => {
                wait_for(&self.outcomes[0], AHEAD[0], &self.overdue);
                wait_for(&self.outcomes[1], AHEAD[1], &self.overdue);
            }
            2 if u64::from(number) > AHEAD[0] => wait_for(&self.first, 1, &self.overdue),
            3 if u64::from(number) > AHEAD[1] => wait_for(&self.first, 1, &self.overdue),
            _ => {}
        }
    }

    fn after_outcome(&self, lane: u32, _number: u32) {
        let count = match lane {
            1 => &self.first,
            2 => &self.outcomes[0],
            _ => &self.outcomes[1],
        };
        let _ = count.fetch_add(1, Ordering::SeqCst);
    }
}

/// A block of the first lane adds to the rows of both others.
fn lane_of_both_rows(alloc: Global, second: u32, third: u32) -> Result<Vec<u8>, Fail> {
    let mut text = bytes_of(
        alloc,
        "cicada 1/table a/row a 1 0/row a 2 0/lane/txn/add a 1 1/add a 2 1/end/",
    )?;
    for (row, blocks) in [(second, AHEAD[0] + 1), (third, AHEAD[1] + 1)] {
        append(&mut text, "lane/")?;
        for _ in 0..blocks {
            append(&mut text, &format!(in alloc; "txn/add a {row} 1/end/")?)?;
        }
    }
    append(&mut text, "done/")?;
    Ok(text)
}

/// After its first refusal the first lane comes after both others at once, whichever of them was in the way: it has two tries.
#[test]
fn a_second_try_comes_after_all_other_passes(rt: HostRuntime) -> Result<(), Fail> {
    let alloc = rt.alloc();
    for (second, third) in [(1, 2), (2, 1)] {
        let gate = OthersAhead::new();
        let text = lane_of_both_rows(alloc, second, third)?;
        let answer = answered_along(
            &rt,
            alloc,
            "--workers|3|--tries|2",
            text,
            &gate,
            &mut Workers,
        )?;
        same(&rt, answer.status, Status::Done, 0);
        hold(&rt, !gate.is_overdue(), second as usize);
    }
    Ok(())
}
