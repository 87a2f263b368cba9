//! Runs by clocks that are asked, and by clocks that are not.

use crate::calls::{Answer, answered_by, bytes_of};
use crate::due::same;
use cicada_top::Status;
use outside_io::{Clock, ListClock, OpenGate};
use std::alloc::{AllocError, Global};
use std::process::Abort;
use std::sync::Wait;
use std::sync::atomic::{AtomicU64, Ordering};
use std::test::Fail;
use std::thread::Threads;

/// 64 clocks, each of which gives these readings.
fn clocks_of(alloc: Global, readings: &[u64]) -> Result<Vec<ListClock>, AllocError> {
    let mut clocks = Vec::new(alloc);
    for _ in 0..64 {
        clocks.push(ListClock::new(Vec::from_slice(alloc, readings)?))?;
    }
    Ok(clocks)
}

/// A run by clocks that each give these readings.
fn answered_at<R: Threads + Wait + Sync + Abort>(
    rt: &R,
    alloc: Global,
    words: &str,
    readings: &[u64],
    text: &str,
) -> Result<Answer, AllocError> {
    let clocks = clocks_of(alloc, readings)?;
    assert!(rt; clocks.len() == 64);
    let bytes = bytes_of(alloc, text)?;
    answered_by(rt, alloc, words, bytes, clocks, &OpenGate)
}

/// What asks for one worker that asks its clock.
const ONE: &str = "--workers|1|--clock|real";

/// Words, readings, a text, and what is written.
type Row = (&'static str, &'static [u64], &'static str, &'static str);

const ROWS: &[Row] = &[
    // A reading is taken as 2^55 at most.
    (
        ONE,
        &[18446744073709551615],
        "cicada 1/table a/row a 1 100/lane/txn/get a 1/sub a 1 30/get a 1/end/done/",
        "9223372036854775808 1.1 ok/= 100/= 70/table a/1 70/done/",
    ),
    // A reading that falls back does not set the clock back.
    (
        ONE,
        &[50, 7],
        "cicada 1/table a/row a 1 100/lane/txn/add a 1 1/end/txn/add a 1 1/end/done/",
        "12800 1.1 ok/13056 1.2 ok/table a/1 102/done/",
    ),
    // Nor does one that falls from the greatest to the least.
    (
        ONE,
        &[18446744073709551615, 0],
        "cicada 1/table a/row a 1 100/lane/txn/add a 1 1/end/txn/add a 1 1/end/done/",
        "9223372036854775808 1.1 ok/9223372036854776064 1.2 ok/table a/1 102/done/",
    ),
    // The last reading stays, and a snapshot asks the clock too.
    (
        ONE,
        &[9, 20],
        "cicada 1/table a/row a 1 100/lane/txn/add a 1 1/end/snap/get a 1/end/txn/add a 1 1/end/done/",
        "2304 1.1 ok/5119 1.2 snap/= 101/5376 1.3 ok/table a/1 102/done/",
    ),
    // Without readings it is always 0.
    (
        ONE,
        &[],
        "cicada 1/table a/row a 1 100/lane/txn/add a 1 1/end/done/",
        "512 1.1 ok/table a/1 101/done/",
    ),
];

/// Eight workers, each by a clock that leaps and falls.
const LEAPS: Row = (
    "--gen|1|--workers|8|--clock|real",
    &[3, 18446744073709551615, 0, 1099511627776, 5],
    "",
    "transactions 4000/sum 64000000/done/",
);

/// The rows, of which no proof knows more than that they are rows.
fn rows() -> &'static [Row] {
    ROWS
}

fn leaps() -> Row {
    LEAPS
}

/// Runs a row, which has to be done, and to write what the row says.
fn play<R: Threads + Wait + Sync + Abort>(
    rt: &R,
    alloc: Global,
    row: &Row,
) -> Result<(), AllocError> {
    let (words, readings, text, output) = *row;
    let answer = answered_at(rt, alloc, words, readings, text)?;
    same(rt, answer.status, Status::Done, 0);
    answer.has_written(rt, alloc, output)
}

#[test]
fn any_readings_will_do(rt: HostRuntime) -> Result<(), Fail> {
    for row in rows() {
        play(&rt, rt.alloc(), row)?;
    }
    Ok(())
}

#[test]
fn no_block_is_lost_by_clocks_that_leap(rt: HostRuntime) -> Result<(), Fail> {
    play(&rt, rt.alloc(), &leaps())?;
    Ok(())
}

/// A clock that counts how often it is asked.
#[derive(Clone, Copy)]
struct CountedClock<'a> {
    readings: &'a AtomicU64,
}

impl Clock for CountedClock<'_> {
    fn now(&mut self) -> u64 {
        self.readings.fetch_add(1, Ordering::SeqCst)
    }
}

/// A text with a row and three blocks.
const THREE: &str =
    "cicada 1/table a/row a 1 6/lane/txn/get a 1/end/snap/get a 1/end/lane/txn/sub a 1 9/end/done/";

/// How a run of three blocks by 64 such clocks ends.
fn ended_by<R: Threads + Wait + Sync, C: Clock + Copy>(
    rt: &R,
    alloc: Global,
    words: &str,
    clock: C,
) -> Result<Status, AllocError> {
    let clocks = vec![in alloc; clock; 64]?;
    let bytes = bytes_of(alloc, THREE)?;
    let answer = answered_by(rt, alloc, words, bytes, clocks, &OpenGate)?;
    Ok(answer.status)
}

/// How that run ends, and how often its clocks are asked.
fn times_asked<R: Threads + Wait + Sync>(
    rt: &R,
    alloc: Global,
    words: &str,
) -> Result<(Status, u64), AllocError> {
    let readings = AtomicU64::new(0);
    let clock = CountedClock {
        readings: &readings,
    };
    let status = ended_by(rt, alloc, words, clock)?;
    Ok((status, readings.load(Ordering::SeqCst)))
}

#[test]
fn clocks_are_asked_once_a_block_and_only_by_that_word(rt: HostRuntime) -> Result<(), Fail> {
    let rows = [
        ("--workers|1", 0),
        ("--workers|1|--clock|count", 0),
        ("--workers|1|--clock|real", 3),
    ];
    for (i, (words, times)) in rows.iter().enumerate() {
        let asked = times_asked(&rt, rt.alloc(), words)?;
        same(&rt, asked, (Status::Done, *times), i);
    }
    Ok(())
}
