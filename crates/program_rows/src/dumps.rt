//! Runs with dumps beside them.

use crate::calls::{Answer, bytes_of, words_of};
use crate::due::{hold, same};
use cicada_top::Status;
use dump_top::run_dumps;
use load_gen::generate;
use outside_io::{CleanSink, CleanSource, CountClock, MemSink, MemSource, OpenGate, Sink, Source};
use std::alloc::{AllocError, Global};
use std::process::Abort;
use std::sync::Wait;
use std::test::Fail;
use std::thread::Threads;

/// A row, and two blocks that take from it.
const TWO_BLOCKS: &str =
    "cicada 1/table a/row a 1 100/lane/txn/sub a 1 30/end/txn/sub a 1 30/end/done/";

/// The same with one block.
const ONE_BLOCK: &str = "cicada 1/table a/row a 1 100/lane/txn/sub a 1 30/end/done/";

/// Words, what the source holds, the status, and what is written.
type Row = (&'static str, &'static str, Status, &'static str);

const ROWS: &[Row] = &[
    (
        "1|--workers|1",
        TWO_BLOCKS,
        Status::Done,
        "512 1.1 ok/1024 1.2 ok/table a/1 40/done/dump 767/table a/1 70/done/",
    ),
    (
        "2|--workers|1",
        ONE_BLOCK,
        Status::Done,
        "512 1.1 ok/table a/1 70/done/dump 767/table a/1 70/done/dump 1023/table a/1 70/done/",
    ),
    (
        "",
        "cicada 1/table a/row a 1 100/lane/done/",
        Status::Done,
        "table a/1 100/done/",
    ),
    ("3", "cicada 1/table a/", Status::Input, "refused 3 6/"),
    ("65", TWO_BLOCKS, Status::Usage, ""),
    ("01", TWO_BLOCKS, Status::Usage, ""),
    ("--workers|1", TWO_BLOCKS, Status::Usage, ""),
    ("1|--check", TWO_BLOCKS, Status::Usage, ""),
    ("1|--gen=5", TWO_BLOCKS, Status::Usage, ""),
    ("1|--workers|0", TWO_BLOCKS, Status::Usage, ""),
];

/// The rows, of which no proof knows more than that they are rows.
fn rows() -> &'static [Row] {
    ROWS
}

/// What a run with these words comes to.
fn run_over<R: Threads + Wait + Sync, S: Source, K: Sink>(
    rt: &R,
    alloc: Global,
    words: &str,
    source: &mut S,
    sink: &mut K,
) -> Result<Answer, AllocError> {
    let clocks = vec![in alloc; CountClock; 64]?;
    let list = words_of(alloc, words)?;
    Answer::of(
        alloc,
        &run_dumps(rt, alloc, &list, source, sink, clocks, &OpenGate),
    )
}

/// Runs a row, which has to end as it says.
fn play<R: Threads + Wait + Sync + Abort>(
    rt: &R,
    alloc: Global,
    row: &Row,
) -> Result<(), AllocError> {
    let (words, text, status, output) = *row;
    let mut source = CleanSource::new(bytes_of(alloc, text)?);
    let mut sink = CleanSink::new(alloc);
    let answer = run_over(rt, alloc, words, &mut source, &mut sink)?;
    same(rt, answer.status, status, 0);
    hold(rt, answer.has_usage == (status == Status::Usage), 1);
    let answer = answer.with_written(alloc, sink.taken())?;
    answer.has_written(rt, alloc, output)
}

#[test]
fn dumps_show_the_tables_up_to_their_stamps(rt: HostRuntime) -> Result<(), Fail> {
    for row in rows() {
        play(&rt, rt.alloc(), row)?;
    }
    Ok(())
}

/// How a run of the two blocks with a dump ends whose reads and writes move a byte each and fail at these calls.
fn with_faults<R: Threads + Wait + Sync>(
    rt: &R,
    alloc: Global,
    reads: &[u64],
    writes: &[u64],
) -> Result<Answer, AllocError> {
    let bytes = bytes_of(alloc, TWO_BLOCKS)?;
    let mut source = MemSource::new(bytes, 1, Vec::from_slice(alloc, reads)?);
    let mut sink = MemSink::new(alloc, 1, Vec::from_slice(alloc, writes)?);
    let answer = run_over(rt, alloc, "1|--workers|1", &mut source, &mut sink)?;
    answer.with_written(alloc, sink.taken())
}

#[test]
fn each_read_that_fails_ends_the_run_with_dumps(rt: HostRuntime) -> Result<(), Fail> {
    for call in 1..=78 {
        let answer = with_faults(&rt, rt.alloc(), &[call], &[])?;
        let sizes = answer.sizes();
        same(&rt, sizes, (Status::ReadFault, 0, 0), call as usize);
    }
    Ok(())
}

#[test]
fn each_write_that_fails_ends_the_run_with_dumps(rt: HostRuntime) -> Result<(), Fail> {
    let whole = with_faults(&rt, rt.alloc(), &[], &[])?;
    same(&rt, whole.sizes(), (Status::Done, 2, 68), 0);
    for call in 1..=68 {
        let answer = with_faults(&rt, rt.alloc(), &[], &[call])?;
        let written = (call - 1) as usize;
        same(
            &rt,
            answer.sizes(),
            (Status::WriteFault, 2, written),
            written,
        );
        hold(&rt, whole.written.starts_with(&answer.written), written);
    }
    Ok(())
}

/// The sum of the values of each dump behind a report, in the order of the dumps.
fn sums_of(alloc: Global, written: &[u8]) -> Result<Vec<u64>, AllocError> {
    let mut sums = Vec::new(alloc);
    let Ok(text) = std::str::from_utf8(written) else {
        return Ok(sums);
    };
    for line in text.lines() {
        if line.starts_with("dump ") {
            sums.push(0)?;
        } else {
            add_row(&mut sums, line);
        }
    }
    Ok(sums)
}

/// Adds the value of a row to the last sum, where there is one and the line is a row.
fn add_row(sums: &mut Vec<u64>, line: &str) {
    let Some((_, value)) = line.split_once(' ') else {
        return;
    };
    let Ok(value) = value.parse::<u64>() else {
        return;
    };
    if let Some(sum) = sums.last_mut() {
        *sum = sum.saturating_add(value);
    }
}

#[test]
fn dumps_beside_eight_workers_have_one_sum(rt: HostRuntime) -> Result<(), Fail> {
    let text = generate(rt.alloc(), 1)?;
    let mut source = CleanSource::new(text);
    let mut sink = CleanSink::new(rt.alloc());
    let answer = run_over(&rt, rt.alloc(), "8|--workers|8", &mut source, &mut sink)?;
    same(&rt, answer.status, Status::Done, 0);
    let sums = sums_of(rt.alloc(), sink.taken())?;
    same(&rt, sums.as_slice(), [64_000_000u64; 8].as_slice(), 1);
    Ok(())
}
