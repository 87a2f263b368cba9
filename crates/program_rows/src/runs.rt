//! Whole runs through the top call: what no clause of it says, and what its ends do.

ghost use Rattle.std.specs.Prelude.{◌<◌};

use crate::calls::{Answer, answered, bytes_of, run_with};
use crate::due::{hold, same};
use cicada_top::Status;
use outside_io::{MemSink, MemSource};
use std::alloc::{AllocError, Global};
use std::process::Abort;
use std::sync::Wait;
use std::test::Fail;
use std::thread::Threads;

/// A block over one row: 74 bytes.
const TEXT: &str =
    "cicada 1\ntable a\nrow a 1 100\nlane\ntxn\nget a 1\nsub a 1 30\nget a 1\nend\ndone\n";

/// Its report by one worker: 40 bytes.
const REPORT: &str = "512 1.1 ok\n= 100\n= 70\ntable a\n1 70\ndone\n";

/// What asks for one worker, whose stamps rest on no schedule.
const ONE: &str = "--workers|1";

/// Words, what the source holds, the status, what is written, and how many blocks the order has.
type Row = (&'static str, &'static str, Status, &'static str, usize);

const ROWS: &[Row] = &[
    (ONE, TEXT, Status::Done, REPORT, 1),
    ("", "cicada 1\ndone\n", Status::Done, "done\n", 0),
    ("", "cicada 1\ntable a\n", Status::Input, "refused 3 6\n", 0),
    (
        "--check",
        "cicada 1\nlane\nsnap\nend\ndone\n256 1.1 snap\ndone\n",
        Status::Done,
        "yes\n",
        1,
    ),
    (
        "--check",
        "cicada 1\ndone\nx",
        Status::Differs,
        "no line 1\n",
        0,
    ),
    ("--workers|0", TEXT, Status::Usage, "", 0),
    ("--help", TEXT, Status::Usage, "", 0),
];

const GENERATED: &[Row] = &[
    (
        "--gen|1|--workers|1",
        TEXT,
        Status::Done,
        "transactions 4000\nsum 64000000\ndone\n",
        4000,
    ),
    (
        "--gen|1",
        TEXT,
        Status::Done,
        "transactions 4000\nsum 64000000\ndone\n",
        4000,
    ),
    (
        "--gen|1|--workers|8",
        TEXT,
        Status::Done,
        "transactions 4000\nsum 64000000\ndone\n",
        4000,
    ),
];

/// The rows, of which no proof knows more than that they are rows.
fn rows() -> &'static [Row] {
    ROWS
}

fn generated() -> &'static [Row] {
    GENERATED
}

/// Runs a row, which has to end as it says.
fn play<R: Threads + Wait + Sync + Abort>(
    rt: &R,
    alloc: Global,
    row: &Row,
) -> Result<(), AllocError> {
    let (words, text, status, output, blocks) = *row;
    let bytes = Vec::from_slice(alloc, text.as_bytes())?;
    let answer = answered(rt, alloc, words, bytes)?;
    same(rt, answer.status, status, 0);
    same(rt, answer.order.len(), blocks, 1);
    hold(rt, answer.has_usage == (status == Status::Usage), 2);
    hold(rt, answer.fault.is_some() == (status == Status::Input), 3);
    same(rt, answer.written.as_slice(), output.as_bytes(), 4);
    Ok(())
}

#[test]
fn texts_are_answered(rt: HostRuntime) -> Result<(), Fail> {
    for row in rows() {
        play(&rt, rt.alloc(), row)?;
    }
    Ok(())
}

#[test]
fn generated_inputs_are_summed_up(rt: HostRuntime) -> Result<(), Fail> {
    for row in generated() {
        play(&rt, rt.alloc(), row)?;
    }
    Ok(())
}

/// A run over a source and a sink that move so many bytes a call, and fail at these calls.
fn with_faults<R: Threads + Wait + Sync>(
    rt: &R,
    alloc: Global,
    words: &str,
    text: &str,
    per_call: usize,
    reads: &[u64],
    writes: &[u64],
) -> Result<Answer, AllocError>
    requires { 0 < per_call }
{
    let bytes = Vec::from_slice(alloc, text.as_bytes())?;
    let mut source = MemSource::new(bytes, per_call, Vec::from_slice(alloc, reads)?);
    let mut sink = MemSink::new(alloc, per_call, Vec::from_slice(alloc, writes)?);
    let answer = run_with(rt, alloc, words, &mut source, &mut sink)?;
    answer.with_written(alloc, sink.taken())
}

/// The same over the block and its row, by one worker.
fn one_with_faults<R: Threads + Wait + Sync>(
    rt: &R,
    alloc: Global,
    per_call: usize,
    reads: &[u64],
    writes: &[u64],
) -> Result<Answer, AllocError>
    requires { 0 < per_call }
{
    with_faults(rt, alloc, ONE, TEXT, per_call, reads, writes)
}

/// The report of the block.
fn report() -> &'static [u8] {
    REPORT.as_bytes()
}

#[test]
fn each_read_that_fails_ends_the_run(rt: HostRuntime) -> Result<(), Fail> {
    for call in 1..=75 {
        let answer = one_with_faults(&rt, rt.alloc(), 1, &[call], &[])?;
        same(
            &rt,
            answer.sizes(),
            (Status::ReadFault, 0, 0),
            call as usize,
        );
    }
    Ok(())
}

#[test]
fn each_write_that_fails_ends_the_run(rt: HostRuntime) -> Result<(), Fail> {
    for call in 1..=40 {
        let answer = one_with_faults(&rt, rt.alloc(), 1, &[], &[call])?;
        let written = (call - 1) as usize;
        same(
            &rt,
            answer.sizes(),
            (Status::WriteFault, 1, written),
            written,
        );
        hold(&rt, report().starts_with(&answer.written), written);
    }
    Ok(())
}

#[test]
fn a_byte_at_a_time_is_enough(rt: HostRuntime) -> Result<(), Fail> {
    let answer = one_with_faults(&rt, rt.alloc(), 1, &[], &[])?;
    same(&rt, answer.status, Status::Done, 0);
    same(&rt, answer.written.as_slice(), report(), 1);
    Ok(())
}

#[test]
fn a_part_is_written_before_a_fault(rt: HostRuntime) -> Result<(), Fail> {
    let answer = one_with_faults(&rt, rt.alloc(), 8, &[], &[2])?;
    same(&rt, answer.status, Status::WriteFault, 0);
    same(&rt, answer.written.as_slice(), b"512 1.1 ".as_slice(), 1);
    Ok(())
}

#[test]
fn no_order_is_answered_with_other_texts(rt: HostRuntime) -> Result<(), Fail> {
    let rows = [
        ("", "cicada 1\ndone"),
        (
            "--check",
            "cicada 1\nlane\nsnap\nend\ndone\n256 1.1 snap\ndone\n",
        ),
        ("--check", "cicada 1\nlane\nsnap\nend\ndone\ndone\n"),
    ];
    for (i, (words, text)) in rows.iter().enumerate() {
        let answer = with_faults(&rt, rt.alloc(), words, text, 1, &[], &[1])?;
        same(&rt, answer.sizes(), (Status::WriteFault, 0, 0), i);
        hold(&rt, answer.fault.is_none(), i);
    }
    Ok(())
}

#[test]
fn the_first_faulty_line_is_answered(rt: HostRuntime) -> Result<(), Fail> {
    let bytes = bytes_of(rt.alloc(), "cicada 1/table a/row b 1 1/done/")?;
    let answer = answered(&rt, rt.alloc(), "", bytes)?;
    same(&rt, answer.fault, Some((3, 3)), 0);
    Ok(())
}
