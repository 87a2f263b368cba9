//! The verdict on a report.

ghost use Rattle.std.specs.Prelude.{◌≡◌, IfOk, MatchOption};
ghost use Rattle.replay_model.specs.Input.{IsWellFormed};
ghost use Rattle.replay_model.specs.Order.{IsOrder};
ghost use Rattle.report_check.specs.declared.checking.Verdict.{Verdict};
ghost use Rattle.report_check.specs.Verdicts.{IsFirstFailed, IsVerdict};

use crate::comparing::line_apart;
use crate::printing::printed;
use replay_model::{
    Input, NoMemory, Placed, are_complete, are_named, lanes_are_kept, report as report_of,
    snaps_are_placed, stand_once, writers_rise,
};
use std::alloc::Global;

/// What is found of a report.
#[derive(Clone, Copy, PartialEq, Eq, Debug)]
pub enum Verdict {
    /// It prints an order of the input, and is the report of the input in that order.
    Yes,
    /// What it prints is no order of the input, and this is the first test of an order that fails: 1, each block printed is one of
    /// the input, with its kind; 2, none is printed twice; 3, none is missing; 4, the stamps of the transactions rise; 5, the
    /// snapshots stand behind the transactions that they see and before the others, and among one another by stamp, lane and
    /// number; 6, in each lane the transactions stand in the order of the text, and so do the snapshots.
    NoOrder(u32),
    /// It prints an order of the input, but is not the report in that order: the number of the first line on which the two are
    /// apart, counted from 1. It may be one more than the number of whole lines of either.
    NoLine(u64),
}

/// Whether a text is a report of the input.
///
/// The report may be any bytes, whoever wrote them: the order is read from its head lines, and the rest is made again from the
/// input and compared. The time is in proportion to the text and to the time of that replay, but for a logarithm.
pub fn check(alloc: Global, input: &Input, report: &[u8]) -> Result<Verdict, NoMemory>
    requires { IsWellFormed input.now }
    ensures verdict { IfOk result (IsVerdict input.now report.now) }
    // No other verdict holds of it.
    ensures alone { (a b : Verdict)
        → IsVerdict input.now report.now a → IsVerdict input.now report.now b → a ≡ b }
{
    let order = printed(alloc, input, report)?;
    let failed = failed_test(alloc, input, order.as_slice())?;
    if let Some(test) = failed {
        return Ok(Verdict::NoOrder(test));
    }
    let text = report_of(alloc, input, order.as_slice())?;
    if report == text.as_slice() {
        Ok(Verdict::Yes)
    } else {
        Ok(Verdict::NoLine(line_apart(report, text.as_slice())))
    }
}

/// The first test of an order that fails; none where it is an order of the input.
fn failed_test(alloc: Global, input: &Input, order: &[Placed]) -> Result<Option<u32>, NoMemory>
    ensures { IfOk result (λ failed. MatchOption failed
        (IsOrder input.now order.now)
        (IsFirstFailed input.now order.now)) }
{
    if !are_named(input, order) {
        return Ok(Some(1));
    }
    let once = stand_once(alloc, order)?;
    if !once {
        return Ok(Some(2));
    }
    let complete = are_complete(alloc, &input.lanes, order)?;
    if !complete {
        return Ok(Some(3));
    }
    if !writers_rise(order) {
        return Ok(Some(4));
    }
    if !snaps_are_placed(order) {
        return Ok(Some(5));
    }
    let kept = lanes_are_kept(alloc, order)?;
    if !kept {
        return Ok(Some(6));
    }
    Ok(None)
}
