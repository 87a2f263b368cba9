//! What the faults of an engine's start and of a transaction's begin display.
use crate::due::{hold, is_shown};
use engine_answers::{BeginFault, StartFault};
use std::alloc::AllocError;
use std::test::*;

#[test]
fn faults_display_their_words(rt: HostRuntime) -> Result<(), AllocError> {
    hold(&rt, is_shown(rt.alloc(), &StartFault::Limit, "limit")?, 0);
    let no_memory = is_shown(rt.alloc(), &StartFault::NoMemory, "no memory")?;
    hold(&rt, no_memory, 1);
    let clock_out = is_shown(rt.alloc(), &BeginFault::ClockOut, "clock out")?;
    hold(&rt, clock_out, 2);
    let none_to_begin = is_shown(rt.alloc(), &BeginFault::NoMemory, "no memory")?;
    hold(&rt, none_to_begin, 3);
    Ok(())
}
