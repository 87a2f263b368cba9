//! A lane that is run where there is no place for what it writes.

ghost use Rattle.std.specs.Prelude.{◌≡◌};
ghost use Rattle.program_rows.specs.Seats.{IsSeat};

use crate::blocks::one_put;
use crate::due::same;
use crate::seats::{one_seat, shared};
use lane_runner::run_lane;
use outside_io::{CountClock, OpenGate};
use replay_model::NoMemory;
use std::alloc::Global;
use std::test::Fail;
use stored_tables::RowsLawful;
use txn_engine::{Engine, Pass};

/// How many results and how many blocks that remain the lane leaves with three tries, how many tries were refused, and the last stamp.
fn after_three_tries(
    alloc: Global,
    engine: &Engine<RowsLawful>,
    pass: &mut Pass<RowsLawful>,
) -> Result<(usize, usize, u64, u64), NoMemory>
    requires seat { IsSeat engine.now pass.old }
    requires fixed { engine.now.fixed ≡ 4112 }
{
    let lane = one_put(alloc, 5)?;
    let done = run_lane(alloc, engine, pass, lane, &mut CountClock, &OpenGate, 3)?;
    Ok((
        done.results.len(),
        done.rest.len(),
        pass.refusals(),
        pass.last().number(),
    ))
}

/// The engine has two places beside one for each record. A row takes more than that, so each of the tries is refused; the last one draws the clock 1025.
#[test]
fn a_block_that_finds_no_place_remains(rt: HostRuntime) -> Result<(), Fail> {
    let (engine, alone) = one_seat(rt.alloc(), 4120, 2)?;
    let mut passes = shared(alone, &engine);
    assert_eq!(rt; passes.len(), 1);
    let mut pass = passes.remove(0);
    let left = after_three_tries(rt.alloc(), &engine, &mut pass)?;
    same(&rt, left, (0, 1, 3, 262400), 0);
    Ok(())
}
