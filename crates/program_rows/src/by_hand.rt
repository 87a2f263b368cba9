//! Lanes by turns that the caller makes.

ghost use Rattle.std.specs.Prelude.{◌≤◌, IfOk, IsSomeAnd};
ghost use Rattle.lane_futures.specs.Lanes.{HasRoomLeft, ComeTo, all_draws_left};

use crate::blocks::{one_put, twice};
use crate::due::same;
use crate::seats::{one_seat, shared};
use lane_futures::{Lanes, Session};
use lane_runner::{LaneDone, run_lane};
use outside_io::{CountClock, OpenGate};
use replay_model::{Command, NoMemory};
use std::alloc::Global;
use std::test::Fail;
use stored_tables::RowsLawful;
use txn_engine::Pass;

/// A session of a lane that adds twice, and one of a lane that reads twice.
fn two_sessions(alloc: Global) -> Result<Vec<Session>, NoMemory>
    ensures { IfOk result (λ sessions. all_draws_left sessions.items ≤ 20) }
{
    let add = Command::Add {
        table: 0,
        key: 1,
        column: 1,
        by: 1,
    };
    let get = Command::Get {
        table: 0,
        key: 1,
        column: 1,
    };
    let mut sessions = Vec::new(alloc);
    sessions.push(Session::new(alloc, twice(alloc, 1, add)?, 3))?;
    sessions.push(Session::new(alloc, twice(alloc, 2, get)?, 3))?;
    Ok(sessions)
}

/// Makes turns until no lane has a block to try, and gives what the lanes come to.
fn turn_to_the_end(
    mut lanes: Lanes<'_, CountClock, OpenGate>,
) -> Result<(Pass<RowsLawful>, Vec<LaneDone>), NoMemory>
    requires { IsSomeAnd lanes HasRoomLeft }
    ensures { IfOk result (λ ran. IsSomeAnd lanes.entry (λ l. ComeTo l ran.0 ran.1.items)) }
{
    while lanes.turn()? {}
    let (pass, _clock, done) = lanes.finish();
    Ok((pass, done))
}

/// The stamps of a lane's results.
fn stamps_of(alloc: Global, done: &LaneDone) -> Result<Vec<u64>, NoMemory> {
    let mut stamps = Vec::new(alloc);
    for (placed, _) in done.results.as_slice() {
        stamps.push(placed.stamp)?;
    }
    Ok(stamps)
}

/// Each lane has its results in its order, and the turns go round: the second lane's stamps stand between those of the first.
#[test]
fn lanes_are_turned_by_hand(rt: HostRuntime) -> Result<(), Fail> {
    let alloc = rt.alloc();
    let (engine, alone) = one_seat(alloc, 4200, 12393)?;
    let mut passes = shared(alone, &engine);
    assert_eq!(rt; passes.len(), 1);
    let mut pass = passes.remove(0);
    run_lane(
        alloc,
        &engine,
        &mut pass,
        one_put(alloc, 100)?,
        &mut CountClock,
        &OpenGate,
        3,
    )?;
    let sessions = two_sessions(alloc)?;
    let lanes = Lanes::new(alloc, &engine, pass, sessions, CountClock, &OpenGate)?;
    let (_pass, done) = turn_to_the_end(lanes)?;
    let [one, other] = done.as_slice() else {
        panic!(rt; "there are results of two lanes");
    };
    same(
        &rt,
        stamps_of(alloc, one)?.as_slice(),
        [512, 1024].as_slice(),
        1,
    );
    same(
        &rt,
        stamps_of(alloc, other)?.as_slice(),
        [768, 1280].as_slice(),
        2,
    );
    Ok(())
}
