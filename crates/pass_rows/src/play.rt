//! What is played on an engine: one function owns the engine of every test, since each such function is dear to prove.
ghost use Rattle.std.specs.Prelude.{◌≡◌, false};
ghost use Rattle.txn_engine.specs.Pass.{IsIdleOf};

use crate::alone::commit_and_settle;
use crate::calls::{Step, Told, make_all};
use crate::coming::{Size, begin, shared};
use crate::flights::{Flight, cross_on, fly_and_settle, fly_on};
use crate::{handing, limits, refused, stress, threads};
use histories::AnyState;
use std::alloc::{AllocError, Global};
use std::process::Abort;
use std::sync::Wait;
use std::test::Fail;
use std::thread::Threads;
use txn_engine::{Alone, Engine, Settled};

/// What is played.
#[derive(Clone, Copy, Drop)]
pub enum Piece<'a> {
    /// All seats touch all records.
    Largest,
    /// One pass commits so many times.
    Commits(u32),
    /// Every spare number is given out, and again after deletions.
    Spare,
    /// Commits of the seat that is alone, which then settles.
    Alone,
    /// Four passes on few records.
    Stress,
    /// Two passes, of which the first reads one record and the second another; whether both commit is due.
    Both(u32, u32, bool),
    /// Calls of the passes.
    Calls(&'a [Step]),
    /// A transaction of the first pass, and calls of the others.
    Flies(&'a Flight<'a>),
    /// That, and what then is settled.
    Settles(&'a Flight<'a>, Settled),
    /// Two transactions that cross, and what each one's end has to tell.
    Crosses((Told, Told)),
    /// A transaction that meets a pending version, where calls may be refused memory.
    MeetsPending,
    /// Transactions that ask for new numbers, where calls may be refused memory.
    AsksTwice,
    /// Spare numbers that go from the first pass to the second.
    Hands,
}

/// Plays on a new engine of so many seats.
pub fn play<R: Threads + Wait + Abort + Sync>(
    rt: &R,
    alloc: Global,
    seats: u32,
    size: Size,
    piece: Piece<'_>,
) -> Result<(), Fail> {
    let (engine, alone) = begin(alloc, seats, size)?;
    Ok(play_on(rt, alloc, &engine, alone, piece)?)
}

// Plays on an engine.
fn play_on<R: Threads + Wait + Abort + Sync>(
    rt: &R,
    alloc: Global,
    engine: &Engine<AnyState>,
    alone: Alone<AnyState>,
    piece: Piece<'_>,
) -> Result<(), AllocError>
    requires seat { IsIdleOf engine.now alone.pass }
    requires not_shared { alone.shared ≡ false }
{
    match piece {
        Piece::Largest => return limits::touch_all(rt, alloc, engine, alone),
        Piece::Commits(commits) => limits::commit_often(rt, engine, alone, commits),
        Piece::Spare => limits::give_out_all(rt, engine, alone),
        Piece::Alone => commit_and_settle(rt, engine, alone),
        Piece::Stress => return stress::run_and_check(rt, alloc, engine, alone),
        Piece::Both(first, second, due) => {
            threads::both_commit(rt, engine, alone, (first, second), due);
        }
        Piece::Calls(steps) => make_all(rt, engine, &mut shared(alone, engine), steps),
        Piece::Flies(flight) => {
            fly_on(rt, engine, alone, flight);
        }
        Piece::Settles(flight, due) => {
            return fly_and_settle(rt, alloc, engine, alone, flight, due);
        }
        Piece::Crosses(due) => cross_on(rt, engine, alone, due),
        Piece::MeetsPending => refused::meet_pending_on(rt, engine, alone),
        Piece::AsksTwice => refused::ask_twice_on(rt, engine, alone),
        Piece::Hands => handing::hand_on(rt, engine, alone),
    }
    Ok(())
}
