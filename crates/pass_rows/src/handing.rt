//! Spare numbers that go from one pass to another.
ghost use Rattle.std.specs.Prelude.{◌≡◌, ◌<◌, false};
ghost use Rattle.txn_engine.specs.Pass.{IsIdleOf};

use crate::coming::{shared, take_two};
use crate::due::same;
use crate::play::{Piece, play};
use histories::AnyState;
use std::process::Abort;
use std::test::Fail;
use txn_engine::{Alone, Engine, Pass};

// One number goes from the first pass to the second, which has it once then, also where it is handed in again.
fn hand<R: Abort>(
    rt: &R,
    engine: &Engine<AnyState>,
    first: &mut Pass<AnyState>,
    second: &mut Pass<AnyState>,
    step: usize,
)
    requires step { step < 3 }
    requires first { IsIdleOf engine.now first.old }
    requires second { IsIdleOf engine.now second.old }
    ensures first { IsIdleOf engine.now first.new }
    ensures second { IsIdleOf engine.now second.new }
{
    let parted = first.part_with();
    if let Some(rid) = parted {
        second.take_in(rid);
        second.take_in(rid);
    }
    let due = [(Some(4), 1, 3), (Some(2), 0, 4), (None, 0, 4)];
    same(rt, (parted, first.spare(), second.spare()), due[step], step);
}

/// The first of two passes hands over all that it has.
pub fn hand_on<R: Abort>(rt: &R, engine: &Engine<AnyState>, alone: Alone<AnyState>)
    requires seat { IsIdleOf engine.now alone.pass }
    requires not_shared { alone.shared ≡ false }
{
    let mut passes = shared(alone, engine);
    let (mut first, mut second) = take_two(rt, &mut passes, engine);
    hand(rt, engine, &mut first, &mut second, 0);
    hand(rt, engine, &mut first, &mut second, 1);
    hand(rt, engine, &mut first, &mut second, 2);
    same(rt, (first.queued(), second.queued()), (0, 0), 3);
}

#[test]
fn spare_numbers_go_from_pass_to_pass(rt: HostRuntime) -> Result<(), Fail> {
    play(&rt, rt.alloc(), 2, (6, 2, 4), Piece::Hands)
}
