//! What a pass does after a refusal, so that its clock keeps up with those of the others before the next try.
//!
//! A clock that counts rises by one at each try, while the seat in the way may be ahead by as many clocks as it has made transactions. So the
//! pass hears the stamp that refused it, and adopts the clocks of all others before a further try.

ghost use Rattle.std.specs.Prelude.{◌≡◌, ◌<◌, ◌≤◌, ◌^◌, Option, IsSome};
ghost use Rattle.txn_engine.specs.Pass.{IsIdleOf};
ghost use Rattle.lane_runner.specs.Room.{clock_after};
ghost use Rattle.lane_runner.specs.Blocks.{IsRefused};
ghost use Rattle.lane_runner.specs.Ending.{ran};

use crate::done::BlockDone;
use stamp_base::GREATEST_ADOPTED_CLOCK;
use std::thread;
use stored_tables::RowsLawful;
use txn_engine::{Engine, Pass, Seat};
use validate_core::Conflict;

/// How often other threads get the chance to run before the next try of a block that was refused so often: up to nine refusals each pause is
/// twice as long as the one before, and then each is one yield. So the pauses of a block are bounded by 1,022 yields and one for each try.
pub(crate) fn yields_before(refused: u32) -> u32
    ensures first { refused ≡ 0 → result ≡ 0 }
    ensures doubled { 0 < refused → refused ≤ 9 → result ≡ 2 ^ refused }
    ensures later { 9 < refused → result ≡ 1 }
{
    match refused {
        0 => 0,
        1..=9 => 1 << refused,
        _ => 1,
    }
}

/// Lets other threads run so many times. It waits for none of them.
pub fn give_way(yields: u32) {
    for _ in 0..yields {
        thread::yield_now();
    }
}

/// Hears the stamp that a conflict names, so that the next try comes after it. A stamp beyond the clocks that are adopted of others is not
/// heard.
fn hear_of(engine: &Engine<RowsLawful>, pass: &mut Pass<RowsLawful>, conflict: &Conflict)
    requires pass { IsIdleOf engine.now pass.old }
    ensures none { IsRefused 0 pass.old pass.new }
    ensures queue { pass.new.queue ≡ pass.old.queue }
    ensures clock { pass.new.clock ≤ clock_after pass.old.clock 0 }
{
    let stamp = conflict.stamp();
    if stamp.clock() <= GREATEST_ADOPTED_CLOCK {
        pass.hear(engine, stamp);
    }
}

/// What a try came to: where another transaction was in the way, its stamp is heard.
pub(crate) fn hear_refusal(
    engine: &Engine<RowsLawful>,
    pass: &mut Pass<RowsLawful>,
    answer: Result<BlockDone, Option<Conflict>>,
) -> Option<BlockDone>
    requires pass { IsIdleOf engine.now pass.old }
    ensures same { result ≡ ran answer }
    ensures done { IsSome (ran answer) → pass.new ≡ pass.old }
    ensures none { IsRefused 0 pass.old pass.new }
    ensures queue { pass.new.queue ≡ pass.old.queue }
    ensures clock { pass.new.clock ≤ clock_after pass.old.clock 0 }
{
    match answer {
        Ok(done) => Some(done),
        Err(Some(conflict)) => {
            hear_of(engine, pass, &conflict);
            None
        }
        Err(None) => None,
    }
}

/// Synchronises the pass with each other seat once, from the one after its own on and round. With one seat there is none.
pub(crate) fn sync_with_others(engine: &Engine<RowsLawful>, pass: &mut Pass<RowsLawful>)
    requires pass { IsIdleOf engine.now pass.old }
    ensures none { IsRefused 0 pass.old pass.new }
    ensures queue { pass.new.queue ≡ pass.old.queue }
    ensures clock { pass.new.clock ≤ clock_after pass.old.clock 0 }
{
    let seats = engine.seats();
    for steps in 1..seats {
        pass.sync(engine, (pass.seat() + steps) % seats);
    }
}
