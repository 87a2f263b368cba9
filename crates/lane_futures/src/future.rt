//! Lanes as a future.

ghost use Rattle.std.specs.Prelude.{◌≡◌, ◌<◌, true, IfOk};
ghost use Rattle.std.specs.Option.{IsSomeAnd};
ghost use Rattle.futures.specs.Poll.{IfReady, OnPending};
ghost use Rattle.futures.specs.Task.{Covers, Keeps};
ghost use Rattle.lane_futures.specs.Lanes.{HasOne, HasRoomLeft, BothThere, tries_there, MakesTurn, TurnsLast, ComeTo};
ghost use Rattle.lane_futures.specs.Outputs.{EachOutput};

use crate::lanes::Lanes;
use futures::Future;
use futures::task::{Context, Poll};
use lane_runner::LaneDone;
use outside_io::{Meets, Reads};
use replay_model::NoMemory;
use stored_tables::RowsLawful;
use txn_engine::Pass;

/// One poll makes one turn. It is pending where a session then has a block to try, and has woken its own task then; else it is ready with
/// what the lanes have come to, or with `NoMemory`.
impl<'a, C: Reads + Drop, G: Meets> Future for Lanes<'a, C, G> {
    ghost use Rattle.std.specs.Prelude.{IfOk};
    ghost use Rattle.std.specs.Option.{IsSomeAnd};
    ghost use Rattle.lane_futures.specs.Lanes.{HasRoomLeft, ComeTo};

    type Output = Result<(Pass<RowsLawful>, C, Vec<LaneDone>), NoMemory>;

    ghost can_poll = { λ lanes. IsSomeAnd lanes HasRoomLeft };

    ghost gives = { λ lanes output. IfOk output (λ done. IsSomeAnd lanes (λ l. ComeTo l done.0 done.2.items)) };

    fn poll(&mut self, cx: &mut Context<'_>) -> Poll<Self::Output>
        requires { IsSomeAnd self.old HasRoomLeft }

        // One turn. It is pending where a session has a block to try behind it, and its own task is woken then.
        ensures turns { OnPending result (BothThere MakesTurn self.old self.new) }
        ensures pending { OnPending result (IsSomeAnd self.new (λ l. HasOne l.sessions)) }
        ensures fewer { OnPending result (tries_there self.new < tries_there self.old) }
        ensures woken { OnPending result (cx.new.is_woken ≡ true) }

        // Else it is ready with what the lanes have come to, or with `NoMemory`.
        ensures ready { IfReady result (λ output. IfOk output (λ done. IsSomeAnd self.old (λ l. TurnsLast l done.0 done.2.items))) }

        // What each future promises.
        ensures value { IfReady result (λ output. IfOk output (λ done. IsSomeAnd self.old (λ l. ComeTo l done.0 done.2.items))) }
        ensures again { OnPending result (IsSomeAnd self.new HasRoomLeft) }
        ensures same { OnPending result (EachOutput result (λ output. IfOk output (λ done. IsSomeAnd self.new (λ l. ComeTo l done.0 done.2.items))
            → IfOk output (λ done. IsSomeAnd self.old (λ l. ComeTo l done.0 done.2.items)))) }
        ensures registered { OnPending result (Covers cx.new (λ _. ⊥)) }
        ensures kept { Keeps cx.old cx.new }
    {
        match self.turn() {
            Ok(true) => cx.yield_now(),
            Ok(false) => {
                let Some(running) = self.running.take() else {
                    unreachable!()
                };
                let (seat, done) = running.finish();
                Poll::Ready(Ok((seat.pass, seat.clock, done)))
            }
            Err(fault) => Poll::Ready(Err(fault)),
        }
    }
}
