//! Several lanes on one pass.

ghost use Rattle.std.specs.Prelude.{◌≡◌, ◌<◌, ◌≤◌, true, false, Some, IsSome, IfOk, OnOk, IfSome, [], length, map};
ghost use Rattle.std.specs.Option.{IsSomeAnd};
ghost use Rattle.lane_runner.specs.Using.{MayUse};
ghost use Rattle.lane_runner.specs.Room.{HasRoom};
ghost use Rattle.lane_runner.specs.Session.{done_of};
ghost use Rattle.lane_runner.specs.Lanes.{AddsSome};
ghost use Rattle.lane_futures.specs.Lanes.{AreOver, HasOne, HasRoomLeft, BothThere, all_draws_left, all_tries, all_tries_left, MakesTurn, Leads, ComeTo, ComeToTheSame, tries_there};

use crate::running::Running;
use crate::seat::Seat;
use lane_runner::{LaneDone, Session};
use outside_io::{Meets, Reads};
use replay_model::NoMemory;
use std::alloc::Global;
use std::marker::Model;
use stored_tables::RowsLawful;
use txn_engine::{Engine, Pass};

/// Lanes that share a pass: each turn tries the next block of one of them. It owns the pass and its clock, and gives them back with what the
/// lanes come to. As a future it makes one turn at each poll.
#[derive(Drop)]
pub struct Lanes<'a, C, G> {
    /// There until a poll was ready.
    pub(crate) running: Option<Running<'a, C, G>>,
}

impl<'a, C, G> Model for Lanes<'a, C, G> {
    ghost use Rattle.std.specs.Prelude.{Option};
    ghost use Rattle.lane_futures.specs.Lanes.{LanesView};

    ghost Value = { Option LanesView };

    ghost view = { λ l. l.running };
}

impl<'a, C: Reads + Drop, G: Meets> Lanes<'a, C, G> {
    /// Of these sessions, on this pass. Room for what they come to is taken here; after `NoMemory` the run is given up.
    pub fn new(
        alloc: Global,
        engine: &'a Engine<RowsLawful>,
        pass: Pass<RowsLawful>,
        sessions: Vec<Session>,
        clock: C,
        gate: &'a G,
    ) -> Result<Lanes<'a, C, G>, NoMemory>
        requires pass { MayUse engine.now pass }
        requires room { HasRoom pass.clock (all_draws_left sessions.items) }
        ensures made { IfOk result (λ lanes. lanes ≡ Some (record { pass = pass; sessions = sessions.items; next = 0 })) }

        // So often at most there may be a further try: at each turn behind which there is a block to try, the tries left get fewer.
        ensures tries { all_tries_left sessions.items ≤ all_tries sessions.items }
    {
        let done = Vec::with_capacity(alloc, sessions.len())?;
        let seat = Seat { pass, clock };
        Ok(Lanes {
            running: Some(Running {
                engine,
                seat,
                sessions,
                done,
                gate,
                next: 0,
            }),
        })
    }

    /// One try, of the first session that has a block to try, from the one behind that which was tried last and round; where there is
    /// none, nothing is done. Says whether a session then has a block to try.
    ///
    /// A loop over turns needs room for all that the sessions may draw, once: a turn keeps room for the next one. The tries that are left get
    /// fewer, and what the lanes come to in the end stays the same.
    ///
    /// `NoMemory` gives the run up.
    pub fn turn(&mut self) -> Result<bool, NoMemory>
        requires { IsSomeAnd self.old HasRoomLeft }
        ensures turns { OnOk result (BothThere MakesTurn self.old self.new) }
        ensures leads { OnOk result (BothThere Leads self.old self.new) }
        ensures adds { BothThere (λ l m. AddsSome l.pass m.pass) self.old self.new }
        ensures more { IfOk result (λ more. more ≡ true → IsSomeAnd self.new (λ l. HasOne l.sessions)) }
        ensures over { IfOk result (λ more. more ≡ false → IsSomeAnd self.new AreOver) }
        ensures fewer { IfOk result (λ more. more ≡ true → tries_there self.new < tries_there self.old) }
        ensures room { OnOk result (IsSomeAnd self.new HasRoomLeft) }
        ensures same { OnOk result (ComeToTheSame self.old self.new) }
    {
        let Some(running) = &mut self.running else {
            unreachable!()
        };
        running.turn()
    }

    /// The pass and the clock, and what each lane has come to, in the order of the sessions.
    pub fn finish(self) -> (Pass<RowsLawful>, C, Vec<LaneDone>)
        requires { IsSomeAnd self AreOver }
        ensures done { IsSomeAnd self.entry (λ l. (result.0 ≡ l.pass) × (result.2.items ≡ map done_of l.sessions)) }
        ensures come { IsSomeAnd self.entry (λ l. ComeTo l result.0 result.2.items) }
    {
        let Some(running) = self.running else {
            unreachable!()
        };
        let (seat, done) = running.finish();
        (seat.pass, seat.clock, done)
    }
}
