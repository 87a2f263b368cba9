//! The sessions of a pass, as they run.

ghost use Rattle.std.specs.Prelude.{◌≡◌, ◌≢◌, ◌<◌, ◌≤◌, [], length, true, false, All, IfOk, IfSome, IfNone, OnOk, map};
ghost use Rattle.std.specs.Vec.{vec_capacity};
ghost use Rattle.lane_runner.specs.Session.{done_of};
ghost use Rattle.lane_runner.specs.Lanes.{AddsSome};
ghost use Rattle.lane_futures.specs.Lanes.{AreOver, HasOne, HasRoomLeft, IsInTurn, TakesTurn, MakesTurn, Leads, ComeTo, all_tries_left};

use crate::seat::Seat;
use lane_runner::{LaneDone, Session};
use outside_io::{Meets, Reads};
use replay_model::NoMemory;
use std::marker::Model;
use stored_tables::RowsLawful;
use txn_engine::Engine;

/// Sessions on one pass, and with what they run.
#[derive(Drop)]
pub(crate) struct Running<'a, C, G> {
    pub(crate) engine: &'a Engine<RowsLawful>,
    pub(crate) seat: Seat<C>,
    pub(crate) sessions: Vec<Session>,
    /// Room for what the sessions come to.
    pub(crate) done: Vec<LaneDone>,
    pub(crate) gate: &'a G,
    /// The place behind that of the session that was tried last.
    pub(crate) next: usize,
}

impl<'a, C, G> Model for Running<'a, C, G> {
    ghost use Rattle.std.specs.Prelude.{◌≡◌, ◌≤◌, [], length};
    ghost use Rattle.std.specs.Vec.{vec_capacity};
    ghost use Rattle.lane_runner.specs.Using.{MayUse};
    ghost use Rattle.lane_futures.specs.Lanes.{LanesView};

    ghost Value = { LanesView };

    ghost view = { λ r. record { pass = r.seat.pass; sessions = r.sessions.items; next = r.next } };

    ghost invariant = { λ r. MayUse r.engine.now r.seat.pass × (r.next ≤ length r.sessions.items) × (r.done.items ≡ []) × (length r.sessions.items ≤ vec_capacity r.done) };
}

impl<'a, C: Reads + Drop, G: Meets> Running<'a, C, G> {
    /// The place of the session whose turn it is.
    fn in_turn(&self) -> Option<usize>
        ensures some { IfSome result (IsInTurn self.now.next self.now.sessions) }
        ensures none { IfNone result (AreOver self.now) }
    {
        for place in self.next..self.sessions.len() {
            if self.sessions[place].has_next() {
                return Some(place);
            }
        }
        for place in 0..self.next {
            if self.sessions[place].has_next() {
                return Some(place);
            }
        }
        None
    }

    /// One try, of the session at this place, whose turn it is.
    fn attempt_at(&mut self, place: usize) -> Result<(), NoMemory>
        requires in_turn { IsInTurn self.old.next self.old.sessions place }
        requires room { HasRoomLeft self.old }
        ensures takes { OnOk result (TakesTurn self.old self.new) }
        ensures leads { OnOk result (Leads self.old self.new) }
        ensures adds { AddsSome self.old.pass self.new.pass }
        ensures fewer { OnOk result (all_tries_left self.new.sessions < all_tries_left self.old.sessions) }
    {
        self.sessions[place].attempt(
            self.engine,
            &mut self.seat.pass,
            &mut self.seat.clock,
            self.gate,
        )?;
        self.next = place + 1;
        Ok(())
    }

    /// One try, of the session whose turn it is. Says whether a session then has a block to try.
    pub(crate) fn turn(&mut self) -> Result<bool, NoMemory>
        requires { HasRoomLeft self.old }
        ensures turns { OnOk result (MakesTurn self.old self.new) }
        ensures leads { OnOk result (Leads self.old self.new) }
        ensures adds { AddsSome self.old.pass self.new.pass }
        ensures more { IfOk result (λ more. more ≡ true → HasOne self.new.sessions) }
        ensures over { IfOk result (λ more. more ≡ false → AreOver self.new) }
        ensures fewer { IfOk result (λ more. more ≡ true → all_tries_left self.new.sessions < all_tries_left self.old.sessions) }
        ensures room { OnOk result (HasRoomLeft self.new) }
    {
        let _ = &self.engine;
        let Some(place) = self.in_turn() else {
            return Ok(false);
        };
        self.attempt_at(place)?;
        Ok(self.in_turn().is_some())
    }

    /// How often other threads should get the chance to run before the next try.
    pub(crate) fn pause(&self) -> u32 {
        match self.in_turn() {
            Some(place) => self.sessions[place].pause(),
            None => 0,
        }
    }

    /// What it ran with, and what each session has come to. It takes no memory.
    pub(crate) fn finish(self) -> (Seat<C>, Vec<LaneDone>)
        ensures pass { result.0.pass ≡ self.entry.pass }
        ensures done { result.1.items ≡ map done_of self.entry.sessions }
        ensures come { AreOver self.entry → ComeTo self.entry result.0.pass result.1.items }
    {
        let done = all_done(self.sessions, self.done);
        (self.seat, done)
    }
}

/// What each session has come to, in their order, in a list that has room for it.
fn all_done(sessions: Vec<Session>, mut done: Vec<LaneDone>) -> Vec<LaneDone>
    requires none { done.items ≡ [] }
    requires room { length sessions.items ≤ vec_capacity done }
    ensures { result.items ≡ map done_of sessions.items }
{
    for session in sessions {
        let Ok(()) = done.push(session.finish()) else {
            unreachable!()
        };
    }
    done
}
