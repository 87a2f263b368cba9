//! The lanes that a worker takes at a time.

ghost use Rattle.std.specs.Prelude.{◌≡◌, ◌<◌, ◌≤◌, [], All, IfOk, length};
ghost use Rattle.std.specs.Vec.{vec_capacity};
ghost use Rattle.lane_queue.specs.Passes.{IsSamePass, HasEnded};
ghost use Rattle.lane_threads.specs.Workers.{MayRunLane};
ghost use Rattle.lane_futures.specs.Groups.{Takes, lanes_at_a_time};

use lane_queue::{LanePass, LaneQueue};
use lane_runner::{LaneDone, Session};
use replay_model::NoMemory;
use std::alloc::Global;
use std::sync::Wait;

/// How many lanes a worker takes at a time: its part of all lanes, rounded up, but at least one and at most four.
pub(crate) fn group_size(lanes: usize, workers: u32) -> u32
    requires { 1 ≤ workers }
    ensures { result ≡ lanes_at_a_time lanes workers }
{
    lanes.div_ceil(workers as usize).clamp(1, 4) as u32
}

/// Lanes that a worker has taken, with room for what they come to.
#[derive(Drop)]
pub(crate) struct Group {
    pub(crate) sessions: Vec<Session>,
    pub(crate) room: Vec<LaneDone>,
}

/// Takes as many lanes as there are, so many at most, and begins a session of each.
pub(crate) fn take_group<R: Wait>(
    rt: &R,
    alloc: Global,
    queue: &LaneQueue,
    taker: &mut LanePass,
    most: u32,
    tries: u32,
) -> Result<Group, NoMemory>
    requires queue { taker.old.queue ≡ queue.now }
    requires lanes { All MayRunLane taker.old.lanes }
    ensures same { IsSamePass taker.old taker.new }
    ensures takes { IfOk result (λ group. Takes tries taker.old taker.new group.sessions.items) }
    ensures few { IfOk result (λ group. length group.sessions.items ≤ most) }
    ensures ended { IfOk result (λ group. length group.sessions.items < most → HasEnded taker.new) }
    ensures empty { IfOk result (λ group. group.room.items ≡ []) }
    ensures enough { IfOk result (λ group. length group.sessions.items ≤ vec_capacity group.room) }
{
    let mut sessions = Vec::new(alloc);
    for _ in 0..most {
        let Some(lane) = queue.take(rt, taker) else {
            break;
        };
        sessions.push(Session::new(alloc, lane, tries))?;
    }
    let room = Vec::with_capacity(alloc, sessions.len())?;
    Ok(Group { sessions, room })
}
