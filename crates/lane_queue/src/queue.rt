//! The queue of lanes: filled before workers start, taken from by all of them, and closed once each has met its end.
ghost use Rattle.std.specs.Prelude.{◌≡◌, ◌<◌, ◌≤◌, ◌^◌, true, false, [], ◌∷◌, ◌++◌, length, List, IsNone, IfOk, IfSome, IfNone};
ghost use Rattle.std.specs.List.{AllByRecursion};
ghost use Rattle.std.specs.List.Sorted.{IsPermutation};
ghost use Rattle.lane_queue.specs.Subsequences.{IsSubsequence};
ghost use Rattle.lane_queue.specs.declared.lane.Lane.{Lane};
ghost use Rattle.lane_queue.specs.Passes.{numbered, taken_by, IsFresh, HasEnded, AreAll, AreOf, IsSamePass};

use crate::filling::{deal_all, put_ends, put_lanes};
use crate::lane::{Item, Lane};
use crate::pass::{ItemQueue, LanePass};
use crate::rule::{AllTaken, Gathers, Takes};
use plain_data::NoMemory;
use replay_model::Lanes;
use std::alloc::Global;
use std::marker::Model;
use std::sync::Wait;

/// Hands out lanes in their order. Workers share it by reference, and contracts see of it only which queue it is.
#[derive(Drop)]
pub struct LaneQueue {
    items: ItemQueue,
}

impl Model for LaneQueue {
    ghost use Rattle.atomic_table.specs.Seated.{TableId};

    ghost Value = { TableId };

    ghost view = { λ q. q.items.table.shared.table_id };
}

impl LaneQueue {
    /// Puts all lanes into a queue, in their order and with numbers from 1, and gives a pass for each of 1 to 64 workers.
    ///
    /// `NoMemory` comes where there is no room for the queue or for the passes; the lanes are dropped then.
    pub fn fill<R: Wait>(
        rt: &R,
        alloc: Global,
        lanes: Lanes,
        workers: u32,
    ) -> Result<(LaneQueue, Vec<LanePass>), NoMemory>
        requires workers { (1 ≤ workers) × (workers ≤ 64) }
        requires few { length lanes < 2 ^ 32 }
        ensures lanes { IfOk result (λ made. AreOf (numbered 1 lanes) made.1.items) }
        ensures count { IfOk result (λ made. length made.1.items ≡ workers) }
        ensures all { IfOk result (λ made. AreAll made.0 made.1.items) }
        ensures fresh { IfOk result (λ made. AllByRecursion IsFresh made.1.items) }
    {
        let lanes = lanes.into_vec();
        let capacity = lanes.len() + workers as usize;
        let (items, mut first) = ItemQueue::ruled(alloc, capacity)?;
        put_lanes(rt, &items, &mut first, lanes);
        put_ends(rt, &items, &mut first, workers);
        let passes = deal_all(alloc, &items, first, workers)?;
        Ok((LaneQueue { items }, passes))
    }

    /// Takes the next lane and appends it to the pass's list.
    ///
    /// `None` comes where no lane was left in the queue at a step that this pass made, and at every call from then on.
    pub fn take<R: Wait>(&self, rt: &R, pass: &mut LanePass) -> Option<Lane>
        requires { pass.old.queue ≡ self.now }
        ensures pass { IsSamePass pass.old pass.new }
        ensures some { IfSome result (λ lane. (pass.new.took ≡ pass.old.took ++ lane ∷ []) × (pass.new.ended ≡ false)) }
        ensures in_order { IfSome result (λ lane. IsSubsequence pass.new.took pass.new.lanes) }
        ensures none { IfNone result ((pass.new.took ≡ pass.old.took) × (pass.new.ended ≡ true)) }
        ensures stays { pass.old.ended ≡ true → IsNone result }
    {
        if pass.ended {
            return None;
        }
        match self.items.pop_as::<Takes, R>(rt, &mut pass.inner) {
            Some(Item::Next(lane)) => Some(lane),
            Some(Item::End) => {
                pass.ended = true;
                None
            }
            None => unreachable!(),
        }
    }

    /// Takes all passes back once each has answered `None`: their lists together hold each lane of the queue once.
    pub fn close<R: Wait>(self, _rt: &R, passes: Vec<LanePass>)
        requires all { AreAll self passes.items }
        requires ended { AllByRecursion HasEnded passes.items }
        ensures { (lanes : List Lane) → AreOf lanes passes.items → IsPermutation lanes (taken_by passes.items) }
    {
        let mut rest = passes.into_iter();
        let Some(first) = rest.next() else {
            unreachable!()
        };
        let LanePass {
            mut inner,
            ended: _,
        } = first;
        for other in rest {
            let LanePass {
                inner: other,
                ended: _,
            } = other;
            self.items.absorb::<Gathers>(&mut inner, other);
        }
        self.items.learn_as::<AllTaken>(&mut inner);
    }
}
