//! Puts the lanes and the ends into a new queue, and cuts its one pass into as many as there are workers.
ghost use Rattle.std.specs.Prelude.{◌≡◌, ◌<◌, ◌≤◌, ◌+◌, ◌^◌, true, false, [], length, IfOk};
ghost use Rattle.std.specs.List.{AllByRecursion};
ghost use Rattle.crossbeam_queue.specs.Passes.{IsPassOf, ruled_capacity};
ghost use Rattle.lane_queue.specs.declared.lane.Item.TheVariants.{Next, End};
ghost use Rattle.lane_queue.specs.View.{known, first_view, put_view, left_view, filled_view};
ghost use Rattle.lane_queue.specs.Passes.{numbered, IsFresh, AreAll, AreOf};

use crate::lane::{Item, Lane};
use crate::pass::{ItemPass, ItemQueue, LanePass};
use crate::rule::{Deals, Puts};
use plain_data::NoMemory;
use replay_model::Blocks;
use std::alloc::Global;
use std::sync::Wait;

// Puts a lane behind the others. There is room.
fn put_lane<R: Wait>(rt: &R, items: &ItemQueue, pass: &mut ItemPass, lane: Lane)
    requires pass { IsPassOf items.now pass.old }
    requires first { ((known pass.old).share ≡ 64) × ((known pass.old).ended ≡ false) × ((known pass.old).took ≡ []) }
    requires before_ends { (known pass.old).ends ≡ 0 }
    requires room { length (known pass.old).lanes < ruled_capacity items.now }
    ensures pass { IsPassOf items.now pass.new }
    ensures view { known pass.new ≡ put_view (known pass.old) (Next lane) }
{
    match items.push_as::<Puts, R>(rt, pass, Item::Next(lane)) {
        Ok(()) => {}
        Err(_) => unreachable!(),
    }
}

// Puts an end behind the others. There is room.
fn put_end<R: Wait>(rt: &R, items: &ItemQueue, pass: &mut ItemPass)
    requires pass { IsPassOf items.now pass.old }
    requires first { ((known pass.old).share ≡ 64) × ((known pass.old).took ≡ []) }
    requires room { length (known pass.old).lanes + (known pass.old).ends < ruled_capacity items.now }
    ensures pass { IsPassOf items.now pass.new }
    ensures view { known pass.new ≡ put_view (known pass.old) End }
{
    match items.push_as::<Puts, R>(rt, pass, Item::End) {
        Ok(()) => {}
        Err(_) => unreachable!(),
    }
}

/// Puts all lanes, with numbers from 1.
pub(crate) fn put_lanes<R: Wait>(rt: &R, items: &ItemQueue, pass: &mut ItemPass, lanes: Vec<Blocks>)
    requires pass { IsPassOf items.now pass.old }
    requires first { known pass.old ≡ first_view }
    requires few { length lanes.items < 2 ^ 32 }
    requires room { length lanes.items < ruled_capacity items.now }
    ensures pass { IsPassOf items.now pass.new }
    ensures view { known pass.new ≡ filled_view (numbered 1 lanes.items) 0 }
{
    let mut number = 0;
    for blocks in lanes {
        number += 1;
        put_lane(rt, items, pass, Lane { number, blocks });
    }
}

/// Puts an end for each worker.
pub(crate) fn put_ends<R: Wait>(rt: &R, items: &ItemQueue, pass: &mut ItemPass, workers: u32)
    requires pass { IsPassOf items.now pass.old }
    requires lanes { known pass.old ≡ filled_view (known pass.old).lanes 0 }
    requires room { length (known pass.old).lanes + workers ≤ ruled_capacity items.now }
    ensures pass { IsPassOf items.now pass.new }
    ensures view { known pass.new ≡ filled_view (known pass.old).lanes workers }
{
    for _ in 0..workers {
        put_end(rt, items, pass);
    }
}

// Cuts off a pass with one share and one end.
fn deal(items: &ItemQueue, pass: &mut ItemPass) -> LanePass
    requires pass { IsPassOf items.now pass.old }
    requires shares { 1 < (known pass.old).share }
    requires ends { 0 < (known pass.old).ends }
    requires single { (known pass.old).single ≡ true }
    ensures pass { IsPassOf items.now pass.new }
    ensures left { known pass.new ≡ left_view (known pass.old) }
    ensures made { result ≡ record { queue = items.now.table.shared.table_id; lanes = (known pass.old).lanes; share = 1; took = []; ended = false } }
{
    let inner = items.another::<Deals>(pass);
    LanePass {
        inner,
        ended: false,
    }
}

/// Makes a pass for each worker. The last one has what is left of the shares.
pub(crate) fn deal_all(
    alloc: Global,
    items: &ItemQueue,
    mut first: ItemPass,
    workers: u32,
) -> Result<Vec<LanePass>, NoMemory>
    requires workers { (0 < workers) × (workers ≤ 64) }
    requires pass { IsPassOf items.now first }
    requires filled { known first ≡ filled_view (known first).lanes workers }
    ensures count { IfOk result (λ passes. length passes.items ≡ workers) }
    ensures all { IfOk result (λ passes. AreAll items.now.table.shared.table_id passes.items) }
    ensures lanes { IfOk result (λ passes. AreOf (known first).lanes passes.items) }
    ensures fresh { IfOk result (λ passes. AllByRecursion IsFresh passes.items) }
{
    let mut passes = Vec::with_capacity(alloc, workers as usize)?;
    for _ in 1..workers {
        passes.push(deal(items, &mut first))?;
    }
    passes.push(LanePass {
        inner: first,
        ended: false,
    })?;
    Ok(passes)
}
