//! Taking back what is older than a commit.
ghost use Rattle.std.specs.Prelude.{◌<◌, OnOk, IfOk};
ghost use Rattle.core_rule.specs.Hands.{IsReady};
ghost use Rattle.core_rule.specs.Searching.{Ends};
ghost use Rattle.rapid_gc.specs.Queues.{AreCommitted};

use crate::due::same;
use crate::tables::first_seat;
use crate::validation::{begin, write_one};
use core_rule::{AnyState, Core, Hand};
use rapid_gc::{Collected, Queue, collect};
use std::alloc::Global;
use std::test::*;
use version_pool::{Kind, take};

// Runs a transaction at stamp 256 that writes record 0, and gives the queue with that write alone.
fn write_and_queue(
    alloc: Global,
    core: &Core<AnyState>,
    hand: &mut Hand<AnyState>,
) -> Result<Queue, Fail>
    requires ready { IsReady core.now hand.old }
    requires ends { Ends hand.old.view.work }
    requires record { 0 < core.now.size.records }
    ensures ready { IsReady core.now hand.new }
    ensures ends { OnOk result (Ends hand.new.view.work) }
    ensures committed { IfOk result (λ queue. AreCommitted core.now.size.records hand.new.view.log queue.items) }
{
    let mut queue = Queue::new(alloc);
    queue.reserve(1)?;
    let (sets, stamp) = begin(alloc, core, hand, 1)?;
    if stamp.number() != 256 {
        return Err("it is the first stamp".into());
    }
    let Ok(()) = write_one(core, hand, sets, 0)? else {
        return Err("it is alone".into());
    };
    queue.add(0, stamp.number());
    Ok(queue)
}

// Collects by a queue, which stays fit for the next collection.
fn collect_once(core: &Core<AnyState>, hand: &mut Hand<AnyState>, queue: &mut Queue) -> Collected
    requires ready { IsReady core.now hand.old }
    requires ends { Ends hand.old.view.work }
    requires committed { AreCommitted core.now.size.records hand.old.view.log queue.old.items }
    ensures ready { IsReady core.now hand.new }
    ensures ends { Ends hand.new.view.work }
    ensures committed { AreCommitted core.now.size.records hand.new.view.log queue.new.items }
{
    collect(core, hand, queue)
}

#[test]
fn what_is_older_than_a_commit_is_taken_back(rt: HostRuntime) -> Result<(), Fail> {
    let (core, mut hand) = first_seat(rt.alloc(), 1, 2, 2)?;
    let mut queue = write_and_queue(rt.alloc(), &core, &mut hand)?;
    let nothing = Collected {
        cut: 0,
        dropped: 0,
        late: 0,
        locked: 0,
        places: 0,
    };
    let done = Collected {
        cut: 1,
        places: 1,
        ..nothing
    };
    same(&rt, collect_once(&core, &mut hand, &mut queue), done, 0);
    same(&rt, collect_once(&core, &mut hand, &mut queue), nothing, 1);
    same(&rt, take(&core, &mut hand, 0), Ok((0, Kind::Inline)), 2);
    Ok(())
}
