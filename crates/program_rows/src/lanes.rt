//! Lanes handed out by a queue.
ghost use Rattle.std.specs.Prelude.{◌≡◌, [], ◌∷◌, true, length, IfOk, IfSome, IfNone};
ghost use Rattle.std.specs.List.{AllByRecursion};
ghost use Rattle.lane_queue.specs.Passes.{AreAll, HasEnded, IsSamePass};

use crate::due::same;
use lane_queue::{LanePass, LaneQueue};
use replay_model::{Block, Blocks, Commands, Lanes, NoMemory};
use std::alloc::Global;
use std::sync::Wait;
use std::test::*;
use std::thread::{Threads, join};

fn one_block(alloc: Global, lane: u32) -> Result<Blocks, NoMemory> {
    let mut blocks = Blocks::new(alloc);
    blocks.push(Block {
        snap: false,
        lane,
        number: 1,
        commands: Commands::new(alloc),
    })?;
    Ok(blocks)
}

fn three_lanes(alloc: Global) -> Result<Lanes, NoMemory>
    ensures { IfOk result (λ lanes. length lanes ≡ 3) }
{
    let mut lanes = Lanes::new(alloc);
    lanes.push(one_block(alloc, 1)?)?;
    lanes.push(one_block(alloc, 2)?)?;
    lanes.push(one_block(alloc, 3)?)?;
    Ok(lanes)
}

// The two passes of a queue.
fn both(mut passes: Vec<LanePass>) -> (LanePass, LanePass)
    requires { length passes.items ≡ 2 }
    ensures { passes.items ≡ result.0 ∷ result.1 ∷ [] }
{
    let first = passes.remove(0);
    let second = passes.remove(0);
    (first, second)
}

// The number of the next lane; 0 in its place where its blocks are not those of that lane.
fn next<R: Wait>(rt: &R, queue: &LaneQueue, pass: &mut LanePass) -> Option<u32>
    requires { pass.old.queue ≡ queue.now }
    ensures pass { IsSamePass pass.old pass.new }
    ensures none { IfNone result (pass.new.ended ≡ true) }
{
    let lane = queue.take(rt, pass)?;
    if lane.blocks.len() == 1 && lane.blocks.get(0).lane == lane.number {
        Some(lane.number)
    } else {
        Some(0)
    }
}

type Taken = [Option<u32>; 3];

// All that a pass still gets, where these are three lanes at most.
fn take_all<R: Wait>(rt: &R, queue: &LaneQueue, pass: &mut LanePass) -> Option<Taken>
    requires { pass.old.queue ≡ queue.now }
    ensures pass { IsSamePass pass.old pass.new }
    ensures ended { IfSome result (λ _. pass.new.ended ≡ true) }
{
    let one = next(rt, queue, pass);
    let two = next(rt, queue, pass);
    let three = next(rt, queue, pass);
    match next(rt, queue, pass) {
        None => Some([one, two, three]),
        Some(_) => None,
    }
}

// Gives both passes back to the queue.
fn close_both<R: Wait>(
    rt: &R,
    alloc: Global,
    queue: LaneQueue,
    first: LanePass,
    second: LanePass,
) -> Result<(), NoMemory>
    requires all { AreAll queue (first ∷ second ∷ []) }
    requires ended { AllByRecursion HasEnded (first ∷ second ∷ []) }
{
    let mut passes = Vec::new(alloc);
    passes.push(first)?;
    passes.push(second)?;
    queue.close(rt, passes);
    Ok(())
}

// Takes two lanes by the first pass and one by the second, and gives both back once they have met the end. Nothing is
// answered where one of them meets none.
fn take_in_turn<R: Wait>(
    rt: &R,
    alloc: Global,
    queue: LaneQueue,
    mut first: LanePass,
    mut second: LanePass,
) -> Result<Option<Taken>, NoMemory>
    requires { AreAll queue (first ∷ second ∷ []) }
{
    let one = next(rt, &queue, &mut first);
    let two = next(rt, &queue, &mut first);
    let three = next(rt, &queue, &mut second);
    if next(rt, &queue, &mut first).is_some() || next(rt, &queue, &mut second).is_some() {
        return Ok(None);
    }
    close_both(rt, alloc, queue, first, second)?;
    Ok(Some([one, two, three]))
}

#[test]
fn lanes_are_handed_out_in_order(rt: HostRuntime) -> Result<(), Fail> {
    let lanes = three_lanes(rt.alloc())?;
    let (queue, passes) = LaneQueue::fill(&rt, rt.alloc(), lanes, 2)?;
    let (first, second) = both(passes);
    let taken = take_in_turn(&rt, rt.alloc(), queue, first, second)?;
    same(&rt, taken, Some([Some(1), Some(2), Some(3)]), 0);
    Ok(())
}

// Takes all by the second pass, then by the first, and gives both back.
fn take_by_the_second<R: Wait>(
    rt: &R,
    alloc: Global,
    queue: LaneQueue,
    mut first: LanePass,
    mut second: LanePass,
) -> Result<Option<(Taken, Taken)>, NoMemory>
    requires { AreAll queue (first ∷ second ∷ []) }
{
    let Some(by_second) = take_all(rt, &queue, &mut second) else {
        return Ok(None);
    };
    let Some(by_first) = take_all(rt, &queue, &mut first) else {
        return Ok(None);
    };
    close_both(rt, alloc, queue, first, second)?;
    Ok(Some((by_first, by_second)))
}

#[test]
fn no_lane_is_handed_out_of_an_empty_list(rt: HostRuntime) -> Result<(), Fail> {
    let (queue, passes) = LaneQueue::fill(&rt, rt.alloc(), Lanes::new(rt.alloc()), 2)?;
    let (first, second) = both(passes);
    let taken = take_by_the_second(&rt, rt.alloc(), queue, first, second)?;
    same(
        &rt,
        taken,
        Some(([None, None, None], [None, None, None])),
        0,
    );
    Ok(())
}

#[test]
fn a_pass_ends_at_once_where_there_are_more_passes_than_lanes(rt: HostRuntime) -> Result<(), Fail> {
    let mut lanes = Lanes::new(rt.alloc());
    lanes.push(one_block(rt.alloc(), 1)?)?;
    let (queue, passes) = LaneQueue::fill(&rt, rt.alloc(), lanes, 2)?;
    let (first, second) = both(passes);
    let taken = take_by_the_second(&rt, rt.alloc(), queue, first, second)?;
    same(
        &rt,
        taken,
        Some(([None, None, None], [Some(1), None, None])),
        0,
    );
    Ok(())
}

#[test]
fn sixty_four_workers_get_a_pass_each(rt: HostRuntime) -> Result<(), Fail> {
    let lanes = three_lanes(rt.alloc())?;
    let (queue, mut passes) = LaneQueue::fill(&rt, rt.alloc(), lanes, 64)?;
    assert_eq!(rt; passes.len(), 64);
    let last = run(&rt, &queue, passes.remove(63));
    same(&rt, last.taken, Some([Some(1), Some(2), Some(3)]), 1);
    Ok(())
}

// What a thread leaves: its pass, and the lanes that it took.
#[derive(Drop)]
struct Ended {
    pass: LanePass,
    taken: Option<Taken>,
}

// Takes all that the pass still gets.
fn run<R: Wait>(rt: &R, queue: &LaneQueue, mut pass: LanePass) -> Ended
    requires { pass.queue ≡ queue.now }
    ensures pass { IsSamePass pass result.pass }
    ensures ended { IfSome result.taken (λ _. result.pass.ended ≡ true) }
{
    let taken = take_all(rt, queue, &mut pass);
    Ended { pass, taken }
}

// Two threads take at once, and both passes are given back.
fn take_at_once<R: Threads + Wait + Sync>(
    rt: &R,
    alloc: Global,
    queue: LaneQueue,
    first: LanePass,
    second: LanePass,
) -> Result<Option<(Taken, Taken)>, NoMemory>
    requires { AreAll queue (first ∷ second ∷ []) }
{
    let shared = &queue;
    let (first, second) = join(
        rt,
        move || -> Ended
            requires { first.queue ≡ shared.now }
            ensures { IsSamePass first result.pass × IfSome result.taken (λ _. result.pass.ended ≡ true) }
        { run(rt, shared, first) },
        move || -> Ended
            requires { second.queue ≡ shared.now }
            ensures { IsSamePass second result.pass × IfSome result.taken (λ _. result.pass.ended ≡ true) }
        { run(rt, shared, second) },
    );
    let (Some(by_first), Some(by_second)) = (first.taken, second.taken) else {
        return Ok(None);
    };
    close_both(rt, alloc, queue, first.pass, second.pass)?;
    Ok(Some((by_first, by_second)))
}

#[test]
fn two_threads_take_each_lane_once(rt: HostRuntime) -> Result<(), Fail> {
    let lanes = three_lanes(rt.alloc())?;
    let (queue, passes) = LaneQueue::fill(&rt, rt.alloc(), lanes, 2)?;
    let (first, second) = both(passes);
    let taken = take_at_once(&rt, rt.alloc(), queue, first, second)?;
    let (mine, theirs) = taken.unwrap_or(([None; 3], [None; 3]));
    let mut numbers = mine.to_vec(rt.alloc())?;
    numbers.extend_from_slice(&theirs)?;
    numbers.sort()?;
    let each_once = [None, None, None, Some(1), Some(2), Some(3)];
    same(&rt, numbers.as_slice(), each_once.as_slice(), 0);
    Ok(())
}
