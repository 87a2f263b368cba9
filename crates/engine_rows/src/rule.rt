//! Steps of hands under the rule.
ghost use Rattle.std.specs.Prelude.{◌≡◌, ◌<◌, ◌≤◌, [], ◌∷◌, None, IfSome};
ghost use Rattle.std.specs.Bool.{OnTrue};
ghost use Rattle.stamp_base.specs.Limits.{greatest_clock};
ghost use Rattle.stamp_base.specs.Stamp.{bound_of_clock};
ghost use Rattle.word_layout.specs.Size.{places};
ghost use Rattle.core_rule.specs.View.{writing, no_work};
ghost use Rattle.core_rule.specs.Views.{Has};
ghost use Rattle.core_rule.specs.Hands.{IsHandOf, IsReady, IsRetired};
ghost use Rattle.core_rule.specs.Searching.{Ends};
ghost use Rattle.core_rule.specs.Versions.{read_version};

use crate::due::{hold, same};
use crate::tables::{first_seat, two_seats};
use core_rule::{AnyState, Core, Hand, ReadVersion, Status};
use stamp_base::Stamp;
use std::test::Fail;
use std::thread::join;

/// Publishes the stamp of clock 20, at which nothing has been done yet.
pub fn publish(core: &Core<AnyState>, hand: &mut Hand<AnyState>) -> Stamp
    requires ready { IsReady core.now hand.old }
    requires ends { Ends hand.old.view.work }
    requires clock { hand.old.view.clock.clock ≡ 0 }
    ensures ready { IsReady core.now hand.new }
    ensures in_flight { hand.new.view.flight ≡ writing result }
    ensures begins { hand.new.view.work ≡ no_work }
    ensures rises { hand.new.view.published.write < bound_of_clock hand.new.view.clock.clock }
{
    core.publish_stamp(hand, 20)
}

// A seat that draws one stamp, ends and retires.
fn draw_and_retire(core: &Core<AnyState>, mut hand: Hand<AnyState>, clock: u64) -> Hand<AnyState>
    requires ready { IsReady core.now hand }
    requires holds_none { hand.view.places.held ≡ [] }
    requires ends { Ends hand.view.work }
    requires later { hand.view.clock.clock < clock }
    requires in_range { clock ≤ greatest_clock }
    ensures hand_of { IsHandOf core.now result }
    ensures retired { IsRetired result.view }
    ensures ends { Ends result.view.work }
{
    core.publish_stamp(&mut hand, clock);
    core.publish_idle(&mut hand);
    core.retire_write(&mut hand);
    core.retire_read(&mut hand);
    hand
}

// Adopts a clock, hears a stamp and publishes a bound, and gives what each of these answers.
fn look_and_rest(core: &Core<AnyState>, hand: &mut Hand<AnyState>, stamp: Stamp) -> [u64; 3]
    requires ready { IsReady core.now hand.old }
    requires seat { 0 < core.now.size.seats }
    requires begins { hand.old.view.work ≡ no_work }
    requires rises { hand.old.view.published.write < bound_of_clock hand.old.view.clock.clock }
    ensures ready { IsReady core.now hand.new }
    ensures ends { Ends hand.new.view.work }
{
    let adopted = core.adopt_clock(hand, 0);
    let heard = core.hear(hand, stamp);
    [adopted, heard, core.publish_idle(hand)]
}

// Raises the write minimum of a table with one seat, and publishes the bound below it: what the words were, and the bound.
fn raise_writes(core: &Core<AnyState>, hand: &mut Hand<AnyState>) -> [u64; 3]
    requires ready { IsReady core.now hand.old }
    requires ends { Ends hand.old.view.work }
    requires alone { core.now.size.seats ≡ 1 }
    ensures ready { IsReady core.now hand.new }
{
    let least = core.scan_writes(hand, 0);
    let raised = core.raise_min_write(hand, least);
    let loaded = core.load_min_write(hand);
    [least, raised, core.publish_bound(hand, loaded)]
}

// Raises the read minimum of a table with one seat: what it was before and is then.
fn raise_reads(core: &Core<AnyState>, hand: &mut Hand<AnyState>) -> [u64; 2]
    requires ready { IsReady core.now hand.old }
    requires alone { core.now.size.seats ≡ 1 }
{
    let least = core.scan_reads(hand, 0);
    let raised = core.raise_min_read(hand, least);
    [raised, core.load_min_read(hand)]
}

#[test]
fn one_seat_makes_each_step(rt: HostRuntime) -> Result<(), Fail> {
    let (core, mut hand) = first_seat(rt.alloc(), 1, 1, 1)?;
    same(&rt, (hand.number(), hand.clock()), (0, 0), 0);
    let published = (hand.published_write(), hand.published_read());
    same(&rt, published, (1, 0), 1);
    same(&rt, core.layout().words(), 79, 2);
    let stamp = publish(&core, &mut hand);
    let looks = look_and_rest(&core, &mut hand, stamp);
    let writes = raise_writes(&core, &mut hand);
    let reads = raise_reads(&core, &mut hand);
    same(&rt, stamp.number(), 5120, 3);
    same(&rt, looks, [5120, 5120, 5184], 4);
    same(&rt, writes, [5184, 1, 5183], 5);
    same(&rt, reads, [0, 5183], 6);
    same(&rt, hand.clock(), 20, 7);
    Ok(())
}

// Publishes the stamp of clock 20, and enters a commit at it that has neither read nor written.
fn decide_without_reads(core: &Core<AnyState>, hand: &mut Hand<AnyState>) -> u64
    requires ready { IsReady core.now hand.old }
    requires ends { Ends hand.old.view.work }
    requires clock { hand.old.view.clock.clock ≡ 0 }
    ensures ready { IsReady core.now hand.new }
    ensures ends { Ends hand.new.view.work }
    ensures rises { hand.new.view.published.write < bound_of_clock hand.new.view.clock.clock }
{
    core.publish_stamp(hand, 20);
    core.decide_bare(hand)
}

// Publishes the bound of the clock, and enters a snapshot that has read nothing.
fn finish_without_reads(core: &Core<AnyState>, hand: &mut Hand<AnyState>) -> [u64; 2]
    requires ready { IsReady core.now hand.old }
    requires ends { Ends hand.old.view.work }
    requires rises { hand.old.view.published.write < bound_of_clock hand.old.view.clock.clock }
{
    [core.publish_idle(hand), core.finish(hand)]
}

#[test]
fn entries_without_reads_and_writes(rt: HostRuntime) -> Result<(), Fail> {
    let (core, mut hand) = first_seat(rt.alloc(), 1, 1, 1)?;
    same(&rt, decide_without_reads(&core, &mut hand), 5120, 0);
    same(&rt, finish_without_reads(&core, &mut hand), [5184, 0], 1);
    Ok(())
}

// Searches record 0, and gives the stamp of the version from the start, which is absent.
fn find_absent(core: &Core<AnyState>, hand: &mut Hand<AnyState>, stamp: Stamp) -> Option<u64>
    requires ready { IsReady core.now hand.old }
    requires record { 0 < core.now.size.records }
    requires in_flight { hand.old.view.flight ≡ writing stamp }
    requires begins { hand.old.view.work ≡ no_work }
    requires rises { hand.old.view.published.write < bound_of_clock hand.old.view.clock.clock }
    ensures ready { IsReady core.now hand.new }
    ensures in_flight { hand.new.view.flight ≡ writing stamp }
    ensures rises { hand.new.view.published.write < bound_of_clock hand.new.view.clock.clock }
    ensures found { IfSome result (λ version. hand.new.view.work ≡ record no_work { reads = read_version 0 0 version None ∷ [] }) }
    ensures early { IfSome result (λ version. version < stamp) }
{
    if core.load_head(hand, 0) != 1 {
        return None;
    }
    let version = core.load_stamp(hand, 0);
    if version >= stamp.number() {
        return None;
    }
    if core.load_status(hand, 0, version) != Status::Deleted {
        return None;
    }
    Some(version)
}

// Raises the read stamp of what was found, searches for it again, decides and publishes a bound. It gives the bound where each step
// finds what it found before.
fn read_again(
    core: &Core<AnyState>,
    hand: &mut Hand<AnyState>,
    version: u64,
    stamp: Stamp,
) -> Option<u64>
    requires ready { IsReady core.now hand.old }
    requires record { 0 < core.now.size.records }
    requires in_flight { hand.old.view.flight ≡ writing stamp }
    requires rises { hand.old.view.published.write < bound_of_clock hand.old.view.clock.clock }
    requires found { hand.old.view.work ≡ record no_work { reads = read_version 0 0 version None ∷ [] } }
    requires early { version < stamp }
{
    let read = ReadVersion::new(0, 0, version, None);
    core.raise_read_stamp(hand, &read, stamp.number());
    if core.load_head_again(hand, &read) != 1 {
        return None;
    }
    if core.load_stamp(hand, 0) != version {
        return None;
    }
    if core.load_status(hand, 0, version) != Status::Deleted {
        return None;
    }
    core.decide_bare(hand);
    Some(core.publish_idle(hand))
}

#[test]
fn a_read_is_searched_again_and_decides(rt: HostRuntime) -> Result<(), Fail> {
    let (core, mut hand) = first_seat(rt.alloc(), 1, 1, 1)?;
    let stamp = publish(&core, &mut hand);
    same(&rt, stamp.number(), 5120, 0);
    let Some(version) = find_absent(&core, &mut hand, stamp) else {
        return Err("the version from the start is deleted, and has stamp 0".into());
    };
    let bound = read_again(&core, &mut hand, version, stamp);
    same(&rt, bound, Some(5184), 1);
    Ok(())
}

// Takes a place where it is free.
fn take_at(core: &Core<AnyState>, hand: &mut Hand<AnyState>, place: u32) -> bool
    requires ready { IsReady core.now hand.old }
    requires place { place < places core.now.size }
    ensures ready { IsReady core.now hand.new }
    ensures held { OnTrue result (Has place hand.new.view.places.held) }
{
    core.take(hand, place)
}

#[test]
fn free_places_are_taken_once(rt: HostRuntime) -> Result<(), Fail> {
    let (core, mut hand) = first_seat(rt.alloc(), 1, 2, 3)?;
    let taken = [
        take_at(&core, &mut hand, 0),
        take_at(&core, &mut hand, 2),
        take_at(&core, &mut hand, 3),
        take_at(&core, &mut hand, 4),
        take_at(&core, &mut hand, 3),
    ];
    same(&rt, taken, [false, true, true, true, false], 0);
    same(&rt, hand.last_pool(), Some(3), 1);
    Ok(())
}

// Fills a place step by step, at a stamp, and gives it back. It gives what its first cell showed before.
fn fill_and_give(core: &Core<AnyState>, hand: &mut Hand<AnyState>, place: u32, stamp: Stamp) -> u64
    requires ready { IsReady core.now hand.old }
    requires held { Has place hand.old.view.places.held }
    ensures ready { IsReady core.now hand.new }
{
    core.fill_stamp(hand, place, stamp);
    core.fill_reset(hand, place);
    let first = core.first_cell(hand, place);
    let found = core.meet_cell(hand, first, 0, 7);
    if found != 7 {
        core.fill_cell(hand, first, 0, 7);
    }
    core.give(hand, place);
    found
}

// Takes a place, fills it and gives it back: what its first cell showed before, where it was free.
fn take_and_fill(
    core: &Core<AnyState>,
    hand: &mut Hand<AnyState>,
    place: u32,
    stamp: Stamp,
) -> Option<u64>
    requires ready { IsReady core.now hand.old }
    requires place { place < places core.now.size }
    ensures ready { IsReady core.now hand.new }
{
    if !take_at(core, hand, place) {
        return None;
    }
    Some(fill_and_give(core, hand, place, stamp))
}

#[test]
fn a_place_is_filled_and_taken_again(rt: HostRuntime) -> Result<(), Fail> {
    let (core, mut hand) = first_seat(rt.alloc(), 1, 1, 2)?;
    let stamp = publish(&core, &mut hand);
    let at_first = take_and_fill(&core, &mut hand, 1, stamp);
    same(&rt, at_first, Some(0), 0);
    // What was stored there stands still once the place is taken again.
    let again = take_and_fill(&core, &mut hand, 1, stamp);
    same(&rt, again, Some(7), 1);
    Ok(())
}

#[test]
fn two_hands_step_in_two_threads(rt: HostRuntime) -> Result<(), Fail> {
    let (core, hand, other) = two_seats(rt.alloc(), 1, 1)?;
    let words = (other.number(), other.clock(), other.published_write());
    same(&rt, words, (1, 0, 1), 0);
    let shared = &core;
    let (mut first, second) = join(
        &rt,
        move || draw_and_retire(shared, hand, 10),
        move || draw_and_retire(shared, other, 20),
    );
    core.join(&mut first, second);
    same(&rt, first.clock(), 20, 1);
    Ok(())
}

#[test]
fn the_greatest_run_starts(rt: HostRuntime) -> Result<(), Fail> {
    let (core, mut hand) = first_seat(rt.alloc(), 64, 135_168, 143_361)?;
    // The last inline place is linked, and the reserved place is free.
    hold(&rt, !take_at(&core, &mut hand, 135_167), 0);
    hold(&rt, take_at(&core, &mut hand, 278_528), 1);
    Ok(())
}
