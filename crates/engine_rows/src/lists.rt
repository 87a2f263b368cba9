//! Lists of versions: linking into them, and searching them, by two hands in two threads.
ghost use Rattle.std.specs.Prelude.{◌≡◌, ◌<◌, IfOk, OnOk};
ghost use Rattle.word_layout.specs.Size.{places};
ghost use Rattle.core_rule.specs.View.{writing, no_work};
ghost use Rattle.core_rule.specs.Views.{Has};
ghost use Rattle.core_rule.specs.Hands.{IsReady};
ghost use Rattle.core_rule.specs.Searching.{Ends, FitsPlace, Rests};

use crate::due::{hold, same};
use crate::tables::two_seats;
use clock_stamps::{ClockOut, draw};
use core_rule::{AnyState, Core, Hand};
use plain_data::Cells;
use stamp_base::Stamp;
use std::test::*;
use std::thread::{Threads, join};
use version_pool::{Kind, PlacesOut, fill, take};
use version_search::{Found, find, link};

// Draws a stamp, at which nothing has been done yet.
fn draw_one(
    core: &Core<AnyState>,
    hand: &mut Hand<AnyState>,
    reading: u64,
) -> Result<Stamp, ClockOut>
    requires ready { IsReady core.now hand.old }
    requires ends { Ends hand.old.view.work }
    ensures ready { IsReady core.now hand.new }
    ensures in_flight { IfOk result (λ stamp. hand.new.view.flight ≡ writing stamp) }
    ensures begins { OnOk result (hand.new.view.work ≡ no_work) }
{
    draw(core, hand, reading)
}

// Draws a stamp at each of two seats.
fn draw_both(
    core: &Core<AnyState>,
    first: &mut Hand<AnyState>,
    second: &mut Hand<AnyState>,
) -> Result<(Stamp, Stamp), ClockOut>
    requires first_ready { IsReady core.now first.old }
    requires second_ready { IsReady core.now second.old }
    requires first_ends { Ends first.old.view.work }
    requires second_ends { Ends second.old.view.work }
    ensures first_ready { IsReady core.now first.new }
    ensures second_ready { IsReady core.now second.new }
    ensures early { IfOk result (λ stamps. first.new.view.flight ≡ writing stamps.0) }
    ensures late { IfOk result (λ stamps. second.new.view.flight ≡ writing stamps.1) }
    ensures first_begins { OnOk result (first.new.view.work ≡ no_work) }
    ensures second_begins { OnOk result (second.new.view.work ≡ no_work) }
{
    let early = draw_one(core, first, 10)?;
    let late = draw_one(core, second, 20)?;
    Ok((early, late))
}

// Takes a place for record 5.
fn take_one(
    core: &Core<AnyState>,
    hand: &mut Hand<AnyState>,
    stamp: Stamp,
) -> Result<(u32, Kind), PlacesOut>
    requires ready { IsReady core.now hand.old }
    requires record { 5 < core.now.size.records }
    requires in_flight { hand.old.view.flight ≡ writing stamp }
    requires begins { hand.old.view.work ≡ no_work }
    ensures ready { IsReady core.now hand.new }
    ensures in_flight { OnOk result (hand.new.view.flight ≡ writing stamp) }
    ensures begins { OnOk result (hand.new.view.work ≡ no_work) }
    ensures held { IfOk result (λ taken. Has taken.0 hand.new.view.places.held) }
    ensures inside { IfOk result (λ taken. taken.0 < places core.now.size) }
    ensures fits { IfOk result (λ taken. FitsPlace core.now.size 5 taken.0) }
{
    take(core, hand, 5)
}

// Fills a place of record 5 at the stamp in flight, and links it.
fn fill_and_link(core: &Core<AnyState>, hand: &mut Hand<AnyState>, place: u32, stamp: Stamp)
    requires ready { IsReady core.now hand.old }
    requires in_flight { hand.old.view.flight ≡ writing stamp }
    requires begins { hand.old.view.work ≡ no_work }
    requires held { Has place hand.old.view.places.held }
    requires inside { place < places core.now.size }
    requires fits { FitsPlace core.now.size 5 place }
    ensures ready { IsReady core.now hand.new }
    ensures in_flight { hand.new.view.flight ≡ writing stamp }
    ensures rests { Rests hand.new.view.work.search }
{
    fill(core, hand, place, stamp, &Some(Cells::new([7; 32])));
    link(core, hand, 5, place, stamp.number());
}

// Takes a place for record 5, fills it at the stamp in flight, and links it.
fn link_one(
    core: &Core<AnyState>,
    mut hand: Hand<AnyState>,
    stamp: Stamp,
) -> Result<(Hand<AnyState>, u32, Kind), PlacesOut>
    requires ready { IsReady core.now hand }
    requires record { 5 < core.now.size.records }
    requires in_flight { hand.view.flight ≡ writing stamp }
    requires begins { hand.view.work ≡ no_work }
    ensures ready { IfOk result (λ linked. IsReady core.now linked.0) }
    ensures in_flight { IfOk result (λ linked. linked.0.view.flight ≡ writing stamp) }
    ensures rests { IfOk result (λ linked. Rests linked.0.view.work.search) }
{
    let (place, kind) = take_one(core, &mut hand, stamp)?;
    fill_and_link(core, &mut hand, place, stamp);
    Ok((hand, place, kind))
}

// Searches record 5 at the stamp in flight.
fn find_one(core: &Core<AnyState>, mut hand: Hand<AnyState>, stamp: Stamp) -> Found
    requires ready { IsReady core.now hand }
    requires record { 5 < core.now.size.records }
    requires in_flight { hand.view.flight ≡ writing stamp }
    requires rests { Rests hand.view.work.search }
{
    find(core, &mut hand, 5, stamp.number(), false)
}

// Whether of two searches, each in its own thread, the earlier one finds the absent version from the start, and the later one that
// of the earlier.
fn find_both<R: Threads>(
    rt: &R,
    core: &Core<AnyState>,
    first: Hand<AnyState>,
    second: Hand<AnyState>,
    stamps: (Stamp, Stamp),
) -> bool
    requires first_ready { IsReady core.now first }
    requires second_ready { IsReady core.now second }
    requires record { 5 < core.now.size.records }
    requires early { first.view.flight ≡ writing stamps.0 }
    requires late { second.view.flight ≡ writing stamps.1 }
    requires first_rests { Rests first.view.work.search }
    requires second_rests { Rests second.view.work.search }
{
    let (early, late) = stamps;
    let (by_first, by_second) = join(
        rt,
        move || find_one(core, first, early),
        move || find_one(core, second, late),
    );
    matches!(
        by_first,
        Found::Version {
            place: 5,
            wts: 0,
            absent: true
        }
    ) && matches!(by_second, Found::Pending { wts: 2_560 })
}

#[test]
fn a_pending_version_ends_a_later_search(rt: HostRuntime) -> Result<(), Fail> {
    let (core, mut first, mut second) = two_seats(rt.alloc(), 6, 4)?;
    let (early, late) = draw_both(&core, &mut first, &mut second)?;
    same(&rt, (early.number(), late.number()), (2_560, 5_121), 0);
    let (first, place, kind) = link_one(&core, first, early)?;
    same(&rt, (place, kind), (6, Kind::Pool), 1);
    hold(&rt, find_both(&rt, &core, first, second, (early, late)), 2);
    Ok(())
}

#[test]
fn an_earlier_version_is_linked_below_a_later_one(rt: HostRuntime) -> Result<(), Fail> {
    let (core, mut first, mut second) = two_seats(rt.alloc(), 6, 4)?;
    let (early, late) = draw_both(&core, &mut first, &mut second)?;
    let (second, upper, _) = link_one(&core, second, late)?;
    let (first, lower, _) = link_one(&core, first, early)?;
    same(&rt, (upper, lower), (6, 7), 0);
    hold(&rt, find_both(&rt, &core, first, second, (early, late)), 1);
    Ok(())
}

// Takes a place at each of two seats, fills it and links it, each in its own thread: both places, and whether both searches find
// what they have to.
fn link_in_threads<R: Threads>(
    rt: &R,
    core: &Core<AnyState>,
    first: Hand<AnyState>,
    second: Hand<AnyState>,
    stamps: (Stamp, Stamp),
) -> Result<(u32, u32, bool), PlacesOut>
    requires first_ready { IsReady core.now first }
    requires second_ready { IsReady core.now second }
    requires record { 5 < core.now.size.records }
    requires early { first.view.flight ≡ writing stamps.0 }
    requires late { second.view.flight ≡ writing stamps.1 }
    requires first_begins { first.view.work ≡ no_work }
    requires second_begins { second.view.work ≡ no_work }
{
    let (early, late) = stamps;
    let (by_first, by_second) = join(
        rt,
        move || link_one(core, first, early),
        move || link_one(core, second, late),
    );
    let (first, lower, _) = by_first?;
    let (second, upper, _) = by_second?;
    let found = find_both(rt, core, first, second, stamps);
    Ok((lower, upper, found))
}

#[test]
fn two_threads_link_in_either_order(rt: HostRuntime) -> Result<(), Fail> {
    let (core, mut first, mut second) = two_seats(rt.alloc(), 6, 4)?;
    let (early, late) = draw_both(&core, &mut first, &mut second)?;
    let (lower, upper, found) = link_in_threads(&rt, &core, first, second, (early, late))?;
    hold(&rt, lower != upper, 0);
    hold(&rt, found, 1);
    Ok(())
}
