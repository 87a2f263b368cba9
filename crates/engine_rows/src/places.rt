//! Places for versions.
ghost use Rattle.std.specs.Prelude.{◌≡◌, ◌<◌, IfOk};
ghost use Rattle.core_rule.specs.Views.{Has};
ghost use Rattle.core_rule.specs.Hands.{IsReady};
ghost use Rattle.core_rule.specs.Searching.{Ends};

use crate::due::{hold, same};
use crate::tables::{first_seat, two_seats};
use core_rule::{AnyState, Core, Hand};
use plain_data::Cells;
use stamp_base::Stamp;
use std::alloc::{AllocError, Global};
use std::test::*;
use std::thread::{Threads, join};
use version_pool::{Kind, PlacesOut, fill, give, take, take_inline, take_reserved};

// Takes a place for a record.
fn take_one(
    core: &Core<AnyState>,
    hand: &mut Hand<AnyState>,
    rid: u32,
) -> Result<(u32, Kind), PlacesOut>
    requires ready { IsReady core.now hand.old }
    requires record { rid < core.now.size.records }
    ensures ready { IsReady core.now hand.new }
    ensures held { IfOk result (λ taken. Has taken.0 hand.new.view.places.held) }
{
    take(core, hand, rid)
}

// Takes a place for record 0 beside one that is held already.
fn take_beside(
    core: &Core<AnyState>,
    hand: &mut Hand<AnyState>,
    held: u32,
) -> Result<(u32, Kind), PlacesOut>
    requires ready { IsReady core.now hand.old }
    requires record { 0 < core.now.size.records }
    requires held { Has held hand.old.view.places.held }
    ensures ready { IsReady core.now hand.new }
    ensures held { Has held hand.new.view.places.held }
{
    take(core, hand, 0)
}

// Takes the reserved place beside one that is held already.
fn take_reserved_beside(core: &Core<AnyState>, hand: &mut Hand<AnyState>, held: u32) -> Option<u32>
    requires ready { IsReady core.now hand.old }
    requires held { Has held hand.old.view.places.held }
    ensures ready { IsReady core.now hand.new }
    ensures held { Has held hand.new.view.places.held }
{
    take_reserved(core, hand)
}

// Whether the inline place of record 0 is free, which is then taken.
fn inline_is_free(core: &Core<AnyState>, hand: &mut Hand<AnyState>) -> bool
    requires ready { IsReady core.now hand.old }
    requires record { 0 < core.now.size.records }
    ensures ready { IsReady core.now hand.new }
{
    take_inline(core, hand, 0)
}

// Gives a place back.
fn give_back(core: &Core<AnyState>, hand: &mut Hand<AnyState>, place: u32)
    requires ready { IsReady core.now hand.old }
    requires held { Has place hand.old.view.places.held }
    ensures ready { IsReady core.now hand.new }
{
    give(core, hand, place);
}

// Fills a place, which stays held.
fn fill_one(
    core: &Core<AnyState>,
    hand: &mut Hand<AnyState>,
    place: u32,
    stamp: Stamp,
    value: Option<Cells>,
)
    requires ready { IsReady core.now hand.old }
    requires held { Has place hand.old.view.places.held }
    ensures ready { IsReady core.now hand.new }
    ensures held { Has place hand.new.view.places.held }
{
    fill(core, hand, place, stamp, &value);
}

#[test]
fn each_usable_place_is_tried_and_the_turn_goes_round(rt: HostRuntime) -> Result<(), Fail> {
    let (core, mut hand) = first_seat(rt.alloc(), 1, 2, 3)?;
    let first = take_one(&core, &mut hand, 0);
    let (place, kind) = take_one(&core, &mut hand, 1)?;
    let third = take_beside(&core, &mut hand, place);
    let reserved = [
        take_reserved_beside(&core, &mut hand, place),
        take_reserved_beside(&core, &mut hand, place),
    ];
    give_back(&core, &mut hand, place);
    let again = take_one(&core, &mut hand, 0);
    same(&rt, (place, kind), (3, Kind::Pool), 0);
    same(&rt, first, Ok((2, Kind::Pool)), 1);
    same(&rt, third, Err(PlacesOut), 2);
    same(&rt, again, Ok((3, Kind::Pool)), 3);
    same(&rt, reserved, [Some(4), None], 4);
    Ok(())
}

#[test]
fn the_turn_begins_after_the_last_place_taken(rt: HostRuntime) -> Result<(), Fail> {
    let (core, mut hand) = first_seat(rt.alloc(), 1, 1, 4)?;
    let (place, kind) = take_one(&core, &mut hand, 0)?;
    give_back(&core, &mut hand, place);
    same(&rt, (place, kind), (1, Kind::Pool), 0);
    same(&rt, take_one(&core, &mut hand, 0), Ok((2, Kind::Pool)), 1);
    same(&rt, take_one(&core, &mut hand, 0), Ok((3, Kind::Pool)), 2);
    same(&rt, take_one(&core, &mut hand, 0), Ok((1, Kind::Pool)), 3);
    Ok(())
}

#[test]
fn without_usable_places_the_reserved_one_is_taken(rt: HostRuntime) -> Result<(), Fail> {
    let (core, mut hand) = first_seat(rt.alloc(), 1, 1, 1)?;
    // The inline place is linked from the start.
    hold(&rt, !inline_is_free(&core, &mut hand), 0);
    same(&rt, take_one(&core, &mut hand, 0), Err(PlacesOut), 1);
    same(&rt, take_reserved(&core, &mut hand), Some(1), 2);
    Ok(())
}

// Publishes a stamp, fills a place at it with a value and then with a deletion, and gives it back.
fn fill_twice(core: &Core<AnyState>, hand: &mut Hand<AnyState>) -> Result<u32, Fail>
    requires ready { IsReady core.now hand.old }
    requires record { 0 < core.now.size.records }
    requires first { hand.old.view.clock.clock ≡ 0 }
    requires ends { Ends hand.old.view.work }
    ensures ready { IsReady core.now hand.new }
{
    let stamp = core.publish_stamp(hand, 1);
    let (place, _) = take_one(core, hand, 0)?;
    fill_one(core, hand, place, stamp, Some(Cells::new([7; 32])));
    fill_one(core, hand, place, stamp, None);
    give_back(core, hand, place);
    Ok(place)
}

#[test]
fn a_held_place_is_filled_with_a_value_and_a_deletion(rt: HostRuntime) -> Result<(), Fail> {
    let (core, mut hand) = first_seat(rt.alloc(), 1, 1, 2)?;
    let place = fill_twice(&core, &mut hand)?;
    same(
        &rt,
        take_one(&core, &mut hand, 0),
        Ok((place, Kind::Pool)),
        0,
    );
    Ok(())
}

// Takes four places.
fn take_four(
    alloc: Global,
    core: &Core<AnyState>,
    mut hand: Hand<AnyState>,
) -> Result<Vec<u32>, AllocError>
    requires ready { IsReady core.now hand }
    requires has_record { 0 < core.now.size.records }
{
    let mut places = Vec::new(alloc);
    for turn in 0..4 {
        if let Ok((place, _)) = take_one(core, &mut hand, 0) {
            places.push(place)?;
        }
    }
    Ok(places)
}

// The places that two hands take, each in its own thread, in order.
fn take_in_threads<R: Threads>(
    rt: &R,
    alloc: Global,
    core: &Core<AnyState>,
    hand: Hand<AnyState>,
    other: Hand<AnyState>,
) -> Result<Vec<u32>, AllocError>
    requires hand_ready { IsReady core.now hand }
    requires other_ready { IsReady core.now other }
    requires has_record { 0 < core.now.size.records }
{
    let (first, second) = join(
        rt,
        move || take_four(alloc, core, hand),
        move || take_four(alloc, core, other),
    );
    let mut places = first?;
    places.extend_from_slice(second?.as_slice())?;
    places.sort()?;
    Ok(places)
}

#[test]
fn two_threads_take_different_places(rt: HostRuntime) -> Result<(), Fail> {
    let (core, hand, other) = two_seats(rt.alloc(), 1, 9)?;
    let places = take_in_threads(&rt, rt.alloc(), &core, hand, other)?;
    let due = [1, 2, 3, 4, 5, 6, 7, 8];
    same(&rt, places.as_slice(), due.as_slice(), 0);
    Ok(())
}
