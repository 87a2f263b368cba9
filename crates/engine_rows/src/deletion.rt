//! A whole transaction that deletes a record.
ghost use Rattle.std.specs.Prelude.{◌≡◌, ◌<◌, [], ◌∷◌, None, if◌then◌else◌, nat_le, IfSome};
ghost use Rattle.std.specs.Bool.{OnTrue};
ghost use Rattle.stamp_base.specs.Stamp.{bound_of_clock};
ghost use Rattle.word_layout.specs.Size.{places};
ghost use Rattle.core_rule.specs.View.{writing, no_work};
ghost use Rattle.core_rule.specs.Hands.{IsReady};
ghost use Rattle.core_rule.specs.Versions.{written_version};

use crate::due::same;
use crate::rule::publish;
use crate::tables::first_seat;
use core_rule::{AnyState, Core, Hand, Status, WrittenVersion};
use stamp_base::Stamp;
use std::test::*;
use version_search::{find_to_check, link};

// Takes place 1 where it is free, fills it with a deletion of record 0, and links it.
fn link_deletion(core: &Core<AnyState>, hand: &mut Hand<AnyState>, stamp: Stamp) -> bool
    requires ready { IsReady core.now hand.old }
    requires records { core.now.size.records ≡ 1 }
    requires spare { core.now.size.spare ≡ 1 }
    requires in_flight { hand.old.view.flight ≡ writing stamp }
    requires begins { hand.old.view.work ≡ no_work }
    requires rises { hand.old.view.published.write < bound_of_clock hand.old.view.clock.clock }
    ensures ready { IsReady core.now hand.new }
    ensures in_flight { hand.new.view.flight ≡ writing stamp }
    ensures rises { hand.new.view.published.write < bound_of_clock hand.new.view.clock.clock }
    ensures linked { OnTrue result (hand.new.view.work ≡ record no_work { linked = written_version 0 1 stamp None ∷ [] }) }
{
    if !core.take(hand, 1) {
        return false;
    }
    core.fill_stamp(hand, 1, stamp);
    core.fill_reset(hand, 1);
    link(core, hand, 0, 1, stamp.number());
    true
}

// Checks the deletion that is linked, and gives the read stamp that decides, where the version below is the one from the start.
fn decide_deletion(
    core: &Core<AnyState>,
    hand: &mut Hand<AnyState>,
    write: &WrittenVersion,
    stamp: Stamp,
) -> Option<u64>
    requires ready { IsReady core.now hand.old }
    requires record { 0 < core.now.size.records }
    requires of_record { write.now.record_number ≡ 0 }
    requires in_flight { hand.old.view.flight ≡ writing stamp }
    requires linked { hand.old.view.work ≡ record no_work { linked = write.now ∷ [] } }
    requires rises { hand.old.view.published.write < bound_of_clock hand.old.view.clock.clock }
    ensures ready { IsReady core.now hand.new }
    ensures rises { hand.new.view.published.write < bound_of_clock hand.new.view.clock.clock }
    ensures decided { IfSome result (λ read. hand.new.view.work ≡ record no_work { linked = write.now ∷ []; passed = (if nat_le read stamp then 0 ∷ [] else []); decided = nat_le read stamp }) }
{
    let below = find_to_check(core, hand, write, stamp.number());
    if below.place != 0 || below.wts != 0 || below.status != Status::Deleted {
        return None;
    }
    Some(core.decide_by_check(hand, below.place))
}

// Stores the last status of the deletion, and publishes a bound, which it gives.
fn settle_deletion(
    core: &Core<AnyState>,
    hand: &mut Hand<AnyState>,
    write: &WrittenVersion,
    read: u64,
    stamp: Stamp,
) -> u64
    requires ready { IsReady core.now hand.old }
    requires inside { write.now.place < places core.now.size }
    requires decided { hand.old.view.work ≡ record no_work { linked = write.now ∷ []; passed = (if nat_le read stamp then 0 ∷ [] else []); decided = nat_le read stamp } }
    requires rises { hand.old.view.published.write < bound_of_clock hand.old.view.clock.clock }
{
    core.store_status(hand, write, read <= stamp.number());
    core.publish_idle(hand)
}

#[test]
fn a_deletion_is_linked_checked_and_published(rt: HostRuntime) -> Result<(), Fail> {
    let (core, mut hand) = first_seat(rt.alloc(), 1, 1, 1)?;
    let stamp = publish(&core, &mut hand);
    same(&rt, stamp.number(), 5120, 0);
    if !link_deletion(&core, &mut hand, stamp) {
        return Err("the reserved place is free".into());
    }
    let write = WrittenVersion::new(0, 1, stamp.number(), None);
    let Some(read) = decide_deletion(&core, &mut hand, &write, stamp) else {
        return Err("the version below is deleted, in place 0 from the start".into());
    };
    same(&rt, read, 0, 1);
    let bound = settle_deletion(&core, &mut hand, &write, read, stamp);
    same(&rt, bound, 5184, 2);
    Ok(())
}
