//! Finding the absent records, at a post that is alone.
ghost use Rattle.std.specs.Prelude.{◌≡◌, ◌+◌, ◌-◌, ◌<◌, ◌≤◌, [], true, map};
ghost use Rattle.std.specs.List.{range_with_len};
ghost use Rattle.core_rule.specs.Deciding.{entry_of};
ghost use Rattle.core_rule.specs.Hands.{IsReady, StaysReady};
ghost use Rattle.core_rule.specs.Searching.{Rests};
ghost use Rattle.core_rule.specs.View.{resting};
ghost use Rattle.core_rule.specs.Views as views;
ghost use Rattle.validate_core.specs.OneByOne.{OneByOne};
ghost use Rattle.seat_post.specs.Leaves.{LeavesAs, AreAbsent};
ghost use Rattle.seat_post.specs.Post.{observing};
ghost use Rattle.seat_post.specs.Rescan.{Looks, Searches, LooksAt, LooksOver, looked_over};
ghost use Rattle.seat_post.specs.Seats.{IsAloneAt};

use crate::phase::Phase;
use crate::post::Post;
use clock_stamps::{idle, publish_read, raise_min_write};
use core_rule::{Core, Hand, Keeps};
use spare_numbers::Numbers;
use version_search::{Found, find};

// Whether a record is absent up to the read stamp that is published.
fn is_absent<J: Keeps>(core: &Core<J>, hand: &mut Hand<J>, rid: u32, stamp: u64) -> bool
    requires ready { IsReady core.now hand.old }
    requires rid { rid < core.now.size.records }
    requires rests { Rests hand.old.view.work.search }
    requires resting { hand.old.view.flight ≡ resting }
    requires up_to { hand.old.view.published.read ≡ stamp }
    ensures looks { Looks hand.old.view hand.new.view }
    ensures searches { Searches (stamp + 1) rid result hand.old.view.seen.loads hand.new.view.seen.loads }
    ensures left { views.IsAlone hand.old.view → LeavesAs (map entry_of hand.old.view.log) rid (stamp + 1) result }
    ensures stays { StaysReady core.now hand.old hand.new }
{
    match find(core, hand, rid, stamp, true) {
        Found::Version {
            place: _,
            wts: _,
            absent,
        } => absent,
        Found::Pending { wts: _ } => unreachable!(),
    }
}

// Puts the numbers of the absent records on a list that has none, by rising number.
fn list_absent<J: Keeps>(core: &Core<J>, hand: &mut Hand<J>, stamp: u64, numbers: &mut Numbers)
    requires ready { IsReady core.now hand.old }
    requires alone { views.IsAlone hand.old.view }
    requires rests { Rests hand.old.view.work.search }
    requires resting { hand.old.view.flight ≡ resting }
    requires up_to { hand.old.view.published.read ≡ stamp }
    requires records { numbers.old.records ≡ core.now.size.records }
    requires fixed { numbers.old.fixed ≤ numbers.old.records }
    requires none { numbers.old.spare ≡ [] }
    requires none_given { numbers.old.given ≡ [] }
    ensures looks { Looks hand.old.view hand.new.view }
    ensures each { OneByOne (LooksAt (stamp + 1)) (range_with_len numbers.old.fixed (numbers.old.records - numbers.old.fixed)) (hand.old.view.seen.loads, []) (hand.new.view.seen.loads, numbers.new.spare) }
    ensures numbers { numbers.new ≡ record numbers.old { spare = numbers.new.spare } }
    ensures absent { AreAbsent (map entry_of hand.old.view.log) (stamp + 1) numbers.old.fixed numbers.old.records numbers.new.spare }
    ensures stays { StaysReady core.now hand.old hand.new }
{
    for rid in numbers.fixed()..numbers.records() {
        if is_absent(core, hand, rid, stamp) {
            numbers.add(rid);
        }
    }
}

impl<J: Keeps> Post<J> {
    /// Publishes the bound of its clock, raises `min_wts` to it, publishes the read stamp below, and puts the numbers of the
    /// records that are absent there on a list that has none. Then it publishes the same read stamp again.
    pub fn look_over(&mut self, core: &Core<J>, numbers: &mut Numbers)
        requires core { self.old.shared ≡ core.now }
        requires idle { self.old.phase ≡ Phase.Idle }
        requires alone { IsAloneAt self.old.shared.size self.old.seat self.old.others }
        requires records { numbers.old.records ≡ core.now.size.records }
        requires fixed { numbers.old.fixed ≤ numbers.old.records }
        requires none { numbers.old.spare ≡ [] }
        requires none_given { numbers.old.given ≡ [] }
        ensures value { self.new ≡ observing (looked_over self.old) self.new.observed }
        ensures loads { LooksOver self.old.shared.size.seats self.old.seat self.new.met self.new.published numbers.old.fixed numbers.old.records numbers.new.spare self.old.observed self.new.observed }
        ensures not_back { self.old.met ≤ self.new.met }
        ensures numbers { numbers.new ≡ record numbers.old { spare = numbers.new.spare } }
        ensures absent { AreAbsent self.old.log self.new.published numbers.old.fixed numbers.old.records numbers.new.spare }
    {
        idle(core, &mut self.hand);
        raise_min_write(core, &mut self.hand);
        let stamp = publish_read(core, &mut self.hand);
        list_absent(core, &mut self.hand, stamp, numbers);
        // The search is over.
        publish_read(core, &mut self.hand);
    }
}
