//! The first version of a list, while no other seat is open.
ghost use Rattle.std.specs.Prelude.{ℕ, ◌≡◌, ◌≢◌, ◌<◌, true, false, Some, nat_lt, if◌then◌else◌, ◌==◌, ◌||◌};
ghost use Rattle.core_rule.specs.Status.{status_word};
ghost use Rattle.core_rule.specs.Views.{IsAlone};
ghost use Rattle.core_rule.specs.Searching.{known_of, newest_stamp};
ghost use Rattle.core_rule.specs.Hands.{IsReady, StaysReady};
ghost use Rattle.version_search.specs.Looking.{Looked};

use crate::fronts::First;
use core_rule::{Core, Hand, Keeps, Status, link_place};

/// Loads the first version of a record's list, while no other seat is open.
pub fn first<J: Keeps>(core: &Core<J>, hand: &mut Hand<J>, rid: u32) -> First
    requires ready { IsReady core.now hand.old }
    requires rid { rid < core.now.size.records }
    requires alone { IsAlone hand.old.view }
    ensures looked { Looked rid result.place result.wts result.decided result.single hand.old.view.seen.loads hand.new.view.seen.loads }
    ensures single { result.single ≡ true → known_of hand.new.view.counts rid ≡ Some record { linked = 1; outside = if nat_lt result.place core.now.size.records then 0 else 1 } }
    ensures known { result.single ≡ false → hand.new.view.counts ≡ hand.old.view.counts }
    ensures newest { newest_stamp hand.new.view.tops rid ≡ Some result.wts }
    // What it knows of the other lists and of the reserved place is as before, and so is all else but the loads.
    ensures others { (r : ℕ) → r ≢ rid → known_of hand.new.view.counts r ≡ known_of hand.old.view.counts r }
    ensures in_reserved { hand.new.view.counts.in_reserved ≡ hand.old.view.counts.in_reserved }
    ensures lost { hand.new.view.seen.lost ≡ hand.old.view.seen.lost }
    ensures view { hand.new.view ≡ record hand.old.view { counts = hand.new.view.counts; tops = hand.new.view.tops; front = hand.new.view.front; seen = hand.new.view.seen } }
    ensures stays { StaysReady core.now hand.old hand.new }
{
    let layout = core.layout();
    let head = core.front_head(hand, rid);
    let place = link_place(&layout, head);
    let wts = core.front_stamp(hand, rid, place);
    let status = core.front_status(hand, rid, place, wts);
    let next = core.front_next(hand, rid, place, wts, status);
    First {
        place,
        wts,
        decided: is_final(status),
        single: next == 0,
    }
}

// It is committed or deleted.
fn is_final(status: Status) -> bool
    ensures { result ≡ ((status_word status == status_word Status.Committed) || (status_word status == status_word Status.Deleted)) }
{
    match status {
        Status::Committed | Status::Deleted => true,
        Status::Pending | Status::Aborted => false,
    }
}
