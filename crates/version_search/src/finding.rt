//! Searches for the version that is visible at a stamp.
ghost use Rattle.std.specs.Prelude.{ℕ, ◌≡◌, ◌+◌, ◌<◌, ◌≤◌, true, false, if◌then◌else◌};
ghost use Rattle.word_layout.specs.Size.{places};
ghost use Rattle.stamp_base.specs.Limits.{end_of_stamps};
ghost use Rattle.core_rule.specs.View.{reads, again, checks, writing, resting};
ghost use Rattle.core_rule.specs.Status.{status_word};
ghost use Rattle.core_rule.specs.Searching.{Rests, Begins, limit_of};
ghost use Rattle.core_rule.specs.Hands.{IsReady, StaysReady};
ghost use Rattle.version_search.specs.Finding.{IfVersion, IfPending, Finds, Reads, status_of};

use crate::walking::{Shown, walk};
use core_rule::{Core, Hand, Keeps, ReadVersion, Status, WrittenVersion, link_place};

/// What a search found.
#[derive(Clone, Copy, Drop)]
pub enum Found {
    /// A committed or deleted version; the record is absent where it is deleted.
    Version { place: u32, wts: u64, absent: bool },
    /// A pending version, of another seat.
    Pending { wts: u64 },
}

/// Searches for the version that is visible below the stamp of the transaction in flight, or up to the read stamp of a
/// snapshot, which it includes.
pub fn find<J: Keeps>(
    core: &Core<J>,
    hand: &mut Hand<J>,
    rid: u32,
    stamp: u64,
    included: bool,
) -> Found
    requires ready { IsReady core.now hand.old }
    requires rid { rid < core.now.size.records }
    requires rests { Rests hand.old.view.work.search }
    requires below { included ≡ false → hand.old.view.flight ≡ writing stamp }
    requires up_to { included ≡ true → (hand.old.view.flight ≡ resting) × (hand.old.view.published.read ≡ stamp) }
    ensures version { IfVersion result (λ place wts absent. Reads (if included then stamp + 1 else stamp) rid place wts (status_of absent) hand.old.view hand.new.view) }
    ensures place { IfVersion result (λ place wts absent. place < places core.now.size) }
    ensures pending { IfPending result (λ wts. (place : ℕ) × Finds reads (if included then stamp + 1 else stamp) rid place wts (status_word Status.Pending) hand.old.view hand.new.view) }
    ensures answered { included ≡ true → IfPending result (λ wts. ⊥) }
    ensures stays { StaysReady core.now hand.old hand.new }
{
    let limit = limit_at(stamp, included);
    let link = core.load_head(hand, rid);
    let from = link_place(&core.layout(), link);
    let shown = walk(core, hand, rid, from, limit);
    if shown.status == Status::Pending {
        Found::Pending { wts: shown.wts }
    } else {
        Found::Version {
            place: shown.place,
            wts: shown.wts,
            absent: shown.status == Status::Deleted,
        }
    }
}

// Versions from this stamp on are too late.
fn limit_at(stamp: u64, included: bool) -> u64
    requires { included ≡ true → stamp < end_of_stamps }
    ensures { result ≡ if included then stamp + 1 else stamp }
{
    if included { stamp + 1 } else { stamp }
}

/// Searches again for a version that was read, whose read stamp is raised.
pub fn find_again<J: Keeps>(
    core: &Core<J>,
    hand: &mut Hand<J>,
    read: &ReadVersion,
    stamp: u64,
) -> Shown
    requires ready { IsReady core.now hand.old }
    requires rid { read.now.record_number < core.now.size.records }
    requires begins { Begins (again read.now) read.now.record_number hand.old.view.work }
    requires in_flight { hand.old.view.flight ≡ writing stamp }
    ensures place { result.place < places core.now.size }
    ensures finds { Finds (again read.now) stamp read.now.record_number result.place result.wts (status_word result.status) hand.old.view hand.new.view }
    ensures stays { StaysReady core.now hand.old hand.new }
{
    let link = core.load_head_again(hand, read);
    let from = link_place(&core.layout(), link);
    walk(core, hand, read.rid(), from, stamp)
}

/// Searches for the version that a linked one overwrites.
pub fn find_to_check<J: Keeps>(
    core: &Core<J>,
    hand: &mut Hand<J>,
    write: &WrittenVersion,
    stamp: u64,
) -> Shown
    requires ready { IsReady core.now hand.old }
    requires rid { write.now.record_number < core.now.size.records }
    requires begins { Begins (checks write.now) write.now.record_number hand.old.view.work }
    requires in_flight { hand.old.view.flight ≡ writing stamp }
    ensures place { result.place < places core.now.size }
    ensures finds { Finds (checks write.now) stamp write.now.record_number result.place result.wts (status_word result.status) hand.old.view hand.new.view }
    ensures stays { StaysReady core.now hand.old hand.new }
{
    let link = core.load_head_to_check(hand, write);
    let from = link_place(&core.layout(), link);
    walk(core, hand, write.rid(), from, stamp)
}
