//! Beginning a snapshot, reading records for it, and ending it, at the hand of a seat and at a post.
ghost use Rattle.std.specs.Prelude.{◌≡◌, ℕ, ◌+◌, ◌<◌, ◌≤◌, true, false, Some, IsSome, IfSome, length};
ghost use Rattle.stamp_base.specs.Stamp.{stamp_of};
ghost use Rattle.histories.specs.History.{IsValue, UpTo};
ghost use Rattle.word_layout.specs.Name.{published_read};
ghost use Rattle.core_rule.specs.Paths.{load};
ghost use Rattle.core_rule.specs.View.{resting, Logged};
ghost use Rattle.core_rule.specs.Views.{Among, IsAlone};
ghost use Rattle.core_rule.specs.Searching.{Rests, Ends};
ghost use Rattle.core_rule.specs.Deciding.{StoodAt};
ghost use Rattle.core_rule.specs.Hands.{IsReady, StaysReady};
ghost use Rattle.record_store.specs.Into.{value_if};
ghost use Rattle.record_store.specs.Meaning.{value_at};
ghost use Rattle.seat_post.specs.Ends.{Stood};
ghost use Rattle.seat_post.specs.Snapshot.{with_read, entry_of_snapshot};
ghost use Rattle.seat_post.specs.InSnapshot.{IsInSnapshot, Opens, FindsAlike, snapshot_reads, IsLeftAt, logged_snapshot, snapshot_ended};
ghost use Rattle.seat_post.specs.Logs.{AreBelow};
ghost use Rattle.seat_post.specs.Observing.{with_load, MeetsMinimum};
ghost use Rattle.seat_post.specs.Post.{IsAlonePost, snapshot_begun_at, snapshot_read_at, finished_at, observing};
ghost use Rattle.seat_post.specs.Reading.{FindsInSnapshot};
ghost use Rattle.seat_post.specs.Searched.{Finds};

use crate::phase::Phase;
use crate::post::Post;
use clock_stamps::{publish_read, raise_min_write};
use core_rule::{Core, Hand, Keeps};
use plain_data::Cells;
use version_search::{Found, find, load_words};

/// Begins a snapshot: raises `min_wts`, publishes one less than it as the read stamp, and gives that. What was in flight has ended.
pub(crate) fn begin_snapshot<J: Keeps>(core: &Core<J>, hand: &mut Hand<J>) -> u64
    requires ready { IsReady core.now hand.old }
    requires ends { Ends hand.old.view.work }
    ensures opens { Opens result hand.old.view hand.new.view }
    ensures in_snapshot { IsInSnapshot hand.new.view }
    ensures snapshots { (e : Logged) → Among e hand.old.view.log → e.snapshot ≡ true → e.stamp ≤ result }
    ensures met { hand.old.view.clock.met ≤ result + 1 }
    ensures below { result < hand.old.view.published.write }
    ensures below_next { result < stamp_of (hand.old.view.clock.clock + 1) hand.old.view.number }
    ensures stays { StaysReady core.now hand.old hand.new }
{
    raise_min_write(core, hand);
    publish_read(core, hand)
}

// Searches for the version that is visible at the published read stamp, and loads its value into these cells where it is present.
// Answers its place, its stamp, and whether it is.
fn load_visible<J: Keeps>(
    core: &Core<J>,
    hand: &mut Hand<J>,
    rid: u32,
    into: &mut Cells,
) -> (u32, u64, bool)
    requires ready { IsReady core.now hand.old }
    requires rid { rid < core.now.size.records }
    requires rests { Rests hand.old.view.work.search }
    requires resting { hand.old.view.flight ≡ resting }
    ensures finds { Finds rid result.0 result.1 (value_if result.2 into.new) hand.old.view hand.new.view }
    ensures whole { IfSome (value_if result.2 into.new) (λ words. length words ≡ 32) }
    ensures absent { result.2 ≡ false → into.new ≡ into.old }
    ensures stays { StaysReady core.now hand.old hand.new }
{
    let stamp = hand.published_read();
    match find(core, hand, rid, stamp, true) {
        Found::Pending { .. } => unreachable!(),
        Found::Version {
            place,
            wts,
            absent: true,
        } => (place, wts, false),
        Found::Version {
            place,
            wts,
            absent: false,
        } => {
            let mut words = [0; 32];
            load_words(core, hand, place, &mut words);
            *into = Cells::new(words);
            (place, wts, true)
        }
    }
}

/// Reads a record at the published read stamp into these cells, and answers whether it is present; where it is absent, they are as
/// before. A record that was read before answers what it did then. Nothing is noted: what was read stands in the view.
pub(crate) fn read_snapshot<J: Keeps>(
    core: &Core<J>,
    hand: &mut Hand<J>,
    rid: u32,
    into: &mut Cells,
) -> bool
    requires ready { IsReady core.now hand.old }
    requires rid { rid < core.now.size.records }
    requires in_snapshot { IsInSnapshot hand.old.view }
    ensures finds_alike { FindsAlike rid (value_if result into.new) hand.old.view hand.new.view }
    ensures in_snapshot { IsInSnapshot hand.new.view }
    ensures reads { snapshot_reads hand.new.view ≡ with_read (snapshot_reads hand.old.view) rid (value_if result into.new) }
    ensures answer { value_at (snapshot_reads hand.new.view) rid ≡ Some (value_if result into.new) }
    ensures left { IsAlone hand.old.view → IsLeftAt hand.old.view rid (value_if result into.new) }
    ensures absent { result ≡ false → into.new ≡ into.old }
    ensures stays { StaysReady core.now hand.old hand.new }
{
    let read = load_visible(core, hand, rid, into);
    // This load tells that what was read of one record is alike.
    core.load_min_read(hand);
    read.2
}

/// Ends the snapshot: one entry with all that it has read enters the log. Gives its stamp.
pub(crate) fn end_snapshot<J: Keeps>(core: &Core<J>, hand: &mut Hand<J>) -> u64
    requires ready { IsReady core.now hand.old }
    requires in_snapshot { IsInSnapshot hand.old.view }
    ensures stamp { result ≡ hand.old.view.published.read }
    ensures view { (word : ℕ) × (hand.new.view ≡ snapshot_ended hand.old.view word) }
    ensures stood { StoodAt J.kept core.now.size.records hand.old.view.log (logged_snapshot hand.old.view) }
    ensures stays { StaysReady core.now hand.old hand.new }
{
    let stamp = hand.published_read();
    core.finish(hand);
    stamp
}

impl<J: Keeps> Post<J> {
    /// Begins a snapshot, and gives its stamp.
    pub fn begin_snapshot(&mut self, core: &Core<J>) -> u64
        requires core { self.old.shared ≡ core.now }
        requires idle { self.old.phase ≡ Phase.Idle }
        ensures after { self.new ≡ observing (snapshot_begun_at self.old result) self.new.observed }
        // The stamp is at least one less than the least published write word that was loaded.
        ensures minimum { MeetsMinimum self.old.shared.size.seats self.old.seat self.old.published (result + 1) self.old.observed self.new.observed }
        ensures met { self.old.met ≤ result + 1 }
        ensures snapshots { AreBelow self.old.log (result + 1) }
        ensures below { result < self.old.published }
        ensures below_next { result < stamp_of (self.old.clock + 1) self.old.seat }
        ensures alone { IsAlonePost self.old → self.old.published ≤ result + 1 }
    {
        begin_snapshot(core, &mut self.hand)
    }

    /// The stamp of the snapshot.
    pub fn snapshot_stamp(&self) -> u64
        ensures { IfSome self.now.snapshot (λ g. result ≡ g.stamp) }
    {
        self.hand.published_read()
    }

    /// Reads a record for the snapshot into these cells, and answers whether it is present. What was read of it before is read again.
    pub fn read_snapshot(&mut self, core: &Core<J>, rid: u32, into: &mut Cells) -> bool
        requires core { self.old.shared ≡ core.now }
        requires idle { self.old.phase ≡ Phase.Idle }
        requires snapshot { IsSome self.old.snapshot }
        requires rid { rid < self.old.shared.size.records }
        ensures after { self.new ≡ observing (snapshot_read_at self.old rid (value_if result into.new)) self.new.observed }
        ensures answer { IfSome self.new.snapshot (λ g. value_at g.reads rid ≡ Some (value_if result into.new)) }
        // It is the value of the version that the search found.
        ensures found { IfSome self.old.snapshot (λ g. FindsInSnapshot (g.stamp + 1) rid self.old.observed self.new.observed (value_if result into.new)) }
        ensures left { IsAlonePost self.old → IfSome self.old.snapshot (λ g. IsValue (UpTo self.old.log g.stamp) rid (value_if result into.new)) }
        ensures absent { result ≡ false → into.new ≡ into.old }
    {
        read_snapshot(core, &mut self.hand, rid, into)
    }

    /// Ends the snapshot: its entry enters the log. Gives its stamp.
    pub fn end_snapshot(&mut self, core: &Core<J>) -> u64
        requires core { self.old.shared ≡ core.now }
        requires idle { self.old.phase ≡ Phase.Idle }
        requires snapshot { IsSome self.old.snapshot }
        ensures after { IfSome self.old.snapshot (λ g. self.new ≡ observing (finished_at self.old g) self.new.observed) }
        ensures loads { (word : ℕ) × (self.new.observed ≡ with_load self.old.observed (load (published_read self.old.seat) word)) }
        ensures stamp { IfSome self.old.snapshot (λ g. result ≡ g.stamp) }
        ensures stood { IfSome self.old.snapshot (λ g. Stood J.kept self.old.shared.size.records self.old.log (entry_of_snapshot g)) }
    {
        end_snapshot(core, &mut self.hand)
    }
}
