//! Settling: each record's list is brought to one version, by a seat that is alone.
ghost use Rattle.std.specs.Prelude.{◌≡◌, ◌+◌, ◌*◌, ◌<◌, ◌≤◌, true, false, Some, [], ◌∷◌, IfOk, OnOk, OnErr};
ghost use Rattle.stamp_base.specs.Stamp.{bound_of_clock};
ghost use Rattle.core_rule.specs.View.{nothing_reserved};
ghost use Rattle.core_rule.specs.Hands.{IsReady, StaysReady};
ghost use Rattle.core_rule.specs.Searching.{newest_stamp, known_of};
ghost use Rattle.core_rule.specs.Collecting.{HasEntry};
ghost use Rattle.rapid_gc.specs.Bounds.{IsSingle};
ghost use Rattle.rapid_gc.specs.Ends.{FreesCounted};
ghost use Rattle.rapid_gc.specs.InReserved.{IsBelow, Remains};
ghost use Rattle.seat_post.specs.Logs.{IsAbove};
ghost use Rattle.seat_post.specs.Seats.{IsAloneAt, observed_of};
ghost use Rattle.seat_post.specs.Settling.{entries_of, AreSettled, SettlesPost, IsSettling, Settles, KeepsOthers, OnlySearches, IsCut, SettlesAll, StopsOne, StopsSome, StopsPost};
ghost use Rattle.seat_post.specs.SettlingOne.{IsVisible, IsHidden, CollectsOne, SettlesOne, SettlesFirst};
ghost use Rattle.seat_post.specs.Collecting.{trail_in};

use crate::phase::Phase;
use crate::post::Post;
use crate::renewing::renew;
use crate::rewriting::Room;
use crate::settled::Settled;
use clock_stamps::{ClockOut, idle, publish_read, raise_min_write};
use core_rule::{Core, Hand, Keeps};
use version_search::{First, Found, find, first};

impl<J: Keeps> Post<J> {
    /// Brings the list of each record to one version, by rising number. Where the first version of a list is committed or deleted,
    /// the rest is cut off; else what is visible is written again, at a stamp of the next clock, and the rest is cut off. No memory
    /// is asked for.
    ///
    /// `ClockOut` comes only where the clock has come to its end and a writing again is due for a record; the records before that
    /// are settled then.
    pub fn settle(&mut self, core: &Core<J>) -> Result<Settled, ClockOut>
        requires core { self.old.shared ≡ core.now }
        requires idle { self.old.phase ≡ Phase.Idle }
        requires alone { IsAloneAt self.old.shared.size self.old.seat self.old.others }
        requires above { IsAbove self.old.log (bound_of_clock self.old.clock) }
        ensures settles { SettlesPost J.kept self.old self.new }
        ensures settled { OnOk result (AreSettled self.old.shared.size.records self.new.bounds.counts) }
        ensures draws { IfOk result (λ all. self.new.clock ≡ self.old.clock + all.rewritten) }
        ensures done { IfOk result (SettlesAll self.old self.new) }
        ensures stops { OnErr result (StopsPost self.old self.new) }
    {
        let told = settle_all(core, &mut self.hand, &mut self.room);
        // What was searched is over.
        publish_read(core, &mut self.hand);
        told
    }
}

// Brings each record's list to one version, by rising number.
fn settle_all<J: Keeps>(
    core: &Core<J>,
    hand: &mut Hand<J>,
    room: &mut Room,
) -> Result<Settled, ClockOut>
    requires ready { IsReady core.now hand.old }
    requires settling { IsSettling hand.old.view }
    requires none_reserved { hand.old.view.counts.in_reserved ≡ nothing_reserved }
    ensures settling { IsSettling hand.new.view }
    ensures none_reserved { hand.new.view.counts.in_reserved ≡ nothing_reserved }
    ensures settles { Settles J.kept hand.old.view hand.new.view }
    ensures settled { OnOk result (AreSettled core.now.size.records hand.new.view.counts) }
    ensures draws { IfOk result (λ all. hand.new.view.clock.clock ≡ hand.old.view.clock.clock + all.rewritten) }
    ensures done { IfOk result (λ all. SettlesFirst core.now.size hand.old.view.number core.now.size.records all (trail_in hand.old.view) (trail_in hand.new.view)) }
    ensures stops { OnErr result (StopsSome core.now.size hand.old.view hand.new.view) }
    ensures stays { StaysReady core.now hand.old hand.new }
{
    let mut all = Settled::none();
    for rid in 0..core.layout().records() {
        all = all.with(settle_record(core, hand, room, rid)?);
    }
    Ok(all)
}

// Brings one record's list to one version. What was written again in the reserved place is at once written again, in a place that was
// freed.
fn settle_record<J: Keeps>(
    core: &Core<J>,
    hand: &mut Hand<J>,
    room: &mut Room,
    rid: u32,
) -> Result<Settled, ClockOut>
    requires ready { IsReady core.now hand.old }
    requires rid { rid < core.now.size.records }
    requires settling { IsSettling hand.old.view }
    requires none_reserved { hand.old.view.counts.in_reserved ≡ nothing_reserved }
    ensures settling { IsSettling hand.new.view }
    ensures none_reserved { hand.new.view.counts.in_reserved ≡ nothing_reserved }
    ensures settles { Settles J.kept hand.old.view hand.new.view }
    ensures others { KeepsOthers rid hand.old.view hand.new.view }
    ensures one { OnOk result (IsSingle (known_of hand.new.view.counts rid)) }
    ensures draws { IfOk result (λ done. hand.new.view.clock.clock ≡ hand.old.view.clock.clock + done.rewritten) }
    ensures counts { IfOk result (λ done. (done.rewritten ≤ 2) × (done.cut ≤ 2)) }
    ensures freed { IfOk result (λ done. FreesCounted done.places hand.old.view hand.new.view) }
    ensures done { IfOk result (λ done. SettlesOne core.now.size hand.old.view.number rid done (trail_in hand.old.view) (trail_in hand.new.view)) }
    ensures stops { OnErr result (StopsOne core.now.size rid hand.old.view hand.new.view) }
    ensures stays { StaysReady core.now hand.old hand.new }
{
    let found = first(core, hand, rid);
    if found.single {
        return Ok(Settled::none());
    }
    if is_visible(core, hand, rid, found) {
        let places = cut_below(core, hand, room, rid, found.wts);
        return Ok(Settled {
            rewritten: 0,
            cut: 1,
            places,
        });
    }
    let once = renew(core, hand, room, rid)?;
    let places = cut_below(core, hand, room, rid, once.stamp);
    if !once.reserved {
        return Ok(Settled {
            rewritten: 1,
            cut: 1,
            places,
        });
    }
    let Ok(twice) = renew(core, hand, room, rid) else {
        unreachable!();
    };
    let more = cut_below(core, hand, room, rid, twice.stamp);
    Ok(Settled {
        rewritten: 2,
        cut: 2,
        places: places.saturating_add(more),
    })
}

// Whether the first version of a record is the visible one: committed or deleted, and that of an entry.
fn is_visible<J: Keeps>(core: &Core<J>, hand: &mut Hand<J>, rid: u32, first: First) -> bool
    requires ready { IsReady core.now hand.old }
    requires rid { rid < core.now.size.records }
    requires settling { IsSettling hand.old.view }
    ensures settling { IsSettling hand.new.view }
    ensures settles { Settles J.kept hand.old.view hand.new.view }
    ensures searches { OnlySearches hand.old.view hand.new.view }
    ensures entered { result ≡ true → HasEntry rid first.wts hand.new.view.log }
    ensures visible { result ≡ true → IsVisible core.now.size.seats hand.old.view.number rid first (entries_of hand.old.view) (observed_of hand.old.view) (observed_of hand.new.view) }
    ensures hidden { result ≡ false → IsHidden core.now.size.seats hand.old.view.number rid first (entries_of hand.old.view) (observed_of hand.old.view) (observed_of hand.new.view) }
    ensures stays { StaysReady core.now hand.old hand.new }
{
    if !first.decided {
        return false;
    }
    idle(core, hand);
    raise_min_write(core, hand);
    let bound = publish_read(core, hand);
    match find(core, hand, rid, bound, true) {
        Found::Pending { .. } => unreachable!(),
        Found::Version { wts: found, .. } => (found == first.wts) & (first.wts > 0),
    }
}

// Cuts off what is older than the newest version of a record, and gives how many places were freed.
fn cut_below<J: Keeps>(
    core: &Core<J>,
    hand: &mut Hand<J>,
    room: &mut Room,
    rid: u32,
    stamp: u64,
) -> u32
    requires ready { IsReady core.now hand.old }
    requires rid { rid < core.now.size.records }
    requires settling { IsSettling hand.old.view }
    requires entered { HasEntry rid stamp hand.old.view.log }
    requires newest { newest_stamp hand.old.view.tops rid ≡ Some stamp }
    ensures settling { IsSettling hand.new.view }
    ensures settles { Settles J.kept hand.old.view hand.new.view }
    ensures others { KeepsOthers rid hand.old.view hand.new.view }
    ensures cut { IsCut rid hand.old.view hand.new.view }
    ensures in_reserved { Remains (record { rid = rid; stamp = stamp } ∷ []) hand.old.view.counts.in_reserved hand.new.view.counts.in_reserved }
    ensures cut_off { IsBelow (record { rid = rid; stamp = stamp }) hand.old.view.counts.in_reserved → hand.new.view.counts.in_reserved ≡ nothing_reserved }
    ensures collects { CollectsOne core.now.size.seats hand.old.view.number rid stamp result (trail_in hand.old.view) (trail_in hand.new.view) }
    ensures freed { FreesCounted result hand.old.view hand.new.view }
    ensures stays { StaysReady core.now hand.old hand.new }
{
    room.collect(core, hand, rid, stamp)
}
