//! Writing the visible value of a record again, at the next stamp and in a place that is found for it, by a seat that is alone.
ghost use Rattle.std.specs.Prelude.{◌≡◌, ◌≢◌, ◌⊎◌, ◌<◌, true, false, if◌then◌else◌, IfOk, OnErr, IsOkAnd};
ghost use Rattle.stamp_base.specs.Limits.{greatest_clock};
ghost use Rattle.word_layout.specs.Size.{IsUsable, reserved_place, places};
ghost use Rattle.core_rule.specs.View.{version_reserved};
ghost use Rattle.core_rule.specs.Hands.{IsReady, StaysReady};
ghost use Rattle.core_rule.specs.Searching.{FitsPlace};
ghost use Rattle.core_rule.specs.Spares.{KnowsFree, StandsReserved};
ghost use Rattle.seat_post.specs.Collecting.{trail_in};
ghost use Rattle.seat_post.specs.Seats.{observed_of};
ghost use Rattle.seat_post.specs.Placing.{TriesAll};
ghost use Rattle.seat_post.specs.Settling.{IsSettling, Settles, KeepsOthers, IsRewrittenAt, HasSpare, TakesAfter, LosesAll};
ghost use Rattle.seat_post.specs.SettlingOne.{TakesFor, RewritesOne, RunsOut};

use crate::rewriting::Room;
use crate::search::search;
use clock_stamps::{ClockOut, draw};
use core_rule::{Core, Hand, Keeps};
use stamp_base::GREATEST_CLOCK;
use version_pool::{take, take_reserved};

/// A version that was written: its stamp, and whether it stands in the reserved place.
#[derive(Clone, Copy, Drop)]
pub(crate) struct Renewed {
    pub(crate) stamp: u64,
    pub(crate) reserved: bool,
}

// A place that was taken, and whether it is the reserved one.
#[derive(Clone, Copy, Drop)]
struct Taken {
    place: u32,
    reserved: bool,
}

/// Writes the visible value of a record again, at the next stamp. It takes the reserved place only where neither the record's inline
/// place nor a usable one is free, and a clock is left to write it once more.
pub(crate) fn renew<J: Keeps>(
    core: &Core<J>,
    hand: &mut Hand<J>,
    room: &mut Room,
    rid: u32,
) -> Result<Renewed, ClockOut>
    requires ready { IsReady core.now hand.old }
    requires rid { rid < core.now.size.records }
    requires settling { IsSettling hand.old.view }
    requires spare { HasSpare rid hand.old.view.counts }
    ensures settling { IsSettling hand.new.view }
    ensures settles { Settles J.kept hand.old.view hand.new.view }
    ensures others { KeepsOthers rid hand.old.view hand.new.view }
    ensures ok { IfOk result (λ renewed. IsRewrittenAt rid renewed.stamp hand.old.view hand.new.view) }
    ensures in_reserved { IfOk result (λ renewed. hand.new.view.counts.in_reserved ≡ (if renewed.reserved then version_reserved rid renewed.stamp else hand.old.view.counts.in_reserved)) }
    ensures clock { IfOk result (λ renewed. renewed.reserved ≡ true → hand.new.view.clock.clock < greatest_clock) }
    // Where the only version stands in the reserved place, the inline place is free.
    ensures inline { StandsReserved rid hand.old.view.counts → hand.old.view.clock.clock < greatest_clock → IsOkAnd result (λ renewed. renewed.reserved ≡ false) }
    ensures rewrites { IfOk result (λ renewed. RewritesOne core.now.size hand.old.view.number rid renewed.stamp renewed.reserved (trail_in hand.old.view) (trail_in hand.new.view)) }
    ensures gone { hand.new.view.gone ≡ hand.old.view.gone }
    ensures log { OnErr result (hand.new.view.log ≡ hand.old.view.log) }
    ensures runs_out { OnErr result (RunsOut core.now.size hand.old.view.number rid hand.old.view.clock.clock hand.new.view.clock.clock (observed_of hand.old.view) (observed_of hand.new.view)) }
    ensures none { OnErr result (hand.new.view.counts ≡ hand.old.view.counts) }
    ensures stays { StaysReady core.now hand.old hand.new }
{
    // The seat is in its range.
    hand.number();
    let stamp = draw(core, hand, 0)?;
    let read = match search(core, hand, rid, stamp.number()) {
        Ok(read) => read,
        Err(_met) => unreachable!(),
    };
    let taken = take_place(core, hand, rid)?;
    match room.rewrite(core, hand, rid, &read, taken.place) {
        Ok(()) => Ok(Renewed {
            stamp: stamp.number(),
            reserved: taken.reserved,
        }),
        Err(_conflict) => unreachable!(),
    }
}

// Takes a place for a version of a record: as `take` does, and the reserved place where that finds none free. What is written there has to
// be written once more, so where there is no clock left for that, the clock has come to its end.
fn take_place<J: Keeps>(core: &Core<J>, hand: &mut Hand<J>, rid: u32) -> Result<Taken, ClockOut>
    requires ready { IsReady core.now hand.old }
    requires rid { rid < core.now.size.records }
    requires spare { KnowsFree hand.old.view (reserved_place core.now.size) ⊎ KnowsFree hand.old.view rid }
    ensures takes { IfOk result (λ taken. TakesAfter taken.place hand.old.view hand.new.view) }
    ensures fits { IfOk result (λ taken. FitsPlace core.now.size rid taken.place × (taken.place < places core.now.size)) }
    ensures others { IfOk result (λ taken. taken.reserved ≡ false → (taken.place ≡ rid) ⊎ IsUsable core.now.size taken.place) }
    ensures apart { IfOk result (λ taken. taken.reserved ≡ false → taken.place ≢ reserved_place core.now.size) }
    ensures reserved { IfOk result (λ taken. taken.reserved ≡ true → taken.place ≡ reserved_place core.now.size) }
    ensures tries { IfOk result (λ taken. TakesFor core.now.size rid taken.reserved (observed_of hand.old.view) (observed_of hand.new.view)) }
    ensures clock { IfOk result (λ taken. taken.reserved ≡ true → hand.old.view.clock.clock < greatest_clock) }
    ensures inline { KnowsFree hand.old.view rid → IsOkAnd result (λ taken. taken.reserved ≡ false) }
    ensures none { OnErr result (LosesAll hand.old.view hand.new.view) }
    ensures tries_all { OnErr result (TriesAll core.now.size rid (observed_of hand.old.view) (observed_of hand.new.view)) }
    ensures clock_out { OnErr result (hand.old.view.clock.clock ≡ greatest_clock) }
    ensures stays { StaysReady core.now hand.old hand.new }
{
    // There is a reserved place.
    hand.number();
    if let Ok((place, _)) = take(core, hand, rid) {
        return Ok(Taken {
            place,
            reserved: false,
        });
    }
    if hand.clock() == GREATEST_CLOCK {
        return Err(ClockOut);
    }
    let Some(place) = take_reserved(core, hand) else {
        unreachable!();
    };
    Ok(Taken {
        place,
        reserved: true,
    })
}
