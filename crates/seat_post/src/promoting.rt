//! Promoting a version at a post: what is visible of a record is written again into its inline place.
ghost use Rattle.std.specs.Prelude.{◌≡◌, ◌≢◌, ◌+◌, ◌<◌, ◌↔◌, ◌++◌, None, Err, IfOk, IfErr, IfSome, length};
ghost use Rattle.stamp_base.specs.Limits.{greatest_clock};
ghost use Rattle.word_layout.specs.Size.{places};
ghost use Rattle.core_rule.specs.Hands.{IsReady, StaysReady};
ghost use Rattle.core_rule.specs.Searching.{IsLoading, read_place, read_cells};
ghost use Rattle.version_search.specs.Loading.{with_value, cells_loaded};
ghost use Rattle.clock_stamps.specs.Clocks.{drawn_clock};
ghost use Rattle.stamp_base.specs.Stamp.{stamp_of};
ghost use Rattle.seat_post.specs.Promoting.{PromotesPost, FailsPost, CameUpon, IsDrawn, PromotesAt, FailsAt};

use crate::phase::Phase;
use crate::post::Post;
use crate::rewriting::Room;
use crate::search::Read;
use clock_stamps::draw;
use core_rule::{Core, Hand, Keeps};
use engine_answers::{PromoteFault, Promotion};
use plain_data::Cells;
use stamp_base::Stamp;
use validate_core::Conflict;
use version_pool::take_inline;
use version_search::{Found, find, load_value};

impl<J: Keeps> Post<J> {
    /// Draws a stamp, and promotes a record at it.
    pub fn promote(
        &mut self,
        core: &Core<J>,
        rid: u32,
        reading: u64,
    ) -> Result<Promotion, PromoteFault>
        requires core { self.old.shared ≡ core.now }
        requires idle { self.old.phase ≡ Phase.Idle }
        requires rid { rid < self.old.shared.size.records }
        ensures ok { IfOk result (PromotesPost J.kept rid (drawn_clock self.old.clock reading) self.old self.new) }
        ensures err { IfErr result (FailsPost rid (drawn_clock self.old.clock reading) self.old self.new) }
        ensures met { IfOk result (CameUpon (stamp_of (drawn_clock self.old.clock reading) self.old.seat) rid self.old self.new) }
        ensures clock_out { (result ≡ Err PromoteFault.ClockOut) ↔ (drawn_clock self.old.clock reading ≡ greatest_clock + 1) }
    {
        let stamp = draw(core, &mut self.hand, reading)?;
        let told = promote_at(core, &mut self.hand, &mut self.room, rid, stamp)?;
        Ok(told)
    }
}

// Promotes a record at the stamp that was drawn.
fn promote_at<J: Keeps>(
    core: &Core<J>,
    hand: &mut Hand<J>,
    room: &mut Room,
    rid: u32,
    stamp: Stamp,
) -> Result<Promotion, Conflict>
    requires ready { IsReady core.now hand.old }
    requires rid { rid < core.now.size.records }
    requires drawn { IsDrawn stamp hand.old.view }
    ensures ok { IfOk result (PromotesAt J.kept core.now.size.records stamp rid hand.old.view hand.new.view) }
    ensures err { IfErr result (FailsAt stamp rid hand.old.view hand.new.view) }
    ensures stays { StaysReady core.now hand.old hand.new }
{
    match find(core, hand, rid, stamp.number(), false) {
        Found::Pending { wts } => Err(Conflict::Pending { rid, wts }),
        Found::Version { absent: true, .. } => Ok(Promotion::Absent),
        Found::Version {
            place,
            wts,
            absent: false,
        } => {
            if place == rid {
                return Ok(Promotion::Inline);
            }
            if !take_inline(core, hand, rid) {
                return Ok(Promotion::Occupied);
            }
            let read = load(core, hand, place, wts);
            match room.rewrite(core, hand, rid, &read, rid) {
                Ok(()) => Ok(Promotion::Promoted(stamp)),
                Err(conflict) => Err(conflict),
            }
        }
    }
}

// Loads the value of the version that was found last.
fn load<J: Keeps>(core: &Core<J>, hand: &mut Hand<J>, place: u32, wts: u64) -> Read
    requires ready { IsReady core.now hand.old }
    requires loading { IsLoading hand.old.view.work.reads }
    requires place { place ≡ read_place hand.old.view.work.reads }
    requires inside { place < places core.now.size }
    requires begins { read_cells hand.old.view.work.reads ≡ 0 }
    ensures place { result.place ≡ place }
    ensures wts { result.wts ≡ wts }
    ensures value { IfSome result.value (λ words. (length words ≡ 32) × (hand.new.view ≡ with_value hand.old.view words hand.new.view.seen) × (hand.new.view.seen.loads ≡ hand.old.view.seen.loads ++ cells_loaded place 0 words)) }
    ensures present { result.value ≢ None }
    ensures lost { hand.new.view.seen.lost ≡ hand.old.view.seen.lost }
    ensures stays { StaysReady core.now hand.old hand.new }
{
    let cells = load_value(core, hand, place);
    Read {
        place,
        wts,
        value: Some(Cells::new(cells.words())),
    }
}
