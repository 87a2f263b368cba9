//! The search for the version to collect below, under the lock of its record.
ghost use Rattle.std.specs.Prelude.{◌≡◌, ◌<◌};
ghost use Rattle.word_layout.specs.Size.{places};
ghost use Rattle.core_rule.specs.View.{above_floor, found, collects};
ghost use Rattle.core_rule.specs.Hands.{IsReady, StaysReady};
ghost use Rattle.rapid_gc.specs.Chains.{FindsVersion};
ghost use Rattle.rapid_gc.specs.Views.{Comes};

use core_rule::{Core, Hand, Keeps, link_place};

/// Finds the version of this stamp in the list of a record, which is locked and whose floor is not above it.
pub(crate) fn seek<J: Keeps>(core: &Core<J>, hand: &mut Hand<J>, rid: u32, stamp: u64) -> u32
    requires ready { IsReady core.now hand.old }
    requires record { rid < core.now.size.records }
    requires at { hand.old.view.work.item ≡ collects rid stamp above_floor }
    ensures in_range { result < places core.now.size }
    ensures view { Comes hand.old.view (collects rid stamp (found result)) hand.new.view }
    ensures finds { FindsVersion rid stamp result hand.old.view.seen.loads hand.new.view.seen.loads }
    ensures lost { hand.new.view.seen.lost ≡ hand.old.view.seen.lost }
    ensures gone { hand.new.view.gone ≡ hand.old.view.gone }
    ensures stays { StaysReady core.now hand.old hand.new }
{
    let layout = core.layout();
    let head = core.seek_head(hand, rid);
    let mut place = link_place(&layout, head);
    loop {
        let wts = core.seek_stamp(hand, place);
        if wts == stamp {
            return place;
        }
        let next = core.seek_next(hand, place);
        place = link_place(&layout, next);
    }
}
