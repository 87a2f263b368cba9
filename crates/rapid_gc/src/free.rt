//! Freeing the places that were cut off.
ghost use Rattle.std.specs.Prelude.{◌≡◌, ◌<◌, ◌≤◌};
ghost use Rattle.word_layout.specs.Size.{places};
ghost use Rattle.core_rule.specs.View.{no_item};
ghost use Rattle.core_rule.specs.Hands.{IsReady, StaysReady};
ghost use Rattle.rapid_gc.specs.Views.{Comes};
ghost use Rattle.rapid_gc.specs.Chains.{RestsAt, Frees};

use core_rule::{Core, Hand, Keeps, link_place};

/// Frees the places from this link on, and gives their number.
pub(crate) fn free_from<J: Keeps>(core: &Core<J>, hand: &mut Hand<J>, first: u64) -> u32
    requires ready { IsReady core.now hand.old }
    requires at { RestsAt first hand.old.view.work.item }
    requires in_range { first ≤ places core.now.size }
    requires left { 0 < first → 0 < hand.old.view.gone.left }
    ensures view { Comes hand.old.view no_item hand.new.view }
    ensures frees { Frees first 0 result hand.old.view hand.new.view }
    ensures stays { StaysReady core.now hand.old hand.new }
{
    let layout = core.layout();
    let mut to = first;
    let mut freed: u32 = 0;
    while to > 0 {
        let place = link_place(&layout, to);
        to = core.follow(hand, place);
        core.free_place(hand, place);
        freed = freed.saturating_add(1);
    }
    freed
}
