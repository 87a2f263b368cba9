//! Going down the list of a record to the first version that is neither too late nor aborted: loads alone.
ghost use Rattle.std.specs.Prelude.{◌≡◌, ◌<◌, ◌≤◌, IfSome, IfNone};
ghost use Rattle.word_layout.specs.Size.{places};
ghost use Rattle.core_rule.specs.Status.{status_word};
ghost use Rattle.core_rule.specs.Searching.{stand_in, limit_of, IsReading};
ghost use Rattle.core_rule.specs.Hands.{IsReady, StaysReady};
ghost use Rattle.version_search.specs.Finding.{StandsFor, Passes, Sees, Arrives};

use core_rule::{Core, Hand, Keeps, Status, link_place};

/// The place where a search ended, and what it showed there.
#[derive(Clone, Copy, Drop)]
pub struct Shown {
    pub place: u32,
    /// The write stamp of the version.
    pub wts: u64,
    /// Its status, which is not aborted.
    pub status: Status,
}

// Loads what a place shows; `None` where that is too late or aborted.
fn look_at<J: Keeps>(
    core: &Core<J>,
    hand: &mut Hand<J>,
    rid: u32,
    place: u32,
    limit: u64,
) -> Option<Shown>
    requires ready { IsReady core.now hand.old }
    requires place { place < places core.now.size }
    requires here { StandsFor (stand_in hand.old.view.work.search).aim rid place hand.old.view }
    requires reading { IsReading (stand_in hand.old.view.work.search).aim }
    requires limit { limit ≡ limit_of hand.old.view.flight hand.old.view.published.read }
    ensures passed { IfNone result (Passes place limit hand.old.view hand.new.view) }
    ensures place { IfSome result (λ shown. shown.place ≡ place) }
    ensures sees { IfSome result (λ shown. Sees (stand_in hand.old.view.work.search).aim limit rid place shown.wts (status_word shown.status) hand.old.view hand.new.view) }
    ensures stays { StaysReady core.now hand.old hand.new }
{
    let wts = core.load_stamp(hand, place);
    if wts >= limit {
        return None;
    }
    let status = core.load_status(hand, place, wts);
    if status == Status::Aborted {
        return None;
    }
    Some(Shown { place, wts, status })
}

/// Goes down from a place at which a search has begun. The stamps there fall.
pub(crate) fn walk<J: Keeps>(
    core: &Core<J>,
    hand: &mut Hand<J>,
    rid: u32,
    from: u32,
    limit: u64,
) -> Shown
    requires ready { IsReady core.now hand.old }
    requires place { from < places core.now.size }
    requires here { StandsFor (stand_in hand.old.view.work.search).aim rid from hand.old.view }
    requires reading { IsReading (stand_in hand.old.view.work.search).aim }
    requires limit { limit ≡ limit_of hand.old.view.flight hand.old.view.published.read }
    ensures place { result.place < places core.now.size }
    ensures arrives { Arrives (stand_in hand.old.view.work.search).aim limit rid from result.place result.wts (status_word result.status) hand.old.view hand.new.view }
    ensures stays { StaysReady core.now hand.old hand.new }
{
    let layout = core.layout();
    let mut place = from;
    loop {
        if let Some(shown) = look_at(core, hand, rid, place, limit) {
            return shown;
        }
        let next = core.load_next(hand, place);
        place = link_place(&layout, next);
    }
}
