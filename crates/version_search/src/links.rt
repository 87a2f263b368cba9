//! Linking a version into the list of its record.
ghost use Rattle.std.specs.Prelude.{◌≡◌, ◌+◌, ◌<◌, ◌≤◌, ◌++◌, true, false};
ghost use Rattle.word_layout.specs.Size.{places};
ghost use Rattle.std.specs.Option.{ForSome};
ghost use Rattle.core_rule.specs.View.{links, stamped, writing};
ghost use Rattle.core_rule.specs.Searching.{IsAt, stand_in, look_in, joint_in, stamp_seen, Rests, FitsPlace, IsNotLinked, write_of, front_fill, IsWholeFill};
ghost use Rattle.core_rule.specs.Holding.{filled_place, IsFilling};
ghost use Rattle.core_rule.specs.Hands.{IsReady, StaysReady};
ghost use Rattle.core_rule.specs.Learnt.{IsLink};
ghost use Rattle.version_search.specs.Links.{IsLinked, joined_at, missed_at};

use core_rule::{Core, Hand, Keeps, link_place};

/// Links what is filled in a place as the pending version of a record at the stamp in flight. Each lost exchange narrows
/// the stamps between which it belongs.
pub fn link<J: Keeps>(core: &Core<J>, hand: &mut Hand<J>, rid: u32, place: u32, stamp: u64)
    requires ready { IsReady core.now hand.old }
    requires in_work { IsFilling hand.old.view.places.fills }
    requires place { place ≡ filled_place hand.old.view.places.fills }
    requires inside { place < places core.now.size }
    requires in_flight { hand.old.view.flight ≡ writing stamp }
    requires stamp { stamp ≡ (front_fill hand.old.view.places.fills).stamp }
    requires reset { (front_fill hand.old.view.places.fills).reset ≡ true }
    requires fits { FitsPlace core.now.size rid place }
    requires rests { Rests hand.old.view.work.search }
    requires only { IsNotLinked rid hand.old.view.work.linked }
    requires whole { IsWholeFill (front_fill hand.old.view.places.fills) }
    requires undecided { hand.old.view.work.decided ≡ false }
    ensures linked { IsLinked (write_of rid (front_fill hand.old.view.places.fills)) hand.old.view hand.new.view }
    ensures stays { StaysReady core.now hand.old hand.new }
{
    let layout = core.layout();
    core.mark(hand, rid, place);
    let first = core.load_head_to_link(hand, rid);
    let mut below = link_place(&layout, first);
    let mut above: Option<u32> = None;
    loop {
        let wts = core.load_stamp(hand, below);
        if wts >= stamp {
            let next = core.load_next(hand, below);
            above = Some(below);
            below = link_place(&layout, next);
        } else {
            core.point(hand, place, below);
            let found = join_between(core, hand, rid, above, place, below);
            if found == u64::from(below) + 1 {
                return;
            }
            below = link_place(&layout, found);
        }
    }
}

// Makes the exchange on the link of the place above, or on the head of the list.
fn join_between<J: Keeps>(
    core: &Core<J>,
    hand: &mut Hand<J>,
    rid: u32,
    above: Option<u32>,
    place: u32,
    below: u32,
) -> u64
    requires ready { IsReady core.now hand.old }
    requires here { IsAt below hand.old.view.work.search }
    requires seen { look_in hand.old.view.work.search ≡ stamped (stamp_seen (look_in hand.old.view.work.search)) }
    requires linking { (stand_in hand.old.view.work.search).aim ≡ links (joint_in hand.old.view.work.search) }
    requires place { place ≡ (joint_in hand.old.view.work.search).write.place }
    requires rid { rid ≡ (stand_in hand.old.view.work.search).record_number }
    requires record_inside { rid < core.now.size.records }
    requires above_inside { ForSome above (λ a. a < places core.now.size) }
    requires stored { (joint_in hand.old.view.work.search).stored ≡ true }
    requires above { (joint_in hand.old.view.work.search).above ≡ above }
    ensures view { hand.new.view ≡ joined_at hand.old.view result hand.new.view.seen }
    ensures loads { hand.new.view.seen.loads ≡ hand.old.view.seen.loads }
    ensures lost { hand.new.view.seen.lost ≡ hand.old.view.seen.lost ++ missed_at rid above (stand_in hand.old.view.work.search).place result }
    ensures link { IsLink (places core.now.size) result }
    ensures stays { StaysReady core.now hand.old hand.new }
{
    match above {
        Some(above) => core.link_next(hand, above, place, below),
        None => core.link_head(hand, rid, place, below),
    }
}
