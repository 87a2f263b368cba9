//! Writing the value of a record again, in a place that is held.
ghost use Rattle.std.specs.Prelude.{◌≡◌, ◌<◌, ◌≤◌, [], ◌∷◌, length, OnOk, IfOk, IfErr, IfSome};
ghost use Rattle.word_layout.specs.Size.{places};
ghost use Rattle.stamp_base.specs.Stamp.{bound_of_clock};
ghost use Rattle.core_rule.specs.Views.{Has, IsAlone};
ghost use Rattle.core_rule.specs.Searching.{Ends, FitsPlace, known_of};
ghost use Rattle.core_rule.specs.Collecting.{HasEntry};
ghost use Rattle.rapid_gc.specs.Bounds.{AreAsBefore, IsNewest, IsSingle};
ghost use Rattle.rapid_gc.specs.Collections.{after_collecting};
ghost use Rattle.rapid_gc.specs.Ends.{FreesCounted};
ghost use Rattle.rapid_gc.specs.InReserved.{Remains, CutsOff};
ghost use Rattle.core_rule.specs.Versions.{read_version, written_version};
ghost use Rattle.core_rule.specs.Hands.{IsReady, StaysReady};
ghost use Rattle.version_search.specs.Growing.{Grows};
ghost use Rattle.seat_post.specs.Collecting.{trail_in};
ghost use Rattle.seat_post.specs.Logs.{IsAbove};
ghost use Rattle.seat_post.specs.Settling.{entries_of};
ghost use Rattle.seat_post.specs.SettlingOne.{CollectsOne};
ghost use Rattle.seat_post.specs.Rewriting.{IsRoom, HasFound, LinksOneThen, ValidatesOne, HaltsOne, Rewrites, IsStopped};
ghost use Rattle.seat_post.specs.Seats.{observed_of};

use crate::search::Read;
use core_rule::{Core, Hand, Keeps};
use plain_data::NoMemory;
use rapid_gc::{Queue, collect};
use std::alloc::Global;
use std::marker::Model;
use validate_core::{Conflict, Sets, install_held};

/// Room for one read, one write and one item to be collected, which is taken where a pass is made, so that a record is written again
/// without memory.
pub struct Room {
    sets: Sets,
    queue: Queue,
}

impl Model for Room {
    ghost use Rattle.validate_core.specs.Sets.{SetsView};
    ghost use Rattle.seat_post.specs.Rewriting.{IsRoom, IsFree};

    ghost Value = { SetsView };

    ghost view = { λ r. r.sets };

    ghost invariant = { λ r. IsRoom r.sets × IsFree r.queue };
}

// Written out, so that whoever lets one go needs one call in the proof and not one for each part of it.
impl Drop for Room {
    fn drop(self) {
        let Room { sets: _, queue: _ } = self;
    }
}

impl Room {
    /// Takes the room. `NoMemory` comes where the allocator has none.
    pub fn new(alloc: Global) -> Result<Self, NoMemory>
        ensures { IfOk result IsRoom }
    {
        let mut sets = Sets::new(alloc);
        sets.reserve(1, 1)?;
        let mut queue = Queue::new(alloc);
        queue.reserve(1)?;
        Ok(Room { sets, queue })
    }

    /// Takes back what is older than the version of a record at a stamp, and gives how many places were freed.
    pub(crate) fn collect<J: Keeps>(
        &mut self,
        core: &Core<J>,
        hand: &mut Hand<J>,
        rid: u32,
        stamp: u64,
    ) -> u32
        requires ready { IsReady core.now hand.old }
        requires rid { rid < core.now.size.records }
        requires ends { Ends hand.old.view.work }
        requires alone { IsAlone hand.old.view }
        requires entered { HasEntry rid stamp hand.old.view.log }
        requires below { stamp < bound_of_clock hand.old.view.clock.clock }
        requires above { IsAbove (entries_of hand.old.view) (bound_of_clock hand.old.view.clock.clock) }
        ensures view { hand.new.view ≡ after_collecting hand.old.view hand.new.view.published.read hand.new.view.reached hand.new.view.counts hand.new.view.gone hand.new.view.seen }
        ensures met { hand.old.view.clock.met ≤ hand.new.view.clock.met }
        ensures grows { Grows hand.old.view.seen hand.new.view.seen }
        ensures ends { Ends hand.new.view.work }
        ensures bounds { AreAsBefore (record { rid = rid; stamp = stamp } ∷ []) hand.old.view.counts hand.new.view.counts }
        ensures freed { FreesCounted result hand.old.view hand.new.view }
        ensures in_reserved { Remains (record { rid = rid; stamp = stamp } ∷ []) hand.old.view.counts.in_reserved hand.new.view.counts.in_reserved }
        ensures cut_off { CutsOff (record { rid = rid; stamp = stamp } ∷ []) hand.old.view.tops hand.old.view.counts.in_reserved hand.new.view.counts.in_reserved }
        ensures one { IsNewest hand.old.view.tops (record { rid = rid; stamp = stamp }) → IsSingle (known_of hand.new.view.counts rid) }
        ensures collects { IsNewest hand.old.view.tops (record { rid = rid; stamp = stamp }) → CollectsOne core.now.size.seats hand.old.view.number rid stamp result (trail_in hand.old.view) (trail_in hand.new.view) }
        ensures stays { StaysReady core.now hand.old hand.new }
    {
        self.queue.add(rid, stamp);
        let collected = collect(core, hand, &mut self.queue);
        collected.places
    }

    /// Links the value that was read once more, decides, and publishes it. A conflict aborts the version linked.
    pub(crate) fn rewrite<J: Keeps>(
        &mut self,
        core: &Core<J>,
        hand: &mut Hand<J>,
        rid: u32,
        read: &Read,
        place: u32,
    ) -> Result<(), Conflict>
        requires ready { IsReady core.now hand.old }
        requires rid { rid < core.now.size.records }
        requires read { HasFound hand.old.view.published.write (read_version rid read.now.place read.now.wts read.now.value) hand.old.view }
        requires whole { IfSome read.now.value (λ words. length words ≡ 32) }
        requires read_inside { read.now.place < places core.now.size }
        requires holds { Has place hand.old.view.places.held }
        requires inside { place < places core.now.size }
        requires fits { FitsPlace core.now.size rid place }
        ensures ok { OnOk result (Rewrites J.kept core.now.size.records rid place hand.old.view.published.write read.now.value hand.old.view hand.new.view) }
        ensures validates { OnOk result (LinksOneThen hand.old.view.published.write rid (ValidatesOne hand.old.view.published.write hand.old.view.number rid read.now.wts) (observed_of hand.old.view) (observed_of hand.new.view)) }
        ensures err { IfErr result (IsStopped rid place hand.old.view.published.write hand.old.view hand.new.view) }
        ensures halts { IfErr result (λ conflict. LinksOneThen hand.old.view.published.write rid (HaltsOne hand.old.view.published.write rid conflict read.now.wts) (observed_of hand.old.view) (observed_of hand.new.view)) }
        ensures stays { StaysReady core.now hand.old hand.new }
    {
        stage(&mut self.sets, rid, read);
        let installed = install_held(core, hand, &mut self.sets, place);
        match installed.decide(core, hand, &self.sets) {
            Ok(decided) => {
                decided.publish(core, hand, &self.sets);
                self.sets.clear();
                Ok(())
            }
            Err(conflict) => {
                self.sets.clear();
                Err(conflict)
            }
        }
    }
}

// Puts a read, and the write of the value that was read, into the sets.
fn stage(sets: &mut Sets, rid: u32, read: &Read)
    requires { IsRoom sets.old }
    ensures reads { sets.new.reads ≡ read_version rid read.now.place read.now.wts read.now.value ∷ [] }
    ensures writes { sets.new.writes ≡ written_version rid 0 0 read.now.value ∷ [] }
    ensures read_room { 0 < sets.new.read_room }
    ensures write_room { 0 < sets.new.write_room }
{
    sets.read(rid, read.place, read.wts, read.value);
    sets.write(rid, read.value);
}
