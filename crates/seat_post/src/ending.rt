//! Ending a transaction at a post: its versions are linked, it is decided, and they get their last status.
ghost use Rattle.std.specs.Prelude.{◌≡◌, ◌≢◌, ◌+◌, ◌≤◌, [], length, OnOk, OnErr, IfOk, IfErr};
ghost use Rattle.plain_data.specs.State.{Fits};
ghost use Rattle.seat_post.specs.Conflicts.{Touches, IsLoaded};
ghost use Rattle.seat_post.specs.Ends.{Stood};
ghost use Rattle.seat_post.specs.Seats.{IsAloneAt};
ghost use Rattle.seat_post.specs.Leaves.{AreLeft};
ghost use Rattle.seat_post.specs.Logs.{IsAbove};
ghost use Rattle.seat_post.specs.Lists.{AreLinked, bounds_before, AreBounded, count_raised, IsFullAt};
ghost use Rattle.seat_post.specs.Placing.{HavePlaces, Puts, CountsPlaces, WantsPlaceAt};
ghost use Rattle.seat_post.specs.Post.{with_bounds, placing, in_phase, closed, entered, entry_at, observing, rids_written, IsShownAt};
ghost use Rattle.validate_core.specs.Checked.{Validates};
ghost use Rattle.validate_core.specs.Halting.{Halts};
ghost use Rattle.validate_core.specs.OneByOne.{OneByOne};

use crate::phase::Phase;
use crate::post::Post;
use core_rule::{Core, Keeps};
use stamp_base::Stamp;
use validate_core::{Conflict, Decided, Installed, Sets, install};
use version_pool::PlacesOut;

/// No transaction is in flight any more: its stamp is let go, and what it has read and written.
pub(crate) fn let_go(phase: &mut Phase, stamp: &mut Stamp, sets: &mut Sets)
    ensures phase { phase.new ≡ Phase.Idle }
    ensures stamp { stamp.new ≡ 0 }
    ensures reads { sets.new.reads ≡ [] }
    ensures writes { sets.new.writes ≡ [] }
{
    sets.clear();
    *phase = Phase::Idle;
    *stamp = Stamp::make(0, 0);
}

impl<J: Keeps> Post<J> {
    /// Links what is written as pending versions. Where there is no place for one of them, the transaction has ended.
    pub fn install(&mut self, core: &Core<J>) -> Result<Installed, PlacesOut>
        requires core { self.old.shared ≡ core.now }
        requires open { self.old.phase ≡ Phase.Open }
        ensures ok { OnOk result (self.new ≡ observing (placing (in_phase (with_bounds self.old self.new.bounds) Phase.Installed) self.new.placed) self.new.observed) }
        ensures places { OnOk result (HavePlaces self.old.shared.size self.old.writes self.new.placed) }
        ensures puts { OnOk result (OneByOne (Puts self.old.shared.size self.old.stamp) self.new.placed self.old.observed self.new.observed) }
        ensures stamp { IfOk result (λ installed. installed.stamp ≡ self.old.stamp) }
        ensures err { OnErr result (self.new ≡ observing (placing (closed (with_bounds self.old self.new.bounds)) self.new.placed) self.new.observed) }
        ensures wants { OnErr result (WantsPlaceAt self.old self.new) }
        ensures written { OnErr result (self.old.writes ≢ []) }
        ensures above { IsAbove self.old.log self.old.stamp }
        ensures read_left { IsAloneAt self.old.shared.size self.old.seat self.old.others → AreLeft self.old.log self.old.stamp self.old.reads }
        ensures before { OnOk result (bounds_before (length self.old.writes) self.new.bounds ≡ self.old.bounds) }
        ensures linked { OnOk result (AreLinked self.old.writes self.old.stamp self.old.bounds self.new.bounds) }
        ensures full { OnErr result (IsAloneAt self.old.shared.size self.old.seat self.old.others → IsFullAt self.old.shared.size self.old.bounds (length self.old.writes)) }
    {
        match install(core, &mut self.hand, &mut self.sets) {
            Ok(installed) => {
                self.phase = Phase::Installed;
                Ok(installed)
            }
            Err(places_out) => {
                let_go(&mut self.phase, &mut self.stamp, &mut self.sets);
                Err(places_out)
            }
        }
    }

    /// Aborts the linked versions.
    pub fn abort(&mut self, core: &Core<J>, installed: Installed)
        requires core { self.old.shared ≡ core.now }
        requires phase { self.old.phase ≡ Phase.Installed }
        requires stamp { installed.stamp ≡ self.old.stamp }
        ensures { self.new ≡ closed self.old }
    {
        installed.abort(core, &mut self.hand, &self.sets);
        let_go(&mut self.phase, &mut self.stamp, &mut self.sets);
    }

    /// Validates the transaction. Where it is decided its entry stands in the log; else its versions are aborted.
    pub fn decide(&mut self, core: &Core<J>, installed: Installed) -> Result<Decided, Conflict>
        requires core { self.old.shared ≡ core.now }
        requires phase { self.old.phase ≡ Phase.Installed }
        requires stamp { installed.stamp ≡ self.old.stamp }
        requires fits { Fits J.kept self.old.shared.size.records (entry_at self.old) }
        ensures ok { OnOk result (self.new ≡ observing (entered self.old) self.new.observed) }
        ensures stood { OnOk result (Stood J.kept self.old.shared.size.records self.old.log (entry_at self.old)) }
        ensures stamp { IfOk result (λ decided. decided.stamp ≡ self.old.stamp) }
        ensures err { OnErr result (self.new ≡ observing (closed self.old) self.new.observed) }
        ensures validates { OnOk result (Validates self.old.stamp self.old.seat self.old.versions (rids_written self.old) self.old.observed.loads self.new.observed.loads) }
        ensures lost { self.new.observed.lost ≡ self.old.observed.lost }
        ensures shown { IfErr result (IsShownAt self.old) }
        ensures touches { IfErr result (Touches self.old.reads self.old.writes) }
        ensures loaded { IfErr result (λ conflict. IsLoaded self.old.stamp conflict self.old.observed self.new.observed) }
        ensures halts { IfErr result (Halts self.old.stamp self.old.versions (rids_written self.old) self.old.observed.loads self.new.observed.loads) }
    {
        match installed.decide(core, &mut self.hand, &self.sets) {
            Ok(decided) => {
                self.phase = Phase::Decided;
                Ok(decided)
            }
            Err(conflict) => {
                let_go(&mut self.phase, &mut self.stamp, &mut self.sets);
                Err(conflict)
            }
        }
    }

    /// Publishes the versions. Gives how many of them took the inline place of their record.
    pub fn publish(&mut self, core: &Core<J>, decided: Decided) -> usize
        requires core { self.old.shared ≡ core.now }
        requires phase { self.old.phase ≡ Phase.Decided }
        requires stamp { decided.stamp ≡ self.old.stamp }
        ensures closed { self.new ≡ closed self.old }
        ensures places { CountsPlaces self.old.shared.size self.old.writes self.old.placed result }
        ensures count { result ≤ length self.old.writes }
        ensures placed { AreBounded (bounds_before (length self.old.writes) self.old.bounds) self.old.writes → result + count_raised (bounds_before (length self.old.writes) self.old.bounds) self.old.bounds self.old.writes ≡ length self.old.writes }
    {
        let inlined = self.sets.count_below(core.layout().records());
        decided.publish(core, &mut self.hand, &self.sets);
        let_go(&mut self.phase, &mut self.stamp, &mut self.sets);
        inlined
    }
}
