//! Reading and writing at a post.
ghost use Rattle.std.specs.Prelude.{ℕ, ◌≡◌, ◌≢◌, ◌<◌, List, [], ◌∷◌, ◌++◌, Option, None, Some, true, false, is_some, option_copied, IfOk, IfErr, IfSome, IfNone, OnOk, OnErr, length};
ghost use Rattle.core_rule.specs.View.{Read, writing};
ghost use Rattle.core_rule.specs.Deciding.{read_value};
ghost use Rattle.core_rule.specs.Views.{Among};
ghost use Rattle.core_rule.specs.Versions.{read_version};
ghost use Rattle.core_rule.specs.Hands.{IsReady, StaysReady};
ghost use Rattle.core_rule.specs.Searching.{Rests};
ghost use Rattle.record_store.specs.Meaning.{value_at};
ghost use Rattle.seat_post.specs.Post.{known_at, observing};
ghost use Rattle.seat_post.specs.Seats.{IsAloneAt};
ghost use Rattle.seat_post.specs.Logs.{IsAbove};
ghost use Rattle.seat_post.specs.Leaves.{LeavesValue, LeavesSome};
ghost use Rattle.seat_post.specs.Conflicts.{IsOfAnother};
ghost use Rattle.seat_post.specs.Reading.{IfPending, FindsValue, StopsAt, ReadsAs, ReadsOne};
ghost use Rattle.seat_post.specs.Searched.{FindsOne, Stops};

use crate::phase::Phase;
use crate::post::Post;
use crate::search::{MetPending, search};
use core_rule::{Core, Hand, Keeps, ReadVersion};
use plain_data::{Cells, NoMemory};
use validate_core::Sets;
use version_search::{Found, find};

/// Why a read has no answer.
#[derive(Clone, Copy, Drop)]
pub enum ReadFault {
    /// A pending version was met, of this stamp.
    Pending { wts: u64 },
    /// The allocator had no room.
    NoMemory,
}

impl From<NoMemory> for ReadFault {
    ghost use Rattle.std.specs.Prelude.{◌≡◌};
    ghost use Rattle.seat_post.specs.declared.reading.ReadFault.TheVariants as fault;

    ghost from_gives = { λ _ answer. answer ≡ fault.NoMemory };

    fn from(_error: NoMemory) -> Self {
        ReadFault::NoMemory
    }
}

// Notes that the record was found absent. It stands apart, so that a read which finds a value clears no room for one.
#[cold]
#[inline(never)]
fn note_absent(sets: &mut Sets, rid: u32, place: u32, wts: u64)
    requires room { length sets.old.reads < sets.old.read_room }
    requires first { (d : Read) → Among d sets.old.reads → d.record_number ≢ rid }
    ensures reads { sets.new.reads ≡ sets.old.reads ++ read_version rid place wts None ∷ [] }
    ensures writes { sets.new.writes ≡ sets.old.writes }
{
    sets.read(rid, place, wts, None);
}

// Searches for the version that is visible below the stamp in flight, and notes it with its value, where there is room.
fn note<J: Keeps>(
    core: &Core<J>,
    hand: &mut Hand<J>,
    sets: &mut Sets,
    rid: u32,
    stamp: u64,
) -> Result<(), MetPending>
    requires ready { IsReady core.now hand.old }
    requires rid { rid < core.now.size.records }
    requires rests { Rests hand.old.view.work.search }
    requires in_flight { hand.old.view.flight ≡ writing stamp }
    requires room { length sets.old.reads < sets.old.read_room }
    requires first { (d : Read) → Among d sets.old.reads → d.record_number ≢ rid }
    ensures ok { OnOk result (FindsOne rid sets.old.reads sets.new.reads hand.old.view hand.new.view) }
    ensures err { IfErr result (λ met. Stops stamp rid met.wts hand.old.view hand.new.view) }
    ensures unread { OnErr result (sets.new.reads ≡ sets.old.reads) }
    ensures writes { sets.new.writes ≡ sets.old.writes }
    ensures stays { StaysReady core.now hand.old hand.new }
{
    match find(core, hand, rid, stamp, false) {
        Found::Pending { wts } => Err(MetPending { wts }),
        Found::Version {
            place,
            wts,
            absent: true,
        } => {
            note_absent(sets, rid, place, wts);
            Ok(())
        }
        Found::Version {
            place,
            wts,
            absent: false,
        } => {
            sets.load(core, hand, rid, place, wts);
            Ok(())
        }
    }
}

impl<J: Keeps> Post<J> {
    /// The value that the transaction writes to a record.
    pub fn written(&self, rid: u32) -> Option<&Option<Cells>>
        ensures { option_copied result ≡ value_at self.now.writes rid }
    {
        self.sets.value_written(rid)
    }

    /// The version that was read of a record.
    pub fn version_read(&self, rid: u32) -> Option<&ReadVersion>
        ensures found { IfSome result (λ d. value_at self.now.reads rid ≡ Some (read_value d.now)) }
        ensures none { IfNone result (value_at self.now.reads rid ≡ None) }
        ensures above { self.now.phase ≡ Phase.Open → IsAbove self.now.log self.now.stamp }
        ensures left { self.now.phase ≡ Phase.Open → IsAloneAt self.now.shared.size self.now.seat self.now.others → IfSome result (λ d. LeavesValue self.now.log rid self.now.stamp (read_value d.now)) }
    {
        self.sets.read_of(rid)
    }

    /// The version that was read last.
    pub fn last_read(&self) -> &ReadVersion
        requires { self.now.reads ≢ [] }
        ensures { (before : List (ℕ × Option (List ℕ))) → (rid : ℕ) → (value : Option (List ℕ)) → self.now.reads ≡ before ++ (rid, value) ∷ [] → read_value result.now ≡ value }
    {
        self.sets.last_read()
    }

    /// Whether the transaction writes the record.
    pub fn is_written(&self, rid: u32) -> bool
        ensures { result ≡ is_some (value_at self.now.writes rid) }
    {
        self.sets.value_written(rid).is_some()
    }

    /// Reads a record of which nothing is known, and notes its value, which is the one read last. Room is taken first.
    pub fn read(&mut self, core: &Core<J>, rid: u32) -> Result<(), ReadFault>
        requires core { self.old.shared ≡ core.now }
        requires open { self.old.phase ≡ Phase.Open }
        requires rid { rid < self.old.shared.size.records }
        requires first { known_at self.old rid ≡ None }
        ensures ok { OnOk result (ReadsOne rid self.old self.new) }
        ensures err { OnErr result (self.new ≡ observing self.old self.new.observed) }
        ensures stops { IfErr result (λ fault. IfPending fault (λ wts. StopsAt self.old.stamp rid wts self.old.observed self.new.observed)) }
        ensures met { IfErr result (λ fault. IfPending fault (λ wts. (wts < self.old.stamp) × IsOfAnother self.old.shared.size self.old.seat self.old.others wts)) }
        ensures no_memory { IfErr result (λ fault. fault ≡ ReadFault.NoMemory → self.new ≡ self.old) }
    {
        self.sets.reserve(1, 0)?;
        match note(
            core,
            &mut self.hand,
            &mut self.sets,
            rid,
            self.stamp.number(),
        ) {
            Err(met) => return Err(ReadFault::Pending { wts: met.wts }),
            Ok(()) => {}
        }
        Ok(())
    }

    /// Reads such a record, and notes it only where it is absent. Room is taken first.
    pub fn read_absent(&mut self, core: &Core<J>, rid: u32) -> Result<bool, ReadFault>
        requires core { self.old.shared ≡ core.now }
        requires open { self.old.phase ≡ Phase.Open }
        requires rid { rid < self.old.shared.size.records }
        requires first { known_at self.old rid ≡ None }
        // Where it is absent, a deleted version was found; where it is present, a committed one.
        ensures absent { IfOk result (λ absent. absent ≡ true → ReadsAs rid None self.old self.new) }
        ensures passed { IfOk result (λ absent. absent ≡ false → self.new ≡ observing self.old self.new.observed) }
        ensures present { IfOk result (λ absent. absent ≡ false → (words : List ℕ) × FindsValue self.old.stamp rid self.old.observed self.new.observed (Some words)) }
        ensures left { IsAloneAt self.old.shared.size self.old.seat self.old.others → IfOk result (λ absent. absent ≡ false → LeavesSome self.old.log rid self.old.stamp) }
        ensures err { OnErr result (self.new ≡ observing self.old self.new.observed) }
        ensures stops { IfErr result (λ fault. IfPending fault (λ wts. StopsAt self.old.stamp rid wts self.old.observed self.new.observed)) }
        ensures met { IfErr result (λ fault. IfPending fault (λ wts. (wts < self.old.stamp) × IsOfAnother self.old.shared.size self.old.seat self.old.others wts)) }
        ensures no_memory { IfErr result (λ fault. fault ≡ ReadFault.NoMemory → self.new ≡ self.old) }
    {
        self.sets.reserve(1, 0)?;
        match search(core, &mut self.hand, rid, self.stamp.number()) {
            Err(met) => Err(ReadFault::Pending { wts: met.wts }),
            Ok(read) => {
                if read.value.is_some() {
                    return Ok(false);
                }
                self.sets.read(rid, read.place, read.wts, None);
                Ok(true)
            }
        }
    }
}
