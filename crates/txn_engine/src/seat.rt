//! Seats: what a caller does at a pass, and at the seat that is alone.
ghost use Rattle.std.specs.Prelude.{◌≡◌, ◌+◌, ◌≤◌, ◌↔◌, IsErr, OnOk, OnErr, IfOk, IfErr, nat_eq};
ghost use Rattle.std.specs.List.{IsDistinct};
ghost use Rattle.std.specs.Borrow.{sem, RestsIfErr};
ghost use Rattle.stamp_base.specs.Limits.{greatest_clock};
ghost use Rattle.stamp_base.specs.Stamp.{stamp_of};
ghost use Rattle.histories.specs.History.{Lawful};
ghost use Rattle.word_layout.specs.Name.{min_write, published_write};
ghost use Rattle.core_rule.specs.Paths.{load};
ghost use Rattle.seat_post.specs.Logs.{IsAbove};
ghost use Rattle.seat_post.specs.Observing.{with_load};
ghost use Rattle.txn_engine.specs.Accounts.{KeepsAbsent};
ghost use Rattle.txn_engine.specs.Collecting.{CollectsPass};
ghost use Rattle.txn_engine.specs.Leaves.{HoldsAbsent};
ghost use Rattle.txn_engine.specs.Pass.{IsIdle, IsAlone, next_clock, begun, ticked, heard, observing, with_met, engine_of};
ghost use Rattle.txn_engine.specs.Snapshot.{Begins};

use crate::alone::Alone;
use crate::engine::Engine;
use crate::pass::Pass;
use crate::seat_calls::SeatCalls;
use crate::snapshot::{AloneSnapshot, Snapshot, SnapshotOver};
use crate::txn::{AloneTxn, Txn, TxnOver};
use clock_stamps::ClockOut;
use core_rule::Keeps;
use engine_answers::BeginFault;
use rapid_gc::Collected;
use stamp_base::Stamp;

/// A seat: a pass, or the seat that is alone, whose transactions and snapshots meet no conflict. What each call does is said of its pass,
/// and what the seat has beside stays.
pub trait Seat: SeatCalls {
    /// Draws and publishes a stamp that no transaction gets. `ClockOut` comes where no clock is left; nothing changes then.
    fn tick(&mut self, engine: &Engine<Self::Kept>, reading: u64) -> Result<Stamp, ClockOut>
        requires engine { engine_of (Self.pass self.old) ≡ engine.now }
        requires idle { IsIdle (Self.pass self.old) }
        ensures ok { OnOk result (Self.pass self.new ≡ ticked (Self.pass self.old) (next_clock (Self.pass self.old) reading)) }
        ensures beside { Self.beside self.new ≡ Self.beside self.old }
        ensures stamp { IfOk result (λ stamp. stamp ≡ stamp_of (next_clock (Self.pass self.old) reading) (Self.pass self.old).seat) }
        ensures above { IfOk result (IsAbove (Self.pass self.old).log) }
        ensures clock_out { IsErr result ↔ (next_clock (Self.pass self.old) reading ≡ greatest_clock + 1) }
        ensures err { OnErr result (self.new ≡ self.old) };

    /// Hears a stamp: each later stamp of this seat is above it.
    fn hear(&mut self, engine: &Engine<Self::Kept>, stamp: Stamp)
        requires { engine_of (Self.pass self.old) ≡ engine.now }
        ensures value { Self.pass self.new ≡ observing (heard (Self.pass self.old) stamp) (with_load (Self.pass self.old).observed (load (published_write (Self.pass self.old).seat) (Self.pass self.old).published)) }
        ensures beside { Self.beside self.new ≡ Self.beside self.old };

    /// Begins a transaction, with the next clock at this reading, in any unit; a boosted clock reads 1,024 more. `ClockOut` comes
    /// where no clock is left. After a refusal all is as before.
    ///
    /// Each number that it may be given stands in the list once.
    fn begin<'a>(
        &'a mut self,
        engine: &'a Engine<Self::Kept>,
        reading: u64,
    ) -> Result<TxnOver<'a, Self, &'a Engine<Self::Kept>>, BeginFault>
    where
        Self: Sized,
        requires engine { engine_of (Self.pass self.old) ≡ engine.now }
        requires idle { IsIdle (Self.pass self.old) }
        ensures* rests { sem 𝓛 (RestsIfErr Self.row self.entry (λ t. t.seat.ghost_name) result (λ s. s ≡ self.old)) }
        ensures same_reference { IfOk result (λ t. t.seat.ghost_name ≡ self.entry.ghost_name) }
        ensures ok { IfOk result (λ t. Self.pass t.seat.now ≡ begun (Self.pass self.old) (next_clock (Self.pass self.old) reading)) }
        ensures beside { IfOk result (λ t. Self.beside t.seat.now ≡ Self.beside self.old) }
        ensures above { IfOk result (λ t. IsAbove (Self.pass self.old).log (Self.pass t.seat.now).stamp) }
        ensures each_once { IfOk result (λ t. IsDistinct nat_eq (Self.pass t.seat.now).spare) }
        ensures absent { HoldsAbsent (Self.pass self.old) → IfOk result (λ t. HoldsAbsent (Self.pass t.seat.now)) }
        ensures keeps_absent { IfOk result (λ t. KeepsAbsent (Self.pass t.seat.now)) }
        ensures engine { IfOk result (λ t. t.engine.now ≡ engine.now) }
        ensures in_range { OnOk result (next_clock (Self.pass self.old) reading ≤ greatest_clock) }
        ensures clock_out { IfErr result (λ fault. fault ≡ BeginFault.ClockOut → next_clock (Self.pass self.old) reading ≡ greatest_clock + 1) };

    /// Begins a snapshot: raises `min_wts` to the least published write word of all seats, and reads at one less than it. No
    /// transaction that commits from then on is stamped up to that. Where the seat is alone, that word is its own.
    fn snapshot<'a>(&'a mut self, engine: &'a Engine<Self::Kept>) -> SnapshotOver<'a, Self>
    where
        Self: Sized,
        requires engine { engine_of (Self.pass self.old) ≡ engine.now }
        requires idle { IsIdle (Self.pass self.old) }
        ensures same_reference { result.seat.ghost_name ≡ self.entry.ghost_name }
        ensures begins { Begins (Self.pass self.old) (Self.pass result.seat.now) }
        ensures beside { Self.beside result.seat.now ≡ Self.beside self.old }
        ensures engine { result.engine.now ≡ engine.now };

    /// One load of `min_wts`, which is met. Where no other seat is open, the log is one lawful history then.
    fn tell(&mut self, engine: &Engine<Self::Kept>)
        requires engine { engine_of (Self.pass self.old) ≡ engine.now }
        requires idle { IsIdle (Self.pass self.old) }
        ensures value { Self.pass self.new ≡ observing (with_met (Self.pass self.old) (Self.pass self.new).met) (Self.pass self.new).observed }
        ensures beside { Self.beside self.new ≡ Self.beside self.old }
        ensures load { (Self.pass self.new).observed ≡ with_load (Self.pass self.old).observed (load min_write (Self.pass self.new).met) }
        ensures not_back { (Self.pass self.old).met ≤ (Self.pass self.new).met }
        ensures holds { Self.holds self.old }
        ensures lawful { IsAlone (Self.pass self.old) → Lawful Self.Kept.kept (Self.pass self.old).shared.size.records (Self.pass self.old).log };

    /// Takes back the versions older than the queued ones, as far as no reader can reach them, and answers how many items of the
    /// queue ended how, and how many places were freed. The queue has an item for each version that this seat committed and below
    /// which it has not yet collected: a record and a stamp.
    ///
    /// It first publishes the bound of its clock as its write word, where that is greater, raises `min_wts` to the least such word
    /// of all seats, publishes one less than that minimum as its read stamp, and raises `min_rts` to the least read stamp of all
    /// seats. Then it goes through the queue once. An item above that `min_rts` is late, and stays; one whose record's lock another
    /// seat holds is locked, and stays. The others leave: an item below its record's floor is dropped, and below any other each older
    /// version is cut off and its place freed. What stays keeps its order. A seat that is alone keeps no item.
    ///
    /// No transaction is in flight, and no memory is asked for.
    fn collect(&mut self, engine: &Engine<Self::Kept>) -> Collected
        requires engine { engine_of (Self.pass self.old) ≡ engine.now }
        requires idle { IsIdle (Self.pass self.old) }
        ensures collects { CollectsPass (Self.pass self.old) (Self.pass self.new) result }
        ensures beside { Self.beside self.new ≡ Self.beside self.old }
        ensures holds { Self.holds self.old };
}

impl<J: Keeps> Seat for Pass<J> {
    fn tick(&mut self, engine: &Engine<J>, reading: u64) -> Result<Stamp, ClockOut> {
        let stamp = self
            .post
            .tick(&engine.core, reading.saturating_add(self.boost))?;
        Ok(stamp)
    }

    fn hear(&mut self, engine: &Engine<J>, stamp: Stamp) {
        self.post.hear(&engine.core, stamp);
    }

    fn begin<'a>(
        &'a mut self,
        engine: &'a Engine<J>,
        reading: u64,
    ) -> Result<Txn<'a, J>, BeginFault> {
        self.open(engine, reading)?;
        Ok(TxnOver { seat: self, engine })
    }

    fn snapshot<'a>(&'a mut self, engine: &'a Engine<J>) -> Snapshot<'a, J> {
        self.begin_snapshot(engine);
        SnapshotOver { seat: self, engine }
    }

    fn tell(&mut self, engine: &Engine<J>) {
        self.post.tell(&engine.core);
    }

    fn collect(&mut self, engine: &Engine<J>) -> Collected {
        self.post.collect(&engine.core, &mut self.queue)
    }
}

impl<J: Keeps> Seat for Alone<J> {
    fn tick(&mut self, engine: &Engine<J>, reading: u64) -> Result<Stamp, ClockOut> {
        let stamp = self.pass.tick(engine, reading)?;
        Ok(stamp)
    }

    fn hear(&mut self, engine: &Engine<J>, stamp: Stamp) {
        self.pass.hear(engine, stamp);
    }

    fn begin<'a>(
        &'a mut self,
        engine: &'a Engine<J>,
        reading: u64,
    ) -> Result<AloneTxn<'a, J>, BeginFault> {
        self.open(engine, reading)?;
        Ok(TxnOver { seat: self, engine })
    }

    fn snapshot<'a>(&'a mut self, engine: &'a Engine<J>) -> AloneSnapshot<'a, J> {
        self.begin_snapshot(engine);
        SnapshotOver { seat: self, engine }
    }

    fn tell(&mut self, engine: &Engine<J>) {
        self.pass.tell(engine);
    }

    fn collect(&mut self, engine: &Engine<J>) -> Collected {
        self.pass.collect(engine)
    }
}
