//! What transactions and snapshots do at a seat.
ghost use Rattle.std.specs.Prelude.{◌≡◌, ◌+◌, ◌<◌, ◌≤◌, Some, false, IfOk, IfErr, OnOk, OnErr, nat_eq};
ghost use Rattle.std.specs.List.{IsDistinct};
ghost use Rattle.plain_data.specs.State.{Fits};
ghost use Rattle.record_store.specs.Into.{value_if, told_into};
ghost use Rattle.record_store.specs.Meaning.{known, after_read};
ghost use Rattle.stamp_base.specs.Limits.{greatest_clock};

use crate::engine::Engine;
use crate::pass::Pass;
use core_rule::Keeps;
use engine_answers::{BeginFault, Committed};
use plain_data::Cells;
use seat_post::Phase;

/// What transactions and snapshots do at a seat, which is a pass or the seat that is alone: each call is said of its pass.
pub trait SeatCalls {
    ghost use Rattle.seat_post.specs.Leaves.{AreLeft};
    ghost use Rattle.seat_post.specs.Logs.{IsAbove};
    ghost use Rattle.engine_answers.specs.declared.faults.CommitFault.{CommitFault};
    ghost use Rattle.engine_answers.specs.declared.faults.TxnFault.{TxnFault};
    ghost use Rattle.txn_engine.specs.Commits.{Commits};
    ghost use Rattle.txn_engine.specs.Faults.{told_by};
    ghost use Rattle.txn_engine.specs.Pass.{PassView, IsIdle, IsAlone, next_clock, begun, entry_of, aborted, observing, engine_of};
    ghost use Rattle.txn_engine.specs.Snapshot.{meaning_of_snapshot, Begins, HasSnapshot, snapshot_read, unread, Finishes, FindsSeen, ReadsLeft};
    ghost use Rattle.txn_engine.specs.Txn.{Reads, Writes, Gives, Undoes};

    /// Which states its engine keeps.
    type Kept: Keeps;

    /// Why a transaction does not read or write there.
    type Fault;

    /// Why it does not commit there.
    type Refusal;

    /// The pass of the seat.
    ghost pass: { Self → PassView };

    /// What it has beside, which none of these calls changes.
    ghost Beside: { Type 0 };

    ghost beside: { Self → Beside };

    /// What is so at each such seat.
    ghost holds: { Self → Type 0 };

    /// What a pass answers in place of its faults.
    ghost fault: { Self.Fault → TxnFault };

    ghost refusal: { Self.Refusal → CommitFault };

    fn pass(&self) -> &Pass<Self::Kept>
        ensures { result.now ≡ pass self.now };

    /// Draws the stamp of a transaction. Room is taken first.
    fn open(&mut self, engine: &Engine<Self::Kept>, reading: u64) -> Result<(), BeginFault>
        requires engine { engine_of (pass self.old) ≡ engine.now }
        requires idle { IsIdle (pass self.old) }
        ensures ok { OnOk result (pass self.new ≡ begun (pass self.old) (next_clock (pass self.old) reading)) }
        ensures beside { beside self.new ≡ beside self.old }
        ensures above { OnOk result (IsAbove (pass self.old).log (pass self.new).stamp) }
        ensures each_once { OnOk result (IsDistinct nat_eq (pass self.new).spare) }
        ensures in_range { OnOk result (next_clock (pass self.old) reading ≤ greatest_clock) }
        ensures clock_out { IfErr result (λ fault. fault ≡ BeginFault.ClockOut → next_clock (pass self.old) reading ≡ greatest_clock + 1) }
        ensures err { OnErr result (self.new ≡ self.old) };

    /// Reads a record, once, into these cells, and answers whether it is present; where it is not, and after a fault, they are as before.
    fn read_into(
        &mut self,
        engine: &Engine<Self::Kept>,
        rid: u32,
        into: &mut Cells,
    ) -> Result<bool, Self::Fault>
        requires engine { engine_of (pass self.old) ≡ engine.now }
        requires open { (pass self.old).phase ≡ Phase.Open }
        requires rid { rid < (pass self.old).shared.size.records }
        ensures reads { Reads (pass self.old) (pass self.new) rid (told_by fault (told_into result into.new)) }
        ensures absent { IfOk result (λ present. present ≡ false → into.new ≡ into.old) }
        ensures untouched { OnErr result (into.new ≡ into.old) }
        ensures beside { beside self.new ≡ beside self.old };

    /// Writes a record, or deletes it. Room is taken first.
    fn write(&mut self, rid: u32, value: &Option<Cells>) -> Result<(), Self::Fault>
        requires open { (pass self.old).phase ≡ Phase.Open }
        requires rid { rid < (pass self.old).shared.size.records }
        ensures writes { Writes (pass self.old) (pass self.new) rid value.now (told_by fault result) }
        ensures beside { beside self.new ≡ beside self.old };

    /// Gives out a new record, where a transaction is open.
    fn fresh_if_open(&mut self, engine: &Engine<Self::Kept>) -> Result<u32, Self::Fault>
        requires { engine_of (pass self.old) ≡ engine.now }
        ensures gives { Gives (pass self.old) (pass self.new) (told_by fault result) }
        ensures beside { beside self.new ≡ beside self.old };

    /// Drops what is written, where a transaction is open.
    fn undo_if_open(&mut self)
        ensures undoes { Undoes (pass self.old) (pass self.new) }
        ensures beside { beside self.new ≡ beside self.old };

    /// Ends a transaction that has linked nothing.
    fn abort(&mut self)
        requires { (pass self.old).phase ≡ Phase.Open }
        ensures after { pass self.new ≡ aborted (pass self.old) }
        ensures beside { beside self.new ≡ beside self.old }
        ensures holds { holds self.old }
        ensures read_left { IsAlone (pass self.old) → AreLeft (pass self.old).log (pass self.old).stamp (pass self.old).reads };

    /// Commits the transaction in flight.
    fn commit(&mut self, engine: &Engine<Self::Kept>) -> Result<Committed, Self::Refusal>
        requires engine { engine_of (pass self.old) ≡ engine.now }
        requires open { (pass self.old).phase ≡ Phase.Open }
        requires fits { Fits Self.Kept.kept (pass self.old).shared.size.records (entry_of (pass self.old)) }
        ensures commits { Commits Self.Kept.kept (pass self.old) (pass self.new) (told_by refusal result) }
        ensures beside { beside self.new ≡ beside self.old }
        ensures holds { holds self.old };

    /// Begins a snapshot.
    fn begin_snapshot(&mut self, engine: &Engine<Self::Kept>)
        requires engine { engine_of (pass self.old) ≡ engine.now }
        requires idle { IsIdle (pass self.old) }
        ensures begins { Begins (pass self.old) (pass self.new) }
        ensures snapshot { HasSnapshot (pass self.new) }
        ensures beside { beside self.new ≡ beside self.old };

    /// Reads a record for it, likewise.
    fn read_snapshot(&mut self, engine: &Engine<Self::Kept>, rid: u32, into: &mut Cells) -> bool
        requires engine { engine_of (pass self.old) ≡ engine.now }
        requires snapshot { HasSnapshot (pass self.old) }
        requires rid { rid < (pass self.old).shared.size.records }
        ensures still { HasSnapshot (pass self.new) }
        ensures meaning { meaning_of_snapshot (pass self.new) ≡ after_read (meaning_of_snapshot (pass self.old)) rid (value_if result into.new) }
        ensures frame { unread (pass self.new) ≡ unread (pass self.old) }
        ensures after { pass self.new ≡ observing (snapshot_read (pass self.old) rid (value_if result into.new)) (pass self.new).observed }
        ensures beside { beside self.new ≡ beside self.old }
        ensures answer { known (meaning_of_snapshot (pass self.new)) rid ≡ Some (value_if result into.new) }
        ensures absent { result ≡ false → into.new ≡ into.old }
        ensures found { FindsSeen (pass self.old) (pass self.new) rid (value_if result into.new) }
        ensures left { ReadsLeft (pass self.old) rid (value_if result into.new) };

    /// Ends it.
    fn end_snapshot(&mut self, engine: &Engine<Self::Kept>) -> u64
        requires engine { engine_of (pass self.old) ≡ engine.now }
        requires snapshot { HasSnapshot (pass self.old) }
        ensures finishes { Finishes Self.Kept.kept (pass self.old) (pass self.new) result }
        ensures beside { beside self.new ≡ beside self.old };
}
