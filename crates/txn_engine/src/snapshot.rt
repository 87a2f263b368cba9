//! Snapshots: a seat reads records at one stamp, and each read answers.
ghost use Rattle.std.specs.Prelude.{◌≡◌, IfSome};
ghost use Rattle.std.proofs.Props.{props};
ghost use Rattle.txn_engine.specs.Pass.{engine_of};
ghost use Rattle.txn_engine.specs.Snapshot.{HasSnapshot, Finishes};

use crate::alone::Alone;
use crate::engine::Engine;
use crate::pass::Pass;
use crate::seat_calls::SeatCalls;
use engine_answers::NoFault;
use plain_data::Cells;
use record_store::RecordRead;

/// A snapshot of a seat: records as they stand at its stamp. Each read answers, and takes no memory. It must be spent.
pub struct SnapshotOver<'a, S: SeatCalls> {
    pub(crate) seat: &'a mut S,
    pub(crate) engine: &'a Engine<S::Kept>,
    ghost of: { engine_of (S.pass seat.now) ≡ engine.now } by { Prim.hlevel props },
    ghost snapshot: { HasSnapshot (S.pass seat.now) } by { Prim.hlevel props },
}

/// A snapshot of a pass.
pub type Snapshot<'a, J> = SnapshotOver<'a, Pass<J>>;

/// A snapshot of the seat that is alone, which reads what its log leaves.
pub type AloneSnapshot<'a, J> = SnapshotOver<'a, Alone<J>>;

impl<S: SeatCalls> SnapshotOver<'_, S> {
    /// The stamp at which records are read.
    pub fn stamp(&self) -> u64
        ensures { IfSome (S.pass self.now.seat.now).snapshot (λ g. result ≡ g.stamp) }
    {
        let pass = self.seat.pass();
        pass.post.snapshot_stamp()
    }

    /// Leaves the snapshot open at its seat, which is free then: `resume` takes it up again.
    pub fn leave(self)
        ensures { self.exit.0.now ≡ self.entry.seat.now }
    {
        let SnapshotOver { seat: _, engine: _ } = self;
    }

    /// Ends the snapshot, and gives its stamp. One entry with all that was read stands at the end of the log, and a kept state of
    /// the history at that stamp agrees with it.
    pub fn finish(self) -> u64
        ensures finishes { Finishes S.Kept.kept (S.pass self.entry.seat.now) (S.pass self.exit.0.now) result }
        ensures beside { S.beside self.exit.0.now ≡ S.beside self.entry.seat.now }
    {
        let SnapshotOver { seat, engine } = self;
        seat.end_snapshot(engine)
    }
}

impl<'a, S: SeatCalls> SnapshotOver<'a, S> {
    /// Takes up the snapshot that was left open at a seat.
    pub fn resume(seat: &'a mut S, engine: &'a Engine<S::Kept>) -> Self
        requires engine { engine_of (S.pass seat.old) ≡ engine.now }
        requires snapshot { HasSnapshot (S.pass seat.old) }
        ensures same_reference { result.seat.ghost_name ≡ seat.entry.ghost_name }
        ensures seat { result.seat.now ≡ seat.old }
        ensures engine { result.engine.now ≡ engine.now }
    {
        SnapshotOver { seat, engine }
    }
}

impl<S: SeatCalls> RecordRead for SnapshotOver<'_, S> {
    type Fault = NoFault;

    ghost use Rattle.std.specs.Prelude.{IfOk};
    ghost use Rattle.txn_engine.specs.Snapshot.{meaning_of_snapshot, SnapshotFrame, unread, FindsSeen, ReadsLeft};

    ghost meaning = { λ s. meaning_of_snapshot (S.pass s.seat.now) };

    ghost Rest = { SnapshotFrame S.Beside };

    ghost rest = { λ s. record { name = s.seat.ghost_name; of_pass = unread (S.pass s.seat.now); beside = S.beside s.seat.now } };

    ghost read_gives = { λ s rid answer s'. IfOk answer (ReadsLeft (S.pass s.seat.now) rid) × IfOk answer (FindsSeen (S.pass s.seat.now) (S.pass s'.seat.now) rid) };

    fn read_into(&mut self, rid: u32, into: &mut Cells) -> Result<bool, NoFault> {
        Ok(self.seat.read_snapshot(self.engine, rid, into))
    }

    fn size(&self) -> u32 {
        self.seat.pass().snapshot_size()
    }
}
