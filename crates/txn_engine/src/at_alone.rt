//! What transactions and snapshots do at the seat that is alone: what they do at its pass, where no conflict is met.

use crate::alone::Alone;
use crate::engine::Engine;
use crate::pass::Pass;
use crate::seat_calls::SeatCalls;
use core_rule::Keeps;
use engine_answers::{AloneFault, BeginFault, CommitFault, Committed, TxnFault};
use plain_data::Cells;
use version_pool::PlacesOut;

impl<J: Keeps> SeatCalls for Alone<J> {
    ghost use Rattle.engine_answers.specs.declared.faults.CommitFault.TheVariants as commit_fault;
    ghost use Rattle.txn_engine.specs.Alone.{Beside, fault_of};
    ghost use Rattle.txn_engine.specs.Pass.{IsAlone};

    type Kept = J;

    type Fault = AloneFault;

    type Refusal = PlacesOut;

    ghost pass = { λ a. a.pass };

    ghost Beside = { Beside };

    ghost beside = { λ a. a.beside };

    ghost holds = { λ a. IsAlone a.pass };

    ghost fault = { fault_of };

    ghost refusal = { λ _. commit_fault.PlacesOut };

    fn pass(&self) -> &Pass<J> {
        &self.pass
    }

    fn open(&mut self, engine: &Engine<J>, reading: u64) -> Result<(), BeginFault> {
        self.pass.open(engine, reading)?;
        Ok(())
    }

    fn read_into(
        &mut self,
        engine: &Engine<J>,
        rid: u32,
        into: &mut Cells,
    ) -> Result<bool, AloneFault> {
        match self.pass.read_into(engine, rid, into) {
            Ok(present) => Ok(present),
            Err(TxnFault::NoMemory) => Err(AloneFault::NoMemory),
            Err(_) => unreachable!(),
        }
    }

    fn write(&mut self, rid: u32, value: &Option<Cells>) -> Result<(), AloneFault> {
        match self.pass.write(rid, value) {
            Ok(()) => Ok(()),
            Err(TxnFault::NoMemory) => Err(AloneFault::NoMemory),
            Err(_) => unreachable!(),
        }
    }

    fn fresh_if_open(&mut self, engine: &Engine<J>) -> Result<u32, AloneFault> {
        match self.pass.fresh_if_open(engine) {
            Ok(rid) => Ok(rid),
            Err(TxnFault::RecordsOut) => Err(AloneFault::RecordsOut),
            Err(TxnFault::NoMemory) => Err(AloneFault::NoMemory),
            Err(TxnFault::Conflict(_)) => unreachable!(),
        }
    }

    fn undo_if_open(&mut self) {
        self.pass.undo_if_open();
    }

    fn abort(&mut self) {
        self.pass.abort();
    }

    fn commit(&mut self, engine: &Engine<J>) -> Result<Committed, PlacesOut> {
        match self.pass.commit(engine) {
            Ok(committed) => Ok(committed),
            Err(CommitFault::PlacesOut) => Err(PlacesOut),
            Err(CommitFault::Conflict(_)) => unreachable!(),
        }
    }

    fn begin_snapshot(&mut self, engine: &Engine<J>) {
        self.pass.begin_snapshot(engine);
    }

    fn read_snapshot(&mut self, engine: &Engine<J>, rid: u32, into: &mut Cells) -> bool {
        self.pass.read_snapshot(engine, rid, into)
    }

    fn end_snapshot(&mut self, engine: &Engine<J>) -> u64 {
        self.pass.end_snapshot(engine)
    }
}
