//! What transactions and snapshots do at a pass.

use crate::engine::Engine;
use crate::pass::Pass;
use crate::seat_calls::SeatCalls;
use crate::transacting::{boost_after_end, one_if};
use core_rule::Keeps;
use engine_answers::{BeginFault, CommitFault, Committed, TxnFault};
use plain_data::Cells;
use record_store::put_value;
use seat_post::Phase;

impl<J: Keeps> SeatCalls for Pass<J> {
    type Kept = J;

    type Fault = TxnFault;

    type Refusal = CommitFault;

    ghost pass = { λ p. p };

    ghost Beside = { Unit {0} };

    ghost beside = { λ _. tt };

    ghost holds = { λ _. Unit {0} };

    ghost fault = { λ f. f };

    ghost refusal = { λ f. f };

    fn pass(&self) -> &Pass<J> {
        self
    }

    fn open(&mut self, engine: &Engine<J>, reading: u64) -> Result<(), BeginFault> {
        // The seat is in its range.
        self.post.number();
        self.queue.reserve(1)?;
        self.post
            .open(&engine.core, reading.saturating_add(self.boost))?;
        self.numbers.take_back();
        Ok(())
    }

    fn read_into(
        &mut self,
        engine: &Engine<J>,
        rid: u32,
        into: &mut Cells,
    ) -> Result<bool, TxnFault> {
        self.stopped()?;
        if let Some(value) = self.post.written(rid) {
            return Ok(put_value(value, into));
        }
        if let Some(version) = self.post.version_read(rid) {
            return Ok(put_value(&version.value(), into));
        }
        self.note(engine, rid)?;
        Ok(put_value(&self.post.last_read().value(), into))
    }

    fn write(&mut self, rid: u32, value: &Option<Cells>) -> Result<(), TxnFault> {
        self.stopped()?;
        let count = self.post.sets().count_writes() as u32 + 1;
        self.queue.reserve(count)?;
        self.post.write(rid, value)?;
        Ok(())
    }

    fn fresh_if_open(&mut self, engine: &Engine<J>) -> Result<u32, TxnFault> {
        match self.post.phase() {
            Phase::Open => self.fresh(engine),
            _ => {
                self.stopped()?;
                Err(TxnFault::NoMemory)
            }
        }
    }

    fn undo_if_open(&mut self) {
        match self.post.phase() {
            Phase::Open => {
                self.numbers.take_back();
                self.post.drop_writes();
            }
            _ => {}
        }
    }

    fn abort(&mut self) {
        let boost = boost_after_end(&self.dead, self.boost);
        let more = one_if(self.counted);
        self.dead = None;
        self.post.close();
        self.let_go(boost, more);
    }

    fn commit(&mut self, engine: &Engine<J>) -> Result<Committed, CommitFault> {
        let linked = self.install(engine)?;
        let entered = self.decide(engine, linked)?;
        Ok(self.publish(engine, entered))
    }

    fn begin_snapshot(&mut self, engine: &Engine<J>) {
        self.post.begin_snapshot(&engine.core);
    }

    fn read_snapshot(&mut self, engine: &Engine<J>, rid: u32, into: &mut Cells) -> bool {
        self.post.read_snapshot(&engine.core, rid, into)
    }

    fn end_snapshot(&mut self, engine: &Engine<J>) -> u64 {
        self.post.end_snapshot(&engine.core)
    }
}
