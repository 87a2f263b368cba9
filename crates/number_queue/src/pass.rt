//! What numbers are offered and taken with.
ghost use Rattle.std.specs.Prelude.{◌≡◌, ◌≤◌, ◌<◌, ◌/◌, ◌+◌, IfOk, IfSome, IfNone, None, true, MatchOption, OnOk};
ghost use Rattle.std.specs.Arc.{arc_value};
ghost use Rattle.crossbeam_queue.specs.Passes.{IsPassOf};
ghost use Rattle.number_queue.specs.View.{known, put_view, taken_view};
ghost use Rattle.number_queue.specs.Passes.{NumberPassView, first_number_pass, reading_for, refused, with_taken, AreSameLimits, Offers, PutsBack, TakesFor};

use crate::number::Number;
use crate::rule::{ItemPass, ItemQueue, Puts, Takes};
use plain_data::NoMemory;
use std::alloc::Global;
use std::marker::Model;
use std::sync::Arc;

/// So often one call tries, where others are in its way. It does not yield to them: a static library may not.
const TURNS: u32 = 64;

/// The right of one thread at a time to offer numbers to a queue and to take some of it.
///
/// Contracts see what it put into the queue and what it took out. What others put there they do not see: that a number which comes out was
/// put there once, by some pass, no clause says.
#[derive(Drop)]
pub struct NumberPass {
    queue: Arc<ItemQueue>,
    pass: ItemPass,
    fixed: u32,
    records: u32,
    /// A number that was taken too early for the transaction that wanted one.
    waiting: Option<Number>,
    refusals: u64,
}

impl Model for NumberPass {
    ghost use Rattle.std.specs.Prelude.{IfSome, ◌≤◌, ◌<◌};
    ghost use Rattle.std.specs.Arc.{arc_value};
    ghost use Rattle.crossbeam_queue.specs.Passes.{IsPassOf};
    ghost use Rattle.number_queue.specs.View.{known};
    ghost use Rattle.number_queue.specs.Passes.{NumberPassView};

    ghost Value = { NumberPassView };

    ghost view = { λ p. record { fixed = p.fixed; records = p.records; put = (known p.pass).put; taken = (known p.pass).taken; waiting = p.waiting; refusals = p.refusals } };

    ghost invariant = { λ p. IsPassOf (arc_value p.queue) p.pass × IfSome p.waiting (λ n. (p.fixed ≤ n.rid) × (n.rid < p.records)) };
}

impl NumberPass {
    /// A pass of a new queue, for numbers from `fixed` on and below `records`. It has room for each of them.
    pub fn first(alloc: Global, fixed: u32, records: u32) -> Result<NumberPass, NoMemory>
        ensures { IfOk result (λ pass. pass ≡ first_number_pass fixed records) }
    {
        let room = (records.saturating_sub(fixed) as usize).max(1);
        let (queue, pass) = ItemQueue::ruled(alloc, room)?;
        let queue = Arc::new(alloc, queue)?;
        Ok(NumberPass {
            queue,
            pass,
            fixed,
            records,
            waiting: None,
            refusals: 0,
        })
    }

    /// Another pass of the same queue.
    pub fn another(&self) -> Result<NumberPass, NoMemory>
        ensures { IfOk result (λ pass. pass ≡ first_number_pass self.now.fixed self.now.records) }
    {
        let queue = Arc::try_clone(&self.queue)?;
        let pass = queue.pass();
        Ok(NumberPass {
            queue,
            pass,
            fixed: self.fixed,
            records: self.records,
            waiting: None,
            refusals: 0,
        })
    }

    // Notes that an offer or a taking was refused.
    fn refuse(&mut self)
        ensures { self.new ≡ refused self.old }
    {
        self.refusals = self.refusals.saturating_add(1);
    }

    /// Puts a number into the queue, behind the others, or answers that it was refused.
    pub fn offer(&mut self, number: Number) -> bool
        ensures offers { Offers number self.old self.new result }
        ensures limits { AreSameLimits self.old self.new }
    {
        for _turn in 0..TURNS {
            if let Ok(()) = self.queue.try_push_as::<Puts>(&mut self.pass, number) {
                return true;
            }
        }
        self.refuse();
        false
    }

    // The number at the front of the queue.
    fn next(&mut self) -> Option<Number>
        ensures { MatchOption result (self.new ≡ self.old) (λ number. self.new ≡ with_taken self.old number) }
    {
        for _turn in 0..TURNS {
            if let Some(number) = self.queue.try_pop_as::<Takes>(&mut self.pass) {
                return Some(number);
            }
            if self.queue.is_empty_as::<Takes>(&mut self.pass) {
                return None;
            }
        }
        None
    }

    /// Takes a number for a transaction of this stamp. `None`: the queue was found empty, others were in the way, or the number that came
    /// may be used by later transactions alone; it waits here then, and is taken first.
    pub fn take(&mut self, stamp: u64) -> Option<u32>
        ensures takes { TakesFor stamp self.old self.new result }
        ensures limits { AreSameLimits self.old self.new }
        ensures from { IfSome result (λ rid. self.old.fixed ≤ rid) }
        ensures within { IfSome result (λ rid. rid < self.old.records) }
    {
        if let Some(number) = self.waiting {
            if number.since < stamp {
                self.waiting = None;
                return Some(number.rid);
            }
            self.refuse();
            return None;
        }
        let Some(number) = self.next() else {
            self.refuse();
            return None;
        };
        if number.rid < self.fixed || number.rid >= self.records {
            self.refuse();
            return None;
        }
        if number.since < stamp {
            return Some(number.rid);
        }
        self.waiting = Some(number);
        self.refuse();
        None
    }

    /// The reading of a clock at which a transaction begins that may use the number which waits; 0 where none does.
    pub fn reading(&self) -> u64
        ensures { result ≡ reading_for self.now }
    {
        match self.waiting {
            Some(number) => number.since / 256 + 1,
            None => 0,
        }
    }

    /// Offers the number that waits, if there is one. Where that is refused it waits on.
    pub fn put_back(&mut self)
        ensures back { PutsBack self.old self.new }
        ensures limits { AreSameLimits self.old self.new }
    {
        let Some(number) = self.waiting else {
            return;
        };
        if self.offer(number) {
            self.waiting = None;
        }
    }
}
