//! Coming together: a pass takes over what seats leave that have retired, and is alone once it has all of them.
ghost use Rattle.std.specs.Prelude.{◌≡◌, ◌≤◌, ◌+◌, ◌++◌, [], true};
ghost use Rattle.stamp_base.specs.Limits.{greatest_clock};
ghost use Rattle.txn_engine.specs.Joining.{AreOfEngine, AreOthers, IsLast, refusals_of, joined, come_together, with_numbers_back};
ghost use Rattle.txn_engine.specs.Pass.{IsIdle, IsAlone, with_snapshot, engine_of};

use crate::alone::Alone;
use crate::engine::Engine;
use crate::pass::Pass;
use crate::retired::Retired;
use core_rule::Keeps;

impl<J: Keeps> Pass<J> {
    /// Takes over what a seat of the engine leaves that has retired, and gives the count of its refusals, which the pass does not count
    /// itself. Its log is behind that of the pass, and the clock and the minimum met are the greater ones; what was given out is spare
    /// again, with the numbers of the other, each once. What the pass knows of lists is forgotten. It keeps its boost and its queue, and
    /// works on as before. No memory is asked for.
    pub fn take_over(&mut self, engine: &Engine<J>, other: Retired<J>) -> u64
        requires engine { engine_of self.old ≡ engine.now }
        requires other_engine { other.engine ≡ engine.now }
        requires idle { IsIdle self.old }
        ensures joined { self.new ≡ with_snapshot (joined (with_numbers_back self.old) other) self.new.snapshot }
        ensures refusals { result ≡ other.refusals }
        ensures few { result ≤ other.clock }
        ensures in_range { self.new.clock ≤ greatest_clock }
    {
        let Retired {
            hand,
            numbers,
            refusals,
        } = other;
        self.numbers.take_back();
        self.numbers.add_all(&numbers);
        self.post.join(&engine.core, hand);
        self.post.clock();
        refusals
    }

    /// Changes nothing: it tells contracts that no other seat is open, where each of them is taken in.
    pub fn tell_alone(&self)
        ensures { IsLast self.now → IsAlone self.now }
    {
        self.post.tell_made();
    }

    // What was given out is spare again, and nothing is left of boost and queue.
    fn clear_all(&mut self)
        requires { IsIdle self.old }
        ensures { self.new ≡ record self.old { spare = self.old.given ++ self.old.spare; given = []; boost = 0; queue = [] } }
    {
        self.numbers.take_back();
        self.boost = 0;
        self.queue.clear();
    }
}

impl<J: Keeps> Engine<J> {
    /// The seat that is alone again, after all other seats have retired. Its log is that of the pass with the logs of the others
    /// behind it, as they are handed in; its clock and the greatest `min_wts` that it has met are the greatest of all; it has
    /// no boost and nothing queued, and all spare numbers, each once. The refusals of the others are counted beside those of the pass;
    /// its commits are those of the pass.
    #[inline(never)]
    pub fn alone(&self, pass: Pass<J>, others: Vec<Retired<J>>) -> Alone<J>
        requires engine { engine_of pass ≡ self.now }
        requires idle { IsIdle pass }
        requires first { pass.seat ≡ 0 }
        requires of_engine { AreOfEngine self.now others.items }
        requires each_once { AreOthers self.now.size others.items }
        ensures pass { result.pass ≡ with_snapshot (come_together pass others.items) result.pass.snapshot }
        ensures shared { result.shared ≡ true }
        ensures earlier { result.earlier ≡ refusals_of others.items }
        ensures alone { IsAlone result.pass }
    {
        // The seats are at most 64.
        self.seats();
        let mut pass = pass;
        let mut remaining = others;
        let mut earlier = 0;
        pass.clear_all();
        while !remaining.is_empty() {
            earlier += pass.take_over(self, remaining.remove(0));
        }
        pass.post.tell_made();
        Alone {
            pass,
            earlier,
            parts: None,
        }
    }
}
