//! Spare record numbers go from one pass to another.
ghost use Rattle.std.specs.Prelude.{◌≡◌, ◌<◌, ◌≤◌, length};
ghost use Rattle.spare_numbers.specs.Spare.{taken_in, PartsWith};
ghost use Rattle.txn_engine.specs.Pass.{numbers_of};

use crate::pass::Pass;

// Each of these calls may be made whether a transaction is in flight or not.
impl<J> Pass<J> {
    /// How many numbers are spare, without those that are given out to the transaction in flight.
    pub fn spare(&self) -> u32
        ensures { result ≡ length self.now.spare }
    {
        self.numbers.len()
    }

    /// How many committed versions are queued, below which `collect` is still to take back older ones.
    pub fn queued(&self) -> usize
        ensures { result ≡ length self.now.queue }
    {
        self.queue.len()
    }

    /// Parts with the last spare number, so that another pass of the engine can take it in. `None` comes exactly where no number is
    /// spare; those that are given out stay.
    ///
    /// A caller owes that each number which was parted with is taken in by one pass. Where two passes have it, nothing breaks: a number is
    /// given out only after its record was read as absent, so transactions that both add the record meet as a conflict. A number that no
    /// pass takes in is given out by none, until the seat that is alone finds the absent records again (`rescan`).
    pub fn part_with(&mut self) -> Option<u32>
        ensures parts { PartsWith (numbers_of self.old) (numbers_of self.new) result }
        ensures after { self.new ≡ record self.old { spare = self.new.spare } }
    {
        self.numbers.part()
    }

    /// Takes in a number that another pass has parted with: it is the last of the spare ones then. Where it is spare here already, or given
    /// out to the transaction in flight, nothing changes. No memory is asked for.
    pub fn take_in(&mut self, rid: u32)
        requires from { self.old.fixed ≤ rid }
        requires within { rid < self.old.shared.size.records }
        ensures { self.new ≡ record self.old { spare = taken_in self.old.given self.old.spare rid } }
    {
        self.numbers.take_in(rid);
    }
}
