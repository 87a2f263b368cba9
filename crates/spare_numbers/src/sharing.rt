//! Dealing the numbers of a list out, and bringing lists together.
ghost use Rattle.std.specs.Prelude.{◌≡◌, ◌<◌, []};
ghost use Rattle.spare_numbers.specs.Spare.{every, with_all};

use crate::numbers::Numbers;

impl Numbers {
    /// Puts every so many-th spare number of another list into this one, from a place on.
    pub fn fill(&mut self, from: &Numbers, step: u32, first: u32)
        requires step { 0 < step }
        requires fixed { self.old.fixed ≡ from.now.fixed }
        requires records { self.old.records ≡ from.now.records }
        requires none { self.old.spare ≡ [] }
        requires none_given { self.old.given ≡ [] }
        ensures { self.new ≡ record self.old { spare = every step first from.now.spare } }
    {
        // The records are fewer than 2^32.
        from.records();
        let mut i = first as usize;
        while let Some(rid) = from.at(i) {
            self.add(rid);
            i += step as usize;
        }
    }

    /// Keeps every so many-th spare number, from the first one on, and strikes the others off. The order stays, and no room is asked
    /// for.
    pub fn retain_every(&mut self, step: u32)
        requires step { 0 < step }
        requires none_given { self.old.given ≡ [] }
        ensures { self.new ≡ record self.old { spare = every step 0 self.old.spare } }
    {
        // So many are struck off before the next one that is kept.
        let mut left = 0;
        for _number in 0..self.len() {
            let Some(rid) = self.at(0) else {
                unreachable!();
            };
            self.strike(0);
            if left == 0 {
                self.add(rid);
                left = step;
            }
            left -= 1;
        }
    }

    /// Adds the spare numbers of another list that are not on this one.
    pub fn add_all(&mut self, other: &Numbers)
        requires fixed { self.old.fixed ≡ other.now.fixed }
        requires records { self.old.records ≡ other.now.records }
        requires none_given { self.old.given ≡ [] }
        ensures { self.new ≡ record self.old { spare = with_all self.old.spare other.now.spare } }
    {
        let mut i = 0;
        while let Some(rid) = other.at(i) {
            self.add(rid);
            i += 1;
        }
    }
}
