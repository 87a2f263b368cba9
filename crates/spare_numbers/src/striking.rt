//! Numbers that a transaction has passed leave the list.
ghost use Rattle.std.specs.Prelude.{◌≡◌, ◌≤◌, length};
ghost use Rattle.core_rule.specs.Deciding.{written_values};
ghost use Rattle.spare_numbers.specs.Spare.{struck_before};

use crate::numbers::Numbers;
use validate_core::Sets;

impl Numbers {
    /// Strikes the spare numbers before a place off the list, but for those that are written. Each is gone through once, from the first one on.
    pub fn strike_unwritten(&mut self, sets: &Sets, place: usize)
        requires { place ≤ length self.old.spare }
        ensures { self.new ≡ record self.old { spare = struck_before (written_values sets.now.writes) place self.old.spare } }
    {
        // So many of them stay.
        let mut stay = 0;
        for _number in 0..place {
            let Some(rid) = self.at(stay) else {
                unreachable!();
            };
            if sets.value_written(rid).is_some() {
                stay += 1;
            } else {
                self.strike(stay);
            }
        }
    }
}
