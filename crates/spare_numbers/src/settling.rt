//! The list after a commit.
ghost use Rattle.std.specs.Prelude.{◌≡◌, ◌<◌, ◌++◌, [], ℕ, IsSome, nat_le, ◌&&◌, if◌then◌else◌};
ghost use Rattle.core_rule.specs.Deciding.{written_values};
ghost use Rattle.record_store.specs.Meaning.{value_at};
ghost use Rattle.spare_numbers.specs.Spare.{spare_after, unused, added, holds, is_deletion};

use crate::numbers::Numbers;
use plain_data::Cells;
use validate_core::Sets;

impl Numbers {
    // Puts back the numbers given out that hold no value.
    fn put_back_unused(&mut self, sets: &Sets)
        ensures { self.new ≡ record self.old { spare = unused (written_values sets.now.writes) self.old.given ++ self.old.spare; given = [] } }
    {
        while self.count_given() > 0 {
            let rid = self.put_back_last();
            if holds_value(sets, rid) {
                self.strike(0);
            }
        }
    }

    // Adds the record where it is deleted and is one of those that are given out.
    fn note(&mut self, rid: u32, value: &Option<Cells>)
        requires within { rid < self.old.records }
        requires none { self.old.given ≡ [] }
        ensures { self.new ≡ record self.old { spare = if is_deletion value.now && nat_le self.old.fixed rid then added self.old.spare rid else self.old.spare } }
    {
        if value.is_none() && self.fixed() <= rid {
            self.add(rid);
        }
    }

    /// The list after a commit: the numbers given out that hold no value are back, and deleted records are on it.
    pub fn settle(&mut self, sets: &Sets)
        requires { (rid : ℕ) → IsSome (value_at (written_values sets.now.writes) rid) → rid < self.old.records }
        ensures { self.new ≡ record self.old { spare = spare_after self.old.fixed (written_values sets.now.writes) self.old.given self.old.spare; given = [] } }
    {
        self.put_back_unused(sets);
        for i in 0..sets.count_writes() {
            let write = sets.write_at(i);
            self.note(write.rid(), write.value());
        }
    }
}

fn holds_value(sets: &Sets, rid: u32) -> bool
    ensures { result ≡ holds (value_at (written_values sets.now.writes) rid) }
{
    match sets.value_written(rid) {
        None => false,
        Some(value) => value.is_some(),
    }
}
