//! Writing at a post, and ending its transaction without an entry.
ghost use Rattle.std.specs.Prelude.{◌≡◌, ◌<◌, ◌≤◌, [], OnOk, OnErr, length};
ghost use Rattle.core_rule.specs.Deciding.{written_values};
ghost use Rattle.core_rule.specs.View.{Write};
ghost use Rattle.validate_core.specs.Sets.{Once};
ghost use Rattle.seat_post.specs.Leaves.{AreLeft};
ghost use Rattle.seat_post.specs.Seats.{IsAloneAt};
ghost use Rattle.seat_post.specs.Post.{written, unwritten, closed};

use crate::ending::let_go;
use crate::phase::Phase;
use crate::post::Post;
use plain_data::{Cells, NoMemory};

impl<J> Post<J> {
    /// Writes a value, or deletes the record. Room is taken first, for its version too.
    pub fn write(&mut self, rid: u32, value: &Option<Cells>) -> Result<(), NoMemory>
        requires open { self.old.phase ≡ Phase.Open }
        requires rid { rid < self.old.shared.size.records }
        ensures ok { OnOk result (self.new ≡ written self.old rid value.now) }
        ensures err { OnErr result (self.new ≡ self.old) }
    {
        self.sets.reserve(0, 1)?;
        self.sets.put(rid, value);
        Ok(())
    }

    /// Drops what is written.
    pub fn drop_writes(&mut self)
        requires { self.old.phase ≡ Phase.Open }
        ensures { self.new ≡ unwritten self.old }
    {
        self.sets.drop_writes();
    }

    /// Ends a transaction that has linked nothing.
    pub fn close(&mut self)
        requires { self.old.phase ≡ Phase.Open }
        ensures closed { self.new ≡ closed self.old }
        ensures read_left { IsAloneAt self.old.shared.size self.old.seat self.old.others → AreLeft self.old.log self.old.stamp self.old.reads }
    {
        let_go(&mut self.phase, &mut self.stamp, &mut self.sets);
    }
}
