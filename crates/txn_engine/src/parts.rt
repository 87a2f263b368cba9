//! What the passes are made of that a share gives.
ghost use Rattle.std.specs.Prelude.{◌≡◌, ◌<◌, ◌≤◌, IfOk};
ghost use Rattle.txn_engine.specs.Alone.{HasParts};
ghost use Rattle.spare_numbers.specs.Spare.{no_numbers, all_numbers};

use crate::pass::Pass;
use plain_data::NoMemory;
use seat_post::Room;
use spare_numbers::Numbers;
use std::alloc::Global;
use std::marker::Model;

/// What one pass is made of: an empty list of spare numbers, which contracts see, and room to write a record again.
#[derive(Drop)]
pub(crate) struct Part {
    pub(crate) numbers: Numbers,
    pub(crate) room: Room,
}

impl Model for Part {
    ghost use Rattle.spare_numbers.specs.Spare.{NumbersView};

    ghost Value = { NumbersView };

    ghost view = { λ p. p.numbers };
}

impl Part {
    /// Of a pass over these records.
    fn empty(alloc: Global, fixed: u32, records: u32) -> Result<Self, NoMemory>
        ensures { IfOk result (λ part. part ≡ no_numbers fixed records) }
    {
        let numbers = Numbers::empty(alloc, fixed, records)?;
        let room = Room::new(alloc)?;
        Ok(Part { numbers, room })
    }

    /// Of the pass of seat 0, whose list has all numbers from `fixed` on.
    pub(crate) fn first(alloc: Global, fixed: u32, records: u32) -> Result<Self, NoMemory>
        requires { fixed ≤ records }
        ensures { IfOk result (λ part. part ≡ all_numbers fixed records) }
    {
        let numbers = Numbers::new(alloc, fixed, records)?;
        let room = Room::new(alloc)?;
        Ok(Part { numbers, room })
    }
}

/// Room for a pass of each seat, and what each of them is made of.
#[derive(Drop)]
pub(crate) struct Parts<J> {
    pub(crate) alloc: Global,
    pub(crate) lists: Vec<Part>,
    pub(crate) passes: Vec<Pass<J>>,
}

impl<J> Model for Parts<J> {
    ghost use Rattle.std.specs.Prelude.{◌≡◌, []};
    ghost use Rattle.std.specs.Vec.{vec_capacity};
    ghost use Rattle.txn_engine.specs.Alone.{PartsView};

    ghost Value = { PartsView };

    ghost view = { λ p. record { lists = p.lists.items; room = vec_capacity p.passes } };

    ghost invariant = { λ p. p.passes.items ≡ [] };
}

impl<J> Parts<J> {
    /// The parts for so many seats, over these records. Seat 0 keeps its own list.
    pub(crate) fn new(alloc: Global, seats: u32, fixed: u32, records: u32) -> Result<Self, NoMemory>
        requires { 0 < seats }
        ensures { IfOk result (HasParts seats fixed records) }
    {
        let mut lists = Vec::with_capacity(alloc, (seats - 1) as usize)?;
        for _seat in 1..seats {
            lists.push(Part::empty(alloc, fixed, records)?)?;
        }
        let passes = Vec::with_capacity(alloc, seats as usize)?;
        Ok(Parts {
            alloc,
            lists,
            passes,
        })
    }
}
