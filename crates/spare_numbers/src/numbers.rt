//! The list of the spare record numbers of a pass.
ghost use Rattle.std.specs.Prelude.{◌≡◌, ◌≢◌, ◌<◌, ◌≤◌, ◌-◌, ◌++◌, ◌∷◌, [], false, IfOk, IfSome, length, nat_eq, slice_get, slice_index_or, remove, Some};
ghost use Rattle.std.specs.List.{range_with_len, IsDistinct};
ghost use Rattle.spare_numbers.specs.Spare.{no_numbers, all_numbers, is_on, NumbersView, added, taken_in, PartsWith};

use plain_data::NoMemory;
use std::alloc::Global;
use std::collections::VecDeque;
use std::marker::Model;

/// Numbers for new records, each once. Those that are given out to the transaction in flight stand in front.
pub struct Numbers {
    fixed: u32,
    records: u32,
    list: VecDeque<u32>,
    /// Of each number from `fixed` on, whether it is on the list, given out or not.
    marks: Vec<bool>,
    /// So many are given out.
    taken: usize,
}

impl Model for Numbers {
    ghost use Rattle.std.specs.Prelude.{take, drop};
    ghost use Rattle.std.specs.VecDeque.{deque_capacity};
    ghost use Rattle.spare_numbers.specs.Spare.{is_on, NumbersView, IsNumbers};

    ghost Value = { NumbersView };

    ghost view = { λ n. record { fixed = n.fixed; records = n.records; spare = drop n.taken n.list.items; given = take n.taken n.list.items } };

    ghost invariant = { λ n. IsNumbers n.fixed n.records n.taken n.list.items (deque_capacity n.list) n.marks.items };
}

// Written out, so that whoever lets one go needs one call in the proof and not one for each part of it.
impl Drop for Numbers {
    fn drop(self) {
        let Numbers {
            fixed: _,
            records: _,
            list: _,
            marks: _,
            taken: _,
        } = self;
    }
}

impl Numbers {
    /// No numbers, and room for all that a list may ever have.
    pub fn empty(alloc: Global, fixed: u32, records: u32) -> Result<Self, NoMemory>
        ensures { IfOk result (λ numbers. numbers ≡ no_numbers fixed records) }
    {
        let count = records.saturating_sub(fixed) as usize;
        let list = VecDeque::with_capacity(alloc, count)?;
        let marks = vec![in alloc; false; count]?;
        Ok(Numbers {
            fixed,
            records,
            list,
            marks,
            taken: 0,
        })
    }

    /// All numbers from `fixed` on, and room for all that a list may ever have.
    pub fn new(alloc: Global, fixed: u32, records: u32) -> Result<Self, NoMemory>
        requires { fixed ≤ records }
        ensures { IfOk result (λ numbers. numbers ≡ all_numbers fixed records) }
    {
        let mut numbers = Numbers::empty(alloc, fixed, records)?;
        for rid in fixed..records {
            numbers.add(rid);
        }
        Ok(numbers)
    }

    /// The number of all records.
    pub fn records(&self) -> u32
        ensures { result ≡ self.now.records }
    {
        self.records
    }

    /// How many records are never given out.
    pub fn fixed(&self) -> u32
        ensures { result ≡ self.now.fixed }
    {
        self.fixed
    }

    /// How many numbers are spare.
    pub fn len(&self) -> u32
        ensures { result ≡ length self.now.spare }
    {
        // They are no more than the records.
        self.records();
        (self.list.len() - self.taken) as u32
    }

    /// Drops all numbers. The room stays.
    pub fn clear(&mut self)
        ensures { self.new ≡ record self.old { spare = []; given = [] } }
    {
        self.list.clear();
        self.marks.fill(false);
        self.taken = self.list.len();
    }

    /// The spare number at this place of the list.
    pub fn at(&self, i: usize) -> Option<u32>
        ensures at { result ≡ slice_get self.now.spare i }
        ensures from { IfSome result (λ rid. self.now.fixed ≤ rid) }
        ensures within { IfSome result (λ rid. rid < self.now.records) }
        ensures next { IfSome result (λ _. i < usize.MAX) }
        ensures not_given { IfSome result (λ rid. is_on self.now.given rid ≡ false) }
        ensures early { IfSome result (λ _. i < self.now.records) }
        ensures distinct { IsDistinct nat_eq self.now.spare }
    {
        if i < self.list.len() - self.taken {
            Some(self.list[self.taken + i])
        } else {
            None
        }
    }

    // Moves the spare number at this place to the front of the spare ones. At place 0 it stands there. Others come only where numbers
    // before it are written without being given out.
    fn bring(&mut self, i: usize)
        requires { i < length self.old.spare }
        ensures { self.new ≡ record self.old { spare = slice_index_or self.old.spare i 0 ∷ remove self.old.spare i } }
    {
        if i == 0 {
            return;
        }
        let Some(rid) = self.list.remove(self.taken + i) else {
            unreachable!();
        };
        let Ok(()) = self.list.insert(self.taken, rid) else {
            unreachable!();
        };
    }

    // Gives the first spare number out.
    fn give_first(&mut self) -> u32
        requires { self.old.spare ≢ [] }
        ensures spare { self.old.spare ≡ result ∷ self.new.spare }
        ensures after { self.new ≡ record self.old { spare = self.new.spare; given = self.old.given ++ result ∷ [] } }
    {
        let rid = self.list[self.taken];
        self.taken += 1;
        rid
    }

    /// Gives the spare number at this place out.
    pub fn give(&mut self, i: usize) -> u32
        requires { i < length self.old.spare }
        ensures value { slice_get self.old.spare i ≡ Some result }
        ensures after { self.new ≡ record self.old { spare = remove self.old.spare i; given = self.old.given ++ result ∷ [] } }
    {
        self.bring(i);
        self.give_first()
    }

    /// Strikes the spare number at this place off the list. The numbers before it, with those that are given out, move by one place, or
    /// those behind it where they are fewer.
    pub fn strike(&mut self, i: usize)
        requires { i < length self.old.spare }
        ensures { self.new ≡ record self.old { spare = remove self.old.spare i } }
    {
        let Some(rid) = self.list.remove(self.taken + i) else {
            unreachable!();
        };
        let mark = (rid - self.fixed) as usize;
        self.marks[mark] = false;
    }

    /// Takes back what was given out. Each number is spare once then.
    pub fn take_back(&mut self)
        ensures after { self.new ≡ record self.old { spare = self.old.given ++ self.old.spare; given = [] } }
        ensures distinct { IsDistinct nat_eq self.new.spare }
    {
        self.taken = 0;
    }

    /// How many numbers are given out.
    pub(crate) fn count_given(&self) -> usize
        ensures { result ≡ length self.now.given }
    {
        self.taken
    }

    /// Puts the number given out last back to the front of the list, and tells it.
    pub(crate) fn put_back_last(&mut self) -> u32
        requires { self.old.given ≢ [] }
        ensures given { self.old.given ≡ self.new.given ++ result ∷ [] }
        ensures after { self.new ≡ record self.old { given = self.new.given; spare = result ∷ self.old.spare } }
    {
        self.taken -= 1;
        self.list[self.taken]
    }

    /// Adds a number at the end of the list, where it is not there.
    pub fn add(&mut self, rid: u32)
        requires from { self.old.fixed ≤ rid }
        requires within { rid < self.old.records }
        requires none { self.old.given ≡ [] }
        ensures { self.new ≡ record self.old { spare = added self.old.spare rid } }
    {
        self.take_in(rid);
    }

    /// Takes in a number: it is the last of the spare ones then, unless it was on the list already, spare or given out.
    pub fn take_in(&mut self, rid: u32)
        requires from { self.old.fixed ≤ rid }
        requires within { rid < self.old.records }
        ensures { self.new ≡ record self.old { spare = taken_in self.old.given self.old.spare rid } }
    {
        let mark = (rid - self.fixed) as usize;
        if self.marks[mark] {
            return;
        }
        let Ok(()) = self.list.push_back(rid) else {
            unreachable!();
        };
        self.marks[mark] = true;
    }

    /// Parts with the last spare number, which is on the list no more. `None` comes exactly where no number is spare.
    pub fn part(&mut self) -> Option<u32>
        ensures { PartsWith self.old self.new result }
    {
        let last = (self.len() as usize).checked_sub(1)?;
        let rid = self.at(last)?;
        self.strike(last);
        Some(rid)
    }
}
