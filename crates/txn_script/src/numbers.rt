//! The numbers of a line.

ghost use Rattle.std.specs.Prelude.{◌≡◌, [], length, option_map, slice_index};
ghost use Rattle.txn_script.specs.Gathered.{row_of};
ghost use Rattle.txn_script.specs.LineReading.{left, with_number, more_numbers};

use crate::words::Words;
use replay_model::Columns;
use std::marker::Model;

/// At most seven numbers: the key of a row, and six values.
#[derive(Drop)]
pub struct Numbers {
    values: [u64; 7],
    count: usize,
}

impl Model for Numbers {
    ghost use Rattle.std.specs.Prelude.{ℕ, List, ◌≤◌, take};

    ghost Value = { List ℕ };

    ghost view = { λ a. take a.count a.values };

    ghost invariant = { λ a. a.count ≤ 7 };
}

impl Numbers {
    /// No numbers.
    pub fn new() -> Self
        ensures { result ≡ [] }
    {
        Numbers {
            values: [0; 7],
            count: 0,
        }
    }

    /// Holds the numbers that all words spell, and no others, if they are at most seven.
    pub fn read(&mut self, words: Words) -> Option<()>
        ensures { option_map (λ _. self.new) result ≡ more_numbers [] (left words.entry) }
    {
        self.clear();
        let mut words = words;
        while !words.is_empty() {
            let (number, rest) = words.number()?;
            self.push(number)?;
            words = rest;
        }
        Some(())
    }

    fn clear(&mut self)
        ensures { self.new ≡ [] }
    {
        self.count = 0;
    }

    /// One more number, if they are fewer than seven.
    fn push(&mut self, number: u64) -> Option<()>
        ensures { option_map (λ _. self.new) result ≡ with_number self.old number }
    {
        if self.count == 7 {
            return None;
        }
        self.values[self.count] = number;
        self.count += 1;
        Some(())
    }

    /// How many there are.
    pub fn len(&self) -> usize
        ensures { result ≡ length self.now }
    {
        self.count
    }

    /// The number at a place; 0 behind the last one.
    pub fn get(&self, i: usize) -> u64
        ensures { result ≡ slice_index self.now i }
    {
        if i < self.count { self.values[i] } else { 0 }
    }

    /// The row behind the key; 0 in the columns that are not given.
    pub fn row(&self) -> Columns
        ensures { result ≡ row_of self.now }
    {
        Columns::new([
            self.get(1),
            self.get(2),
            self.get(3),
            self.get(4),
            self.get(5),
            self.get(6),
        ])
    }
}
