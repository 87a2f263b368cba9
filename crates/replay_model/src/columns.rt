//! The columns of a row.

ghost use Rattle.std.specs.Prelude.{◌≡◌, ◌≤◌, take};
ghost use Rattle.replay_model.specs.TableMap.{column_in, with_column};

use std::marker::Model;

/// Six numbers of 64 bits: the columns 1 to 6 of a row, in this order. Behind those that a table declares they are 0.
#[derive(Clone, Copy, PartialEq, Eq, Debug)]
pub struct Columns {
    values: [u64; 6],
}

impl Model for Columns {
    ghost use Rattle.std.specs.Prelude.{ℕ, List};

    ghost Value = { List ℕ };

    ghost view = { λ a. a.values };

    ghost inverse = { λ values. record { values = values } };
}

impl Columns {
    pub fn new(values: [u64; 6]) -> Self
        ensures { result ≡ values }
    {
        Columns { values }
    }

    /// All six, in this order.
    pub fn values(&self) -> [u64; 6]
        ensures { result ≡ self.now }
    {
        self.values
    }

    /// The column of this number, counted from 1.
    pub fn column(&self, c: u32) -> u64
        requires first { 1 ≤ c }
        requires last { c ≤ 6 }
        ensures { result ≡ column_in c self.now }
    {
        self.values[c as usize - 1]
    }

    /// The columns with another value in one of them.
    pub fn with(self, c: u32, value: u64) -> Self
        requires first { 1 ≤ c }
        requires last { c ≤ 6 }
        ensures { result ≡ with_column c value self }
    {
        let mut values = self.values;
        values[c as usize - 1] = value;
        Columns { values }
    }

    /// The first columns, so many of them.
    pub fn first(&self, count: u32) -> &[u64]
        requires { count ≤ 6 }
        ensures { result.now ≡ take count self.now }
    {
        &self.values[..count as usize]
    }
}
