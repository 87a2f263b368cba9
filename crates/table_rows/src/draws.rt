//! Numbers drawn, and rows and keys made of them.

ghost use Rattle.std.specs.Prelude.{◌<◌, ◌≤◌};

use crate::shapes::columns_of;
use replay_model::Columns;

/// A linear congruential generator of 64 bits, with the multiplier and the increment of Knuth's MMIX.
#[derive(Drop)]
pub struct Source {
    pub state: u64,
}

impl Source {
    /// A number below this one, from the upper bits.
    pub fn below(&mut self, bound: u64) -> u64
        requires { 0 < bound }
        ensures { result < bound }
    {
        let product = self.state.wrapping_mul(6_364_136_223_846_793_005);
        self.state = product.wrapping_add(1_442_695_040_888_963_407);
        (self.state >> 33) % bound
    }

    /// Whether one in so many comes.
    pub fn one_in(&mut self, count: u64) -> bool
        requires { 0 < count }
    {
        self.below(count) == 0
    }

    /// One of the eight tables.
    pub fn table(&mut self) -> u32
        ensures { result < 8 }
    {
        self.below(8) as u32
    }

    /// A column of a table.
    pub fn column(&mut self, table: u32) -> u32
        ensures first { 1 ≤ result }
        ensures last { result ≤ 6 }
    {
        self.below(u64::from(columns_of(table))) as u32 + 1
    }

    /// A key: one of few that stand close together, of few in the same bucket, of few far apart, or of the greatest.
    pub fn key(&mut self) -> u64 {
        match self.below(8) {
            0..=3 => self.below(160),
            4 | 5 => self.below(40) * 511,
            6 => self.below(40) << 58,
            _ => u64::MAX - self.below(3),
        }
    }

    /// A value: mostly one of few, and seldom one of the greatest.
    pub fn value(&mut self) -> u64 {
        match self.below(8) {
            0..=5 => self.below(12),
            6 => self.below(1 << 30),
            _ => u64::MAX - self.below(3),
        }
    }

    /// A row of a table, with zeros behind its columns.
    pub fn row(&mut self, table: u32) -> Columns {
        let mut values = [0; 6];
        for i in 0..columns_of(table) as usize {
            values[i] = self.value();
        }
        Columns::new(values)
    }
}
