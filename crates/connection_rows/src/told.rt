//! What a call tells.

use connections::{CallFault, Collected};
use replay_model::{Columns, Pairs};

/// What a call of a connection tells.
#[derive(Clone, Copy, PartialEq, Eq, Debug)]
pub enum Told {
    Done,
    /// A stamp, or how many transactions they are.
    Number(u64),
    /// Whether a row was there, or an index was declared.
    Was(bool),
    Row(Option<Columns>),
    /// How many rows there are, and the first and the last of them.
    Rows(usize, Option<(u64, Columns)>, Option<(u64, Columns)>),
    /// The table has no such index.
    NoIndex,
    Collected(Collected),
    Fault(CallFault),
}

/// A value that a call answers.
pub trait Value {
    /// What it tells.
    fn told(self) -> Told;
}

impl Value for () {
    fn told(self) -> Told {
        Told::Done
    }
}

impl Value for u64 {
    fn told(self) -> Told {
        Told::Number(self)
    }
}

impl Value for bool {
    fn told(self) -> Told {
        Told::Was(self)
    }
}

impl Value for Option<Columns> {
    fn told(self) -> Told {
        Told::Row(self)
    }
}

impl Value for Pairs {
    fn told(self) -> Told {
        let rows = self.as_slice();
        Told::Rows(rows.len(), rows.first().copied(), rows.last().copied())
    }
}

impl Value for Option<Pairs> {
    fn told(self) -> Told {
        match self {
            Some(rows) => rows.told(),
            None => Told::NoIndex,
        }
    }
}

impl Value for Collected {
    fn told(self) -> Told {
        Told::Collected(self)
    }
}

/// What an answer tells.
pub fn tell<T: Value>(answer: Result<T, CallFault>) -> Told {
    match answer {
        Ok(value) => value.told(),
        Err(fault) => Told::Fault(fault),
    }
}

/// A row whose first columns are these two; the others are 0.
pub fn row(first: u64, second: u64) -> Columns {
    Columns::new([first, second, 0, 0, 0, 0])
}

/// That a key has such a row.
pub fn has(first: u64, second: u64) -> Told {
    Told::Row(Some(row(first, second)))
}

/// That so many versions of a queue were cut below, dropped or late, and so many places were freed.
pub fn collected(cut: u32, dropped: u32, late: u32, places: u32) -> Told {
    Told::Collected(Collected {
        cut,
        dropped,
        late,
        locked: 0,
        places,
    })
}
