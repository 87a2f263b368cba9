//! Where the heads of the records begin in the table, their locks and floors, and the words of the places.
ghost use Rattle.std.specs.Prelude.{◌≡◌};
ghost use Rattle.word_layout.specs.Size.{IsSize, size_of};
ghost use Rattle.word_layout.specs.First.{first_words};

use crate::RECORD_WORDS;

/// The head of record 0, its lock, and the first word of place 0.
#[derive(Clone, Copy, Debug, PartialEq, Eq, Hash)]
pub(crate) struct FirstWords {
    pub(crate) heads: u32,
    pub(crate) locks: u32,
    pub(crate) places: u32,
}

impl FirstWords {
    /// Those of a table of this size.
    pub(crate) fn of(seats: u32, records: u32, spare: u32) -> Self
        requires { IsSize (size_of seats records spare) }
        ensures { result ≡ first_words (size_of seats records spare) }
    {
        let first = 2 * seats + 2;
        FirstWords {
            heads: first,
            locks: first + records,
            places: first + RECORD_WORDS * records,
        }
    }
}
