//! The numbers of the words in an engine's one table of atomic words.
#![tactic(auto)]

mod first;

ghost use Rattle.std.specs.Prelude.{◌≡◌, ◌<◌, ◌↔◌, IsOk, IsErr, IfOk};
ghost use Rattle.word_layout.specs.Name.{published_write, published_read, min_write, min_read, head, lock, floor, status, wts, rts, next, cell, word_of, head_of_record, lock_of_record, first_of_place, LiesWithin, AreApart};
ghost use Rattle.word_layout.specs.Limits.{cells_of_value};
ghost use Rattle.word_layout.specs.Size.{size_of, IsSize, places, words};

use crate::first::FirstWords;
use std::error::Error;
use std::fmt;
use std::marker::Model;

/// The greatest number of seats, which are the threads that may step at a time.
pub const MAX_SEATS: u32 = 64;

/// The greatest number of records.
pub const MAX_RECORDS: u32 = 200_000;

/// The greatest number of pool places.
pub const MAX_SPARE: u32 = 262_144;

/// How many words the value of a record has.
pub const CELLS: u32 = 32;

/// How many words a record has beside those of its inline place, and how many a place has: four, and the cells of a value.
pub(crate) const RECORD_WORDS: u32 = 3;

/// How many of them stand apart from the heads.
const GUARD_WORDS: u32 = 2;

const PLACE_WORDS: u32 = 4 + CELLS;

/// The error of [`Layout::new`]: a number is out of its range.
#[derive(Clone, Copy, Debug, PartialEq, Eq, Hash)]
pub struct Limit;

impl fmt::Display for Limit {
    ghost use Rattle.std.specs.Prelude.{codes, Some};

    ghost output = { λ _. Some (codes "limit") };

    fn fmt<W: fmt::Write>(&self, f: &mut fmt::Formatter<W>) -> fmt::Result {
        f.write_str("limit")
    }
}

impl Error for Limit {}

/// Where each word of a table with so many seats, records and places stands in it.
///
/// Seats, records and places are numbered from 0. Place r, below `records`, is the inline place of
/// record r; the other places are the pool's. The heads of all records stand side by side, so do the lock and the
/// floor of a record, and the words of a place. Where they begin is computed once.
#[derive(Clone, Copy, Debug, PartialEq, Eq, Hash)]
pub struct Layout {
    seats: u32,
    records: u32,
    spare: u32,
    first: FirstWords,
}

impl Model for Layout {
    ghost use Rattle.std.specs.Prelude.{◌≡◌};
    ghost use Rattle.word_layout.specs.Size.{Size, size_of, IsSize};
    ghost use Rattle.word_layout.specs.First.{first_words};

    ghost Value = { Size };

    ghost view = { λ l. size_of l.seats l.records l.spare };

    ghost invariant = { λ l. IsSize (size_of l.seats l.records l.spare) × (l.first ≡ first_words (size_of l.seats l.records l.spare)) };

    ghost inverse = { λ z. record { seats = z.seats; records = z.records; spare = z.spare; first = first_words z } };
}

impl Layout {
    /// The layout of a table for so many seats and records, with `spare` pool places.
    pub fn new(seats: u32, records: u32, spare: u32) -> Result<Layout, Limit>
        ensures exact { IfOk result (λ layout. layout ≡ size_of seats records spare) }
        ensures in_range { IsOk result ↔ IsSize (size_of seats records spare) }
        ensures limit { IsErr result ↔ (¬ IsSize (size_of seats records spare)) }
    {
        let in_range = (1..=MAX_SEATS).contains(&seats)
            && (1..=MAX_RECORDS).contains(&records)
            && (1..=MAX_SPARE).contains(&spare);
        if in_range {
            Ok(Layout {
                seats,
                records,
                spare,
                first: FirstWords::of(seats, records, spare),
            })
        } else {
            Err(Limit)
        }
    }

    /// How many seats there are.
    pub fn seats(&self) -> u32
        ensures count { result ≡ self.now.seats }
        ensures in_range { IsSize self.now }
    {
        self.seats
    }

    /// How many records there are.
    pub fn records(&self) -> u32
        ensures count { result ≡ self.now.records }
        ensures in_range { IsSize self.now }
    {
        self.records
    }

    /// How many pool places there are.
    pub fn spare(&self) -> u32
        ensures count { result ≡ self.now.spare }
        ensures in_range { IsSize self.now }
    {
        self.spare
    }

    /// How many places there are, inline places and pool places together.
    pub fn places(&self) -> u32
        ensures count { result ≡ places self.now }
        ensures in_range { IsSize self.now }
    {
        self.records + self.spare
    }

    /// How many words the table has.
    pub fn words(&self) -> u32
        ensures count { result ≡ words self.now }
        ensures in_range { IsSize self.now }
        ensures within { LiesWithin self.now }
        ensures apart { AreApart self.now }
    {
        self.first.places + PLACE_WORDS * self.places()
    }

    /// The word that bounds the write stamps of seat `s` from below.
    pub fn published_write(&self, s: u32) -> u32
        requires { s < self.now.seats }
        ensures { result ≡ word_of self.now (published_write s) }
    {
        s
    }

    /// The word of the read bound of seat `s`.
    pub fn published_read(&self, s: u32) -> u32
        requires { s < self.now.seats }
        ensures { result ≡ word_of self.now (published_read s) }
    {
        self.seats + s
    }

    /// The word of `min_wts`, which is at most every published write word.
    pub fn min_write(&self) -> u32
        ensures { result ≡ word_of self.now min_write }
    {
        2 * self.seats
    }

    /// The word of `min_rts`, which is at most every published read word.
    pub fn min_read(&self) -> u32
        ensures { result ≡ word_of self.now min_read }
    {
        2 * self.seats + 1
    }

    /// The word of the first version of record `r`.
    pub fn head(&self, r: u32) -> u32
        requires { r < self.now.records }
        ensures { result ≡ word_of self.now (head r) }
    {
        self.first.heads + r
    }

    /// The word of the collectors' lock of record `r`.
    pub fn lock(&self, r: u32) -> u32
        requires { r < self.now.records }
        ensures { result ≡ word_of self.now (lock r) }
    {
        self.guard(r)
    }

    /// The word of the stamp below which versions of record `r` may be gone.
    pub fn floor(&self, r: u32) -> u32
        requires { r < self.now.records }
        ensures { result ≡ word_of self.now (floor r) }
    {
        self.guard(r) + 1
    }

    /// The word of the status of place `p`.
    pub fn status(&self, p: u32) -> u32
        requires { p < places self.now }
        ensures { result ≡ word_of self.now (status p) }
    {
        self.place(p)
    }

    /// The word of the write stamp of place `p`.
    pub fn wts(&self, p: u32) -> u32
        requires { p < places self.now }
        ensures { result ≡ word_of self.now (wts p) }
    {
        self.place(p) + 1
    }

    /// The word of the read stamp of place `p`.
    pub fn rts(&self, p: u32) -> u32
        requires { p < places self.now }
        ensures { result ≡ word_of self.now (rts p) }
    {
        self.place(p) + 2
    }

    /// The word of the link from place `p` to the next older version.
    pub fn next(&self, p: u32) -> u32
        requires { p < places self.now }
        ensures { result ≡ word_of self.now (next p) }
    {
        self.place(p) + 3
    }

    /// The word of cell `i` of the value in place `p`.
    pub fn cell(&self, p: u32, i: u32) -> u32
        requires place { p < places self.now }
        requires cell { i < cells_of_value }
        ensures { result ≡ word_of self.now (cell p i) }
    {
        self.place(p) + 4 + i
    }

    /// The word of the lock of record `r`, with its floor behind it.
    fn guard(&self, r: u32) -> u32
        requires { r < self.now.records }
        ensures word { result ≡ lock_of_record self.now r }
        ensures in_range { IsSize self.now }
    {
        self.first.locks + GUARD_WORDS * r
    }

    /// The first word of place `p`.
    fn place(&self, p: u32) -> u32
        requires { p < places self.now }
        ensures word { result ≡ first_of_place self.now p }
        ensures in_range { IsSize self.now }
    {
        self.first.places + PLACE_WORDS * p
    }
}
