//! The spare record numbers of a pass: numbers for new records, each once, and those that are given out to the transaction in
//! flight.
//!
//! Each pass has a list of its own. What was given out is taken back, or put back by what a commit has written; a list is dealt
//! out among passes, and lists come together again. Lists may also hand single numbers to each other.
#![tactic(auto)]

mod numbers;
mod settling;
mod sharing;
mod striking;

pub use numbers::Numbers;
