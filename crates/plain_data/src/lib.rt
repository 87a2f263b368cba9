//! Plain data that every crate stands on: the list type, want of memory, the values of records, and the entries of a history.
#![tactic(auto)]

mod entry;
mod memory;
mod sequence;

pub use entry::{Cells, Entry, Reads, Writes};
pub use memory::NoMemory;
pub use sequence::Sequence;
