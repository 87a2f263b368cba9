//! Dumps of all tables, each by one snapshot, beside the lanes that run.
#![tactic(auto)]

mod at_alone;
mod at_seat;
mod dump;
mod dumping;
mod lanes;
mod work;

pub use at_seat::dump_at;
pub use dump::Dump;
pub use dumping::{Dumping, DumpsDue};
