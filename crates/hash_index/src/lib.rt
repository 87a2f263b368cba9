//! Keys to record numbers: a hash index of 511 buckets, whose nodes are records of a store.
//!
//! Each call is proved for every state of the records that agrees with what was read and has a lawful chain there, so it
//! serves a transaction that other threads may doom at any moment.
#![tactic(auto)]

mod index;
mod looking;
mod node;
mod search;

pub use index::{get, put, remove};
pub use record_store::Walk;
pub use search::bucket_at;
