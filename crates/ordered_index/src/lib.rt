//! Keys in order to record numbers: a tree whose nodes are records of a store.
//!
//! Each call is proved for every state of the records that agrees with what was read and has a lawful tree there, so it
//! serves a transaction that other threads may doom at any moment.
#![tactic(auto)]

mod enter;
mod giving;
mod index;
mod key;
mod node;
mod range;
mod standing;
mod under;
mod walk;

pub use giving::{Freed, reclaim};
pub use index::{get, insert, remove};
pub use key::Key;
pub use range::scan;
pub use record_store::Walk;
