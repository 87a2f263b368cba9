//! Connections to an engine of tables: each call tests whether it may be made, so that whoever calls owes nothing. A connection is a seat of
//! its engine, and the transaction or the snapshot that stays open there between two calls.
#![tactic(auto)]

mod closing;
mod connection;
mod fault;
mod handing;
mod in_snapshot;
mod in_txn;
mod opened;
mod opening;
mod resting;
mod rows;
mod snapshots;
mod transactions;

pub use connection::Connection;
pub use fault::CallFault;
pub use opened::Opened;
pub use opening::open;
pub use txn_engine::{Collected, Conflict};
