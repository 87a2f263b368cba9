//! The calls that C makes at a connection, each with a status. `bindings/c/border.c` stands in front of them and tests what no export can: null
//! pointers, copied handles, and two threads at one connection.
#![tactic(auto)]

mod closing;
pub mod handle;
mod opening;
mod resting;
mod rows;
mod snapshots;
pub mod status;
mod transactions;
