//! Lanes handed out to workers: each lane is taken once.
//!
//! A bounded queue holds the lanes, in their order, and behind them one end for each worker. A worker that takes an end
//! knows for good that no lane is left, which an empty queue alone would not tell: a proof knows what a queue held at one
//! moment only through what was taken from it.
#![tactic(auto)]

mod filling;
mod lane;
mod pass;
mod queue;
mod rule;

pub use lane::Lane;
pub use pass::LanePass;
pub use queue::LaneQueue;
