//! All lanes of an input, run on threads: workers that take lanes until none is left, what they leave gathered, and the laws of a whole
//! run.
#![tactic(auto)]

mod all;
mod gathering;
mod lane_run;
mod seeing;
mod shares;
mod whole;
mod workers;

pub use all::{run_all, run_all_by};
pub use lane_run::{LaneRun, Workers};
pub use seeing::readings_are_seen;
pub use shares::shares_are_all;
pub use whole::{runs_become_whole, runs_can_finish, whole_runs_are_results};
pub use workers::{LaneByLane, Work, Worked, Worker, nothing_is_read};
