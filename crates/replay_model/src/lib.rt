//! Plain data of inputs, transactions and histories, and the slow, plain programs that say what they mean.
//!
//! Every definition that a contract of another crate cites about commands, blocks, orders, replays and reports stands in
//! `specs/`; beside each stands a program here whose contract is that definition.
#![tactic(auto)]

mod columns;
mod command;
mod input;
mod listed;
mod orders;
mod outcome;
mod replaying;
mod reporting;
mod row_map;
mod running;
mod tables;
mod texts;
mod well_formed;

pub use columns::Columns;
pub use command::{Command, Commands};
pub use input::{Block, Blocks, Indexes, Input, Lanes, Names, Rows};
pub use orders::{
    are_complete, is_order, lanes_are_kept, snaps_are_placed, stand_once, writers_rise,
};
pub use outcome::{Answer, Answers, Cause, Outcome, Outcomes, Pairs, Placed, Results};
pub use plain_data::{Cells, Entry, NoMemory, Reads, Sequence, Writes};
pub use replaying::{Replayed, are_named, block_at, is_named, replay};
pub use reporting::report;
pub use running::run_one;
pub use tables::Tables;
pub use texts::{push_block, text_of_block, text_of_table};
pub use well_formed::is_well_formed;
