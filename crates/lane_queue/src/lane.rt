//! A lane, and what stands in the queue.

use replay_model::Blocks;

/// A lane with its number, counted from 1.
#[derive(Drop)]
pub struct Lane {
    pub number: u32,
    pub blocks: Blocks,
}

/// What stands in the queue: the next lane, or, behind all lanes, the end for one pass.
#[derive(Drop)]
pub(crate) enum Item {
    Next(Lane),
    End,
}
