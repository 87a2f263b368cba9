//! What a block and a lane came to.

use replay_model::{Blocks, Outcome, Placed, Results};

/// The result of a block, and the number of the record that it read first, where it is a transaction that has read any.
#[derive(Drop)]
pub(crate) struct BlockDone {
    pub(crate) placed: Placed,
    pub(crate) outcome: Outcome,
    pub(crate) first_read: Option<u32>,
}

/// The results of the first blocks of a lane, in their order, and the blocks that remain.
#[derive(Drop)]
pub struct LaneDone {
    pub lane: u32,
    pub results: Results,
    pub rest: Blocks,
}
