//! Copies of lanes.

ghost use Rattle.std.specs.Prelude.{◌≡◌, IfOk};

use replay_model::{Block, Blocks, Lanes, NoMemory, Sequence};
use std::alloc::Global;

/// The same lanes again.
pub fn copy_lanes(alloc: Global, lanes: &Lanes) -> Result<Lanes, NoMemory>
    ensures { IfOk result (λ copy. copy ≡ lanes.now) }
{
    let mut copy = Vec::with_capacity(alloc, lanes.len())?;
    for blocks in lanes.as_slice() {
        copy.push(copy_blocks(alloc, blocks)?)?;
    }
    Ok(Sequence::from_vec(copy))
}

/// The blocks of a lane again.
fn copy_blocks(alloc: Global, blocks: &Blocks) -> Result<Blocks, NoMemory>
    ensures { IfOk result (λ copy. copy ≡ blocks.now) }
{
    let mut copy = Vec::with_capacity(alloc, blocks.len())?;
    for block in blocks.as_slice() {
        copy.push(copy_block(alloc, block)?)?;
    }
    Ok(Sequence::from_vec(copy))
}

/// A block again.
fn copy_block(alloc: Global, block: &Block) -> Result<Block, NoMemory>
    ensures { IfOk result (λ copy. copy ≡ block.now) }
{
    let commands = Vec::from_slice(alloc, block.commands.as_slice())?;
    Ok(Block {
        snap: block.snap,
        lane: block.lane,
        number: block.number,
        commands: Sequence::from_vec(commands),
    })
}
