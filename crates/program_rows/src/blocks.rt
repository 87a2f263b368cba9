//! Blocks of one command each, and lanes of them.

ghost use Rattle.std.specs.Prelude.{◌≡◌, ℕ, false, [], ◌∷◌, All, IfOk, length};
ghost use Rattle.lane_runner.specs.Lanes.{MayRun};

use lane_queue::Lane;
use replay_model::{Block, Blocks, Columns, Command, Commands, NoMemory};
use std::alloc::Global;

/// A transaction block of one command.
fn block_of(alloc: Global, lane: u32, number: u32, command: Command) -> Result<Block, NoMemory>
    requires { MayRun (record { snap = false; lane = lane; number = number; commands = command ∷ [] }) }
    ensures may { IfOk result MayRun }
{
    let mut commands = Commands::new(alloc);
    commands.push(command)?;
    Ok(Block {
        snap: false,
        lane,
        number,
        commands,
    })
}

/// Lane 1 with one block, which brings a row with this value into the first table.
pub fn one_put(alloc: Global, value: u64) -> Result<Lane, NoMemory>
    ensures may { IfOk result (λ lane. All MayRun lane.blocks) }
    ensures one { IfOk result (λ lane. length lane.blocks ≡ 1) }
{
    let put = Command::Put {
        table: 0,
        key: 1,
        values: Columns::new([value, 0, 0, 0, 0, 0]),
    };
    let mut blocks = Blocks::new(alloc);
    blocks.push(block_of(alloc, 1, 1, put)?)?;
    Ok(Lane { number: 1, blocks })
}

/// The lane of this number, with two blocks of this command each.
pub fn twice(alloc: Global, lane: u32, command: Command) -> Result<Lane, NoMemory>
    requires { (number : ℕ) → MayRun (record { snap = false; lane = lane; number = number; commands = command ∷ [] }) }
    ensures may { IfOk result (λ made. All MayRun made.blocks) }
    ensures two { IfOk result (λ made. length made.blocks ≡ 2) }
{
    let mut blocks = Blocks::new(alloc);
    blocks.push(block_of(alloc, lane, 1, command)?)?;
    blocks.push(block_of(alloc, lane, 2, command)?)?;
    Ok(Lane {
        number: lane,
        blocks,
    })
}
