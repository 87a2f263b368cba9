//! The text of the generated input.

ghost use Rattle.std.specs.Prelude.{◌≡◌, ◌++◌, IfOk, OnOk, length};
ghost use Rattle.load_gen.specs.Load.{spelled, account_lines, behind_transfers, blocks_lines, behind_lanes, lanes_lines, lines};

use crate::generator::Generator;
use crate::lines::{push_change, push_line, push_transfer};
use replay_model::NoMemory;
use std::alloc::Global;

/// A text of 16,075 lines made from a number: a table of 64 accounts that hold 1,000,000 each, and 8 lanes of 500 transfers each.
///
/// Each transfer is a transaction block that takes an amount from one account and adds it to another one.
pub fn generate(alloc: Global, seed: u64) -> Result<Vec<u8>, NoMemory>
    ensures text { IfOk result (λ text. text.items ≡ spelled (lines seed)) }
    ensures lines { length (lines seed) ≡ 16075 }
{
    let mut text = Vec::new(alloc);
    let mut generator = Generator { state: seed };
    push_line(&mut text, b"cicada 1")?;
    push_line(&mut text, b"table accounts")?;
    push_accounts(&mut text, 64)?;
    push_lanes(&mut text, &mut generator, 8, 500)?;
    push_line(&mut text, b"done")?;
    Ok(text)
}

/// Appends the rows of the accounts from 1 to this number.
fn push_accounts(text: &mut Vec<u8>, count: u64) -> Result<(), NoMemory>
    ensures { OnOk result (text.new.items ≡ text.old.items ++ spelled (account_lines count)) }
{
    for i in 0..count {
        push_change(text, b"row", i + 1, 1_000_000)?;
    }
    Ok(())
}

/// Appends so many lanes of so many blocks each; each lane goes on with the numbers behind those of the lane before.
fn push_lanes(
    text: &mut Vec<u8>,
    generator: &mut Generator,
    count: u64,
    blocks: u64,
) -> Result<(), NoMemory>
    ensures text { OnOk result
        (text.new.items ≡ text.old.items ++ spelled (lanes_lines blocks count generator.old.state)) }
    ensures state { OnOk result (generator.new.state ≡ behind_lanes blocks count generator.old.state) }
{
    for i in 0..count {
        push_line(text, b"lane")?;
        push_blocks(text, generator, blocks)?;
    }
    Ok(())
}

/// Appends so many transfers.
fn push_blocks(text: &mut Vec<u8>, generator: &mut Generator, count: u64) -> Result<(), NoMemory>
    ensures text { OnOk result
        (text.new.items ≡ text.old.items ++ spelled (blocks_lines count generator.old.state)) }
    ensures state { OnOk result (generator.new.state ≡ behind_transfers count generator.old.state) }
{
    for i in 0..count {
        let transfer = generator.transfer();
        push_transfer(text, &transfer)?;
    }
    Ok(())
}
